// What a line of a text of routes is.
ghost use Rattle.std.specs.List.{position};
ghost use Rattle.std.specs.Prelude.{◌≡◌, ◌<◌, length, IfSome};
ghost use Rattle.xf_time.specs.Forms.{form, is_colon, place, route_of_words};
ghost use Rattle.xr_stim.specs.Forms as numbers;
ghost use Rattle.xr_stim.specs.Lines.{words};

use xr_stim::{first_word, is_skipped, number};
use xw_words::Pos;

/// What a `route` line asks for: how many steps a thread of a core makes at most from one place to another, with so many backward
/// branches at most.
#[derive(Clone, Copy)]
pub struct Route {
    pub core: u32,
    pub from: Pos,
    pub to: Pos,
    pub backward: u32,
}

#[derive(Clone, Copy)]
pub enum Form {
    /// Blank, or a `#` line.
    Skipped,
    /// `route CORE L:C L:C B`.
    IsRoute(Route),
    Other,
}

/// What a line is.
pub fn form_of(line: &[u8]) -> Form
    ensures { result ≡ form line.now }
{
    if is_skipped(line) {
        return Form::Skipped;
    }
    match route_in(line) {
        Some(route) => Form::IsRoute(route),
        None => Form::Other,
    }
}

/// The route that a line is, if it is one.
fn route_in(line: &[u8]) -> Option<Route>
    ensures { result ≡ route_of_words (words line.now) }
{
    let (name, rest) = first_word(line)?;
    let (core, rest) = first_word(rest)?;
    let (from, rest) = first_word(rest)?;
    let (to, rest) = first_word(rest)?;
    let (backward, rest) = first_word(rest)?;
    if first_word(rest).is_some() || name != b"route".as_slice() {
        return None;
    }
    let core = small_number(core)?;
    let from = place_in(from)?;
    let to = place_in(to)?;
    let backward = small_number(backward)?;
    Some(Route {
        core,
        from,
        to,
        backward,
    })
}

/// The place that a word is, if it is two numbers with a colon between.
fn place_in(word: &[u8]) -> Option<Pos>
    ensures { result ≡ place word.now }
{
    let colon = colon_in(word)?;
    let line = small_number(&word[..colon])?;
    let col = small_number(&word[colon + 1..])?;
    Some(Pos { line, col })
}

fn colon_in(word: &[u8]) -> Option<usize>
    ensures place { result ≡ position is_colon word.now }
    ensures within { IfSome result (λ place. place < length word.now) }
{
    word.iter().position(|b| *b == b':')
}

/// The number that a word is, if it is one below 2^32.
fn small_number(word: &[u8]) -> Option<u32>
    ensures { result ≡ numbers.small_number word.now }
{
    let n = number(word)?;
    if n > u32::MAX as u64 {
        return None;
    }
    Some(n as u32)
}
