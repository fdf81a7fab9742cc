ghost use Rattle.std.specs.Prelude.{◌≡◌, ◌+◌, ◌<◌, ◌≤◌, length, IfOk, IfSome, IfNone, Some, None};
ghost use Rattle.xc_tree.specs.Tables.{words, symbols, Longest, NoSymbol};
ghost use Rattle.xw_words.specs.Tables.{place_in};
ghost use Rattle.xc_tree.specs.Pieces.{kind_of_word as kind_of};
ghost use Rattle.xc_lexer.specs.Tables.{symbol_to};
ghost use Rattle.xc_lexer.specs.Names.{numbers_of};

use crate::names::Names;
use std::alloc::{AllocError, Global};
use xc_tree::{Kind, SYMBOLS, Text, WORDS};
use xw_words::{List, Memory, place_in as row_place};

#[tactic(auto, unfolding(xc_tree::specs::Tables::words))]
/// The place of a word in `WORDS`.
pub fn word_place(spelled: &[u8]) -> Option<u8>
    ensures { result ≡ place_in words spelled.now }
{
    row_place(&WORDS, spelled)
}

#[tactic(auto, unfolding(xc_tree::specs::Tables::symbols))]
/// The symbol that the next bytes are, as many as `count`.
fn symbol_of(text: &[u8], at: usize, count: usize) -> Option<u8>
    requires at { at ≤ length text.now }
    requires count { count ≤ 3 }
    ensures { result ≡ symbol_to text.now at (at + count) }
{
    if text.len() - at < count {
        return None;
    }
    row_place(&SYMBOLS, &text[at..at + count])
}

/// The longest symbol at a place, and where it ends.
pub fn longest_symbol(text: &[u8], at: usize) -> Option<(u8, usize)>
    requires { at ≤ length text.now }
    ensures some { IfSome result (λ r. Longest text.now at r.1 r.0) }
    ensures none { IfNone result (NoSymbol text.now at) }
{
    let three = symbol_of(text, at, 3);
    if let Some(k) = three {
        return Some((k, at + 3));
    }
    let two = symbol_of(text, at, 2);
    if let Some(k) = two {
        return Some((k, at + 2));
    }
    let one = symbol_of(text, at, 1);
    if let Some(k) = one {
        return Some((k, at + 1));
    }
    None
}

/// What a run that begins with a letter is: a defined name's number, a word, or a name.
pub fn kind_of_word<'a>(alloc: Global, names: &Names<'a>, run: &'a [u8]) -> Result<Kind, Memory>
    ensures { IfOk result (λ k. k ≡ kind_of (numbers_of names.now) run.now) }
{
    if let Some(number) = names.number(run) {
        return Ok(Kind::Num(number.value, number.is_unsigned));
    }
    if let Some(place) = word_place(run) {
        return Ok(Kind::Key(place));
    }
    Ok(Kind::Name(text_of(alloc, run)?))
}

/// The bytes as a text of their own.
fn text_of(alloc: Global, bytes: &[u8]) -> Result<Text, Memory>
    ensures { IfOk result (λ t. t ≡ bytes.now) }
{
    let Ok(v) = copied(alloc, bytes) else {
        return Err(Memory);
    };
    Ok(List::from_vec(v))
}

/// The bytes in a `Vec` of their own.
fn copied(alloc: Global, bytes: &[u8]) -> Result<Vec<u8>, AllocError>
    ensures { IfOk result (λ v. v.items ≡ bytes.now) }
{
    bytes.iter().copied().collect(alloc)
}
