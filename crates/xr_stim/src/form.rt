// What a line is.
ghost use Rattle.std.specs.Prelude.{◌≡◌, ◌^◌};
ghost use Rattle.xr_stim.specs.Forms.{form, parts};
ghost use Rattle.xr_stim.specs.Forms as spec;
ghost use Rattle.xr_stim.specs.Forms.{port_names};
ghost use Rattle.xw_words.specs.Tables.{place_in as place};

use crate::lines::is_skipped;
use crate::numbers::number;
use crate::words::first_word;
use xw_words::place_in;

/// The four parts of a stimulus line. The port is its place among the ports, if its name is one of theirs.
#[derive(Clone, Copy)]
pub struct Parts {
    pub tick: u32,
    pub core: u32,
    pub port: Option<u8>,
    pub value: u32,
}

#[derive(Clone, Copy)]
pub enum Form {
    /// Blank, or a `#` line.
    Skipped,
    /// `TICK CORE PORT VALUE`.
    Stimulus(Parts),
    Other,
}

/// The names of the ports, by their places.
const PORT_NAMES: [&[u8]; 29] = [
    b"1A", b"1B", b"1C", b"1D", b"1E", b"1F", b"1G", b"1H", b"1I", b"1J", b"1K", b"1L", b"1M",
    b"1N", b"1O", b"1P", b"4A", b"4B", b"4C", b"4D", b"4E", b"4F", b"8A", b"8B", b"8C", b"8D",
    b"16A", b"16B", b"32A",
];

/// What a line is.
pub fn form_of(line: &[u8]) -> Form
    ensures { result ≡ form line.now }
{
    if is_skipped(line) {
        return Form::Skipped;
    }
    match parts_of(line) {
        Some(parts) => Form::Stimulus(parts),
        None => Form::Other,
    }
}

// The parts of a line that has the form of a stimulus line.
fn parts_of(line: &[u8]) -> Option<Parts>
    ensures { result ≡ parts line.now }
{
    let (tick, rest) = first_word(line)?;
    let (core, rest) = first_word(rest)?;
    let (port, rest) = first_word(rest)?;
    let (value, rest) = first_word(rest)?;
    if first_word(rest).is_some() {
        return None;
    }
    let tick = small_number(tick)?;
    let core = small_number(core)?;
    let value = small_number(value)?;
    let port = port_named(port);
    Some(Parts {
        tick,
        core,
        port,
        value,
    })
}

// The number that a word is, if it is one below 2^32.
fn small_number(word: &[u8]) -> Option<u32>
    ensures { result ≡ spec.small_number word.now }
{
    let n = number(word)?;
    if n > u32::MAX as u64 {
        return None;
    }
    Some(n as u32)
}

// The place of the port that has this name.
#[tactic(auto, unfolding(crate::specs::Forms::port_names))]
fn port_named(name: &[u8]) -> Option<u8>
    ensures { result ≡ place port_names name.now }
{
    place_in(&PORT_NAMES, name)
}
