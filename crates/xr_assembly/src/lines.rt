// The forms of lines.
ghost use Rattle.std.specs.Prelude.{◌≡◌};
ghost use Rattle.xr_assembly.specs.Cuts.{the_one_named};
ghost use Rattle.xr_assembly.specs.Forms as spec;
ghost use Rattle.xr_assembly.specs.Forms.{dirs, form_of_line};
ghost use Rattle.xr_stim.specs.Forms.{port_names};
ghost use Rattle.xs_instr.specs.Texts.{dir_text};
ghost use Rattle.xw_words.specs.Tables.{place_in as place_among};

use crate::cuts::{before_last, behind_first, named, numeral, split};
use crate::instructions::{Spoken, with_none, with_one, with_three, with_two};
use xs_instr::{Dir, Instr, PortDecl};
use xw_words::{Pos, place_in};

/// What a line of a listing says.
#[derive(Clone, Copy)]
pub enum Line {
    /// `code`, which begins the listing.
    Begin,
    /// `.core`: the core that the next lines are of.
    Core(u32),
    /// `.words`: how many words of memory it has.
    Words(u32),
    /// `.timers`: how many timers it has.
    Timers(u32),
    /// `.ends`: how many channel ends it has.
    Ends(u32),
    /// `.port`: a port and its way.
    Port(PortDecl),
    /// `.root`: the index where a thread begins.
    Root(u32),
    /// An instruction.
    Code(CodeLine),
    /// `.chan`: a channel.
    Chan(ChanLine),
    /// `trace`, behind which nothing is looked at.
    Trace,
}

/// An instruction with its index, and the place in the program that it comes from.
#[derive(Clone, Copy)]
pub struct CodeLine {
    pub index: u32,
    pub instr: Instr,
    pub pos: Pos,
}

/// The core and the number of each end of a channel.
#[derive(Clone, Copy)]
pub struct ChanLine {
    pub core: u32,
    pub end: u32,
    pub peer_core: u32,
    pub peer_end: u32,
}

/// A line, and whether its numbers are below 2^32. 0 stands for one that isn't.
#[derive(Clone, Copy)]
pub struct Form {
    pub line: Line,
    pub fits: bool,
}

/// A place in the program, and whether its numbers are below 2^32. 0 stands for one that isn't.
#[derive(Clone, Copy)]
pub struct Place {
    pub pos: Pos,
    pub fits: bool,
}

/// The names of the ports, by their places.
const PORT_NAMES: [&[u8]; 29] = [
    b"1A", b"1B", b"1C", b"1D", b"1E", b"1F", b"1G", b"1H", b"1I", b"1J", b"1K", b"1L", b"1M",
    b"1N", b"1O", b"1P", b"4A", b"4B", b"4C", b"4D", b"4E", b"4F", b"8A", b"8B", b"8C", b"8D",
    b"16A", b"16B", b"32A",
];

/// The form of a line, if it has one. Of a line the line feed is no part, and of its words one space stands between any two.
pub fn form_of(line: &[u8]) -> Option<Form>
    ensures { result ≡ form_of_line line.now }
{
    let Some((first, rest)) = split(line, b' ') else {
        return alone(line);
    };
    let Some((second, rest)) = split(rest, b' ') else {
        return numbered(first, rest);
    };
    let Some((third, rest)) = split(rest, b' ') else {
        return of_three(first, second, rest);
    };
    let Some((fourth, rest)) = split(rest, b' ') else {
        return code(first, with_one(second, third), rest);
    };
    let Some((fifth, rest)) = split(rest, b' ') else {
        return of_five(first, second, third, fourth, rest);
    };
    if let Some(_) = split(rest, b' ') {
        return None;
    }
    code(first, with_three(second, third, fourth, fifth), rest)
}

/// A word that is a line.
fn alone(word: &[u8]) -> Option<Form>
    ensures { result ≡ spec.alone word.now }
{
    let line = if word == b"code".as_slice() {
        Line::Begin
    } else if word == b"trace".as_slice() {
        Line::Trace
    } else {
        return None;
    };
    Some(Form { line, fits: true })
}

/// A word and a number.
fn numbered(word: &[u8], n: &[u8]) -> Option<Form>
    ensures { result ≡ spec.numbered word.now n.now }
{
    let n = numeral(n)?;
    let line = directive(word, n.unwrap_or(0))?;
    Some(Form {
        line,
        fits: n.is_some(),
    })
}

/// The line that says this number behind a word.
fn directive(word: &[u8], n: u32) -> Option<Line>
    ensures { result ≡ spec.directive word.now n }
{
    if word == b".core".as_slice() {
        Some(Line::Core(n))
    } else if word == b".words".as_slice() {
        Some(Line::Words(n))
    } else if word == b".timers".as_slice() {
        Some(Line::Timers(n))
    } else if word == b".ends".as_slice() {
        Some(Line::Ends(n))
    } else if word == b".root".as_slice() {
        Some(Line::Root(n))
    } else {
        None
    }
}

/// A line of three words: a port, or an instruction without operands.
fn of_three(a: &[u8], b: &[u8], c: &[u8]) -> Option<Form>
    ensures { result ≡ spec.of_three a.now b.now c.now }
{
    if a == b".port".as_slice() {
        port(b, c)
    } else {
        code(a, with_none(b), c)
    }
}

/// A line of five words: a channel, or an instruction with two operands.
fn of_five(a: &[u8], b: &[u8], c: &[u8], d: &[u8], e: &[u8]) -> Option<Form>
    ensures { result ≡ spec.of_five a.now b.now c.now d.now e.now }
{
    if a == b".chan".as_slice() {
        chan(b, c, d, e)
    } else {
        code(a, with_two(b, c, d), e)
    }
}

/// A port's identifier and its way.
fn port(id: &[u8], dir: &[u8]) -> Option<Form>
    ensures { result ≡ spec.port id.now dir.now }
{
    let port = port_named(id)?;
    let dir = dir_named(dir)?;
    Some(Form {
        line: Line::Port(PortDecl { port, dir }),
        fits: true,
    })
}

/// The place of the port that has this name.
#[tactic(auto, unfolding(xr_stim::specs::Forms::port_names))]
fn port_named(name: &[u8]) -> Option<u8>
    ensures { result ≡ place_among port_names name.now }
{
    place_in(&PORT_NAMES, name)
}

fn dir_named(word: &[u8]) -> Option<Dir>
    ensures { result ≡ the_one_named dir_text dirs word.now }
{
    let rows: [(&[u8], Dir); 3] = [(b"in", Dir::In), (b"out", Dir::Out), (b"both", Dir::Both)];
    named(&rows, word)
}

/// The core and the number of each end of a channel.
fn chan(core: &[u8], end: &[u8], peer_core: &[u8], peer_end: &[u8]) -> Option<Form>
    ensures { result ≡ spec.chan core.now end.now peer_core.now peer_end.now }
{
    let core = numeral(core)?;
    let end = numeral(end)?;
    let peer_core = numeral(peer_core)?;
    let peer_end = numeral(peer_end)?;
    Some(Form {
        line: Line::Chan(ChanLine {
            core: core.unwrap_or(0),
            end: end.unwrap_or(0),
            peer_core: peer_core.unwrap_or(0),
            peer_end: peer_end.unwrap_or(0),
        }),
        fits: core.is_some() && end.is_some() && peer_core.is_some() && peer_end.is_some(),
    })
}

/// An index, an instruction and a place.
fn code(index: &[u8], instr: Option<Spoken>, place: &[u8]) -> Option<Form>
    ensures { result ≡ spec.code index.now instr place.now }
{
    let index = index_of(index)?;
    let spoken = instr?;
    let place = place_of(place)?;
    Some(Form {
        line: Line::Code(CodeLine {
            index: index.unwrap_or(0),
            instr: spoken.instr,
            pos: place.pos,
        }),
        fits: index.is_some() && spoken.fits && place.fits,
    })
}

/// A number with a colon behind it.
fn index_of(word: &[u8]) -> Option<Option<u32>>
    ensures { result ≡ spec.index word.now }
{
    let word = before_last(word, b':')?;
    numeral(word)
}

/// `@LINE:COL`.
fn place_of(word: &[u8]) -> Option<Place>
    ensures { result ≡ spec.place_of_word word.now }
{
    let word = behind_first(word, b'@')?;
    let (line, col) = split(word, b':')?;
    if let Some(_) = split(col, b':') {
        return None;
    }
    let line = numeral(line)?;
    let col = numeral(col)?;
    Some(Place {
        pos: Pos {
            line: line.unwrap_or(0),
            col: col.unwrap_or(0),
        },
        fits: line.is_some() && col.is_some(),
    })
}
