//! The cases of a file.
//!
//! A file is text, and the first blank of each line ends the line's mark:
//!
//! - `case NAME` begins a case. Each name stands once in a file.
//! - `| ..` is a line of the case's text. Line feeds stand between the lines, and none behind the last.
//! - `= ..` is a line of what must come of it, behind the text.
//! - `~ ..` is the same, where what comes has only to begin with what is wanted.
//! - `+ ..` goes on with the line before.
//! - `* COUNT ..` goes on with the line before so many times.
//!
//! Empty lines, and lines that begin with `#`, say nothing. In what stands behind a mark `\n`, `\r`, `\t` and `\s` are a line
//! feed, a carriage return, a tab and a blank, `\x` and two digits a byte, and `\i` and `\j` the number of the repetition,
//! counted from 0 and from 1. A `\` itself is `\x5c`.

use itoa::Buffer;
use std::alloc::{AllocError, AllocFailed, Global};
use std::fmt;

/// A text, and what must come of it.
#[derive(Drop)]
pub struct Case {
    pub name: String,
    pub text: Vec<u8>,
    pub wanted: Vec<u8>,
    last: Last,
    /// Whether what comes has only to begin with what is wanted.
    is_begun: bool,
}

/// What a case's last line is part of.
#[derive(Clone, Copy)]
enum Last {
    Name,
    Text,
    Wanted,
}

/// Why a file has no cases.
#[derive(Clone, Copy)]
pub enum Trouble {
    /// It isn't in UTF-8.
    Encoding,
    /// The line of this number can't stand where it stands.
    Line(usize, Flaw),
}

impl fmt::Display for Trouble {
    fn fmt<W: fmt::Write>(&self, f: &mut fmt::Formatter<W>) -> fmt::Result {
        match self {
            Trouble::Encoding => f.write_str("not in UTF-8"),
            Trouble::Line(number, flaw) => write!(f, "line {number} {}", flaw.message()),
        }
    }
}

/// Why a line can't stand where it stands.
#[derive(Clone, Copy)]
pub enum Flaw {
    Mark,
    Name,
    Place,
    Count,
    Escape,
    Memory,
}

impl Flaw {
    /// What is said of the line.
    fn message(self) -> &'static str {
        match self {
            Flaw::Mark => "begins with none of the marks",
            Flaw::Name => "has the name of a case before it",
            Flaw::Place => "stands where no such line can",
            Flaw::Count => "has no count",
            Flaw::Escape => "has an escape that is none",
            Flaw::Memory => "asks for more memory than there is",
        }
    }
}

impl From<AllocError> for Flaw {
    fn from(_: AllocError) -> Flaw {
        Flaw::Memory
    }
}

impl<T: Drop> From<AllocFailed<T>> for Flaw {
    fn from(_: AllocFailed<T>) -> Flaw {
        Flaw::Memory
    }
}

/// The cases of a file, in order.
pub fn cases_of(alloc: Global, file: &[u8]) -> Result<Vec<Case>, Trouble> {
    let Ok(file) = str::from_utf8(file) else {
        return Err(Trouble::Encoding);
    };
    let mut cases = Vec::new(alloc);
    let mut number = 0usize;
    for line in file.split('\n') {
        number = number.saturating_add(1);
        if let Err(flaw) = add_line(alloc, &mut cases, line) {
            return Err(Trouble::Line(number, flaw));
        }
    }
    if is_complete(cases.as_slice()) {
        Ok(cases)
    } else {
        Err(Trouble::Line(number, Flaw::Place))
    }
}

/// Whether the last case has all its parts, if there is one.
fn is_complete(cases: &[Case]) -> bool {
    match cases.last() {
        None => true,
        Some(case) => matches!(case.last, Last::Wanted),
    }
}

/// Adds a line of a file to its cases so far.
fn add_line(alloc: Global, cases: &mut Vec<Case>, line: &str) -> Result<(), Flaw> {
    if line.is_empty() || line.starts_with('#') {
        return Ok(());
    }
    let (mark, rest) = line.split_once(' ').unwrap_or((line, ""));
    if mark == "case" {
        return add_case(alloc, cases, rest);
    }
    match cases.last_mut() {
        None => Err(Flaw::Place),
        Some(case) => case.add_line(mark, rest),
    }
}

/// Begins a case.
fn add_case(alloc: Global, cases: &mut Vec<Case>, name: &str) -> Result<(), Flaw> {
    if !is_complete(cases.as_slice()) {
        return Err(Flaw::Place);
    }
    if cases.iter().any(|case| case.name.as_str() == name) {
        return Err(Flaw::Name);
    }
    let case = Case::new(alloc, name)?;
    cases.push(case)?;
    Ok(())
}

impl Case {
    /// A case without text so far.
    fn new(alloc: Global, name: &str) -> Result<Case, AllocError> {
        Ok(Case {
            name: String::from_str(alloc, name)?,
            text: Vec::new(alloc),
            wanted: Vec::new(alloc),
            last: Last::Name,
            is_begun: false,
        })
    }

    /// Whether what came is what is wanted.
    pub fn is_met_by(&self, came: &[u8]) -> bool {
        if self.is_begun {
            came.starts_with(self.wanted.as_slice())
        } else {
            came == self.wanted.as_slice()
        }
    }

    /// Adds what stands behind a mark.
    fn add_line(&mut self, mark: &str, rest: &str) -> Result<(), Flaw> {
        match mark {
            "|" => self.add_text(rest),
            "=" => self.add_wanted(rest),
            "~" => {
                self.is_begun = true;
                self.add_wanted(rest)
            }
            "+" => self.go_on(1, rest),
            "*" => match rest.split_once(' ') {
                None => Err(Flaw::Count),
                Some((count, piece)) => match count.parse::<u32>() {
                    Ok(count) => self.go_on(count, piece),
                    Err(_) => Err(Flaw::Count),
                },
            },
            _ => Err(Flaw::Mark),
        }
    }

    fn add_text(&mut self, line: &str) -> Result<(), Flaw> {
        match self.last {
            Last::Name => self.last = Last::Text,
            Last::Text => self.text.push(b'\n')?,
            Last::Wanted => return Err(Flaw::Place),
        }
        add_piece(&mut self.text, line, 0)
    }

    fn add_wanted(&mut self, line: &str) -> Result<(), Flaw> {
        match self.last {
            Last::Name => return Err(Flaw::Place),
            Last::Text => self.last = Last::Wanted,
            Last::Wanted => self.wanted.push(b'\n')?,
        }
        add_piece(&mut self.wanted, line, 0)
    }

    /// Goes on with the last line.
    fn go_on(&mut self, count: u32, piece: &str) -> Result<(), Flaw> {
        match self.last {
            Last::Name => Err(Flaw::Place),
            Last::Text => add_pieces(&mut self.text, count, piece),
            Last::Wanted => add_pieces(&mut self.wanted, count, piece),
        }
    }
}

/// Adds a piece so many times.
fn add_pieces(bytes: &mut Vec<u8>, count: u32, piece: &str) -> Result<(), Flaw> {
    for number in 0..count {
        add_piece(bytes, piece, number)?;
    }
    Ok(())
}

/// Adds a piece: the part in front of its first `\`, and each part behind one.
fn add_piece(bytes: &mut Vec<u8>, piece: &str, number: u32) -> Result<(), Flaw> {
    let mut parts = piece.split('\\');
    bytes.extend_from_slice(parts.next().unwrap_or("").as_bytes())?;
    for part in parts {
        add_escaped(bytes, part.as_bytes(), number)?;
    }
    Ok(())
}

/// Adds what stands behind a `\`.
fn add_escaped(bytes: &mut Vec<u8>, part: &[u8], number: u32) -> Result<(), Flaw> {
    let (escape, rest) = escape_of(part).ok_or(Flaw::Escape)?;
    match escape {
        Escape::Byte(byte) => bytes.push(byte)?,
        Escape::Number(plus) => {
            let number = number.saturating_add(plus);
            bytes.extend_from_slice(Buffer::new().format(number).as_bytes())?;
        }
    }
    bytes.extend_from_slice(rest)?;
    Ok(())
}

/// What a `\` with what stands behind it means.
#[derive(Clone, Copy)]
enum Escape {
    Byte(u8),
    /// The number of the repetition, and so much more.
    Number(u32),
}

/// What stands behind a `\` first, and the rest.
fn escape_of(part: &[u8]) -> Option<(Escape, &[u8])> {
    match part {
        [b'i', rest @ ..] => Some((Escape::Number(0), rest)),
        [b'j', rest @ ..] => Some((Escape::Number(1), rest)),
        [b'x', high, low, rest @ ..] => Some((Escape::Byte(byte_of(*high, *low)?), rest)),
        [letter, rest @ ..] => Some((Escape::Byte(meaning(*letter)?), rest)),
        [] => None,
    }
}

/// The byte that a letter behind a `\` means.
fn meaning(letter: u8) -> Option<u8> {
    match letter {
        b'n' => Some(b'\n'),
        b'r' => Some(b'\r'),
        b't' => Some(b'\t'),
        b's' => Some(b' '),
        _ => None,
    }
}

/// The byte of two hexadecimal digits.
fn byte_of(high: u8, low: u8) -> Option<u8> {
    let high = char::from(high).to_digit(16)?;
    let low = char::from(low).to_digit(16)?;
    u8::try_from(high * 16 + low).ok()
}
