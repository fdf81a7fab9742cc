// What a sink has, and what a case wants of it.

use crate::texts::number;
use crate::trouble::Trouble;
use std::alloc::Global;
use xw_io::{Out, Sink};

#[derive(Clone, Copy)]
pub enum Stream {
    Out,
    Err,
}

/// Whether a sink has what the lines of a case want. The first line that isn't there is told, with what stands in its place.
pub fn is_as_wanted<O: Sink>(
    alloc: Global,
    told: &mut Out<'_, O>,
    case: &str,
    stream: Stream,
    bytes: &[u8],
) -> Result<bool, Trouble> {
    let Ok(text) = str::from_utf8(bytes) else {
        return Err(Trouble::Bytes);
    };
    let mut rest = text;
    for line in case.split('\n') {
        match behind(alloc, stream, rest, line)? {
            Some(behind) => rest = behind,
            None => {
                tell(told, line, rest);
                return Ok(false);
            }
        }
    }
    if !rest.is_empty() {
        tell(told, "no line", rest);
    }
    Ok(rest.is_empty())
}

fn tell<O: Sink>(told: &mut Out<'_, O>, wanted: &str, rest: &str) {
    let (came, _) = rest.split_once('\n').unwrap_or((rest, ""));
    for piece in ["wanted: ", wanted, "\ncame: ", came, "\n"] {
        told.add(piece.as_bytes());
    }
}

/// What is left behind what a line of a case wants, if it is there: all of it where the line wants nothing of this stream.
fn behind<'a>(
    alloc: Global,
    stream: Stream,
    rest: &'a str,
    line: &str,
) -> Result<Option<&'a str>, Trouble> {
    let (mark, wanted) = line.split_once(' ').unwrap_or((line, ""));
    match stream {
        Stream::Err if mark == "!" => Ok(behind_line(rest, wanted)),
        Stream::Err if is_mark(mark) => Ok(Some(rest)),
        Stream::Out => behind_output(alloc, rest, mark, wanted),
        Stream::Err => Err(Trouble::Lines),
    }
}

/// Whether a line of a case can begin so.
fn is_mark(mark: &str) -> bool {
    let marks = [
        "case", "call", "fails", "loads", "status", "file", "|", "/", "*", "*|", "=", "..", "+",
        "!",
    ];
    marks.contains(&mark)
}

/// The same for standard output.
fn behind_output<'a>(
    alloc: Global,
    rest: &'a str,
    mark: &str,
    wanted: &str,
) -> Result<Option<&'a str>, Trouble> {
    match mark {
        "=" => Ok(behind_line(rest, wanted)),
        ".." => Ok(behind_first(rest, wanted)),
        "+" => behind_numbered(alloc, rest, wanted),
        _ => Ok(Some(rest)),
    }
}

fn behind_line<'a>(rest: &'a str, line: &str) -> Option<&'a str> {
    rest.strip_prefix(line)?.strip_prefix('\n')
}

/// What stands behind the first line that is this one.
fn behind_first<'a>(rest: &'a str, line: &str) -> Option<&'a str> {
    let (_, behind) = rest.split_once(line)?;
    behind.strip_prefix('\n')
}

/// What stands behind lines that are alike but for a number, which is at first the one that is told first and in the end the other.
fn behind_numbered<'a>(
    alloc: Global,
    rest: &'a str,
    wanted: &str,
) -> Result<Option<&'a str>, Trouble> {
    let (first, wanted) = wanted.split_once(' ').ok_or(Trouble::Lines)?;
    let (last, text) = wanted.split_once(' ').ok_or(Trouble::Lines)?;
    let mut rest = rest;
    for n in number(first)?..=number(last)? {
        let line = format!(in alloc; "{text} {n}\n")?;
        match rest.strip_prefix(line.as_str()) {
            Some(behind) => rest = behind,
            None => return Ok(None),
        }
    }
    Ok(Some(rest))
}
