//! Stimuli, as they are read.

use std::alloc::Global;
use xr_stim::{StimErr, read_stim};
use xs_instr::StimLine;
use xw_words::Memory;

/// A line of a stimulus: tick, core, the port's place, value.
type Line = (u32, u8, u8, u32);

const READ: [(&str, &[Line]); 10] = [
    ("", &[]),
    ("7 0 1B 1\n", &[(7, 0, 1, 1)]),
    ("7 0 1B 1", &[(7, 0, 1, 1)]),
    ("7 0 1B 1\r\n8 0 1B 0\r\n", &[(7, 0, 1, 1), (8, 0, 1, 0)]),
    (
        "   \n\r\n  # 7 0 1B 2\n#\n  7  0   1B 1  \n",
        &[(7, 0, 1, 1)],
    ),
    ("7 0 1B 1\n7 0 1B 0\n", &[(7, 0, 1, 1), (7, 0, 1, 0)]),
    ("0000000007 0000000003 32A 0000000001", &[(7, 3, 28, 1)]),
    (
        "4294967295 3 32A 4294967295",
        &[(4294967295, 3, 28, 4294967295)],
    ),
    ("0 0 1P 1\n0 0 4F 15\n", &[(0, 0, 15, 1), (0, 0, 21, 15)]),
    (
        "0 0 8D 255\n0 0 16B 65535",
        &[(0, 0, 25, 255), (0, 0, 27, 65535)],
    ),
];

/// The place of the first good text that isn't read so.
pub fn wrong_good_text(alloc: Global) -> Option<usize> {
    for (place, (text, lines)) in READ.iter().enumerate() {
        if !is_read_so(alloc, text.as_bytes(), lines) {
            return Some(place);
        }
    }
    None
}

fn is_read_so(alloc: Global, text: &[u8], lines: &[Line]) -> bool {
    match read_stim(alloc, text) {
        Ok(stim) => are_same(stim.lines.as_slice(), lines),
        Err(_) => false,
    }
}

fn are_same(read: &[StimLine], lines: &[Line]) -> bool {
    for (line, wanted) in read.iter().zip(lines) {
        if (line.tick, line.core, line.port, line.value) != *wanted {
            return false;
        }
    }
    read.len() == lines.len()
}

/// Texts, each with the line and the rule that it is refused by.
const REFUSED: [(&str, u32, u16); 28] = [
    ("7 0 1B", 1, 801),
    ("7 0 1B 1 1", 1, 801),
    ("7 0 1B 1 # one", 1, 801),
    ("7 0 1B -1", 1, 801),
    ("7 0 1B 0x1", 1, 801),
    ("7\t0 1B 1", 1, 801),
    ("4294967296 0 1B 1", 1, 801),
    ("7 4294967296 1B 1", 1, 801),
    ("7 0 1B 4294967296", 1, 801),
    ("7 0 1B 99999999999999999999999", 1, 801),
    ("7 0 1B 1\r", 1, 801),
    ("\r\n\r", 2, 801),
    ("7 0 1B 1\n6 0 1B 0\n", 2, 802),
    ("7 0 1B 1\n# 9 0 1B 1\n\n6 0 1B 1", 4, 802),
    ("7 4 1B 1", 1, 803),
    ("7 0 1Q 1", 1, 803),
    ("7 0 4G 1", 1, 803),
    ("7 0 1b 1", 1, 803),
    ("7 0 XS1_PORT_1B 1", 1, 803),
    ("7 0 1B 2", 1, 804),
    ("\n# one\n7 0 4F 16", 3, 804),
    ("7 0 8D 256", 1, 804),
    ("7 0 16B 65536", 1, 804),
    ("7 4 1Q", 1, 801),
    ("7 0 1B 1\n6 4 1B 2", 2, 802),
    ("7 4 1B 2", 1, 803),
    ("7 0 9Z 9", 1, 803),
    ("7 0 1B 2\n6", 1, 804),
];

/// The place of the first bad text that isn't refused so.
pub fn wrong_bad_text(alloc: Global) -> Option<usize> {
    for (place, (text, line, rule)) in REFUSED.iter().enumerate() {
        if !is_refused_so(alloc, text.as_bytes(), *line, *rule) {
            return Some(place);
        }
    }
    None
}

fn is_refused_so(alloc: Global, text: &[u8], line: u32, rule: u16) -> bool {
    match read_stim(alloc, text) {
        Err(StimErr::Line { line: n, rule: r }) => n == line && r == rule,
        _ => false,
    }
}

/// What line 100,001 is refused by.
const LAST_LINES: [(&str, u16); 5] = [
    (" ", 805),
    ("#", 805),
    ("7 0 1B 1", 805),
    ("x", 801),
    ("7 0 1B 2", 804),
];

/// Whether 100,000 lines that say nothing are read.
pub fn are_100000_lines_read(alloc: Global) -> Result<bool, Memory> {
    let text = vec![in alloc; b'\n'; 100_000]?;
    Ok(is_read_so(alloc, text.as_slice(), &[]))
}

/// The place of the first line behind 100,000 that isn't refused so.
pub fn wrong_last_line(alloc: Global) -> Result<Option<usize>, Memory> {
    let mut text = vec![in alloc; b'\n'; 100_000]?;
    for (place, (last, rule)) in LAST_LINES.iter().enumerate() {
        text.truncate(100_000);
        text.extend_from_slice(last.as_bytes())?;
        if !is_refused_so(alloc, text.as_slice(), 100_001, *rule) {
            return Ok(Some(place));
        }
    }
    Ok(None)
}
