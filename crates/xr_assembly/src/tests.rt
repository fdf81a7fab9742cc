// Listings by hand, and what comes of them.

use crate::{AsmErr, read_listing};
use std::alloc::Global;
use xw_words::Memory;

/// A text, and how many cores, channels and instructions of the first core come of it, or the line and rule.
type Row = (&'static [u8], Result<(usize, usize, usize), (u32, u16)>);

const ROWS: [Row; 30] = [
    (
        b"code\n.core 0\n.words 0\n.timers 0\n.ends 0\n.port 4A out\n.root 0\n0: LDC r0, 0 @1:1\n1: LDC r1, 21 @1:1\n2: OUT r0, r1 @1:1\n3: FREET @1:1\n",
        Ok((1, 0, 4)),
    ),
    // what stands behind `trace` isn't looked at
    (
        b"code\n.core 3\n.words 16384\n.timers 10\n.ends 0\n.root 0\n0: SSYNC @0:0\ntrace\nout 0 4A @3 5",
        Ok((1, 0, 1)),
    ),
    // two ends of a core, and an end of each of two
    (
        b"code\n.core 1\n.words 1\n.timers 0\n.ends 2\n.root 0\n0: BRBU 0 @2:3\n.chan 1 1 1 0\n",
        Ok((1, 1, 1)),
    ),
    (
        b"code\n.core 0\n.words 1\n.timers 0\n.ends 1\n.root 0\n0: FREET @1:1\n.core 2\n.words 1\n.timers 0\n.ends 1\n.root 0\n0: FREET @1:1\n.chan 0 0 2 0\n",
        Ok((2, 1, 1)),
    ),
    // 1101: too early an end, no line feed, another form, another order
    (b"", Err((1, 1101))),
    (b"code\n", Err((2, 1101))),
    (b"code\ntrace\n", Err((2, 1101))),
    (b"code", Err((1, 1101))),
    (b"code\r\n", Err((1, 1101))),
    (
        b"code\n.core 0\n.words 0\n.timers 0\n.ends 0\n.port 3A in\n",
        Err((6, 1101)),
    ),
    (
        b"code\n.core 0\n.words 0\n.timers 0\n.ends 0\n0: FREET @1:1\n",
        Err((6, 1101)),
    ),
    (
        b"code\n.core 0\n.words 0\n.timers 0\n.ends 0\n.root 0\n0: FREET @1:1",
        Err((7, 1101)),
    ),
    (
        b"code\n.core 0\n.words 0\n.timers 0\n.ends 0\n.root 0\n00: FREET @1:1\n",
        Err((7, 1101)),
    ),
    (
        b"code\n.core 0\n.words 0\n.timers 0\n.ends 0\n.root 0\n0: FREET\n",
        Err((7, 1101)),
    ),
    (
        b"code\n.core 0\n.words 0\n.timers 0\n.ends 0\n.root 0\n0: NEG r0 r1 @1:1\n",
        Err((7, 1101)),
    ),
    (
        b"code\n.core 0\n.words 0\n.timers 0\n.ends 0\n.root 0\n0: NEG r0, r12 @1:1\n",
        Err((7, 1101)),
    ),
    (
        b"code\n.core 0\n.words 0\n.timers 0\n.ends 0\n.root 0\n0: LDC r0, 1, @1:1\n",
        Err((7, 1101)),
    ),
    // 1102: a number out of its range, before a line of another form
    (b"code\n.core 4\nend\n", Err((2, 1102))),
    (b"code\n.core 0\n.words 16385\n", Err((3, 1102))),
    (
        b"code\n.core 0\n.words 0\n.timers 0\n.ends 0\n.port 1A in\n.port 1A in\n",
        Err((7, 1102)),
    ),
    (
        b"code\n.core 0\n.words 0\n.timers 0\n.ends 0\n.root 0\n1: FREET @1:1\n",
        Err((7, 1102)),
    ),
    (
        b"code\n.core 0\n.words 0\n.timers 0\n.ends 0\n.root 0\n0: LDC r0, 4294967296 @1:1\n",
        Err((7, 1102)),
    ),
    (
        b"code\n.core 0\n.words 0\n.timers 0\n.ends 0\n.root 0\n0: ADD r0, r0, 4294967296 @1:1\n",
        Err((7, 1101)),
    ),
    (
        b"code\n.core 0\n.words 0\n.timers 0\n.ends 0\n.root 0\n0: OUTCT r0, 256 @1:1\n",
        Err((7, 1102)),
    ),
    // 1103: an end that isn't there, and an end twice
    (
        b"code\n.core 0\n.words 0\n.timers 0\n.ends 0\n.root 0\n0: FREET @1:1\n.chan 0 0 256 0\n",
        Err((8, 1103)),
    ),
    (
        b"code\n.core 0\n.words 0\n.timers 0\n.ends 1\n.root 0\n0: FREET @1:1\n.chan 0 0 0 0\n",
        Err((8, 1103)),
    ),
    // 1104: a root and a target that are no index
    (
        b"code\n.core 0\n.words 0\n.timers 0\n.ends 0\n.root 0\n",
        Err((6, 1104)),
    ),
    (
        b"code\n.core 0\n.words 0\n.timers 0\n.ends 0\n.root 0\n0: BRFU 0 @1:1\n",
        Err((7, 1104)),
    ),
    // 1105: an end without a channel, which stands before a wrong channel
    (
        b"code\n.core 0\n.words 0\n.timers 0\n.ends 1\n.root 0\n0: FREET @1:1\n",
        Err((5, 1105)),
    ),
    (
        b"code\n.core 0\n.words 0\n.timers 0\n.ends 2\n.root 0\n0: FREET @1:1\n.chan 0 0 0 0\n",
        Err((5, 1105)),
    ),
];

/// Whether that is what comes of the text.
fn is_as_wanted(alloc: Global, row: &Row) -> Result<bool, Memory> {
    let (text, want) = *row;
    if text.len() > 1000 {
        return Ok(false);
    }
    match (read_listing(alloc, text), want) {
        (Ok(image), Ok(want)) => {
            let instrs = match image.cores.as_slice() {
                [first, ..] => first.code.instrs.len(),
                _ => 0,
            };
            Ok((image.cores.len(), image.chans.len(), instrs) == want)
        }
        (Err(AsmErr::Line { line, rule }), Err(want)) => Ok((line, rule) == want),
        (Err(AsmErr::Memory), _) => Err(Memory),
        _ => Ok(false),
    }
}

/// The place of the first row of which something else comes.
fn wrong_row(alloc: Global) -> Result<Option<usize>, Memory> {
    for (place, row) in ROWS.iter().enumerate() {
        if !is_as_wanted(alloc, row)? {
            return Ok(Some(place));
        }
    }
    Ok(None)
}

/// Each row has its image, or its broken rule.
#[test]
fn listings_by_hand(rt: HostRuntime) {
    assert_eq!(rt; wrong_row(rt.alloc()), Ok(None));
}
