//! The words of a core's memory.

use std::alloc::Global;
use xs_state::Ram;
use xw_words::Memory;

enum Call {
    Read(u32, Option<u32>),
    Write(u32, u32, bool),
}

// Three words stand at 0, 4 and 8.
const CALLS: [Call; 14] = [
    Call::Read(0, Some(0)),
    Call::Read(8, Some(0)),
    Call::Read(12, None),
    Call::Write(4, 0xffff_ffff, true),
    Call::Read(0, Some(0)),
    Call::Read(4, Some(0xffff_ffff)),
    Call::Read(8, Some(0)),
    Call::Read(5, None),
    Call::Write(6, 7, false),
    Call::Write(12, 7, false),
    Call::Write(0xffff_fffc, 7, false),
    Call::Write(8, 7, true),
    Call::Read(4, Some(0xffff_ffff)),
    Call::Read(8, Some(7)),
];

/// The place of the first call that is answered otherwise.
pub fn wrong_call(alloc: Global) -> Result<Option<usize>, Memory> {
    let mut ram = Ram::new(alloc, 3)?;
    for (place, call) in CALLS.iter().enumerate() {
        let is_so = match call {
            Call::Read(address, word) => ram.read(*address) == *word,
            Call::Write(address, word, stands) => ram.write(*address, *word) == *stands,
        };
        if !is_so {
            return Ok(Some(place));
        }
    }
    Ok(None)
}
