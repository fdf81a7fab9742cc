// The calls of a case.

use crate::outputs::{Stream, is_as_wanted};
use crate::outside::{Call, outside_of};
use crate::texts::number;
use crate::trouble::Trouble;
use std::alloc::Global;
use std::sync::Wait;
use std::thread::Threads;
use xw_io::{Out, Sink};

/// Whether of each call of a case comes what is wanted, by `xcsim` and by `still`. What comes else is told. Each call finds the files and sinks as
/// they are at first.
pub fn is_right<R: Threads + Wait + Sync, O: Sink>(
    rt: &R,
    alloc: Global,
    told: &mut Out<'_, O>,
    case: &str,
) -> Result<bool, Trouble> {
    let status = status_of(case)?;
    let mut is_called = false;
    for line in case.split('\n') {
        if let Some(words) = line.strip_prefix("call") {
            is_called = true;
            if !is_call_right(rt, alloc, told, case, Call::Xcsim, words, status)?
                || !is_call_right(rt, alloc, told, case, Call::Still, words, status)?
            {
                return Ok(false);
            }
        }
    }
    if is_called {
        Ok(true)
    } else {
        Err(Trouble::Lines)
    }
}

/// The status that a case wants.
fn status_of(case: &str) -> Result<u32, Trouble> {
    for line in case.split('\n') {
        if let Some(status) = line.strip_prefix("status ") {
            return number(status);
        }
    }
    Err(Trouble::Lines)
}

/// The same of one call, with these words.
fn is_call_right<R: Threads + Wait + Sync, O: Sink>(
    rt: &R,
    alloc: Global,
    told: &mut Out<'_, O>,
    case: &str,
    call: Call,
    words: &str,
    wanted: u32,
) -> Result<bool, Trouble> {
    let mut outside = outside_of(alloc, case)?;
    let status = outside.call(rt, alloc, call, words)?;
    let has_status = status as u32 == wanted;
    if !has_status {
        told.add(b"another status\n");
    }
    let has_loads = outside.has_loads(alloc, case);
    if !has_loads {
        told.add(b"another number of loads\n");
    }
    let out = is_as_wanted(alloc, told, case, Stream::Out, outside.out.bytes())?;
    let err = is_as_wanted(alloc, told, case, Stream::Err, outside.err.bytes())?;
    let holds = has_status && has_loads && out && err;
    if !holds {
        told.add(call.name().as_bytes());
        told.add(b": ");
    }
    Ok(holds)
}
