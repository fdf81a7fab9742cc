ghost use Rattle.std.specs.Prelude.{◌≡◌, map, string_bytes};
ghost use Rattle.xr_driver.specs.Answers.{Answers};
ghost use Rattle.xr_driver.specs.Causes.{Completes, OnlyCauses};
ghost use Rattle.xr_driver.specs.Outside.{loads, span};

use crate::decide::decide_by_workers;
use crate::deliver::deliver;
use crate::unthreaded::still;
use crate::words::waits;
use std::alloc::Global;
use std::sync::Wait;
use std::thread::Threads;
use xw_io::{Gate, Shelf, Sink};

/// Does what the words mean, and answers the status. For a run by two workers or more it starts threads and waits for them.
pub fn xcsim<Rt: Threads + Wait + Sync, S: Shelf, O: Sink, E: Sink, G: Gate + Sync>(
    rt: &Rt,
    alloc: Global,
    words: &[String],
    shelf: &mut S,
    out: &mut O,
    err: &mut E,
    gate: &G,
) -> u8
    // What is decided has its cause, and each sink gained what is due with it, or a front of it with status 9.
    ensures answers { Answers (map string_bytes words.now)
        (loads S.files S.faults S.misses S.longs shelf.old shelf.new)
        (span O.bytes O.faults out.old out.new)
        (span E.bytes E.faults err.old err.new)
        result }

    // Each status comes only with its cause.
    ensures only { OnlyCauses (map string_bytes words.now)
        (loads S.files S.faults S.misses S.longs shelf.old shelf.new)
        (span O.bytes O.faults out.old out.new)
        (span E.bytes E.faults err.old err.new)
        result }

    // Where files are told and nothing fails, each cause has its status, or memory is wanting.
    ensures complete { Completes (map string_bytes words.now)
        (loads S.files S.faults S.misses S.longs shelf.old shelf.new)
        (span O.bytes O.faults out.old out.new)
        (span E.bytes E.faults err.old err.new)
        result }

    ensures files { S.files shelf.new ≡ S.files shelf.old }
{
    if !waits(words) {
        return still(alloc, words, shelf, out, err);
    }
    let decision = decide_by_workers(rt, alloc, words, shelf, gate);
    deliver(&decision, out, err)
}
