ghost use Rattle.std.specs.Prelude.{◌≡◌, false, map, string_bytes};
ghost use Rattle.xr_driver.specs.Answers.{Answers};
ghost use Rattle.xr_driver.specs.Causes.{Completes, OnlyCauses};
ghost use Rattle.xr_driver.specs.Command.{mean_workers};
ghost use Rattle.xr_driver.specs.Outside.{loads, span};

use crate::decide::decide;
use crate::deliver::deliver;
use std::alloc::Global;
use xw_io::{Shelf, Sink};

/// Does what the words mean, but a run by two workers or more (`waits`), and answers the status. It waits for nobody.
pub fn still<S: Shelf, O: Sink, E: Sink>(
    alloc: Global,
    words: &[String],
    shelf: &mut S,
    out: &mut O,
    err: &mut E,
) -> u8
    requires alone { mean_workers (map string_bytes words.now) ≡ false }

    // What is decided has its cause, and each sink gained what is due with it, or a front of it with status 9.
    ensures answers { Answers (map string_bytes words.now)
        (loads S.files S.faults S.misses S.longs shelf.old shelf.new)
        (span O.bytes O.faults out.old out.new)
        (span E.bytes E.faults err.old err.new)
        result }

    // Each status comes only with its cause.
    ensures only { OnlyCauses (map string_bytes words.now)
        (loads S.files S.faults S.misses S.longs shelf.old shelf.new)
        (span O.bytes O.faults out.old out.new)
        (span E.bytes E.faults err.old err.new)
        result }

    // Where files are told and nothing fails, each cause has its status, or memory is wanting.
    ensures complete { Completes (map string_bytes words.now)
        (loads S.files S.faults S.misses S.longs shelf.old shelf.new)
        (span O.bytes O.faults out.old out.new)
        (span E.bytes E.faults err.old err.new)
        result }

    ensures files { S.files shelf.new ≡ S.files shelf.old }
{
    let decision = decide(alloc, words, shelf);
    deliver(&decision, out, err)
}
