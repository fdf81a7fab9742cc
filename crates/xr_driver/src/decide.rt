// What is answered, before anything is written.

ghost use Rattle.std.specs.Prelude.{◌≡◌, ◌≤◌, map, string_bytes};
ghost use Rattle.xs_instr.specs.Valid.{Valid};
ghost use Rattle.xr_driver.specs.Answers.{Decided, status_of_run};
ghost use Rattle.xr_driver.specs.Decision.{outcome_of, outcome_of_run, IsPrintable};
ghost use Rattle.xr_driver.specs.Outside.{loads};

use crate::prepare::{Next, Task, prepare};
use std::alloc::Global;
use std::sync::Wait;
use std::thread::Threads;
use xr_board::{run_alone, run_by_workers};
use xr_windows::Run;
use xs_instr::{EndWord, Image};
use xw_io::{Gate, Shelf};
use xw_words::{Broken, List, Memory};

/// What is due on `out`.
#[derive(Drop)]
pub enum Printed {
    Nothing,
    Accepted,
    Code(Image),
    Bounds(Image, List<u64>),
    Whole(Image, Run),
}

/// The line that is due on `err`.
#[derive(Drop)]
pub enum Line<'w> {
    Nothing,
    Usage,
    NoFile(&'w str),
    TooLong(&'w str),
    ReadFault(&'w str),
    Broken(&'w str, Broken),
    BadLine(&'w str, u32, u16),
    NoMemory,
}

/// A status and what is due.
#[derive(Drop)]
pub struct Decision<'w> {
    pub status: u8,
    pub printed: Printed,
    pub line: Line<'w>,
}

/// Loads, compiles and runs, in this order, and runs without workers. All memory is taken here.
pub fn decide<'w, S: Shelf>(alloc: Global, words: &'w [String], shelf: &mut S) -> Decision<'w>
    ensures decided { Decided (map string_bytes words.now)
        (loads S.files S.faults S.misses S.longs shelf.old shelf.new) (outcome_of result) }
    ensures printable { IsPrintable result.printed }
    ensures files { S.files shelf.new ≡ S.files shelf.old }
    ensures faults { S.faults shelf.old ≤ S.faults shelf.new }
{
    match prepare(alloc, words, shelf) {
        Next::Done(decision) => decision,
        Next::Left(task) => {
            let run = run_alone(alloc, &task.image, &task.stim, task.ticks);
            after_run(task, run)
        }
    }
}

/// The same, with a run by as many workers as the words ask for.
pub fn decide_by_workers<'w, R: Threads + Wait + Sync, S: Shelf, G: Gate + Sync>(
    rt: &R,
    alloc: Global,
    words: &'w [String],
    shelf: &mut S,
    gate: &G,
) -> Decision<'w>
    ensures decided { Decided (map string_bytes words.now)
        (loads S.files S.faults S.misses S.longs shelf.old shelf.new) (outcome_of result) }
    ensures printable { IsPrintable result.printed }
    ensures files { S.files shelf.new ≡ S.files shelf.old }
    ensures faults { S.faults shelf.old ≤ S.faults shelf.new }
{
    match prepare(alloc, words, shelf) {
        Next::Done(decision) => decision,
        Next::Left(task) => {
            let run = run_by_workers(
                rt,
                alloc,
                &task.image,
                &task.stim,
                task.ticks,
                task.workers,
                gate,
            );
            after_run(task, run)
        }
    }
}

/// What is decided where a run was tried.
fn after_run<'w>(task: Task, run: Result<Run, Memory>) -> Decision<'w>
    requires valid { Valid task.image }
    ensures outcome { outcome_of result ≡ outcome_of_run task.image run }
    ensures printable { IsPrintable result.printed }
{
    match run {
        Ok(run) => {
            let status = status(run.trapped, run.end);
            printing(status, Printed::Whole(task.image, run))
        }
        Err(Memory) => saying(12, Line::NoMemory),
    }
}

/// A status with a line and no output.
pub fn saying(status: u8, line: Line<'_>) -> Decision<'_>
    ensures { result ≡ record { status = status; printed = Printed.Nothing; line = line.entry } }
{
    Decision {
        status,
        printed: Printed::Nothing,
        line,
    }
}

/// A status with an output and no line.
pub fn printing<'w>(status: u8, printed: Printed) -> Decision<'w>
    ensures { result ≡ record { status = status; printed = printed; line = Line.Nothing } }
{
    Decision {
        status,
        printed,
        line: Line::Nothing,
    }
}

/// The status of a run.
fn status(trapped: bool, end: EndWord) -> u8
    ensures { result ≡ status_of_run trapped end }
{
    if trapped {
        return 3;
    }
    match end {
        EndWord::Finished => 0,
        EndWord::Trapped => 3,
        EndWord::Stuck => 5,
        EndWord::Stopped => 4,
    }
}
