// Runs by one alone, and by workers.

ghost use Rattle.std.specs.Prelude.{◌≤◌};
ghost use Rattle.xs_instr.specs.Valid.{IsGoodStim, Valid};

use crate::trouble::Trouble;
use crate::windows::Windows;
use std::alloc::Global;
use std::sync::Wait;
use std::thread::Threads;
use xr_board::{run_alone, run_by_workers};
use xr_windows::Run;
use xs_instr::{EndWord, Image, Stim};

/// What is wanted of a run of so many ticks: how it ends, and how many records it has. It is made alone, and by 1 to so many workers.
#[derive(Clone, Copy)]
pub struct Wanted {
    pub workers: u32,
    pub ticks: u32,
    pub end: EndWord,
    pub records: u32,
}

/// What comes of a run, where it isn't what is wanted, or where workers make another one than one alone makes, or don't make all windows by turns.
pub fn difference_of_run<R: Threads + Wait + Sync>(
    rt: &R,
    alloc: Global,
    image: &Image,
    stim: &Stim,
    wanted: Wanted,
) -> Result<Option<String>, Trouble>
    requires image { Valid image.now }
    requires stim { IsGoodStim stim.now }
    requires ticks { (1 ≤ wanted.ticks) × (wanted.ticks ≤ 200000) }
    requires workers { wanted.workers ≤ 16 }
{
    let alone = run_alone(alloc, image, stim, wanted.ticks)?;
    let count = alone.trace.len();
    if alone.end != wanted.end || count != wanted.records as usize {
        let end = end_word(alone.end);
        let told = format!(in alloc; "{} ticks: {end} {count}", wanted.ticks)?;
        return Ok(Some(told));
    }
    for workers in 1..wanted.workers + 1 {
        let windows = Windows::new();
        let run = run_by_workers(rt, alloc, image, stim, wanted.ticks, workers, &windows)?;
        if !is_same(&run, &alone) || !windows.are_all(wanted.ticks, workers) {
            let told = format!(in alloc; "{} ticks: {workers} workers differ", wanted.ticks)?;
            return Ok(Some(told));
        }
    }
    Ok(None)
}

/// Whether two runs tell the same.
fn is_same(run: &Run, other: &Run) -> bool {
    run.trace == other.trace && run.end == other.end && run.trapped == other.trapped
}

fn end_word(end: EndWord) -> &'static str {
    match end {
        EndWord::Finished => "finished",
        EndWord::Trapped => "trapped",
        EndWord::Stuck => "stuck",
        EndWord::Stopped => "stopped",
    }
}
