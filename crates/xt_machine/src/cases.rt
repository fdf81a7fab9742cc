// Cases: an image, and what is wanted of its runs.

ghost use Rattle.std.specs.Prelude.{◌≡◌, ◌≤◌, IfOk, IfSome};
ghost use Rattle.xs_instr.specs.Valid.{IsGoodStim, Valid};

use crate::runs::{Wanted, difference_of_run};
use crate::trouble::Trouble;
use std::alloc::{AllocError, Global};
use std::sync::Wait;
use std::thread::Threads;
use xr_listed::read_image;
use xr_stim::read_stim;
use xs_instr::{EndWord, Image, Stim};

/// The most ticks of a run.
const MOST_TICKS: u32 = 200_000;

/// The most workers of a run.
const MOST_WORKERS: u32 = 16;

/// What comes of the first run of a case that isn't as it is wanted, if there is one. The runs before it are counted.
pub fn difference_of_case<R: Threads + Wait + Sync>(
    rt: &R,
    alloc: Global,
    case: &str,
    runs: &mut u32,
) -> Result<Option<String>, Trouble> {
    let stimulus = stimulus_of(alloc, case)?;
    let stim = read_stim(alloc, stimulus.as_bytes())?;
    let image = read_image(alloc, case)?;
    difference_of_runs(rt, alloc, case, &image, &stim, runs)
}

/// The lines of a case's stimulus.
fn stimulus_of(alloc: Global, case: &str) -> Result<String, AllocError> {
    let mut stimulus = String::new(alloc);
    for line in case.split('\n') {
        if let Some(line) = line.strip_prefix("stim ") {
            stimulus.push_str(line)?;
            stimulus.push('\n')?;
        }
    }
    Ok(stimulus)
}

/// The same, of an image and a stimulus that are read.
fn difference_of_runs<R: Threads + Wait + Sync>(
    rt: &R,
    alloc: Global,
    case: &str,
    image: &Image,
    stim: &Stim,
    runs: &mut u32,
) -> Result<Option<String>, Trouble>
    requires image { Valid image.now }
    requires stim { IsGoodStim stim.now }
{
    for line in case.split('\n') {
        if let Some((workers, line)) = run_in(line) {
            let wanted = wanted_of(workers, line)?;
            let difference = difference_of_run(rt, alloc, image, stim, wanted)?;
            if difference.is_some() {
                return Ok(difference);
            }
            *runs = runs.saturating_add(1);
        }
    }
    Ok(None)
}

/// Up to how many workers make a run, and what is wanted of it, where a line is of one.
fn run_in(line: &str) -> Option<(u32, &str)>
    ensures { IfSome result (λ run. run.0 ≤ 16) }
{
    if let Some(wanted) = line.strip_prefix("alone ") {
        return Some((0, wanted));
    }
    if let Some(wanted) = line.strip_prefix("run ") {
        return Some((MOST_WORKERS, wanted));
    }
    None
}

/// What a line wants of a run: the ticks, the end word and the number of records.
fn wanted_of(workers: u32, line: &str) -> Result<Wanted, Trouble>
    ensures ticks { IfOk result (λ wanted. (1 ≤ wanted.ticks) × (wanted.ticks ≤ 200000)) }
    ensures workers { IfOk result (λ wanted. wanted.workers ≡ workers) }
{
    let (ticks, rest) = line.split_once(' ').ok_or(Trouble::Line)?;
    let (end, records) = rest.split_once(' ').ok_or(Trouble::Line)?;
    let ticks = number(ticks)?;
    let end = end_named(end)?;
    let records = number(records)?;
    if ticks < 1 || ticks > MOST_TICKS {
        return Err(Trouble::Line);
    }
    Ok(Wanted {
        workers,
        ticks,
        end,
        records,
    })
}

fn end_named(name: &str) -> Result<EndWord, Trouble> {
    match name {
        "finished" => Ok(EndWord::Finished),
        "trapped" => Ok(EndWord::Trapped),
        "stuck" => Ok(EndWord::Stuck),
        "stopped" => Ok(EndWord::Stopped),
        _ => Err(Trouble::Line),
    }
}

fn number(text: &str) -> Result<u32, Trouble> {
    match text.parse::<u32>() {
        Ok(number) => Ok(number),
        Err(_) => Err(Trouble::Line),
    }
}
