// A run without locks.

ghost use Rattle.std.specs.Prelude.{◌≡◌, ◌<◌, ◌≤◌, ◌+◌, IfOk, OnOk};
ghost use Rattle.xr_board.specs.ForCores.{AllStart, AreAdded, AreReady, IsTask, StartsAs};
ghost use Rattle.xr_windows.specs.Parts.{IsLast, IsPartOf};
ghost use Rattle.xr_windows.specs.Sending.{batches_from, batches_to};
ghost use Rattle.xr_windows.specs.Telling.{IsLockstep};
ghost use Rattle.xr_windows.specs.Windows.{windows_of};
ghost use Rattle.xs_instr.specs.Valid.{IsGoodStim, Valid};

use crate::batches::Batches;
use crate::parts::Parts;
use std::alloc::Global;
use std::marker::Brand;
use std::mem;
use xr_windows::{Batch, Needs, Part, Run, RunName, merged_run};
use xs_instr::{Image, Stim};
use xw_words::{List, Memory};

/// How many ticks a window has, but for the last one of a run.
const WINDOW: u32 = 8;

/// The run in lockstep of an image under a stimulus, for 1 to 200,000 ticks, window by window, without a lock and without a gate. It
/// waits for nobody. The one error is want of memory.
pub fn run_alone(alloc: Global, image: &Image, stim: &Stim, ticks: u32) -> Result<Run, Memory>
    requires image { Valid image.now }
    requires stim { IsGoodStim stim.now }
    requires ticks { (1 ≤ ticks) × (ticks ≤ 200000) }
    ensures { IfOk result (λ run. IsLockstep image.now stim.now ticks run) }
{
    run_named::<Brand>(alloc, image, stim, ticks)
}

/// The run that U names.
fn run_named<U: RunName>(
    alloc: Global,
    image: &Image,
    stim: &Stim,
    ticks: u32,
) -> Result<Run, Memory>
    requires task { IsTask U.listing U.stimulus U.ticks image.now stim.now ticks }
    ensures { IfOk result (λ run. IsLockstep U.listing U.stimulus U.ticks run) }
{
    let mut parts = Parts::new::<U>(alloc, image, stim, ticks)?;
    let run = run_parts::<U>(alloc, ticks, &mut parts);
    drop(parts);
    run
}

/// The same, where the cores are lent.
fn run_parts<U: RunName>(alloc: Global, ticks: u32, parts: &mut Parts) -> Result<Run, Memory>
    requires ticks { ticks ≡ U.ticks }
    requires few { ticks ≤ 200000 }
    requires start { AllStart U.listing U.stimulus U.ticks parts.old }
    ensures { IfOk result (λ run. IsLockstep U.listing U.stimulus U.ticks run) }
{
    let Parts {
        first,
        second,
        third,
        fourth,
    } = parts;
    run_cores::<U>(alloc, ticks, first, second, third, fourth)?;
    merged_run::<U>(alloc, first, second, third, fourth)
}

/// All windows of the four cores, by number, of which none has run one. The one error is want of memory.
fn run_cores<U: RunName>(
    alloc: Global,
    ticks: u32,
    first: &mut Part,
    second: &mut Part,
    third: &mut Part,
    fourth: &mut Part,
) -> Result<(), Memory>
    requires ticks { ticks ≡ U.ticks }
    requires few { ticks ≤ 200000 }
    requires first { StartsAs U.listing U.stimulus U.ticks 0 first.old }
    requires second { StartsAs U.listing U.stimulus U.ticks 1 second.old }
    requires third { StartsAs U.listing U.stimulus U.ticks 2 third.old }
    requires fourth { StartsAs U.listing U.stimulus U.ticks 3 fourth.old }
    ensures first { OnOk result (IsLast U.listing U.stimulus U.ticks 0 first.new) }
    ensures second { OnOk result (IsLast U.listing U.stimulus U.ticks 1 second.new) }
    ensures third { OnOk result (IsLast U.listing U.stimulus U.ticks 2 third.new) }
    ensures fourth { OnOk result (IsLast U.listing U.stimulus U.ticks 3 fourth.new) }
{
    let mut got = Batches::new(alloc);
    'windows: for ran in 0..(ticks + WINDOW - 1) / WINDOW {
        run_window::<U>(alloc, first, second, third, fourth, &mut got)?;
    }
    Ok(())
}

/// The next window of the four cores, by number, with what goes to it and then what comes out of it. The one error is want of memory.
fn run_window<U: RunName>(
    alloc: Global,
    first: &mut Part,
    second: &mut Part,
    third: &mut Part,
    fourth: &mut Part,
    got: &mut Batches<U>,
) -> Result<(), Memory>
    requires ready { AreReady U.listing U.stimulus U.ticks first.old.ran first.old second.old
        third.old fourth.old got.old.to0 got.old.to1 got.old.to2 got.old.to3 }
    requires left { first.old.ran < windows_of U.ticks }
    ensures ready { OnOk result (AreReady U.listing U.stimulus U.ticks (first.old.ran + 1)
        first.new second.new third.new fourth.new got.new.to0 got.new.to1 got.new.to2
        got.new.to3) }
{
    let Batches { to0, to1, to2, to3 } = mem::replace(got, Batches::new(alloc));
    run_core::<U>(first, alloc, to0, got)?;
    run_core::<U>(second, alloc, to1, got)?;
    run_core::<U>(third, alloc, to2, got)?;
    run_core::<U>(fourth, alloc, to3, got)?;
    Ok(())
}

/// The next window of a core, whose batches are added. The one error is want of memory.
fn run_core<U: RunName>(
    part: &mut Part,
    alloc: Global,
    got: List<Batch<U>>,
    next: &mut Batches<U>,
) -> Result<(), Memory>
    requires part { IsPartOf U.listing U.stimulus U.ticks part.old }
    requires left { part.old.ran < windows_of U.ticks }
    requires got { got
        ≡ batches_to U.listing U.stimulus U.ticks part.old.home.number part.old.ran }
    ensures part { OnOk result (IsPartOf U.listing U.stimulus U.ticks part.new) }
    ensures ran { OnOk result (part.new.ran ≡ part.old.ran + 1) }
    ensures number { part.new.home.number ≡ part.old.home.number }
    ensures sent { OnOk result (AreAdded
        (batches_from U.listing U.stimulus U.ticks part.old.home.number part.old.ran)
        next.old.to0 next.old.to1 next.old.to2 next.old.to3 next.new.to0 next.new.to1
        next.new.to2 next.new.to3) }
{
    let mut got = Needs::of(got);
    let out = part.run_with::<U>(alloc, &mut got);
    drop(got);
    next.add_all(out?)
}
