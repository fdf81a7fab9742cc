// The four cores of a run.

ghost use Rattle.std.specs.Prelude.{◌≡◌, ◌<◌, IfOk};
ghost use Rattle.xr_board.specs.ForCores.{AllStart, IsTask, StartsAs};
ghost use Rattle.xr_windows.specs.Parts.{IsPartOf};

use std::alloc::Global;
use xr_windows::{Part, RunName};
use xs_core::Core;
use xs_instr::{Image, Stim};
use xw_words::Memory;

/// The four cores of a run, by number.
#[derive(Drop)]
pub struct Parts {
    pub first: Part,
    pub second: Part,
    pub third: Part,
    pub fourth: Part,
}

impl Parts {
    /// The four cores of the run that U names, of which none has run a window. The one error is want of memory.
    pub fn new<U: RunName>(
        alloc: Global,
        image: &Image,
        stim: &Stim,
        ticks: u32,
    ) -> Result<Parts, Memory>
        requires task { IsTask U.listing U.stimulus U.ticks image.now stim.now ticks }
        ensures { IfOk result (AllStart U.listing U.stimulus U.ticks) }
    {
        let first = part_of::<U>(alloc, image, stim, ticks, 0)?;
        with_first::<U>(alloc, image, stim, ticks, first)
    }
}

/// The same, where the cores before the second one are there.
fn with_first<U: RunName>(
    alloc: Global,
    image: &Image,
    stim: &Stim,
    ticks: u32,
    first: Part,
) -> Result<Parts, Memory>
    requires task { IsTask U.listing U.stimulus U.ticks image.now stim.now ticks }
    requires first { StartsAs U.listing U.stimulus U.ticks 0 first }
    ensures { IfOk result (AllStart U.listing U.stimulus U.ticks) }
{
    match part_of::<U>(alloc, image, stim, ticks, 1) {
        Ok(second) => with_second::<U>(alloc, image, stim, ticks, first, second),
        Err(Memory) => {
            drop(first);
            Err(Memory)
        }
    }
}

/// The same, where the cores before the third one are there.
fn with_second<U: RunName>(
    alloc: Global,
    image: &Image,
    stim: &Stim,
    ticks: u32,
    first: Part,
    second: Part,
) -> Result<Parts, Memory>
    requires task { IsTask U.listing U.stimulus U.ticks image.now stim.now ticks }
    requires first { StartsAs U.listing U.stimulus U.ticks 0 first }
    requires second { StartsAs U.listing U.stimulus U.ticks 1 second }
    ensures { IfOk result (AllStart U.listing U.stimulus U.ticks) }
{
    match part_of::<U>(alloc, image, stim, ticks, 2) {
        Ok(third) => with_third::<U>(alloc, image, stim, ticks, first, second, third),
        Err(Memory) => {
            drop(first);
            drop(second);
            Err(Memory)
        }
    }
}

/// The same, where the cores before the fourth one are there.
fn with_third<U: RunName>(
    alloc: Global,
    image: &Image,
    stim: &Stim,
    ticks: u32,
    first: Part,
    second: Part,
    third: Part,
) -> Result<Parts, Memory>
    requires task { IsTask U.listing U.stimulus U.ticks image.now stim.now ticks }
    requires first { StartsAs U.listing U.stimulus U.ticks 0 first }
    requires second { StartsAs U.listing U.stimulus U.ticks 1 second }
    requires third { StartsAs U.listing U.stimulus U.ticks 2 third }
    ensures { IfOk result (AllStart U.listing U.stimulus U.ticks) }
{
    match part_of::<U>(alloc, image, stim, ticks, 3) {
        Ok(fourth) => Ok(Parts {
            first,
            second,
            third,
            fourth,
        }),
        Err(Memory) => {
            drop(first);
            drop(second);
            drop(third);
            Err(Memory)
        }
    }
}

/// Core `number` of the run that U names, before its first window. The one error is want of memory.
fn part_of<U: RunName>(
    alloc: Global,
    image: &Image,
    stim: &Stim,
    ticks: u32,
    number: u8,
) -> Result<Part, Memory>
    requires task { IsTask U.listing U.stimulus U.ticks image.now stim.now ticks }
    requires number { number < 4 }
    ensures part { IfOk result (λ part. IsPartOf U.listing U.stimulus U.ticks part) }
    ensures number { IfOk result (λ part. part.home.number ≡ number) }
    ensures start { IfOk result (λ part. part.ran ≡ 0) }
{
    let core = Core::new(alloc, image, number, stim)?;
    Ok(Part::new(alloc, core, ticks))
}
