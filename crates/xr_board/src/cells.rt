// Four cells out of their locks, from which a run is gathered.

ghost use Rattle.std.specs.Prelude.{◌≡◌, IfOk, None};
ghost use Rattle.xr_board.specs.CellState.{IsCell};
ghost use Rattle.xr_board.specs.Gathers.{IsGathered, short_of};
ghost use Rattle.xr_windows.specs.Telling.{IsLockstep};

use crate::cell::Cell;
use crate::core_name::{Core0, Core1, Core2, Core3};
use std::alloc::Global;
use xr_windows::{Run, RunName, merged_run};
use xw_words::Memory;

/// Why a run isn't gathered.
#[derive(Clone, Copy, PartialEq, Eq, Debug)]
pub enum GatherErr {
    /// That core hasn't run that window.
    Short { core: u8, window: u32 },
    /// Memory was wanting.
    Memory,
}

/// The four cells of the run that U names. They are not let go but by `gather` or `let_go`, or one by one.
pub struct Cells<U: RunName> {
    pub first: Cell<U, Core0>,
    pub second: Cell<U, Core1>,
    pub third: Cell<U, Core2>,
    pub fourth: Cell<U, Core3>,
}

impl<U: RunName> Cells<U> {
    /// What their types keep.
    pub fn are_cells(&self)
        ensures first { IsCell U.listing U.stimulus U.ticks 0 self.now.first }
        ensures second { IsCell U.listing U.stimulus U.ticks 1 self.now.second }
        ensures third { IsCell U.listing U.stimulus U.ticks 2 self.now.third }
        ensures fourth { IsCell U.listing U.stimulus U.ticks 3 self.now.fourth }
    {
        self.first.is_cell();
        self.second.is_cell();
        self.third.is_cell();
        self.fourth.is_cell();
    }

    /// The run that the four cells make together, where each has run its last window: what the run in lockstep tells. The cells are
    /// dropped.
    pub fn gather(self, alloc: Global) -> Result<Run, GatherErr>
        ensures run { IfOk result (λ run. IsLockstep U.listing U.stimulus U.ticks run) }
        ensures short { IsGathered
            (short_of U.ticks self.first.part.ran self.second.part.ran self.third.part.ran
            self.fourth.part.ran) result }
    {
        let Cells {
            first,
            second,
            third,
            fourth,
        } = self;
        let run = gathered::<U>(alloc, &first, &second, &third, &fourth);
        drop(first);
        drop(second);
        drop(third);
        drop(fourth);
        run
    }

    /// Lets the cells go, one by one.
    pub fn let_go(self) {
        let Cells {
            first,
            second,
            third,
            fourth,
        } = self;
        drop(first);
        drop(second);
        drop(third);
        drop(fourth);
    }
}

/// What four cells tell that are lent.
fn gathered<U: RunName>(
    alloc: Global,
    first: &Cell<U, Core0>,
    second: &Cell<U, Core1>,
    third: &Cell<U, Core2>,
    fourth: &Cell<U, Core3>,
) -> Result<Run, GatherErr>
    ensures run { IfOk result (λ run. IsLockstep U.listing U.stimulus U.ticks run) }
    ensures short { IsGathered (short_of U.ticks first.now.part.ran second.now.part.ran
        third.now.part.ran fourth.now.part.ran) result }
{
    if let Some((core, window)) = short::<U>(first, second, third, fourth) {
        return Err(GatherErr::Short { core, window });
    }
    match all_told::<U>(alloc, first, second, third, fourth) {
        Ok(run) => Ok(run),
        Err(Memory) => Err(GatherErr::Memory),
    }
}

/// The least core that hasn't run its last window, with the first window that it hasn't run.
fn short<U: RunName>(
    first: &Cell<U, Core0>,
    second: &Cell<U, Core1>,
    third: &Cell<U, Core2>,
    fourth: &Cell<U, Core3>,
) -> Option<(u8, u32)>
    ensures { result ≡ short_of U.ticks first.now.part.ran second.now.part.ran
        third.now.part.ran fourth.now.part.ran }
{
    if let Some(window) = first.short() {
        return Some((0, window));
    }
    if let Some(window) = second.short() {
        return Some((1, window));
    }
    if let Some(window) = third.short() {
        return Some((2, window));
    }
    if let Some(window) = fourth.short() {
        return Some((3, window));
    }
    None
}

/// What the cells tell where none is short.
fn all_told<U: RunName>(
    alloc: Global,
    first: &Cell<U, Core0>,
    second: &Cell<U, Core1>,
    third: &Cell<U, Core2>,
    fourth: &Cell<U, Core3>,
) -> Result<Run, Memory>
    requires { short_of U.ticks first.now.part.ran second.now.part.ran third.now.part.ran
        fourth.now.part.ran ≡ None }
    ensures { IfOk result (λ run. IsLockstep U.listing U.stimulus U.ticks run) }
{
    first.is_cell();
    second.is_cell();
    third.is_cell();
    fourth.is_cell();
    merged_run::<U>(
        alloc,
        first.part(),
        second.part(),
        third.part(),
        fourth.part(),
    )
}
