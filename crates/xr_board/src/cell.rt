// A core's part of a run, with what has come for it.

ghost use Rattle.std.specs.Prelude.{◌≡◌, ◌<◌, ◌≤◌, None, true};

use crate::core_name::CoreName;
use crate::places::{first_lacking, move_up, place};
use crate::turned::Turned;
use std::alloc::Global;
use std::marker::{Model, PhantomData};
use xr_windows::{Batch, Needs, Part, RunName};
use xw_io::Gate;

/// The part of the core that C names in the run that U names, and the batches of that run that have come for it.
#[derive(Drop)]
pub struct Cell<U: RunName, C: CoreName> {
    part: Part,
    stopped: bool,
    earlier: Needs<U>,
    later: Needs<U>,
    of: PhantomData<C>,
}

impl<U: RunName, C: CoreName> Model for Cell<U, C> {
    ghost use Rattle.xr_board.specs.CellState.{CellState, IsCell};

    ghost Value = { CellState };

    ghost view = { λ c. record {
      part = c.part;
      stopped = c.stopped;
      from0 = record { earlier = c.earlier.from0; later = c.later.from0 };
      from1 = record { earlier = c.earlier.from1; later = c.later.from1 };
      from2 = record { earlier = c.earlier.from2; later = c.later.from2 };
      from3 = record { earlier = c.earlier.from3; later = c.later.from3 };
    } };

    ghost invariant = { λ c. IsCell U.listing U.stimulus U.ticks C.number (record {
      part = c.part;
      stopped = c.stopped;
      from0 = record { earlier = c.earlier.from0; later = c.later.from0 };
      from1 = record { earlier = c.earlier.from1; later = c.later.from1 };
      from2 = record { earlier = c.earlier.from2; later = c.later.from2 };
      from3 = record { earlier = c.earlier.from3; later = c.later.from3 };
    }) };
}

impl<U: RunName, C: CoreName> Cell<U, C> {
    ghost use Rattle.xr_board.specs.CellState.{IsAccepted, IsCell, accepted, new_cell, lacking_in};
    ghost use Rattle.xr_board.specs.Short.{short_in};
    ghost use Rattle.xr_board.specs.Turns.{CanTry, IsTurn};
    ghost use Rattle.xr_windows.specs.Parts.{IsPartOf};

    /// A cell of a core before its first window, for which nothing has come.
    pub fn new(part: Part) -> Cell<U, C>
        requires part { IsPartOf U.listing U.stimulus U.ticks part }
        requires number { part.home.number ≡ C.number }
        requires start { part.ran ≡ 0 }
        ensures { result ≡ new_cell part }
    {
        Cell {
            part,
            stopped: false,
            earlier: Needs::nothing(),
            later: Needs::nothing(),
            of: PhantomData,
        }
    }

    /// What the type keeps.
    pub fn is_cell(&self)
        ensures { IsCell U.listing U.stimulus U.ticks C.number self.now }
    {
        let _ = &self.part;
    }

    /// How many windows it has run.
    pub fn ran(&self) -> u32
        ensures ran { result ≡ self.now.part.ran }
        ensures few { result ≤ 25000 }
    {
        self.part.ran()
    }

    /// The first window that it hasn't run, where there is one.
    pub fn short(&self) -> Option<u32>
        ensures { result ≡ short_in U.ticks self.now.part.ran }
    {
        if self.part.is_done() {
            return None;
        }
        Some(self.part.ran())
    }

    /// The core's part.
    pub fn part(&self) -> &Part
        ensures { result.now ≡ self.now.part }
    {
        &self.part
    }

    /// Sets the stop mark.
    pub fn stop(&mut self)
        ensures { self.new ≡ record self.old { stopped = true } }
    {
        self.stopped = true;
    }

    /// Puts a batch to this core, of this cell's run, into its place. The two places of a sender are for its windows k - 1 and k,
    /// where k is how many windows the cell has run. A batch of another window, or one whose place is taken, is given back, and
    /// nothing changes. It takes no memory.
    pub fn accept(&mut self, batch: Batch<U>) -> Option<Batch<U>>
        requires { batch.to ≡ C.number }
        ensures { IsAccepted (accepted self.old batch) self.old batch result self.new }
    {
        batch.is_sent();
        let ran = self.part.ran();
        match batch.from {
            0 => place(&mut self.earlier.from0, &mut self.later.from0, ran, batch),
            1 => place(&mut self.earlier.from1, &mut self.later.from1, ran, batch),
            2 => place(&mut self.earlier.from2, &mut self.later.from2, ran, batch),
            _ => place(&mut self.earlier.from3, &mut self.later.from3, ran, batch),
        }
    }

    /// Runs the next window, unless the cell is stopped, has run its last window, or lacks a batch, and answers what the window
    /// sent. The gate is asked before a window alone. Where no window is run nothing changes, want of memory among the reasons.
    pub fn turn<G: Gate>(&mut self, alloc: Global, gate: &G) -> Turned<U>
        ensures { IsTurn U.listing U.stimulus U.ticks C.number self.old result self.new }
    {
        if self.stopped {
            return Turned::Stopped;
        }
        if self.part.is_done() {
            return Turned::AtEnd;
        }
        let window = self.part.ran();
        if window > 0 {
            if let Some(from) = self.lacking() {
                return Turned::Lacks {
                    from,
                    window: window - 1,
                };
            }
        }
        gate.before(self.part.number() as u32, window);
        self.run(alloc)
    }

    // The least other core whose batch of the window before isn't there.
    fn lacking(&self) -> Option<u8>
        ensures { result ≡ lacking_in C.number self.now }
    {
        first_lacking::<U>(self.part.number(), &self.earlier)
    }

    // Runs the next window, where one is left and its batches are there.
    fn run(&mut self, alloc: Global) -> Turned<U>
        requires can { CanTry U.ticks self.old }
        requires there { 0 < self.old.part.ran → lacking_in C.number self.old ≡ None }
        ensures { IsTurn U.listing U.stimulus U.ticks C.number self.old result self.new }
    {
        let Ok(out) = self.part.run_with::<U>(alloc, &mut self.earlier) else {
            return Turned::Memory;
        };
        move_up::<U>(&mut self.earlier, &mut self.later);
        Turned::Ran(out)
    }
}
