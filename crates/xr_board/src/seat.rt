// A core's seat on a board.

ghost use Rattle.std.specs.Prelude.{◌≡◌, ◌<◌};
ghost use Rattle.xr_board.specs.BoardTurns.{IsAnswer, IsInRange};

use crate::board::BoardTurn;
use crate::cell::Cell;
use crate::core_name::CoreName;
use crate::turned::Turned;
use crate::waiting::{PATIENCE, wait};
use std::alloc::Global;
use std::sync::{Mutex, MutexGuard, Wait};
use xr_windows::{Batch, Part, RunName};
use xw_io::Gate;
use xw_words::List;

/// How many words two lines of the cache have, which a processor takes together.
const WORDS: usize = 16;

/// A core's cell under its lock.
pub struct Seat<U: RunName, C: CoreName> {
    kept: Mutex<Apart<U, C>>,
}

/// A cell with unused bytes beside it, so that who tries its lock takes no line of the cache from who runs it.
#[repr(C)]
struct Apart<U: RunName, C: CoreName> {
    before: [u64; WORDS],
    cell: Cell<U, C>,
    after: [u64; WORDS],
}

impl<U: RunName, C: CoreName> Seat<U, C> {
    ghost use Rattle.std.specs.Prelude.{◌≡◌, ◌<◌, false, remove, slice_index_or, true, vec_len};
    ghost use Rattle.xr_board.specs.BoardTurns.{CanAnswer, IsInRange};
    ghost use Rattle.xr_windows.specs.Parts.{IsPartOf};
    ghost use Rattle.xr_windows.specs.Sending.{Sending};

    /// The seat of a core before its first window. It takes no memory.
    pub fn new(part: Part) -> Seat<U, C>
        requires part { IsPartOf U.listing U.stimulus U.ticks part }
        requires number { part.home.number ≡ C.number }
        requires start { part.ran ≡ 0 }
    {
        Seat {
            kept: Mutex::new(Apart {
                before: [0; WORDS],
                cell: Cell::new(part),
                after: [0; WORDS],
            }),
        }
    }

    /// The cell's turn under its lock, and the batches that are to be handed over then.
    pub fn turn<G: Gate, R: Wait>(
        &self,
        rt: &R,
        alloc: Global,
        gate: &G,
    ) -> (BoardTurn, List<Batch<U>>)
        ensures answer { CanAnswer U.ticks C.number result.0 }
        ensures range { IsInRange result.0 }
    {
        let mut kept = self.lock(rt);
        turn_of::<U, C, G>(&mut kept.cell, alloc, gate)
    }

    /// One of these batches goes into the cell, where nobody holds its lock. Whether it did; else the batches are as they were.
    pub fn try_take(&self, batches: &mut Vec<Batch<U>>, at: usize) -> bool
        requires at { at < vec_len batches.old }
        requires to { (b : Sending) → (slice_index_or batches.old.items at b).to ≡ C.number }
        ensures taken { result ≡ true → batches.new.items ≡ remove batches.old.items at }
        ensures held { result ≡ false → batches.new ≡ batches.old }
    {
        match self.kept.try_lock() {
            Some(mut kept) => {
                drop(kept.cell.accept(batches.remove(at)));
                true
            }
            None => false,
        }
    }

    /// Sets the stop mark of the cell.
    pub fn stop<R: Wait>(&self, rt: &R) {
        self.lock(rt).cell.stop();
    }

    /// The cell out of its lock.
    pub fn into_cell(self) -> Cell<U, C> {
        let Seat { kept } = self;
        let Apart {
            before: _,
            cell,
            after: _,
        } = kept.into_inner();
        cell
    }

    // The lock, which is tried until nobody holds it.
    fn lock<R: Wait>(&self, rt: &R) -> MutexGuard<'_, Apart<U, C>> {
        let mut waited = 0;
        for _ in rt.forever() {
            if let Some(kept) = self.kept.try_lock() {
                return kept;
            }
            waited = wait(waited, PATIENCE);
        }
        unreachable!()
    }
}

/// The turn of a cell that its lock lends, and the batches that are to be handed over.
fn turn_of<U: RunName, C: CoreName, G: Gate>(
    cell: &mut Cell<U, C>,
    alloc: Global,
    gate: &G,
) -> (BoardTurn, List<Batch<U>>)
    ensures answer { IsAnswer U.listing U.stimulus U.ticks C.number cell.old result.0 result.1
        cell.new }
    ensures range { IsInRange result.0 }
{
    cell.is_cell();
    let window = cell.ran();
    let answer = match cell.turn(alloc, gate) {
        Turned::Ran(out) => return (BoardTurn::Ran(window), out),
        Turned::Lacks { from, window } => BoardTurn::Lacks { from, window },
        Turned::AtEnd => BoardTurn::AtEnd,
        Turned::Stopped => BoardTurn::Stopped,
        Turned::Memory => BoardTurn::Memory,
    };
    (answer, List::new(alloc))
}
