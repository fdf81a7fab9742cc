// Four cells under locks.

ghost use Rattle.std.specs.Prelude.{◌≡◌, ◌<◌, ◌≤◌, vec_len};
ghost use Rattle.xr_board.specs.BoardTurns.{CanAnswer, IsInRange};
ghost use Rattle.xr_board.specs.CellState.{IsCell};
ghost use Rattle.xr_board.specs.ForCores.{AllStart};
ghost use Rattle.xs_instr.specs.Valid.{IsGoodStim, Valid};

use crate::cells::Cells;
use crate::core_name::{Core0, Core1, Core2, Core3};
use crate::parts::Parts;
use crate::seat::Seat;
use crate::task::Task;
use crate::waiting::{PATIENCE, wait};
use std::alloc::Global;
use std::sync::Wait;
use xr_windows::{Batch, RunName};
use xs_instr::{Image, Stim};
use xw_io::Gate;
use xw_words::{List, Memory};

/// What came of a turn on the board.
#[derive(Clone, Copy, PartialEq, Eq, Debug)]
pub enum BoardTurn {
    /// That window was run, and its batches were handed over.
    Ran(u32),
    /// That core's batch of that window wasn't there.
    Lacks { from: u8, window: u32 },
    /// The core's last window was run before.
    AtEnd,
    /// The core's stop mark is set.
    Stopped,
    /// Memory was wanting.
    Memory,
}

/// The four cores of the run that U names, each cell under a lock of its own, with copies of the image and the stimulus. It is not let go
/// but by `cells` or `run_workers`.
pub struct Board<U: RunName> {
    first: Seat<U, Core0>,
    second: Seat<U, Core1>,
    third: Seat<U, Core2>,
    fourth: Seat<U, Core3>,
    task: Task<U>,
}

impl<U: RunName> Board<U> {
    /// The board of an image's run under a stimulus, with copies of both, for 1 to 200,000 ticks. The one error is want of memory.
    pub fn new(alloc: Global, image: &Image, stim: &Stim, ticks: u32) -> Result<Board<U>, Memory>
        requires image { image.now ≡ U.listing }
        requires valid { Valid image.now }
        requires stim { stim.now ≡ U.stimulus }
        requires good { IsGoodStim stim.now }
        requires ticks { ticks ≡ U.ticks }
        requires some { 1 ≤ ticks }
        requires few { ticks ≤ 200000 }
    {
        let task = Task::new(alloc, image, stim, ticks)?;
        match Parts::new::<U>(alloc, image, stim, ticks) {
            Ok(parts) => Ok(Board::of(task, parts)),
            Err(Memory) => {
                drop(task);
                Err(Memory)
            }
        }
    }

    // The board of four cores, of which none has run a window.
    fn of(task: Task<U>, parts: Parts) -> Board<U>
        requires { AllStart U.listing U.stimulus U.ticks parts }
    {
        let Parts {
            first,
            second,
            third,
            fourth,
        } = parts;
        Board {
            first: Seat::new(first),
            second: Seat::new(second),
            third: Seat::new(third),
            fourth: Seat::new(fourth),
            task,
        }
    }

    /// A core's turn under its lock, and then each batch handed over to its cell under that cell's lock, those first whose lock nobody holds. A batch that
    /// a cell gives back is dropped. The gate is asked under the core's lock and no other. What the cell was when the lock was taken no clause
    /// can say, so of an answer it is known what it can be.
    pub fn turn<G: Gate, R: Wait>(&self, rt: &R, alloc: Global, core: u8, gate: &G) -> BoardTurn
        requires { core < 4 }
        ensures answer { CanAnswer U.ticks core result }
        ensures range { IsInRange result }
    {
        let (answer, out) = match core {
            0 => self.first.turn(rt, alloc, gate),
            1 => self.second.turn(rt, alloc, gate),
            2 => self.third.turn(rt, alloc, gate),
            _ => self.fourth.turn(rt, alloc, gate),
        };
        self.hand_over(rt, core, out);
        answer
    }

    // Hands over what a core has sent, each batch where nobody holds its cell's lock. It begins behind the core, so that not all cores begin at the
    // same one.
    fn hand_over<R: Wait>(&self, rt: &R, core: u8, out: List<Batch<U>>) {
        let mut left = out.into_vec();
        let mut at = core as usize;
        let mut waited = 0;
        for _ in rt.forever() {
            if left.is_empty() {
                return;
            }
            at %= left.len();
            if !self.try_hand(&mut left, at) {
                at += 1;
                waited = wait(waited, PATIENCE);
            }
        }
    }

    // Hands over one of the batches, where nobody holds its cell's lock. Whether it did.
    fn try_hand(&self, batches: &mut Vec<Batch<U>>, at: usize) -> bool
        requires { at < vec_len batches.old }
    {
        batches[at].is_sent();
        match batches[at].to {
            0 => self.first.try_take(batches, at),
            1 => self.second.try_take(batches, at),
            2 => self.third.try_take(batches, at),
            _ => self.fourth.try_take(batches, at),
        }
    }

    /// Sets each stop mark.
    pub fn stop<R: Wait>(&self, rt: &R) {
        self.first.stop(rt);
        self.second.stop(rt);
        self.third.stop(rt);
        self.fourth.stop(rt);
    }

    /// The four cells out of their locks. Of these what their type says is known. It takes no memory.
    pub fn cells(self) -> Cells<U>
        ensures first { IsCell U.listing U.stimulus U.ticks 0 result.first }
        ensures second { IsCell U.listing U.stimulus U.ticks 1 result.second }
        ensures third { IsCell U.listing U.stimulus U.ticks 2 result.third }
        ensures fourth { IsCell U.listing U.stimulus U.ticks 3 result.fourth }
    {
        let (cells, image, stim) = self.into_parts();
        drop(image);
        drop(stim);
        cells.are_cells();
        cells
    }

    /// For how many ticks the run goes.
    pub(crate) fn ticks(&self) -> u32
        ensures { result ≡ U.ticks }
    {
        self.task.ticks()
    }

    /// The four cells out of their locks, and the copies of the image and the stimulus.
    pub(crate) fn into_parts(self) -> (Cells<U>, Image, Stim)
        ensures image { result.1 ≡ U.listing }
        ensures stim { result.2 ≡ U.stimulus }
    {
        let Board {
            first,
            second,
            third,
            fourth,
            task,
        } = self;
        let cells = Cells {
            first: first.into_cell(),
            second: second.into_cell(),
            third: third.into_cell(),
            fourth: fourth.into_cell(),
        };
        let (image, stim) = task.into_copies();
        (cells, image, stim)
    }
}
