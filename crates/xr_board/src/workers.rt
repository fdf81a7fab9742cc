// Workers that take the turns of a board's cells.

ghost use Rattle.std.specs.Prelude.{◌≡◌, ◌<◌, ◌≤◌, IfOk, IfSome};
ghost use Rattle.xr_board.specs.ForCores.{IsTask};
ghost use Rattle.xr_windows.specs.Telling.{IsLockstep};
ghost use Rattle.xs_instr.specs.Valid.{IsGoodStim, Valid};

use crate::alone::run_alone;
use crate::board::{Board, BoardTurn};
use crate::cells::{Cells, GatherErr};
use crate::waiting::{PATIENCE, wait};
use std::alloc::Global;
use std::marker::Brand;
use std::sync::Wait;
use std::thread;
use std::thread::{JoinHandle, Scope, Threads};
use xr_windows::{Run, RunName};
use xs_instr::{Image, Stim};
use xw_io::Gate;
use xw_words::Memory;

/// How often a worker waits for a batch, a pause apart, before it lets other threads go on, where some workers share a processor: there to wait keeps
/// those waiting that it waits for.
const LITTLE_PATIENCE: u32 = 16;

/// The run of the board, by 1 to 16 workers: what the run in lockstep tells. With W the lesser of their number and 4, worker w serves
/// the cores whose number modulo W is w. The caller is worker 0, and serves the cores of a worker that can't be started too. Where
/// all have ended, memory was there for all, and still some core hasn't run its last window, the caller runs the board's image alone.
/// The one error is want of memory. The board is dropped.
pub fn run_workers<U: RunName + Send + Sync, G: Gate + Sync, R: Threads + Wait + Sync>(
    rt: &R,
    alloc: Global,
    board: Board<U>,
    workers: u32,
    gate: &G,
) -> Result<Run, Memory>
    requires { (1 ≤ workers) × (workers ≤ 16) }
    ensures { IfOk result (λ run. IsLockstep U.listing U.stimulus U.ticks run) }
{
    let workers = if workers < 4 { workers as u8 } else { 4 };
    if !serve_all::<U, G, R>(rt, alloc, &board, workers, gate) {
        board.cells().let_go();
        return Err(Memory);
    }
    finish(alloc, board)
}

/// The run in lockstep of an image under a stimulus, for 1 to 200,000 ticks, by 1 to 16 workers on a board of its own, as `run_workers` makes
/// it. The one error is want of memory.
pub fn run_by_workers<G: Gate + Sync, R: Threads + Wait + Sync>(
    rt: &R,
    alloc: Global,
    image: &Image,
    stim: &Stim,
    ticks: u32,
    workers: u32,
    gate: &G,
) -> Result<Run, Memory>
    requires image { Valid image.now }
    requires stim { IsGoodStim stim.now }
    requires ticks { (1 ≤ ticks) × (ticks ≤ 200000) }
    requires workers { (1 ≤ workers) × (workers ≤ 16) }
    ensures { IfOk result (λ run. IsLockstep image.now stim.now ticks run) }
{
    run_named::<Brand, G, R>(rt, alloc, image, stim, ticks, workers, gate)
}

/// The run that U names.
fn run_named<U: RunName + Send + Sync, G: Gate + Sync, R: Threads + Wait + Sync>(
    rt: &R,
    alloc: Global,
    image: &Image,
    stim: &Stim,
    ticks: u32,
    workers: u32,
    gate: &G,
) -> Result<Run, Memory>
    requires task { IsTask U.listing U.stimulus U.ticks image.now stim.now ticks }
    requires workers { (1 ≤ workers) × (workers ≤ 16) }
    ensures { IfOk result (λ run. IsLockstep U.listing U.stimulus U.ticks run) }
{
    let board = Board::<U>::new(alloc, image, stim, ticks)?;
    run_workers::<U, G, R>(rt, alloc, board, workers, gate)
}

/// Which cores a worker serves.
#[derive(Clone, Copy)]
struct Served {
    first: bool,
    second: bool,
    third: bool,
    fourth: bool,
}

impl Served {
    // The cores whose number modulo `workers` is `worker`: none where there is no such worker.
    fn of(worker: u8, workers: u8) -> Served
        requires { 0 < workers }
    {
        Served {
            first: 0 % workers == worker,
            second: 1 % workers == worker,
            third: 2 % workers == worker,
            fourth: 3 % workers == worker,
        }
    }

    // Whether it is none.
    fn is_empty(self) -> bool {
        !self.first && !self.second && !self.third && !self.fourth
    }

    // These and those of another worker.
    fn and(self, other: Served) -> Served {
        Served {
            first: self.first || other.first,
            second: self.second || other.second,
            third: self.third || other.third,
            fourth: self.fourth || other.fourth,
        }
    }

    // These without one.
    fn without(self, core: u8) -> Served {
        Served {
            first: self.first && core != 0,
            second: self.second && core != 1,
            third: self.third && core != 2,
            fourth: self.fourth && core != 3,
        }
    }
}

/// How many windows of each core a worker has seen run.
#[derive(Clone, Copy)]
struct Seen {
    first: u32,
    second: u32,
    third: u32,
    fourth: u32,
}

impl Seen {
    // The same, but for how many windows of one core.
    fn with(self, core: u8, ran: u32) -> Seen {
        Seen {
            first: if core == 0 { ran } else { self.first },
            second: if core == 1 { ran } else { self.second },
            third: if core == 2 { ran } else { self.third },
            fourth: if core == 3 { ran } else { self.fourth },
        }
    }

    // Of the cores served the one that has run the fewest windows, the least among them.
    fn next(self, served: Served) -> Option<u8>
        ensures { IfSome result (λ core. core < 4) }
    {
        let mut best = None;
        best = better(best, 0, served.first, self.first);
        best = better(best, 1, served.second, self.second);
        best = better(best, 2, served.third, self.third);
        best = better(best, 3, served.fourth, self.fourth);
        match best {
            Some((core, _)) => Some(core),
            None => None,
        }
    }
}

/// The better of the core that is best so far and another one, where that is served.
fn better(best: Option<(u8, u32)>, core: u8, served: bool, ran: u32) -> Option<(u8, u32)>
    requires { (core < 4) × IfSome best (λ b. b.0 < 4) }
    ensures { IfSome result (λ b. b.0 < 4) }
{
    if !served {
        return best;
    }
    match best {
        Some((other, fewest)) => {
            if ran < fewest {
                Some((core, ran))
            } else {
                Some((other, fewest))
            }
        }
        None => Some((core, ran)),
    }
}

/// How often each of so many workers waits for a batch before it lets other threads go on.
fn patience_of<R: Threads>(rt: &R, workers: u8) -> u32 {
    match thread::available_parallelism(rt) {
        Ok(processors) if processors.get() >= workers as usize => PATIENCE,
        _ => LITTLE_PATIENCE,
    }
}

/// Serves cores until all are at their end, or the board is stopped, and answers whether memory was there. Where memory is wanting it
/// stops the board.
fn serve<U: RunName, G: Gate, R: Wait>(
    rt: &R,
    alloc: Global,
    board: &Board<U>,
    served: Served,
    gate: &G,
    patience: u32,
) -> bool {
    let mut left = served;
    let mut waited = 0;
    let mut seen = Seen {
        first: 0,
        second: 0,
        third: 0,
        fourth: 0,
    };
    for _ in rt.forever() {
        let Some(core) = seen.next(left) else {
            return true;
        };
        match board.turn(rt, alloc, core, gate) {
            BoardTurn::Ran(window) => {
                seen = seen.with(core, window + 1);
                waited = 0;
            }
            BoardTurn::Lacks { window, .. } => {
                seen = seen.with(core, window + 1);
                waited = wait(waited, patience);
            }
            BoardTurn::AtEnd => left = left.without(core),
            BoardTurn::Stopped => return true,
            BoardTurn::Memory => {
                board.stop(rt);
                return false;
            }
        }
    }
    unreachable!()
}

/// What a worker in a thread of its own answered. One that wasn't started lacked nothing.
fn answer<R: Threads>(rt: &R, child: Option<JoinHandle<bool>>) -> bool {
    match child {
        Some(child) => child.join(rt),
        None => true,
    }
}

/// Starts a thread that serves these cores, if any. Where it can't be started they come to those of the caller.
fn started<'s, E: 's, U: RunName + Send + Sync, G: Gate + Sync, R: Threads + Wait + Sync>(
    scope: &Scope<'s, E>,
    rt: &'s R,
    alloc: Global,
    board: &'s Board<U>,
    gate: &'s G,
    served: Served,
    patience: u32,
    callers: &mut Served,
) -> Option<JoinHandle<bool>> {
    if served.is_empty() {
        return None;
    }
    match scope.spawn(move || serve::<U, G, R>(rt, alloc, board, served, gate, patience)) {
        Ok(child) => Some(child),
        Err(_) => {
            *callers = callers.and(served);
            None
        }
    }
}

/// All workers serve the board, the caller as worker 0. Answers whether memory was there for all.
fn serve_all<U: RunName + Send + Sync, G: Gate + Sync, R: Threads + Wait + Sync>(
    rt: &R,
    alloc: Global,
    board: &Board<U>,
    workers: u8,
    gate: &G,
) -> bool
    requires { (0 < workers) × (workers ≤ 4) }
{
    let patience = patience_of(rt, workers);
    thread::scope(
        thread::scope_env(),
        rt,
        |scope| -> bool
            requires { (0 < workers) × (workers ≤ 4) }
        {
            let mut mine = Served::of(0, workers);
            let one = started(
                scope,
                rt,
                alloc,
                board,
                gate,
                Served::of(1, workers),
                patience,
                &mut mine,
            );
            let two = started(
                scope,
                rt,
                alloc,
                board,
                gate,
                Served::of(2, workers),
                patience,
                &mut mine,
            );
            let three = started(
                scope,
                rt,
                alloc,
                board,
                gate,
                Served::of(3, workers),
                patience,
                &mut mine,
            );
            let own = serve::<U, G, R>(rt, alloc, board, mine, gate, patience);
            let one = answer(rt, one);
            let two = answer(rt, two);
            let three = answer(rt, three);
            own && one && two && three
        },
    )
}

/// The run that the board's cells tell, or where one of them is short the run without locks. The one error is want of memory.
fn finish<U: RunName>(alloc: Global, board: Board<U>) -> Result<Run, Memory>
    ensures { IfOk result (λ run. IsLockstep U.listing U.stimulus U.ticks run) }
{
    let ticks = board.ticks();
    let (cells, image, stim) = board.into_parts();
    let run = gathered_or_alone::<U>(alloc, cells, &image, &stim, ticks);
    drop(image);
    drop(stim);
    run
}

/// The same, where the image and the stimulus are lent.
fn gathered_or_alone<U: RunName>(
    alloc: Global,
    cells: Cells<U>,
    image: &Image,
    stim: &Stim,
    ticks: u32,
) -> Result<Run, Memory>
    requires image { image.now ≡ U.listing }
    requires stim { stim.now ≡ U.stimulus }
    requires ticks { ticks ≡ U.ticks }
    ensures { IfOk result (λ run. IsLockstep U.listing U.stimulus U.ticks run) }
{
    cells.first.is_cell();
    match cells.gather(alloc) {
        Ok(run) => Ok(run),
        Err(GatherErr::Short { .. }) => run_alone(alloc, image, stim, ticks),
        Err(GatherErr::Memory) => Err(Memory),
    }
}
