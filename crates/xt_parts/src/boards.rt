// Four cores side by side on a board.

ghost use Rattle.xr_board.specs.CellState.{IsCell};
ghost use Rattle.xr_board.specs.ForCores.{IsTask};
ghost use Rattle.xs_instr.specs.Valid.{IsGoodStim, Valid};

use crate::counting::{Counting, EACH_ONCE, FIRST_WINDOWS};
use crate::listings::{ENDLESS, HUNDRED};
use crate::meetings::{is_alike, meet_at_once};
use std::alloc::Global;
use std::marker::Brand;
use std::sync::Wait;
use std::thread::Threads;
use xr_board::{Board, BoardTurn, Cells, GatherErr, Turned, run_alone, run_workers};
use xr_listed::{ListingErr, read_image};
use xr_windows::{Run, RunName};
use xs_instr::{EndWord, Image, Stim};
use xw_io::OpenGate;
use xw_words::{List, Memory};

/// How many records the run of 16 ticks by one worker has, on a board on which core 0 is a window ahead, and whether it was stopped by its ticks,
/// each window having been run once.
fn with_a_core_ahead<U: RunName + Send + Sync, R: Threads + Wait + Sync>(
    rt: &R,
    alloc: Global,
    image: &Image,
    stim: &Stim,
) -> Result<(usize, bool), Memory>
    requires task { IsTask U.listing U.stimulus U.ticks image.now stim.now 16 }
{
    let counting = Counting::new();
    let board = Board::<U>::new(alloc, image, stim, 16)?;
    board.turn(rt, alloc, 0, &counting);
    let run = run_workers::<U, Counting, R>(rt, alloc, board, 1, &counting)?;
    let is_stopped = run.end == EndWord::Stopped && counting.are(EACH_ONCE);
    Ok((run.trace.len(), is_stopped))
}

/// The same of the run that is asked for.
fn one_ahead<R: Threads + Wait + Sync>(
    rt: &R,
    alloc: Global,
    image: &Image,
    stim: &Stim,
) -> Result<(usize, bool), Memory>
    requires image { Valid image.now }
    requires stim { IsGoodStim stim.now }
{
    with_a_core_ahead::<Brand, R>(rt, alloc, image, stim)
}

/// A turn's core, and what it answers.
type Turn = (u8, BoardTurn);

const TWICE: [Turn; 2] = [
    (0, BoardTurn::Ran(0)),
    (0, BoardTurn::Lacks { from: 1, window: 0 }),
];

const ROUND: [Turn; 4] = [
    (0, BoardTurn::Ran(0)),
    (1, BoardTurn::Ran(0)),
    (2, BoardTurn::Ran(0)),
    (3, BoardTurn::Ran(0)),
];

const TO_THE_END: [Turn; 9] = [
    (0, BoardTurn::Ran(0)),
    (1, BoardTurn::Ran(0)),
    (2, BoardTurn::Ran(0)),
    (3, BoardTurn::Ran(0)),
    (0, BoardTurn::Ran(1)),
    (1, BoardTurn::Ran(1)),
    (2, BoardTurn::Ran(1)),
    (3, BoardTurn::Ran(1)),
    (0, BoardTurn::AtEnd),
];

const STOPPED: [Turn; 4] = [
    (2, BoardTurn::Stopped),
    (0, BoardTurn::Stopped),
    (1, BoardTurn::Stopped),
    (3, BoardTurn::Stopped),
];

/// Whether the turns answer so, and the gate was called so: before each window that was run, and no more.
fn answers<U: RunName, R: Wait>(
    rt: &R,
    alloc: Global,
    board: &Board<U>,
    turns: &[Turn],
    calls: u64,
) -> bool {
    let counting = Counting::new();
    for (core, want) in turns {
        if *core >= 4 || board.turn(rt, alloc, *core, &counting) != *want {
            return false;
        }
    }
    counting.are(calls)
}

/// Why a board's run isn't gathered, if it isn't.
fn short_of<U: RunName>(alloc: Global, cells: Cells<U>) -> Option<GatherErr>
    requires first { IsCell U.listing U.stimulus U.ticks 0 cells.first }
{
    match cells.gather(alloc) {
        Ok(_) => None,
        Err(err) => Some(err),
    }
}

/// Whether the turns of a board, that is stopped before or isn't, answer as they should, and why its run isn't gathered then.
type Row = (bool, Option<GatherErr>);

fn row<U: RunName, R: Wait>(
    rt: &R,
    alloc: Global,
    image: &Image,
    stim: &Stim,
    is_stopped: bool,
    turns: &[Turn],
    calls: u64,
) -> Result<Row, Memory>
    requires task { IsTask U.listing U.stimulus U.ticks image.now stim.now 16 }
{
    let board = Board::<U>::new(alloc, image, stim, 16)?;
    if is_stopped {
        board.stop(rt);
    }
    let are_so = answers(rt, alloc, &board, turns, calls);
    Ok((are_so, short_of(alloc, board.cells())))
}

/// The same of a board each of whose cores has run its window 0, and of core 0's window 1 in the cells that come out of it.
fn row_of_cells<U: RunName, R: Wait>(
    rt: &R,
    alloc: Global,
    image: &Image,
    stim: &Stim,
) -> Result<Row, Memory>
    requires task { IsTask U.listing U.stimulus U.ticks image.now stim.now 16 }
{
    let board = Board::<U>::new(alloc, image, stim, 16)?;
    let are_so = answers(rt, alloc, &board, &ROUND, FIRST_WINDOWS);
    let mut cells = board.cells();
    let turned = cells.first.turn(alloc, &OpenGate);
    let goes_on = matches!(&turned, Turned::Ran(_));
    drop(turned);
    cells.first.is_cell();
    Ok((are_so && goes_on, short_of(alloc, cells)))
}

/// What comes of a board at once, of two turns of core 0, of turns to the end, of a board that is stopped, and of cells that go on.
type Table = (Row, Row, Row, Row, Row);

fn table_named<U: RunName, R: Wait>(
    rt: &R,
    alloc: Global,
    image: &Image,
    stim: &Stim,
) -> Result<Table, Memory>
    requires task { IsTask U.listing U.stimulus U.ticks image.now stim.now 16 }
{
    let at_once = row::<U, R>(rt, alloc, image, stim, false, &[], 0)?;
    let twice = row::<U, R>(rt, alloc, image, stim, false, &TWICE, 1)?;
    let to_the_end = row::<U, R>(rt, alloc, image, stim, false, &TO_THE_END, EACH_ONCE)?;
    let stopped = row::<U, R>(rt, alloc, image, stim, true, &STOPPED, 0)?;
    let in_cells = row_of_cells::<U, R>(rt, alloc, image, stim)?;
    Ok((at_once, twice, to_the_end, stopped, in_cells))
}

/// The same of the run that is asked for.
fn table<R: Wait>(rt: &R, alloc: Global, image: &Image, stim: &Stim) -> Result<Table, Memory>
    requires image { Valid image.now }
    requires stim { IsGoodStim stim.now }
{
    table_named::<Brand, R>(rt, alloc, image, stim)
}

/// What the table tells of a board of 16 ticks on which core 0 sends a hundred words to core 3.
fn table_told<R: Wait>(rt: &R, alloc: Global) -> Result<Table, ListingErr> {
    let image = read_image(alloc, HUNDRED)?;
    let stim = Stim {
        lines: List::new(alloc),
    };
    match table(rt, alloc, &image, &stim) {
        Ok(table) => Ok(table),
        Err(Memory) => Err(ListingErr::Memory),
    }
}

/// Whether workers of a board that was stopped before, and so run no window, tell what a run without locks tells, by equal copies too.
fn with_all_stopped<U: RunName + Send + Sync, R: Threads + Wait + Sync>(
    rt: &R,
    alloc: Global,
    image: &Image,
    stim: &Stim,
) -> Result<bool, Memory>
    requires task { IsTask U.listing U.stimulus U.ticks image.now stim.now 16 }
{
    let counting = Counting::new();
    let board = Board::<U>::new(alloc, image, stim, 16)?;
    board.stop(rt);
    let run = run_workers::<U, Counting, R>(rt, alloc, board, 2, &counting)?;
    if !counting.are(0) {
        return Ok(false);
    }
    is_run_of_copies(alloc, image, stim, &run)
}

/// Whether the run without locks of copies of an image and a stimulus tells the same.
fn is_run_of_copies(
    alloc: Global,
    image: &Image,
    stim: &Stim,
    results: &Run,
) -> Result<bool, Memory>
    requires image { Valid image.now }
    requires stim { IsGoodStim stim.now }
{
    let image = image.copy(alloc)?;
    let stim = stim.copy(alloc)?;
    let run = run_alone(alloc, &image, &stim, 16)?;
    Ok(is_alike(&run, results))
}

/// The same of the run that is asked for.
fn all_stopped<R: Threads + Wait + Sync>(
    rt: &R,
    alloc: Global,
    image: &Image,
    stim: &Stim,
) -> Result<bool, Memory>
    requires image { Valid image.now }
    requires stim { IsGoodStim stim.now }
{
    with_all_stopped::<Brand, R>(rt, alloc, image, stim)
}

/// What the boards of one image tell: how many records, and whether its ticks stopped it, where a core was ahead from the start; whether workers of a
/// stopped board tell the run; and whether two cores ran at the same time.
type Results = (
    Result<(usize, bool), Memory>,
    Result<bool, Memory>,
    Result<bool, Memory>,
);

fn results<R: Threads + Wait + Sync>(rt: &R, alloc: Global) -> Result<Results, ListingErr> {
    let image = read_image(alloc, ENDLESS)?;
    let stim = Stim {
        lines: List::new(alloc),
    };
    let ahead = one_ahead(rt, alloc, &image, &stim);
    let are_stopped = all_stopped(rt, alloc, &image, &stim);
    let have_met = meet_at_once(rt, alloc, &image, &stim);
    Ok((ahead, are_stopped, have_met))
}

/// A board answers what it should, call by call, and calls its gate before the windows that it runs alone; what was handed over is in the cells
/// that come out of it. A worker takes the core that is behind, also where another one was ahead from the start; where no core goes on the run is
/// made without locks. Two workers run two cores at the same time, and each window once; one worker and sixteen run each window once too, and tell
/// the same.
#[test]
fn boards_answer(rt: HostRuntime) {
    let short = |core, window| Some(GatherErr::Short { core, window });
    let table = (
        (true, short(0, 0)),
        (true, short(0, 1)),
        (true, None),
        (true, short(0, 0)),
        (true, short(1, 1)),
    );
    assert_eq!(rt; table_told(&rt, rt.alloc()), Ok(table));
    let want = (Ok((2, true)), Ok(true), Ok(true));
    assert_eq!(rt; results(&rt, rt.alloc()), Ok(want));
}
