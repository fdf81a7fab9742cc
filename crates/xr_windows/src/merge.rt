// What the four parts of a run tell: one trace of their records, and how the run ends.

ghost use Rattle.std.specs.Prelude.{◌≡◌, ◌≤◌, ◌<◌, ◌+◌, ◌++◌, ◌||◌, IfOk, length, drop};
ghost use Rattle.xr_windows.specs.Cut.{first_at, rest_at};
ghost use Rattle.xr_windows.specs.Merge.{rounds_of};
ghost use Rattle.xr_windows.specs.Parts.{IsLast, state_of};
ghost use Rattle.xr_windows.specs.Pending.{pending};
ghost use Rattle.xr_windows.specs.Rising.{Rising};
ghost use Rattle.xr_windows.specs.Telling.{IsLockstep};
ghost use Rattle.xs_fabric.specs.EndWord.{end_word, no_sight, sight_sum};
ghost use Rattle.xr_windows.specs.Totals.{seen_as};

use crate::part::Part;
use crate::run::Run;
use crate::run_name::RunName;
use crate::stamped::Stamped;
use std::alloc::Global;
use xs_instr::{EndWord, Record, Sight};
use xw_words::{List, Memory};

/// How many roots of the four cores haven't ended, and how many threads are in use, are trapped, are ready, and wait on a
/// port or timer.
#[derive(Clone, Copy)]
pub struct Totals {
    pub roots: u64,
    pub used: u64,
    pub trapped: u64,
    pub ready: u64,
    pub timed: u64,
}

/// What the four parts of a run tell, by the number of the core, that have run all their windows. The one error is want of
/// memory.
pub fn merged_run<U: RunName>(
    alloc: Global,
    a: &Part,
    b: &Part,
    c: &Part,
    d: &Part,
) -> Result<Run, Memory>
    requires a { IsLast U.listing U.stimulus U.ticks 0 a.now }
    requires b { IsLast U.listing U.stimulus U.ticks 1 b.now }
    requires c { IsLast U.listing U.stimulus U.ticks 2 c.now }
    requires d { IsLast U.listing U.stimulus U.ticks 3 d.now }
    ensures { IfOk result (λ run. IsLockstep U.listing U.stimulus U.ticks run) }
{
    let ticks = a.ticks();
    let trace = merged(
        alloc,
        ticks,
        a.records(),
        b.records(),
        c.records(),
        d.records(),
    )?;
    let all = sum_of_sights(a.sight(), b.sight(), c.sight(), d.sight());
    let pending = is_some_pending(a, b, c, d);
    Ok(Run {
        trace: List::from_vec(trace),
        end: word_of(all, !pending),
        trapped: all.trapped != 0,
    })
}

/// All records, by tick, core and order.
fn merged(
    alloc: Global,
    ticks: u32,
    a: &[Stamped],
    b: &[Stamped],
    c: &[Stamped],
    d: &[Stamped],
) -> Result<Vec<Record>, Memory>
    requires ticks { ticks ≤ 200000 }
    requires rising { Rising 1 a.now × Rising 1 b.now × Rising 1 c.now × Rising 1 d.now }
    ensures { IfOk result (λ trace. trace.items ≡ rounds_of a.now b.now c.now d.now ticks) }
{
    let mut trace = Vec::with_capacity(alloc, count_of(a, b, c, d))?;
    let (mut i, mut j, mut k, mut l) = (0, 0, 0, 0);
    'ticks: for before in 0..ticks {
        let tick = before + 1;
        i = add_tick(&mut trace, a, i, tick)?;
        j = add_tick(&mut trace, b, j, tick)?;
        k = add_tick(&mut trace, c, k, tick)?;
        l = add_tick(&mut trace, d, l, tick)?;
    }
    Ok(trace)
}

/// How many records there are: a trace with room for so many needn't grow.
fn count_of(a: &[Stamped], b: &[Stamped], c: &[Stamped], d: &[Stamped]) -> usize {
    a.len()
        .saturating_add(b.len())
        .saturating_add(c.len())
        .saturating_add(d.len())
}

/// Adds the records of a tick that come next, and answers where they end.
#[tactic(auto, using(crate::proofs::Cuts::cuts))]
fn add_tick(
    trace: &mut Vec<Record>,
    records: &[Stamped],
    from: usize,
    tick: u32,
) -> Result<usize, Memory>
    requires { from ≤ length records.now }
    ensures within { IfOk result (λ at. at ≤ length records.now) }
    ensures added { IfOk result (λ at. trace.new.items
        ≡ trace.old.items ++ first_at tick (drop from records.now)) }
    ensures rest { IfOk result (λ at. drop at records.now
        ≡ rest_at tick (drop from records.now)) }
{
    let mut at = from;
    'records: while at < records.len() {
        if records[at].tick != tick {
            break;
        }
        if trace.push(records[at].made).is_err() {
            return Err(Memory);
        }
        at += 1;
    }
    Ok(at)
}

/// Whether something is on its way in the end.
fn is_some_pending(a: &Part, b: &Part, c: &Part, d: &Part) -> bool
    ensures { result ≡ pending (state_of a.now)
        || (pending (state_of b.now) || (pending (state_of c.now) || pending (state_of d.now))) }
{
    a.pending() || b.pending() || c.pending() || d.pending()
}

/// The sums over the four cores.
fn sum_of_sights(a: Sight, b: Sight, c: Sight, d: Sight) -> Totals
    ensures { seen_as result
        ≡ sight_sum (sight_sum (sight_sum (sight_sum no_sight a) b) c) d }
{
    Totals {
        roots: sum(a.roots, b.roots, c.roots, d.roots),
        used: sum(a.used, b.used, c.used, d.used),
        trapped: sum(a.trapped, b.trapped, c.trapped, d.trapped),
        ready: sum(a.ready, b.ready, c.ready, d.ready),
        timed: sum(a.timed, b.timed, c.timed, d.timed),
    }
}

fn sum(a: u32, b: u32, c: u32, d: u32) -> u64
    ensures { result ≡ 0 + a + b + c + d }
{
    a as u64 + b as u64 + c as u64 + d as u64
}

/// How a run ends: by the sums over the four cores, and whether nothing is on its way between them.
fn word_of(all: Totals, no_items: bool) -> EndWord
    ensures { result ≡ end_word (seen_as all) no_items }
{
    if all.roots == 0 {
        EndWord::Finished
    } else if all.used == all.trapped {
        EndWord::Trapped
    } else if no_items && all.ready == 0 && all.timed == 0 {
        EndWord::Stuck
    } else {
        EndWord::Stopped
    }
}
