// Two cores at the same time.

ghost use Rattle.std.specs.Prelude.{◌≤◌};
ghost use Rattle.xs_instr.specs.Valid.{IsGoodStim, Valid};

use crate::counting::{Counting, EACH_ONCE};
use std::alloc::Global;
use std::sync::Wait;
use std::sync::atomic::{AtomicU64, Ordering};
use std::thread::{self, Threads};
use xr_board::run_by_workers;
use xr_windows::Run;
use xs_instr::{Image, Stim};
use xw_io::Gate;
use xw_words::Memory;

/// Holds up cores 0 and 1 before their window 1 until both stand there, and counts all calls.
#[derive(Drop)]
struct Meeting {
    first: AtomicU64,
    second: AtomicU64,
    met: AtomicU64,
    counting: Counting,
}

/// Sets a flag, and looks for another one, for half a minute or longer. Counts where that is seen.
fn meet(own: &AtomicU64, other: &AtomicU64, met: &AtomicU64) {
    own.store(1, Ordering::SeqCst);
    for _ in 0..100_000_000 {
        if other.load(Ordering::SeqCst) == 1 {
            met.fetch_add(1, Ordering::SeqCst);
            return;
        }
        thread::yield_now();
    }
}

impl Gate for Meeting {
    fn before(&self, core: u32, window: u32) {
        self.counting.before(core, window);
        if core == 0 && window == 1 {
            meet(&self.first, &self.second, &self.met);
        }
        if core == 1 && window == 1 {
            meet(&self.second, &self.first, &self.met);
        }
    }
}

/// Whether two runs have the same trace, end word and traps.
pub fn is_alike(one: &Run, other: &Run) -> bool {
    one.trace == other.trace && one.end == other.end && one.trapped == other.trapped
}

/// Whether so many workers run each window once, and tell what others told.
fn is_same<R: Threads + Wait + Sync>(
    rt: &R,
    alloc: Global,
    image: &Image,
    stim: &Stim,
    workers: u32,
    results: &Run,
) -> Result<bool, Memory>
    requires image { Valid image.now }
    requires stim { IsGoodStim stim.now }
    requires workers { (1 ≤ workers) × (workers ≤ 16) }
{
    let counting = Counting::new();
    let run = run_by_workers(rt, alloc, image, stim, 16, workers, &counting)?;
    Ok(counting.are(EACH_ONCE) && is_alike(&run, results))
}

/// Whether two workers run two cores at the same time, and each window once, and one worker and sixteen run each window once too, and
/// tell the same.
pub fn meet_at_once<R: Threads + Wait + Sync>(
    rt: &R,
    alloc: Global,
    image: &Image,
    stim: &Stim,
) -> Result<bool, Memory>
    requires image { Valid image.now }
    requires stim { IsGoodStim stim.now }
{
    let meeting = Meeting {
        first: AtomicU64::new(0),
        second: AtomicU64::new(0),
        met: AtomicU64::new(0),
        counting: Counting::new(),
    };
    let two = run_by_workers(rt, alloc, image, stim, 16, 2, &meeting)?;
    let have_met = meeting.met.load(Ordering::SeqCst) == 2;
    let are_each_once = meeting.counting.are(EACH_ONCE);
    let by_one = is_same(rt, alloc, image, stim, 1, &two) == Ok(true);
    let by_sixteen = is_same(rt, alloc, image, stim, 16, &two) == Ok(true);
    Ok(have_met && are_each_once && by_one && by_sixteen)
}
