// A gate that counts windows.

use std::sync::atomic::{AtomicU64, Ordering};
use xw_io::Gate;

/// Counts the windows that cores are about to run, and those that aren't in order: first all cores' window 0, by number, then all their window 1,
/// and so on.
#[derive(Drop)]
pub struct Windows {
    count: AtomicU64,
    astray: AtomicU64,
}

impl Windows {
    /// None so far.
    pub fn new() -> Windows {
        Windows {
            count: AtomicU64::new(0),
            astray: AtomicU64::new(0),
        }
    }

    /// Whether they are as many as four cores have in so many ticks, and in order where one worker made them.
    pub fn are_all(&self, ticks: u32, workers: u32) -> bool {
        let are_in_order = self.astray.load(Ordering::SeqCst) == 0;
        let all = 4 * (ticks as u64).div_ceil(8);
        self.count.load(Ordering::SeqCst) == all && (are_in_order || workers != 1)
    }
}

impl Gate for Windows {
    fn before(&self, core: u32, window: u32) {
        let before = self.count.fetch_add(1, Ordering::SeqCst);
        if before != 4 * window as u64 + core as u64 {
            self.astray.fetch_add(1, Ordering::SeqCst);
        }
    }
}
