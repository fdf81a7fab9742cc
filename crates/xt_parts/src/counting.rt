// A gate that counts.

use std::sync::atomic::{AtomicU64, Ordering};
use xw_io::Gate;

/// Counts the calls for windows 0 and 1, in a byte of its own for each core and window, and those for other windows together. It holds nobody up.
#[derive(Drop)]
pub struct Counting {
    calls: AtomicU64,
    others: AtomicU64,
}

/// One call for each core's window 0.
pub const FIRST_WINDOWS: u64 = 0x0001_0001_0001_0001;

/// One call for each of the two windows of each core.
pub const EACH_ONCE: u64 = 0x0101_0101_0101_0101;

impl Counting {
    /// No call so far.
    pub fn new() -> Counting {
        Counting {
            calls: AtomicU64::new(0),
            others: AtomicU64::new(0),
        }
    }

    /// Whether these are the calls so far, and there was none for another window.
    pub fn are(&self, calls: u64) -> bool {
        self.calls.load(Ordering::SeqCst) == calls && self.others.load(Ordering::SeqCst) == 0
    }
}

impl Gate for Counting {
    fn before(&self, core: u32, window: u32) {
        if core < 4 && window < 2 {
            self.calls
                .fetch_add(1 << (8 * (2 * core + window)), Ordering::SeqCst);
        } else {
            self.others.fetch_add(1, Ordering::SeqCst);
        }
    }
}
