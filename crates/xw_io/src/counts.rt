// Counts that never fall.
ghost use Rattle.std.specs.Prelude.{◌≡◌};
ghost use Rattle.xw_io.specs.Counting.{counts_after, is_among, no_refusals, raised as one_more};

use crate::LoadErr;
use xw_words::List;

/// A count one higher. At 18,446,744,073,709,551,615 it stays.
pub fn raised(count: u64) -> u64
    ensures { result ≡ one_more count }
{
    count.saturating_add(1)
}

/// Whether a call's number is among those listed.
pub fn is_listed(numbers: &List<u32>, call: u64) -> bool
    ensures { result ≡ is_among numbers.now call }
{
    numbers.as_slice().iter().any(|n| *n as u64 == call)
}

/// How often a shelf refused a load, by the reason.
#[derive(Clone, Copy, Debug, PartialEq, Eq)]
pub struct Counts {
    pub faults: u64,
    pub misses: u64,
    pub longs: u64,
}

impl Counts {
    /// No refusal so far.
    pub fn new() -> Counts
        ensures { result ≡ no_refusals }
    {
        Counts {
            faults: 0,
            misses: 0,
            longs: 0,
        }
    }

    /// Counts what a load answered. A file and want of memory are not counted.
    pub fn note(&mut self, loaded: &Result<Vec<u8>, LoadErr>)
        ensures { self.new ≡ counts_after self.old loaded.now }
    {
        match loaded {
            Ok(_) | Err(LoadErr::Memory) => {}
            Err(LoadErr::Missing) => self.misses = raised(self.misses),
            Err(LoadErr::TooLong) => self.longs = raised(self.longs),
            Err(LoadErr::Failed) => self.faults = raised(self.faults),
        }
    }
}
