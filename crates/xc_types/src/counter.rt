ghost use Rattle.std.specs.Prelude.{◌≡◌, ℕ, ◌+◌, length, OnOk};

use std::alloc::Global;
use std::marker::Model;
use xw_words::Memory;

/// A count that takes a byte for each that is counted, so that nothing but memory bounds it. Contracts see the number.
#[derive(Drop)]
pub struct Counter {
    marks: Vec<u8>,
}

impl Model for Counter {
    ghost Value = { ℕ };

    ghost view = { λ t. length t.marks.items };
}

impl Counter {
    /// None.
    pub fn new(alloc: Global) -> Counter
        ensures { result ≡ 0 }
    {
        Counter {
            marks: Vec::new(alloc),
        }
    }

    /// How many were counted.
    pub fn count(&self) -> usize
        ensures { result ≡ self.now }
    {
        self.marks.len()
    }

    /// Counts one more. The one error is want of memory, and leaves the count.
    pub fn add_one(&mut self) -> Result<(), Memory>
        ensures { OnOk result (self.new ≡ self.old + 1) }
    {
        match self.marks.push(0) {
            Ok(()) => Ok(()),
            Err(_) => Err(Memory),
        }
    }
}
