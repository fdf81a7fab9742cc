// Why something can't be tried.

use std::alloc::{AllocError, AllocFailed};
use xw_words::Memory;

/// Why a case can't be tried.
#[derive(Clone, Copy)]
pub enum Trouble {
    /// A line of it has no form that a line there can have, or one is missing.
    Lines,
    /// What came isn't text.
    Bytes,
    Memory,
}

impl Trouble {
    /// What is said of it.
    pub fn message(self) -> &'static str {
        match self {
            Trouble::Lines => "a line that can't stand there, or none that has to",
            Trouble::Bytes => "bytes that are no text",
            Trouble::Memory => "out of memory",
        }
    }
}

impl From<Memory> for Trouble {
    fn from(_: Memory) -> Trouble {
        Trouble::Memory
    }
}

impl From<AllocError> for Trouble {
    fn from(_: AllocError) -> Trouble {
        Trouble::Memory
    }
}

impl<T: Drop> From<AllocFailed<T>> for Trouble {
    fn from(_: AllocFailed<T>) -> Trouble {
        Trouble::Memory
    }
}
