//! Why something can't be tried.

use std::alloc::{AllocError, AllocFailed};
use xr_stim::StimErr;
use xw_words::Memory;

/// Why a case can't be tried.
#[derive(Clone, Copy)]
pub enum Trouble {
    /// A line of it has no form that a line there can have.
    Line,
    /// No image has this code and these roots.
    Code,
    /// The stimulus breaks a rule.
    Stimulus,
    Memory,
}

impl Trouble {
    /// What is said of it.
    pub fn message(self) -> &'static str {
        match self {
            Trouble::Line => "a line that can't stand there",
            Trouble::Code => "code or roots that no image has",
            Trouble::Stimulus => "a stimulus that breaks a rule",
            Trouble::Memory => "out of memory",
        }
    }
}

impl From<Memory> for Trouble {
    fn from(_: Memory) -> Trouble {
        Trouble::Memory
    }
}

impl From<AllocError> for Trouble {
    fn from(_: AllocError) -> Trouble {
        Trouble::Memory
    }
}

impl<T: Drop> From<AllocFailed<T>> for Trouble {
    fn from(_: AllocFailed<T>) -> Trouble {
        Trouble::Memory
    }
}

impl From<StimErr> for Trouble {
    fn from(error: StimErr) -> Trouble {
        match error {
            StimErr::Line { .. } => Trouble::Stimulus,
            StimErr::Memory => Trouble::Memory,
        }
    }
}
