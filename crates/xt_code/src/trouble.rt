// Why something can't be tried.

use std::alloc::{AllocError, AllocFailed};
use xr_stim::StimErr;
use xw_words::Memory;

/// Why a case can't be tried.
#[derive(Clone, Copy)]
pub enum Trouble {
    /// It has no form that a line can have.
    Line,
    /// It has an expression that is larger or deeper than one may be.
    Large,
    /// It has more code than a case may have.
    Long,
    /// No image has this code.
    Image,
    /// The stimulus breaks a rule.
    Stimulus,
    Memory,
}

impl Trouble {
    /// What is said of it.
    pub fn message(self) -> &'static str {
        match self {
            Trouble::Line => "no form that a line can have",
            Trouble::Large => "an expression that is too large",
            Trouble::Long => "too much code",
            Trouble::Image => "code that no image has",
            Trouble::Stimulus => "a stimulus that breaks a rule",
            Trouble::Memory => "out of memory",
        }
    }
}

impl From<Memory> for Trouble {
    fn from(_: Memory) -> Trouble {
        Trouble::Memory
    }
}

impl From<AllocError> for Trouble {
    fn from(_: AllocError) -> Trouble {
        Trouble::Memory
    }
}

impl<T: Drop> From<AllocFailed<T>> for Trouble {
    fn from(_: AllocFailed<T>) -> Trouble {
        Trouble::Memory
    }
}

impl From<StimErr> for Trouble {
    fn from(error: StimErr) -> Trouble {
        match error {
            StimErr::Line { .. } => Trouble::Stimulus,
            StimErr::Memory => Trouble::Memory,
        }
    }
}
