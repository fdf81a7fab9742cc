// Why something can't be tried.

use std::alloc::AllocError;
use xr_listed::ListingErr;
use xr_stim::StimErr;
use xw_words::Memory;

/// Why a case can't be tried.
#[derive(Clone, Copy)]
pub enum Trouble {
    /// A line of it has no form that a line there can have.
    Line,
    /// The image can't be run.
    Image,
    /// The stimulus breaks a rule.
    Stimulus,
    Memory,
}

impl Trouble {
    /// What is said of it.
    pub fn message(self) -> &'static str {
        match self {
            Trouble::Line => "a line that can't stand there",
            Trouble::Image => "an image that can't be run",
            Trouble::Stimulus => "a stimulus that breaks a rule",
            Trouble::Memory => "out of memory",
        }
    }
}

impl From<Memory> for Trouble {
    fn from(_: Memory) -> Trouble {
        Trouble::Memory
    }
}

impl From<AllocError> for Trouble {
    fn from(_: AllocError) -> Trouble {
        Trouble::Memory
    }
}

impl From<ListingErr> for Trouble {
    fn from(error: ListingErr) -> Trouble {
        match error {
            ListingErr::Line => Trouble::Line,
            ListingErr::Image => Trouble::Image,
            ListingErr::Memory => Trouble::Memory,
        }
    }
}

impl From<StimErr> for Trouble {
    fn from(error: StimErr) -> Trouble {
        match error {
            StimErr::Line { .. } => Trouble::Stimulus,
            StimErr::Memory => Trouble::Memory,
        }
    }
}
