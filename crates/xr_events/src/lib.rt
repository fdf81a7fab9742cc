//! The events' part of the simulation: which event a thread at its select takes, and that it takes one where its branch takes a case.
//!
//! Proved is that an event is ready exactly where the program's transfer may pass, that what is latched is what the program fixes, and that
//! the turn of a thread whose cases are set up is the branch's. For channels the first of these is a premise here: xr_channels has it.
#![tactic(auto)]

mod law;

pub use law::{
    armed_stays, begins_agree, latches_are_read, picked_is_ready, ready_may_pass, taken_is_fixed,
    taking_leaves_others, turns_agree,
};
