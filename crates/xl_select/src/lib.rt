//! Lowering of selects: the code that evaluates the guards and sets up the enabled cases, and the code at which a case that was taken begins.
#![tactic(auto)]

mod entry;
mod opening;

pub use entry::open_case;
pub use opening::{SelectHoles, open_select};
