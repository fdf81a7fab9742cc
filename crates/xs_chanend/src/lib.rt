//! The channel ends of a core: tokens that wait in rings of fixed size, and credits. After `Ends::new` no call takes
//! memory.
#![tactic(auto)]

mod end;
mod ends;
mod taken;

pub use ends::Ends;
pub use taken::{Checked1, Taken};
