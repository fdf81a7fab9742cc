//! The reader of listings, for tests: from the text of a listing to its image, or of one instruction, and whether an image can be run.
//!
//! Proved is that an image which is read can be run. Which image that is isn't.
#![tactic(auto)]

mod channels;
mod code;
mod cores;
mod instructions;
mod lines;
mod reader;

pub use code::{are_good, are_indices};
pub use instructions::instr_of;
pub use reader::{ListingErr, is_valid, read_image};
