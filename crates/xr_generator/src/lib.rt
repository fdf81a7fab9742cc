//! The text of the generated program of so many functions, from 1 to 1,000: four tasks on four cores, of which two call each
//! function on each value that passes them. No command prints it yet.
#![tactic(auto)]

mod program;

pub use program::generated;
