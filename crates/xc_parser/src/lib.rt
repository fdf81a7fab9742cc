//! From the tokens of a program to its tree: its items one after the other, and which rule is broken where there is none.
#![tactic(auto)]

mod laws;
mod places;
mod program;

pub use laws::at_most_one_tree;
pub use places::end_pos;
pub use program::{ParseErr, parse};
