//! Which of a channel's two ends some code uses: the sides of channels in which the branches of a `par`, and the roots, stand.
//!
//! Proved is that these are the sides that a run of the kernel gives to the branches.
#![tactic(auto)]

mod branches;
mod sides;
#[cfg(test)]
mod tests;
mod used;

pub use branches::{sides_of_branches, sides_of_roots};
pub use sides::{Side, end_at, no_sides};
pub use used::used_channels;
