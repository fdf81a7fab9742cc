//! Decides the rules 601 to 606, whether the branches of a kernel keep apart, and 701 to 706, whether there are the threads, channel
//! ends, timers, words and cores that it needs, and each port on its core. A kernel that breaks none comes back as a `Checked`.
//!
//! Branches keep apart where none uses what another one uses that they may not share, a variable that one of them changes, a port or a
//! timer (clashes), and where the two sides of each channel are two branches, those of the innermost `par` that holds all its uses
//! (judge).
#![tactic(auto)]

mod channel_uses;
mod channels;
mod checked;
mod clashes;
mod disjointness;
mod ends;
mod expressions;
mod footprint;
mod judge;
mod needs;
mod places;
mod ports;
mod threads;
mod use_tables;
mod uses;

pub use checked::Checked;
pub use disjointness::{DisErr, disjoint};
pub use needs::thread_count;
