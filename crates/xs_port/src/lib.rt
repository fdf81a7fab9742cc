//! The ports of a core: pins as the stimulus sets them, counters, conditions, times and latches. After `Ports::new` no
//! call takes memory.
#![tactic(auto)]

mod meeting;
mod pins;
mod ports;

pub use ports::Ports;
