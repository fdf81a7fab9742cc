//! Plans: where the variables, ports, timers and channel ends of a core stand, and the temporary words of its threads.
#![tactic(auto)]

mod channels;
mod layout;
mod resources;
mod temporary;
mod variables;

pub use channels::{SideCores, channel_cores, end_count, first_there};
pub use layout::plan;
pub use temporary::{temporary_words, word_count};
