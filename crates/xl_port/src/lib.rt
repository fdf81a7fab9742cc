//! Lowering of transfers over ports and timers: the code that sets one up, at once, at a time or on a condition, puts a word out or takes
//! one in, and stores it and the port's counter.
//!
//! Proved is that a thread which executes it comes to where its next step is the transfer, and pauses there until it may pass; and behind it
//! to the stores of the word and of the counter; or it traps with the error that comes first.
#![tactic(auto)]

mod input;
mod output;
mod setting;
mod stamp;
mod timer_input;

pub use input::emit_port_in;
pub use output::emit_port_out;
pub use setting::emit_with_name;
pub use stamp::emit_stamp;
pub use timer_input::emit_timer_in;
