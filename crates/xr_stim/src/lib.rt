//! The reader of stimuli, the inputs of a run: from a text to the values that the pins of ports get and the ticks at which they do, or
//! the first line that breaks one of the rules 801 to 805.
//!
//! Proved is that a text has exactly one of the two, and that it is the one answered. Lines, words and numbers are read without memory,
//! by calls that will serve other texts too that are read by lines.
#![tactic(auto)]

mod form;
mod laws;
mod lines;
mod numbers;
mod reader;
mod rules;
mod words;

pub use laws::one_stimulus_or_one_broken_line;
pub use lines::{first_line, is_skipped};
pub use numbers::number;
pub use reader::{StimErr, read_stim};
pub use words::first_word;
