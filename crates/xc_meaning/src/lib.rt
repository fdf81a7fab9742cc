//! What a program means: specs/ has the states, the steps and the runs of a program, as a text and as a kernel, without a
//! machine.
#![tactic(auto)]

mod law;

pub use law::{counts_fit, text_follows};
