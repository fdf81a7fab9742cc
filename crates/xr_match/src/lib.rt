//! What it means that an image implements a program, over any program's meaning, and the law that leads from a kernel to its text.
#![tactic(auto)]

mod law;

pub use law::{kernel_carries_to_text, machine_runs_match, runs_are_allowed};
