//! What programs share that try cases: a file of data has them, each of which holds or doesn't, and how many do is told.
#![tactic(auto)]

mod cases;

pub use cases::{CaseFile, Cases, report, tell};
