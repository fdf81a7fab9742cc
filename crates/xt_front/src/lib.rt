//! Cases of the front: source texts, what must come of each by the public calls from `lex` to `disjoint`, and a report on the cases of
//! a file.
//!
//! What comes is shown as text. The report tells how many cases there are, and each of which something else comes than is wanted.
#![tactic(auto)]

mod cases;
mod kernels;
mod messages;
mod names;
mod needs;
mod phases;
mod report;
mod shown;
mod texts;
mod tokens;
mod trees;
mod types;

pub use phases::Phase;
pub use report::{Report, report_of, told_of};
