//! The reader of listings: from a text in the machine's assembly language to the image that it tells, or the first line that breaks one
//! of the rules 1101 to 1105.
#![tactic(auto)]

mod cuts;
mod image;
mod instructions;
mod law;
mod lines;
mod listing;
mod order;
mod reader;
mod references;
#[cfg(test)]
mod tests;

pub use law::{one_image_or_one_broken_line, written_lines_are_read};
pub use listing::read_listing;
pub use reader::AsmErr;
