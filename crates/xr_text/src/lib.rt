//! Exact printing: listings of images, records of runs and end words, as bytes for an `Out`. It takes no memory.
#![tactic(auto)]

mod instruction;
mod law;
mod listing;
mod numbers;
mod record;

pub use instruction::add_instr;
pub use law::same_text_same_image;
pub use listing::{add_image, write_code};
pub use numbers::{add_number, add_pos};
pub use record::{add_record, add_word, write_record};
