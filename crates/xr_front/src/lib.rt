//! The front as one call: from the bytes of a text to the checked kernel of the program that it means, or the first rule that it
//! breaks.
//!
//! `read_text` calls the lexer, the parser, the test of what is built today, and the phases of names, types, kernel and needs. specs/
//! says which broken rule is the first, and which texts are accepted. Proved is that the answer is that, and that no text has two.
#![tactic(auto)]

mod front;
mod law;

pub use front::read_text;
pub use law::at_most_one_answer;
