//! Decides rule 299, "not built yet": whether a text has only the forms of the language that can be compiled today.
//!
//! A later form is known by a word of the text's tokens. Proved is that the answer is exact. What such a text's kernel is like is a law
//! of xl_image.
#![tactic(auto)]

mod tokens;

pub use tokens::is_supported;
