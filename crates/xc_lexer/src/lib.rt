//! From bytes to tokens: exactly the tokens of a text as `xc_tree` defines them, or the first rule that it breaks.
//!
//! A text is read piece by piece. Blanks (spaces, tabs, carriage returns and line feeds) and comments give no token, and
//! else the longest token is taken. A line that begins with `#` includes one of three headers, which gives nothing, or
//! defines a name, which stands for its number from there on.
#![tactic(auto)]

mod laws;
mod lexer;
mod lines;
mod names;
mod number;
mod place;
mod scan;
mod words;

pub use laws::{
    each_byte_in_one_piece, one_list_of_tokens, pieces_lie_behind_each_other,
    tokens_or_broken_rule, tokens_stand_at_their_pieces,
};
pub use lexer::{LexErr, lex};
