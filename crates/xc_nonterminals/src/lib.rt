//! From the tokens of a program to the trees of its phrases, the ports, the heads of functions and their blocks.
//!
//! A `Parser` holds the tokens. It has a method for each symbol of the grammar, which reads the symbol from a place on,
//! with room for so many nodes one below the other, and answers a `Read` or the `Stop` at which no reading goes on. The
//! methods stand in files by subject, and what they build in `nodes`.
#![tactic(auto)]

mod assignments;
mod built;
mod declarations;
mod expected;
mod expressions;
pub mod functions;
mod iterations;
mod nodes;
mod operands;
mod pars;
pub mod parser;
mod ports;
mod selects;
mod statements;
pub mod stop;
pub mod tokens;
mod transfers;
mod values;

pub use functions::FunctionHead;
pub use parser::{Parser, Read};
pub use stop::Stop;
pub use tokens::{begins_type, is_symbol, is_word};
