//! The tokens of a program's text, their syntax tree, and the refusal that names a broken rule. specs/ defines the language: its
//! tokens, its grammar, its rules on names, types and shapes, and which of several broken rules is the first.
#![tactic(auto)]

mod least;
mod lexing;
mod names;
mod refusal;
pub mod symbols;
mod token;
mod tree;
mod types;
pub mod words;

pub use least::{comes_before, earlier};
pub use lexing::{Number, Reading, Start};
pub use names::{Decl, Mark, Named, What};
pub use refusal::Refusal;
pub use token::{Kind, SYMBOLS, Text, Tok, WORDS};
pub use tree::{
    Arg, At, Branch, Case, DeclKind, Declared, Dest, Ex, Expr, FuncItem, Head, Id, Item, Param,
    ParamKind, PortItem, Rhs, Send, St, Stmt, Timed, Tree, TreeDir, When,
};
pub use types::Typed;
