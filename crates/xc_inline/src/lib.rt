//! From the functions of a program to its roots: each call is replaced by the called function's body over instances of its own.
//!
//! `roots_by_numbers` walks main's body by a numbering of instances, and answers the roots with the instances that it has met.
#![tactic(auto)]

mod assignments;
mod branches;
mod calls;
mod cases;
mod context;
pub mod copied;
mod declarations;
mod entities;
mod eval;
mod expressions;
mod flow;
pub mod functions;
mod loops;
mod numbering;
pub mod numbers;
mod operators;
mod parameters;
mod parts;
mod paths;
pub mod roots;
mod scope;
mod statements;
mod surroundings;
mod transfers;
mod variables;

pub use functions::Functions;
pub use numbers::Numbers;
pub use roots::{Rooted, core_outside, pos_of_place, roots_by_numbers};
