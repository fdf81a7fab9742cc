//! From a program whose names are known to the types of its expressions, or the first rule of types and shapes that it
//! breaks.
#![tactic(auto)]

mod arguments;
mod calls;
mod checker;
mod checking;
mod communications;
mod counter;
mod declarations;
mod enclosing;
mod entities;
mod expressions;
mod judged;
mod lvals;
mod main_function;
mod places;
mod program;
mod shapes;
mod statements;

pub use checking::{TypeErr, check};
