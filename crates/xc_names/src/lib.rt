//! From a tree to its names: each name's declaration, or the first rule of names that the program breaks. What the tree has of names,
//! scopes and calls stands in marks, in the order of its text, and its functions come in the order of their calls.
#![tactic(auto)]

mod call_graph;
mod calls;
mod components;
mod graph;
mod latest;
mod laws;
mod main_function;
mod marks;
mod meanings;
mod names;
mod ports;
mod recursion;
mod resolution;
mod scopes;
mod taken;
mod uses;

pub use components::{Components, components_of};
pub use graph::{Edge, Graph};
pub use laws::at_most_one_naming;
pub use marks::{Marks, marks_of, marks_of_statement};
pub use resolution::{NameErr, resolve};
