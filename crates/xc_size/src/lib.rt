//! Decides rule 509: it counts the size of a program with all the copies that its calls and replicated branches make, without making
//! them.
//!
//! The size of a function is found once, and each call adds it. No number goes further than one above its limit. Proved is, for every
//! tree, that the rule is answered exactly where it is broken.
#![tactic(auto)]

mod callees;
mod filling;
mod functions;
mod measure;
mod names;
mod order;
mod size;
mod sizes;
mod too_large;

pub use too_large::broken_size;
