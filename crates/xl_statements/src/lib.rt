//! Lowering of statements: a walk that calls the pieces of code, and what stands where.
#![tactic(auto)]

mod leaving;
mod par;
mod root;
mod select;
mod transfer;
mod walk;

pub use leaving::{JumpTarget, Leaving};
pub use root::{emit_root, roots_stand};
pub use walk::emit_statements;
