//! The kernel of a program: what is left of it once each call is replaced by the called function's body over instances of
//! its own. In specs/ stand what the words of its expressions are, what it means that a kernel is a program's, and how large
//! a program may be.
#![tactic(auto)]

mod kernel;
mod operators;
mod statement;

pub use kernel::{Chan, Inst, Kernel, PortUse, Root, Timer, Var};
pub use operators::{Operator, operator_at};
pub use statement::{KBranch, KCase, KHead, KOut, KRes, KSelect, Kst, Kx, Place};
