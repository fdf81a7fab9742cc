//! From a typed program to its kernel, by the copy rule: each call is replaced by the called function's body over variables, channels,
//! timers and blocks of its own. Or rule 509, where the program with all its copies is too large.
//!
//! Proved is that `flatten` gives exactly the kernel that xc_kernel defines, and rule 509 exactly where it is broken.
#![tactic(auto)]

mod flattening;
mod program;

pub use flattening::{FlatErr, flatten};
