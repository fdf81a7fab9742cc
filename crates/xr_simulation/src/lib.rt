//! The compiler, `compile`: from a checked kernel to its image, and the simulation which proves that the image implements the kernel.
//!
//! `compile` answers what `image` of xl_image answers, with more promises. The simulation relates the threads of a machine to the
//! branches of the kernel, and each event of the machine keeps the relation. So what the machine does the program may do, and the
//! machine waits only where the program does.
#![tactic(auto)]

mod compiler;
mod words;

pub use compiler::compile;
