//! The driver: it reads the words of a command line and its files, compiles the text, runs the image under the stimulus or finds the
//! bounds of routes, and writes the listing and the trace or the bounds, or what is wrong.
//!
//! `xcsim` is what the program calls, `still` the same for who has no threads, where the words ask for no workers (`waits`). Their clauses are the promise of the whole program: what
//! each sink gains, and with which cause each status comes.
#![tactic(auto)]

mod decide;
mod deliver;
mod files;
mod prepare;
mod top;
mod unthreaded;
mod words;

pub use top::xcsim;
pub use unthreaded::still;
pub use words::waits;
