//! The outside: a shelf that files are loaded from, sinks that bytes go to, a gate before each window of a run, and
//! `Out`, which gathers small pieces for a sink.
#![tactic(auto)]

mod counts;
mod file;
mod gate;
mod held;
mod memory_shelf;
mod memory_sink;
mod output;
mod real_shelf;
mod real_sink;
mod shelf;
mod sink;

pub use file::File;
pub use gate::{Gate, OpenGate};
pub use held::Held;
pub use memory_shelf::MemShelf;
pub use memory_sink::MemSink;
pub use output::{Out, SinkFault};
pub use real_shelf::FsShelf;
pub use real_sink::StdSink;
pub use shelf::{LoadErr, MAX_FILE, Shelf};
pub use sink::{Put, Sink};
