// What came of a turn.

use xs_instr::{Record, Trap};
use xw_words::Pos;

/// What came of a thread's turn.
#[derive(Clone, Copy, PartialEq, Eq)]
pub enum Did {
    /// A step, with the record that it writes down.
    Made(Option<Record>),
    /// The thread waits, and nothing changed.
    Paused,
    /// The thread is halted; the place is that of its instruction, or 0:0 past the code.
    Trapped(Trap, Pos),
    /// The thread is unused, or was halted before.
    Idle,
}
