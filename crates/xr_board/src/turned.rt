use xr_windows::{Batch, RunName};
use xw_words::List;

/// What came of a cell's turn.
#[derive(Drop)]
pub enum Turned<U: RunName> {
    /// A window was run, and sent these batches, by number of the receiver.
    Ran(List<Batch<U>>),
    /// That core's batch of that window isn't there yet.
    Lacks { from: u8, window: u32 },
    /// The last window was run before.
    AtEnd,
    /// The stop mark is set.
    Stopped,
    /// Memory was wanting.
    Memory,
}
