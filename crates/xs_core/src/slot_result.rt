// What comes of a thread's turn.

use crate::end_rows::EndStep;
use crate::event_rows::EventStep;
use crate::local_rows::LocalStep;
use crate::pool_rows::PoolStep;
use crate::port_rows::PortStep;
use xs_instr::{Res, Trap};

/// What comes of a thread's turn, before it is taken.
#[derive(Clone, Copy)]
pub enum SlotResult {
    /// The thread is unused, or was halted before.
    Idle,
    /// The thread waits.
    Paused,
    /// The thread is to be halted.
    Trapped(Trap),
    /// A step in registers, memory or flow.
    Local(LocalStep),
    /// A step with threads, synchronisers and locks.
    Pool(PoolStep),
    /// A step at a channel end.
    End(EndStep),
    /// A step at a port or a timer.
    Port(PortStep),
    /// A step in the setting up of events.
    Event(EventStep),
    /// The taking of an event.
    Take(Res),
}
