// What a core is made of.

use xs_chanend::Ends;
use xs_event::Events;
use xs_instr::{CoreImage, Lock, Pair, Thread, Timer};
use xs_pool::Pool;
use xs_port::Ports;
use xs_state::Ram;
use xw_words::List;

/// How many threads a core has.
pub const THREADS: usize = 8;

/// How many locks a core has.
pub const LOCKS: usize = 4;

/// The end to which what goes out at an end comes.
#[derive(Clone, Copy)]
pub struct Peer {
    pub core: u8,
    pub end: u32,
}

/// What no event changes: the core's part of the image, the channels, and the peer of each end.
#[derive(Drop)]
pub struct Fixed {
    pub parts: CoreImage,
    pub pairs: List<Pair>,
    pub peers: List<Peer>,
}

/// The parts of a core. The ports know the core's number, the stimulus and the clock.
#[derive(Drop)]
pub struct State {
    pub fixed: Fixed,
    pub roots: u32,
    pub threads: [Thread; THREADS],
    pub words: Ram,
    pub pool: Pool,
    pub locks: [Lock; LOCKS],
    pub ports: Ports,
    pub timers: List<Timer>,
    pub ends: Ends,
    pub events: Events,
}
