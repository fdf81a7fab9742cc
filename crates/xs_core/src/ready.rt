// Which resources are ready.

ghost use Rattle.std.specs.Prelude.{◌≡◌, ◌+◌, ◌*◌, ◌<◌, ◌^◌};
ghost use Rattle.xs_core.specs.Bits.{HasBits};
ghost use Rattle.xs_core.specs.Seen.{home_of, state_of};
ghost use Rattle.xs_instr.specs.Events.{end_ready, pick as picked, port_ready, timer_ready};
ghost use Rattle.xw_words.specs.Words.{truth};

use crate::port_rows::passes;
use crate::state::State;
use xs_event::Ready;
use xs_instr::Res;

/// How many resources of a kind can have events.
const RESOURCES: u32 = 32;

/// The ready resource whose event the thread would take.
pub fn pick(state: &State, t: u8) -> Option<Res>
    ensures { result ≡ picked (home_of state.now) (state_of state.now) t }
{
    let ready = Ready {
        ports: ready_ports(state),
        timers: ready_timers(state),
        ends: ready_ends(state),
    };
    state.events.pick(t, &ready)
}

fn ready_ports(state: &State) -> u32
    ensures { HasBits (port_ready (home_of state.now) (state_of state.now)) result 32 }
{
    let mut bits = 0;
    for i in 0..RESOURCES {
        bits = with_bit(bits, is_port_ready(state, RESOURCES - 1 - i));
    }
    bits
}

fn ready_timers(state: &State) -> u32
    ensures { HasBits (timer_ready (state_of state.now)) result 32 }
{
    let mut bits = 0;
    for i in 0..RESOURCES {
        bits = with_bit(bits, is_timer_ready(state, RESOURCES - 1 - i));
    }
    bits
}

fn ready_ends(state: &State) -> u32
    ensures { HasBits (end_ready (state_of state.now)) result 32 }
{
    let mut bits = 0;
    for i in 0..RESOURCES {
        bits = with_bit(bits, is_end_ready(state, RESOURCES - 1 - i));
    }
    bits
}

fn is_port_ready(state: &State, n: u32) -> bool
    ensures { result ≡ port_ready (home_of state.now) (state_of state.now) n }
{
    state.ports.has(n) && state.ports.meets(n)
}

fn is_timer_ready(state: &State, n: u32) -> bool
    ensures { result ≡ timer_ready (state_of state.now) n }
{
    match state.timers.get(n as usize) {
        None => false,
        Some(timer) => passes(timer, state.ports.clock()),
    }
}

fn is_end_ready(state: &State, n: u32) -> bool
    ensures { result ≡ end_ready (state_of state.now) n }
{
    state.ends.has(n) && state.ends.any(n)
}

/// The bits, and one below them.
fn with_bit(bits: u32, bit: bool) -> u32
    requires { bits < 2 ^ 31 }
    ensures { result ≡ bits * 2 + truth bit }
{
    if bit { bits * 2 + 1 } else { bits * 2 }
}
