// How many threads are so.

ghost use Rattle.std.specs.Prelude.{◌≡◌, ◌≤◌, ◌<◌, not, length, slice_get};
ghost use Rattle.xs_core.specs.Names.{meant_by};
ghost use Rattle.xs_core.specs.Order.{IsInOrder};
ghost use Rattle.xs_core.specs.Seen.{home_of, state_of};
ghost use Rattle.xs_core.specs.SlotResults.{steps};
ghost use Rattle.xs_instr.specs.Pool.{is_unused, is_trapped, threads_taken};
ghost use Rattle.xs_instr.specs.Sight.{count_true, is_timed, is_timed_instr, is_timed_name as is_timed_of, is_timed_thread, threads_trapped, ready_below, timed_below};
ghost use Rattle.xs_instr.specs.Slot.{is_ready};
ghost use Rattle.xw_words.specs.Words.{truth};

use crate::names::{Resource, look_up};
use crate::slot_result::SlotResult;
use crate::slots::{decide, takes_events};
use crate::state::State;
use xs_instr::{Instr, Mode, Thread};
use xs_state::Registers;

/// How many threads a core has.
const THREADS: u8 = 8;

/// How many threads are in use.
pub fn used(threads: &[Thread]) -> u32
    requires { length threads.now ≡ 8 }
    ensures { result ≡ count_true (threads_taken threads.now) }
{
    let mut count = 0;
    for thread in threads {
        count += one_if(is_used(thread.mode));
    }
    count
}

/// How many threads are halted by a trap.
pub fn trapped(threads: &[Thread]) -> u32
    requires { length threads.now ≡ 8 }
    ensures { result ≡ count_true (threads_trapped threads.now) }
{
    let mut count = 0;
    for thread in threads {
        count += one_if(is_halted(thread.mode));
    }
    count
}

/// How many threads would take a step.
pub fn ready(state: &State) -> u32
    requires { IsInOrder state.now }
    ensures { result ≡ count_true (ready_below (home_of state.now) (state_of state.now) 8) }
{
    let mut count = 0;
    for t in 0..THREADS {
        count += one_if(can_step(state, t));
    }
    count
}

/// How many threads wait on a port or a timer.
pub fn timed(state: &State) -> u32
    requires { IsInOrder state.now }
    ensures { result ≡ count_true (timed_below (home_of state.now) (state_of state.now) 8) }
{
    let mut count = 0;
    for t in 0..THREADS {
        count += one_if(waits_for_time(state, t));
    }
    count
}

/// Whether the turn of thread `t` is a step.
pub fn can_step(state: &State, t: u8) -> bool
    requires there { t < 8 }
    requires order { IsInOrder state.now }
    ensures { result ≡ is_ready (home_of state.now) (state_of state.now) t }
{
    is_step(decide(state, t))
}

fn is_step(turn: SlotResult) -> bool
    ensures { result ≡ steps turn }
{
    match turn {
        SlotResult::Idle | SlotResult::Paused => false,
        _ => true,
    }
}

/// Whether thread `t` waits on a port or a timer.
fn waits_for_time(state: &State, t: u8) -> bool
    requires there { t < 8 }
    requires order { IsInOrder state.now }
    ensures { result ≡ is_timed (home_of state.now) (state_of state.now) t }
{
    is_at_timed(state, t) && !can_step(state, t)
}

/// Whether thread `t` runs, and stands at an input or output of a port or a timer, or takes events of one.
fn is_at_timed(state: &State, t: u8) -> bool
    requires there { t < 8 }
    ensures { result ≡ is_timed_thread (home_of state.now) (state_of state.now) t
        (slice_get state.now.threads t) }
{
    let thread = &state.threads[t as usize];
    let instr = state
        .fixed
        .parts
        .code
        .instrs
        .get(thread.pc as usize)
        .copied();
    match thread.mode {
        Mode::Running => {
            is_at_port_or_timer(state, thread, instr)
                || takes_events(thread, instr) && state.events.has_timed(t)
        }
        Mode::Unused | Mode::Waiting | Mode::Trapped => false,
    }
}

/// Whether the instruction is an input from, or an output to, what its register names as a port or a timer.
fn is_at_port_or_timer(state: &State, thread: &Thread, instr: Option<Instr>) -> bool
    ensures { result ≡ is_timed_instr (home_of state.now) thread.now instr }
{
    match instr {
        Some(Instr::In(_, r)) => is_timed_name(look_up(state.ports.core(), thread.regs.get(r))),
        Some(Instr::Out(r, _)) => is_timed_name(look_up(state.ports.core(), thread.regs.get(r))),
        _ => false,
    }
}

fn is_timed_name(name: Resource) -> bool
    ensures { result ≡ is_timed_of (meant_by name) }
{
    match name {
        Resource::Port(_) | Resource::Timer(_) => true,
        _ => false,
    }
}

fn is_used(mode: Mode) -> bool
    ensures { result ≡ not (is_unused mode) }
{
    match mode {
        Mode::Unused => false,
        Mode::Waiting => true,
        Mode::Running => true,
        Mode::Trapped => true,
    }
}

fn is_halted(mode: Mode) -> bool
    ensures { result ≡ is_trapped mode }
{
    match mode {
        Mode::Unused => false,
        Mode::Waiting => false,
        Mode::Running => false,
        Mode::Trapped => true,
    }
}

fn one_if(holds: bool) -> u32
    ensures value { result ≡ truth holds }
    ensures most { result ≤ 1 }
{
    if holds { 1 } else { 0 }
}
