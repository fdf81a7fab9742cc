// A thread's turn: what comes of it, and how it is taken.

ghost use Rattle.std.specs.Prelude.{◌≡◌, ◌+◌, ◌<◌, ◌≤◌, ◌||◌, ℕ, length, slice_get, IfSome};
ghost use Rattle.xs_core.specs.Idle.{AreUnusedFrom};
ghost use Rattle.xs_core.specs.Order.{IsInOrder, KeepsHome};
ghost use Rattle.xs_core.specs.Seen.{home_of, state_of, thread_at};
ghost use Rattle.xs_core.specs.Slots.{IsTurn};
ghost use Rattle.xs_core.specs.declared.slot_result.SlotResult.TheVariants.{Local};
ghost use Rattle.xs_core.specs.SlotResults.{denote, steps, Fits, MayGoOn};
ghost use Rattle.xs_instr.specs.Did.{is_step};
ghost use Rattle.xs_instr.specs.Slot.{instr_at, is_ready, pos_at, runs_on, slot, takes_events as takes_events_of};

use crate::did::Did;
use crate::local_rows::LocalStep;
use crate::ready::pick;
use crate::rows::row;
use crate::slot_result::SlotResult;
use crate::state::State;
use crate::{end_rows, event_rows, local_rows, pool_rows, port_rows, threads};
use circular_buffer::HeapCircularBuffer;
use xs_instr::{Instr, Mode, Sent, Thread, Trap};
use xw_words::Pos;

/// What comes of the turn of thread `t`.
pub fn decide(state: &State, t: u8) -> SlotResult
    requires there { t < 8 }
    requires order { IsInOrder state.now }
    ensures means { denote (home_of state.now) (state_of state.now) t
        (thread_at state.now.threads t) result ≡ slot (home_of state.now) (state_of state.now) t }
    ensures steps { steps result ≡ is_ready (home_of state.now) (state_of state.now) t }
    ensures fits { Fits (home_of state.now) (state_of state.now) t
        (thread_at state.now.threads t) result }
    ensures room { MayGoOn (thread_at state.now.threads t).pc result }
{
    let thread = &state.threads[t as usize];
    match thread.mode {
        Mode::Unused | Mode::Trapped => SlotResult::Idle,
        Mode::Waiting => SlotResult::Paused,
        Mode::Running => run(state, t, thread),
    }
}

/// What comes of the turn of a running thread: an event, where it takes events and one is there, else its instruction.
fn run(state: &State, t: u8, thread: &Thread) -> SlotResult
    requires order { IsInOrder state.now }
    ensures means { denote (home_of state.now) (state_of state.now) t thread.now result
        ≡ runs_on (home_of state.now) (state_of state.now) t thread.now
        (instr_at (home_of state.now) thread.now.pc) }
    ensures steps { is_step (denote (home_of state.now) (state_of state.now) t thread.now result)
        ≡ steps result }
    ensures fits { Fits (home_of state.now) (state_of state.now) t thread.now result }
    ensures room { MayGoOn thread.now.pc result }
{
    let instr = state
        .fixed
        .parts
        .code
        .instrs
        .get(thread.pc as usize)
        .copied();
    if takes_events(thread, instr) {
        if let Some(res) = pick(state, t) {
            return SlotResult::Take(res);
        }
    }
    match instr {
        None => SlotResult::Trapped(Trap::Code),
        Some(instr) => row(state, t, thread, instr),
    }
}

/// Whether the thread stands where it takes events.
pub fn takes_events(thread: &Thread, instr: Option<Instr>) -> bool
    ensures { result ≡ takes_events_of thread.now instr }
{
    match instr {
        Some(Instr::Waiteu) => true,
        _ => thread.event_bit,
    }
}

/// Thread `t` takes its turn. From `in_use` on each thread is unused, before it and after it. A step in registers, memory and flow,
/// as most are, is made without a look at what other steps need.
#[inline]
pub fn take(state: &mut State, outbox: &mut HeapCircularBuffer<Sent>, in_use: &mut u8, t: u8) -> Did
    requires used { t < in_use.old }
    requires few { in_use.old ≤ 8 }
    requires unused { AreUnusedFrom in_use.old state.old.threads }
    requires order { IsInOrder state.old }
    requires spare { length outbox.old.items + 4 ≤ outbox.old.capacity }
    ensures turn { IsTurn (slot (home_of state.old) (state_of state.old) t) (home_of state.old)
        (state_of state.old) t result (state_of state.new) outbox.old.items outbox.new.items }
    ensures home { KeepsHome state.old state.new }
    ensures order { IsInOrder state.new }
    ensures few { length outbox.new.items ≤ length outbox.old.items + 4 }
    ensures capacity { outbox.new.capacity ≡ outbox.old.capacity }
    ensures less { in_use.new ≤ 8 }
    ensures rest { AreUnusedFrom in_use.new state.new.threads }
{
    match local_step(state, t) {
        Some(step) => {
            local_rows::apply(&mut state.threads, &mut state.words, t, step);
            Did::Made(None)
        }
        None => take_any(state, outbox, in_use, t),
    }
}

/// The step in registers, memory and flow that thread `t` makes at its turn. `None` where its turn is another, or may be.
#[inline(always)]
fn local_step(state: &State, t: u8) -> Option<LocalStep>
    requires there { t < 8 }
    requires order { IsInOrder state.now }
    ensures means { IfSome result (λ step. slot (home_of state.now) (state_of state.now) t
        ≡ denote (home_of state.now) (state_of state.now) t (thread_at state.now.threads t) (Local step)) }
    ensures fits { IfSome result (λ step. Fits (home_of state.now) (state_of state.now) t
        (thread_at state.now.threads t) (Local step)) }
    ensures room { IfSome result (λ step. MayGoOn (thread_at state.now.threads t).pc (Local step)) }
{
    let thread = &state.threads[t as usize];
    match thread.mode {
        Mode::Running => run_alone(state, thread),
        Mode::Unused | Mode::Waiting | Mode::Trapped => None,
    }
}

/// The same of a running thread.
#[inline(always)]
fn run_alone(state: &State, thread: &Thread) -> Option<LocalStep>
    requires order { IsInOrder state.now }
    ensures means { (t : ℕ) → IfSome result (λ step.
        denote (home_of state.now) (state_of state.now) t thread.now (Local step)
        ≡ runs_on (home_of state.now) (state_of state.now) t thread.now
        (instr_at (home_of state.now) thread.now.pc)) }
    ensures fits { (t : ℕ) → IfSome result (λ step.
        Fits (home_of state.now) (state_of state.now) t thread.now (Local step)) }
    ensures room { IfSome result (λ step. MayGoOn thread.now.pc (Local step)) }
{
    if thread.event_bit {
        return None;
    }
    let instr = *state.fixed.parts.code.instrs.get(thread.pc as usize)?;
    if !local_rows::is_local(instr) {
        return None;
    }
    local_rows::step(thread, &state.words, instr).ok()
}

/// Thread `t` takes its turn, whatever this is.
#[inline(never)]
fn take_any(state: &mut State, outbox: &mut HeapCircularBuffer<Sent>, in_use: &mut u8, t: u8) -> Did
    requires used { t < in_use.old }
    requires few { in_use.old ≤ 8 }
    requires unused { AreUnusedFrom in_use.old state.old.threads }
    requires order { IsInOrder state.old }
    requires spare { length outbox.old.items + 4 ≤ outbox.old.capacity }
    ensures turn { IsTurn (slot (home_of state.old) (state_of state.old) t) (home_of state.old)
        (state_of state.old) t result (state_of state.new) outbox.old.items outbox.new.items }
    ensures home { KeepsHome state.old state.new }
    ensures order { IsInOrder state.new }
    ensures few { length outbox.new.items ≤ length outbox.old.items + 4 }
    ensures capacity { outbox.new.capacity ≡ outbox.old.capacity }
    ensures less { in_use.new ≤ 8 }
    ensures rest { AreUnusedFrom in_use.new state.new.threads }
{
    match decide(state, t) {
        SlotResult::Idle => Did::Idle,
        SlotResult::Paused => Did::Paused,
        SlotResult::Trapped(kind) => {
            let pos = place_of(state, t);
            state.threads[t as usize].mode = Mode::Trapped;
            Did::Trapped(kind, pos)
        }
        SlotResult::Local(step) => {
            local_rows::apply(&mut state.threads, &mut state.words, t, step);
            Did::Made(None)
        }
        SlotResult::Pool(step) => {
            pool_rows::apply(state, t, step);
            *in_use = threads::in_use(&state.threads);
            Did::Made(None)
        }
        SlotResult::End(step) => Did::Made(end_rows::apply(state, outbox, t, step)),
        SlotResult::Port(step) => Did::Made(port_rows::apply(state, t, step)),
        SlotResult::Event(step) => {
            event_rows::apply(state, t, step);
            Did::Made(None)
        }
        SlotResult::Take(res) => {
            event_rows::take(state, t, res);
            Did::Made(None)
        }
    }
}

/// The place of the instruction of thread `t` in the text, or 0:0 past the code.
fn place_of(state: &State, t: u8) -> Pos
    requires { t < 8 }
    ensures { result ≡ pos_at (home_of state.now) (slice_get state.now.threads t) }
{
    let pc = state.threads[t as usize].pc;
    match state.fixed.parts.code.at.get(pc as usize) {
        None => Pos { line: 0, col: 0 },
        Some(pos) => *pos,
    }
}
