// Events, and the rows that set them up.

ghost use Rattle.std.specs.Prelude.{◌≡◌, ◌+◌, ◌<◌, ◌^◌, ℕ, None, false, nat_eq, true};
ghost use Rattle.xs_core.specs.Events.{event_did, go_where};
ghost use Rattle.xs_core.specs.Idle.{KeepsOthers};
ghost use Rattle.xs_core.specs.Names.{meant_by};
ghost use Rattle.xs_core.specs.Seen.{home_of, state_of, thread_at};
ghost use Rattle.xs_core.specs.SlotResults.{denote, steps, Fits, IsMade, Keeps};
ghost use Rattle.xs_instr.specs.declared.image.Home.{Home};
ghost use Rattle.xs_instr.specs.declared.state.CoreState.{CoreState};
ghost use Rattle.xs_instr.specs.declared.state.Events.{Events as EventsOf};
ghost use Rattle.xs_instr.specs.Did.{is_step, map_did, makes, Did};
ghost use Rattle.xs_instr.specs.Events.{latched, on_evented, vector_row, enable_row, disable_row};
ghost use Rattle.xs_instr.specs.Rows.{goes_with, put_events, bit_row, bit_by};
ghost use Rattle.xs_instr.specs.Slot.{event_taken};

use crate::names::Resource;
use crate::slot_result::SlotResult;
use crate::state::State;
use crate::threads::pass;
use xs_instr::{Res, Thread, Timer, Trap};

/// What a thread does with events.
#[derive(Clone, Copy)]
pub enum EventStep {
    /// The resource's vector is set.
    Vector(Res, u32),
    /// The resource is enabled for the thread.
    Enable(Res),
    /// The resource is disabled.
    Disable(Res),
    /// All resources of the thread are disabled.
    Clear,
    /// The thread's event bit is set so.
    Bit(bool),
}

/// SETV.
pub fn set_vector(state: &State, name: Resource, k: u32) -> SlotResult
    ensures means { (t : ℕ) (x : Thread) → denote (home_of state.now) (state_of state.now) t x result
        ≡ map_did (goes_with put_events (state_of state.now) t x) (on_evented (state_of state.now)
        (vector_row (state_of state.now).events k) (meant_by name)) }
    ensures steps { (t : ℕ) (x : Thread) →
        is_step (denote (home_of state.now) (state_of state.now) t x result) ≡ steps result }
    ensures fits { (t : ℕ) (x : Thread) → Fits (home_of state.now) (state_of state.now) t x result }
{
    match find(state, name) {
        None => SlotResult::Trapped(Trap::Resource),
        Some(res) => SlotResult::Event(EventStep::Vector(res, k)),
    }
}

/// EEU.
pub fn enable(state: &State, name: Resource) -> SlotResult
    ensures means { (t : ℕ) (x : Thread) → denote (home_of state.now) (state_of state.now) t x result
        ≡ map_did (goes_with put_events (state_of state.now) t x) (on_evented (state_of state.now)
        (enable_row (state_of state.now).events t) (meant_by name)) }
    ensures steps { (t : ℕ) (x : Thread) →
        is_step (denote (home_of state.now) (state_of state.now) t x result) ≡ steps result }
    ensures fits { (t : ℕ) (x : Thread) → Fits (home_of state.now) (state_of state.now) t x result }
{
    match find(state, name) {
        None => SlotResult::Trapped(Trap::Resource),
        Some(res) => SlotResult::Event(EventStep::Enable(res)),
    }
}

/// EDU.
pub fn disable(state: &State, name: Resource) -> SlotResult
    ensures means { (t : ℕ) (x : Thread) → denote (home_of state.now) (state_of state.now) t x result
        ≡ map_did (goes_with put_events (state_of state.now) t x) (on_evented (state_of state.now)
        (disable_row (state_of state.now).events) (meant_by name)) }
    ensures steps { (t : ℕ) (x : Thread) →
        is_step (denote (home_of state.now) (state_of state.now) t x result) ≡ steps result }
    ensures fits { (t : ℕ) (x : Thread) → Fits (home_of state.now) (state_of state.now) t x result }
{
    match find(state, name) {
        None => SlotResult::Trapped(Trap::Resource),
        Some(res) => SlotResult::Event(EventStep::Disable(res)),
    }
}

/// SETSR: with 1 the event bit is set.
pub fn set_bit(thread: &Thread, n: u32) -> SlotResult
    ensures means { (home : Home) (core : CoreState) (t : ℕ) → denote home core t thread.now result
        ≡ bit_row core t thread.now (bit_by thread.now.event_bit true (nat_eq n 1)) }
    ensures steps { (home : Home) (core : CoreState) (t : ℕ) →
        is_step (denote home core t thread.now result) ≡ steps result }
    ensures fits { (home : Home) (core : CoreState) (t : ℕ) → Fits home core t thread.now result }
{
    if n == 1 {
        SlotResult::Event(EventStep::Bit(true))
    } else {
        SlotResult::Event(EventStep::Bit(thread.event_bit))
    }
}

/// CLRSR: with 1 the event bit is cleared.
pub fn clear_bit(thread: &Thread, n: u32) -> SlotResult
    ensures means { (home : Home) (core : CoreState) (t : ℕ) → denote home core t thread.now result
        ≡ bit_row core t thread.now (bit_by thread.now.event_bit false (nat_eq n 1)) }
    ensures steps { (home : Home) (core : CoreState) (t : ℕ) →
        is_step (denote home core t thread.now result) ≡ steps result }
    ensures fits { (home : Home) (core : CoreState) (t : ℕ) → Fits home core t thread.now result }
{
    if n == 1 {
        SlotResult::Event(EventStep::Bit(false))
    } else {
        SlotResult::Event(EventStep::Bit(thread.event_bit))
    }
}

/// The port, timer or channel end that is named and there.
fn find(state: &State, name: Resource) -> Option<Res>
    ensures found { (go : Res → Did EventsOf) → go_where go result
        ≡ on_evented (state_of state.now) go (meant_by name) }
{
    match name {
        Resource::Port(n) if state.ports.has(n) => Some(Res::Port(n)),
        Resource::Timer(n) if state.timers.get(n as usize).is_some() => Some(Res::Timer(n)),
        Resource::End(n) if state.ends.has(n) => Some(Res::End(n)),
        _ => None,
    }
}

/// Takes the step.
#[tactic(auto, using(crate::proofs::Lists::get_set_other))]
pub fn apply(state: &mut State, t: u8, step: EventStep)
    requires there { t < 8 }
    requires room { (thread_at state.old.threads t).pc + 1 < 2 ^ 32 }
    ensures made { IsMade (event_did (state_of state.old) t (thread_at state.old.threads t) step)
        (state_of state.new) None }
    ensures keeps { Keeps state.old state.new }
    ensures others { KeepsOthers t state.old.threads state.new.threads }
{
    match step {
        EventStep::Vector(res, k) => state.events.set_vector(res, k),
        EventStep::Enable(res) => state.events.enable(res, t),
        EventStep::Disable(res) => state.events.disable(res),
        EventStep::Clear => state.events.clear(t),
        EventStep::Bit(bit) => state.threads[t as usize].event_bit = bit,
    }
    pass(&mut state.threads, t);
}

/// The thread takes the resource's event.
#[tactic(auto, using(crate::proofs::Lists::get_set_other))]
pub fn take(state: &mut State, t: u8, res: Res)
    requires there { t < 8 }
    ensures made { state_of state.new ≡ event_taken (home_of state.old) (state_of state.old) t
        (thread_at state.old.threads t) res }
    ensures keeps { Keeps state.old state.new }
    ensures others { KeepsOthers t state.old.threads state.new.threads }
{
    latch(state, res);
    let thread = &mut state.threads[t as usize];
    thread.pc = state.events.vector(res);
    thread.event_bit = false;
}

/// A port keeps its pins and counter, and a timer the clock.
fn latch(state: &mut State, res: Res)
    ensures latched { state_of state.new ≡ latched (home_of state.old) (state_of state.old) res }
    ensures threads { state.new.threads ≡ state.old.threads }
    ensures events { state.new.events ≡ state.old.events }
    ensures keeps { Keeps state.old state.new }
{
    match res {
        Res::Port(n) => {
            if state.ports.has(n) {
                state.ports.latch(n);
            }
        }
        Res::Timer(n) => {
            if let Some(timer) = state.timers.get(n as usize).copied() {
                let latch = Some(state.ports.clock());
                state.timers.set(n as usize, Timer { latch, ..timer });
            }
        }
        Res::End(_) => {}
    }
}
