// The rows of ports and timers.

ghost use Rattle.std.specs.Prelude.{◌≡◌, ◌+◌, ◌<◌, ◌^◌, ℕ};
ghost use Rattle.xs_core.specs.Ports.{port_did, PortFits};
ghost use Rattle.xs_core.specs.Idle.{KeepsOthers};
ghost use Rattle.xs_core.specs.Names.{meant_by};
ghost use Rattle.xs_core.specs.Seen.{home_of, state_of, thread_at};
ghost use Rattle.xs_core.specs.SlotResults.{denote, steps, Fits, IsMade, Keeps};
ghost use Rattle.xs_instr.specs.declared.trace.Record.TheVariants.{PortIn, PortOut};
ghost use Rattle.xs_instr.specs.Did.{is_step, map_did};
ghost use Rattle.xs_instr.specs.Ports.{can_send, can_receive, port_time_set, port_stamp};
ghost use Rattle.xs_instr.specs.Resources.{APort, ATimer, on_port};
ghost use Rattle.xs_instr.specs.Rows.{out_row, in_row, cond_row, data_row, goes_with, gets_with, put_ports};
ghost use Rattle.xs_instr.specs.Timers.{timer_meets};

use crate::local_rows::LocalStep;
use crate::names::Resource;
use crate::slot_result::SlotResult;
use crate::state::State;
use crate::threads::{pass, pass_with};
use xs_instr::{Cond, Dir, PortGot, Record, Reg, Thread, Timer, Trap};
use xw_words::after;

/// What a thread does at a port, by the port's place, or at a timer, by its number.
#[derive(Clone, Copy)]
pub enum PortStep {
    /// The port puts the value out.
    Drive(u32, u32),
    /// A register gets what the port has.
    Read(Reg, u32),
    /// The port's condition is set.
    PortCond(u32, Cond),
    /// What the port's condition compares with is set.
    PortData(u32, u32),
    /// The port's time is set.
    PortTime(u32, u32),
    /// A register gets the timer's time.
    Clock(Reg, u32),
    /// The timer's condition is set.
    TimerCond(u32, Cond),
    /// What the timer's condition compares with is set.
    TimerData(u32, u32),
}

/// OUT on a port.
pub fn drive(state: &State, p: u32, value: u32) -> SlotResult
    ensures means { (t : ℕ) (x : Thread) → denote (home_of state.now) (state_of state.now) t x result
        ≡ out_row (home_of state.now) (state_of state.now) t x value (APort p) }
    ensures steps { (t : ℕ) (x : Thread) →
        is_step (denote (home_of state.now) (state_of state.now) t x result) ≡ steps result }
    ensures fits { (t : ℕ) (x : Thread) → Fits (home_of state.now) (state_of state.now) t x result }
{
    if !state.ports.has(p) || !sends(state.ports.decl(p).dir) {
        return SlotResult::Trapped(Trap::Resource);
    }
    if state.ports.can_drive(p) {
        SlotResult::Port(PortStep::Drive(p, value))
    } else {
        SlotResult::Paused
    }
}

/// IN on a port.
pub fn read_port(state: &State, d: Reg, p: u32) -> SlotResult
    ensures means { (t name : ℕ) (x : Thread) → denote (home_of state.now) (state_of state.now) t x
        result ≡ in_row (home_of state.now) (state_of state.now) t x d name (APort p) }
    ensures steps { (t : ℕ) (x : Thread) →
        is_step (denote (home_of state.now) (state_of state.now) t x result) ≡ steps result }
    ensures fits { (t : ℕ) (x : Thread) → Fits (home_of state.now) (state_of state.now) t x result }
{
    if !state.ports.has(p) || !receives(state.ports.decl(p).dir) {
        return SlotResult::Trapped(Trap::Resource);
    }
    if state.ports.can_read(p) {
        SlotResult::Port(PortStep::Read(d, p))
    } else {
        SlotResult::Paused
    }
}

/// IN on a timer.
pub fn read_clock(state: &State, d: Reg, n: u32) -> SlotResult
    ensures means { (t name : ℕ) (x : Thread) → denote (home_of state.now) (state_of state.now) t x
        result ≡ in_row (home_of state.now) (state_of state.now) t x d name (ATimer n) }
    ensures steps { (t : ℕ) (x : Thread) →
        is_step (denote (home_of state.now) (state_of state.now) t x result) ≡ steps result }
    ensures fits { (t : ℕ) (x : Thread) → Fits (home_of state.now) (state_of state.now) t x result }
{
    let Some(timer) = state.timers.get(n as usize) else {
        return SlotResult::Trapped(Trap::Resource);
    };
    if timer.latch.is_some() || passes(timer, state.ports.clock()) {
        SlotResult::Port(PortStep::Clock(d, n))
    } else {
        SlotResult::Paused
    }
}

/// SETC on a port.
pub fn set_port_cond(state: &State, p: u32, cond: Cond) -> SlotResult
    ensures means { (t : ℕ) (x : Thread) → denote (home_of state.now) (state_of state.now) t x result
        ≡ cond_row (state_of state.now) t x cond (APort p) }
    ensures steps { (t : ℕ) (x : Thread) →
        is_step (denote (home_of state.now) (state_of state.now) t x result) ≡ steps result }
    ensures fits { (t : ℕ) (x : Thread) → Fits (home_of state.now) (state_of state.now) t x result }
{
    if state.ports.has(p) && cond != Cond::After {
        SlotResult::Port(PortStep::PortCond(p, cond))
    } else {
        SlotResult::Trapped(Trap::Resource)
    }
}

/// SETC on a timer.
pub fn set_timer_cond(state: &State, n: u32, cond: Cond) -> SlotResult
    ensures means { (t : ℕ) (x : Thread) → denote (home_of state.now) (state_of state.now) t x result
        ≡ cond_row (state_of state.now) t x cond (ATimer n) }
    ensures steps { (t : ℕ) (x : Thread) →
        is_step (denote (home_of state.now) (state_of state.now) t x result) ≡ steps result }
    ensures fits { (t : ℕ) (x : Thread) → Fits (home_of state.now) (state_of state.now) t x result }
{
    if state.timers.get(n as usize).is_none() {
        return SlotResult::Trapped(Trap::Resource);
    }
    match cond {
        Cond::None | Cond::After => SlotResult::Port(PortStep::TimerCond(n, cond)),
        Cond::Eq | Cond::Neq => SlotResult::Trapped(Trap::Resource),
    }
}

/// SETD on a port.
pub fn set_port_data(state: &State, p: u32, value: u32) -> SlotResult
    ensures means { (t : ℕ) (x : Thread) → denote (home_of state.now) (state_of state.now) t x result
        ≡ data_row (state_of state.now) t x value (APort p) }
    ensures steps { (t : ℕ) (x : Thread) →
        is_step (denote (home_of state.now) (state_of state.now) t x result) ≡ steps result }
    ensures fits { (t : ℕ) (x : Thread) → Fits (home_of state.now) (state_of state.now) t x result }
{
    if state.ports.has(p) {
        SlotResult::Port(PortStep::PortData(p, value))
    } else {
        SlotResult::Trapped(Trap::Resource)
    }
}

/// SETD on a timer.
pub fn set_timer_data(state: &State, n: u32, value: u32) -> SlotResult
    ensures means { (t : ℕ) (x : Thread) → denote (home_of state.now) (state_of state.now) t x result
        ≡ data_row (state_of state.now) t x value (ATimer n) }
    ensures steps { (t : ℕ) (x : Thread) →
        is_step (denote (home_of state.now) (state_of state.now) t x result) ≡ steps result }
    ensures fits { (t : ℕ) (x : Thread) → Fits (home_of state.now) (state_of state.now) t x result }
{
    if state.timers.get(n as usize).is_some() {
        SlotResult::Port(PortStep::TimerData(n, value))
    } else {
        SlotResult::Trapped(Trap::Resource)
    }
}

/// SETPT on a port.
pub fn set_time(state: &State, name: Resource, value: u32) -> SlotResult
    ensures means { (t : ℕ) (x : Thread) → denote (home_of state.now) (state_of state.now) t x result
        ≡ map_did (goes_with put_ports (state_of state.now) t x) (on_port (state_of state.now)
        (port_time_set value (state_of state.now).ports) (meant_by name)) }
    ensures steps { (t : ℕ) (x : Thread) →
        is_step (denote (home_of state.now) (state_of state.now) t x result) ≡ steps result }
    ensures fits { (t : ℕ) (x : Thread) → Fits (home_of state.now) (state_of state.now) t x result }
{
    let Resource::Port(p) = name else {
        return SlotResult::Trapped(Trap::Resource);
    };
    if state.ports.has(p) {
        SlotResult::Port(PortStep::PortTime(p, value))
    } else {
        SlotResult::Trapped(Trap::Resource)
    }
}

/// GETTS on a port.
pub fn stamp(state: &State, d: Reg, name: Resource) -> SlotResult
    ensures means { (t : ℕ) (x : Thread) → denote (home_of state.now) (state_of state.now) t x result
        ≡ map_did (gets_with put_ports (state_of state.now) t x d)
        (on_port (state_of state.now) (port_stamp (state_of state.now).ports) (meant_by name)) }
    ensures steps { (t : ℕ) (x : Thread) →
        is_step (denote (home_of state.now) (state_of state.now) t x result) ≡ steps result }
    ensures fits { (t : ℕ) (x : Thread) → Fits (home_of state.now) (state_of state.now) t x result }
{
    let Resource::Port(p) = name else {
        return SlotResult::Trapped(Trap::Resource);
    };
    if state.ports.has(p) {
        SlotResult::Local(LocalStep::Set(d, state.ports.stamp(p) as u32))
    } else {
        SlotResult::Trapped(Trap::Resource)
    }
}

fn sends(dir: Dir) -> bool
    ensures { result ≡ can_send dir }
{
    match dir {
        Dir::In => false,
        Dir::Out | Dir::Both => true,
    }
}

fn receives(dir: Dir) -> bool
    ensures { result ≡ can_receive dir }
{
    match dir {
        Dir::Out => false,
        Dir::In | Dir::Both => true,
    }
}

/// Whether the timer's condition holds, or it has none.
pub fn passes(timer: &Timer, clock: u32) -> bool
    ensures { result ≡ timer_meets timer.now.cond clock timer.now.datum }
{
    match timer.cond {
        Cond::After => after(clock, timer.datum),
        Cond::None | Cond::Eq | Cond::Neq => true,
    }
}

/// Takes the step.
#[tactic(auto, using(crate::proofs::There::there, crate::proofs::Lists::get_set_other))]
pub fn apply(state: &mut State, t: u8, step: PortStep) -> Option<Record>
    requires there { t < 8 }
    requires room { (thread_at state.old.threads t).pc + 1 < 2 ^ 32 }
    requires fits { PortFits (home_of state.old) (state_of state.old) step }
    ensures made { IsMade (port_did (home_of state.old) (state_of state.old) t
        (thread_at state.old.threads t) step) (state_of state.new) result }
    ensures keeps { Keeps state.old state.new }
    ensures others { KeepsOthers t state.old.threads state.new.threads }
{
    match step {
        PortStep::Drive(p, value) => {
            let id = state.ports.decl(p).port;
            let got = state.ports.drive(p, value)?;
            pass(&mut state.threads, t);
            Some(output(state.ports.core(), id, got))
        }
        PortStep::Read(d, p) => {
            let id = state.ports.decl(p).port;
            let got = state.ports.read(p)?;
            pass_with(&mut state.threads, t, d, got.value);
            Some(input(state.ports.core(), id, got))
        }
        PortStep::PortCond(p, cond) => {
            state.ports.set_cond(p, cond);
            pass(&mut state.threads, t);
            None
        }
        PortStep::PortData(p, value) => {
            state.ports.set_data(p, value);
            pass(&mut state.threads, t);
            None
        }
        PortStep::PortTime(p, value) => {
            state.ports.set_time(p, value);
            pass(&mut state.threads, t);
            None
        }
        PortStep::Clock(d, n) => {
            let timer = state.timers.as_slice()[n as usize];
            let time = timer.latch.unwrap_or(state.ports.clock());
            state.timers.set(n as usize, unlatched(timer));
            pass_with(&mut state.threads, t, d, time);
            None
        }
        PortStep::TimerCond(n, cond) => {
            let timer = state.timers.as_slice()[n as usize];
            state.timers.set(n as usize, with_cond(timer, cond));
            pass(&mut state.threads, t);
            None
        }
        PortStep::TimerData(n, value) => {
            let timer = state.timers.as_slice()[n as usize];
            state.timers.set(n as usize, with_datum(timer, value));
            pass(&mut state.threads, t);
            None
        }
    }
}

/// The record of an output.
fn output(core: u8, port: u8, got: PortGot) -> Record
    ensures { result ≡ PortOut core port got.stamp got.value }
{
    Record::PortOut {
        core,
        port,
        stamp: got.stamp,
        value: got.value,
    }
}

/// The record of an input.
fn input(core: u8, port: u8, got: PortGot) -> Record
    ensures { result ≡ PortIn core port got.stamp got.value }
{
    Record::PortIn {
        core,
        port,
        stamp: got.stamp,
        value: got.value,
    }
}

/// The timer without a time that it holds.
fn unlatched(timer: Timer) -> Timer
    ensures { result ≡ record { cond = timer.cond; datum = timer.datum; latch = None } }
{
    Timer {
        latch: None,
        ..timer
    }
}

/// The timer with another condition, and without a time that it holds.
fn with_cond(timer: Timer, cond: Cond) -> Timer
    ensures { result ≡ record { cond = cond; datum = timer.datum; latch = None } }
{
    Timer {
        cond,
        latch: None,
        ..timer
    }
}

/// The timer with another datum.
fn with_datum(timer: Timer, datum: u32) -> Timer
    ensures { result ≡ record { cond = timer.cond; datum = datum; latch = timer.latch } }
{
    Timer { datum, ..timer }
}
