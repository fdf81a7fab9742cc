// The table: one row for each instruction.

ghost use Rattle.std.specs.Prelude.{◌≡◌, ◌≤◌, ◌%◌, ◌^◌, ℕ, true};
ghost use Rattle.xs_core.specs.Names.{meant_by};
ghost use Rattle.xs_core.specs.Local.{is_local};
ghost use Rattle.xs_core.specs.Seen.{home_of, state_of};
ghost use Rattle.xs_core.specs.SlotResults.{denote, steps, Fits, HasByte};
ghost use Rattle.xs_instr.specs.declared.image.Home.{Home};
ghost use Rattle.xs_instr.specs.declared.state.CoreState.{CoreState};
ghost use Rattle.xs_instr.specs.Did.{is_step};
ghost use Rattle.xs_instr.specs.Ends.{control_token as control_of, data_token as data_of};
ghost use Rattle.xs_instr.specs.Rows.{cond_row, data_row, free_row, get_row, in_row, out_row, row as row_of};

use crate::event_rows::EventStep;
use crate::names::{Resource, look_up};
use crate::pool_rows::PoolStep;
use crate::slot_result::SlotResult;
use crate::state::State;
use crate::{end_rows, event_rows, local_rows, pool_rows, port_rows};
use xs_instr::{Cond, GetKind, Instr, Reg, Thread, Token, Trap};
use xs_state::Registers;

/// What comes of a thread's instruction.
pub fn row(state: &State, t: u8, thread: &Thread, instr: Instr) -> SlotResult
    requires { HasByte instr }
    ensures means { denote (home_of state.now) (state_of state.now) t thread.now result
        ≡ row_of (home_of state.now) (state_of state.now) t thread.now instr }
    ensures steps { is_step (denote (home_of state.now) (state_of state.now) t thread.now result)
        ≡ steps result }
    ensures fits { Fits (home_of state.now) (state_of state.now) t thread.now result }
{
    let regs = &thread.regs;
    let core = state.ports.core();
    match instr {
        Instr::Getr(d, kind) => get(d, kind),
        Instr::Freer(r) => free(state, look_up(core, regs.get(r))),
        Instr::Getst(d, r) => pool_rows::get_thread(state, d, look_up(core, regs.get(r))),
        Instr::Tinitpc(x, k) => pool_rows::set_pc(state, look_up(core, regs.get(x)), k),
        Instr::Tinitdp(x, s) => {
            pool_rows::set_reg(state, look_up(core, regs.get(x)), Reg::Dp, regs.get(s))
        }
        Instr::Tinitsp(x, s) => {
            pool_rows::set_reg(state, look_up(core, regs.get(x)), Reg::Sp, regs.get(s))
        }
        Instr::Msync(r) => pool_rows::start(state, look_up(core, regs.get(r))),
        Instr::Ssync => pool_rows::wait(thread),
        Instr::Mjoin(r) => pool_rows::join(state, look_up(core, regs.get(r))),
        Instr::Freet => pool_rows::end(thread),
        Instr::Out(r, s) => output(state, t, look_up(core, regs.get(r)), regs.get(s)),
        Instr::Outt(r, s) => {
            end_rows::send_token(state, look_up(core, regs.get(r)), data_token(regs.get(s)))
        }
        Instr::Outct(r, n) => {
            end_rows::send_token(state, look_up(core, regs.get(r)), control_token(n))
        }
        Instr::In(d, r) => input(state, d, look_up(core, regs.get(r)), regs.get(r)),
        Instr::Int(d, r) => end_rows::take_byte(state, d, look_up(core, regs.get(r))),
        Instr::Chkct(r, n) => end_rows::take_control(state, look_up(core, regs.get(r)), n as u8),
        Instr::Setc(r, cond) => set_cond(state, look_up(core, regs.get(r)), cond),
        Instr::Setd(r, s) => set_data(state, look_up(core, regs.get(r)), regs.get(s)),
        Instr::Setpt(r, s) => port_rows::set_time(state, look_up(core, regs.get(r)), regs.get(s)),
        Instr::Getts(d, r) => port_rows::stamp(state, d, look_up(core, regs.get(r))),
        Instr::Setv(r, k) => event_rows::set_vector(state, look_up(core, regs.get(r)), k),
        Instr::Eeu(r) => event_rows::enable(state, look_up(core, regs.get(r))),
        Instr::Edu(r) => event_rows::disable(state, look_up(core, regs.get(r))),
        Instr::Clre => SlotResult::Event(EventStep::Clear),
        Instr::Waiteu => SlotResult::Paused,
        Instr::Setsr(n) => event_rows::set_bit(thread, n),
        Instr::Clrsr(n) => event_rows::clear_bit(thread, n),
        _ => own(state, thread, instr),
    }
}

/// A row of registers, memory or flow.
fn own(state: &State, thread: &Thread, instr: Instr) -> SlotResult
    requires { is_local instr ≡ true }
    ensures means { (t : ℕ) → denote (home_of state.now) (state_of state.now) t thread.now result
        ≡ row_of (home_of state.now) (state_of state.now) t thread.now instr }
    ensures steps { (t : ℕ) → is_step
        (denote (home_of state.now) (state_of state.now) t thread.now result) ≡ steps result }
    ensures fits { (t : ℕ) → Fits (home_of state.now) (state_of state.now) t thread.now result }
{
    match local_rows::step(thread, &state.words, instr) {
        Ok(step) => SlotResult::Local(step),
        Err(kind) => SlotResult::Trapped(kind),
    }
}

/// GETR.
fn get(d: Reg, kind: GetKind) -> SlotResult
    ensures means { (home : Home) (core : CoreState) (t : ℕ) (x : Thread) →
        denote home core t x result ≡ get_row home core t x d kind }
    ensures steps { (home : Home) (core : CoreState) (t : ℕ) (x : Thread) →
        is_step (denote home core t x result) ≡ steps result }
    ensures fits { (home : Home) (core : CoreState) (t : ℕ) (x : Thread) →
        Fits home core t x result }
{
    match kind {
        GetKind::Sync => SlotResult::Pool(PoolStep::GetSync(d)),
        GetKind::Lock => SlotResult::Pool(PoolStep::GetLock(d)),
    }
}

/// FREER, by what is named.
fn free(state: &State, name: Resource) -> SlotResult
    ensures means { (t : ℕ) (x : Thread) → denote (home_of state.now) (state_of state.now) t x result
        ≡ free_row (state_of state.now) t x (meant_by name) }
    ensures steps { (t : ℕ) (x : Thread) →
        is_step (denote (home_of state.now) (state_of state.now) t x result) ≡ steps result }
    ensures fits { (t : ℕ) (x : Thread) → Fits (home_of state.now) (state_of state.now) t x result }
{
    match name {
        Resource::Sync(n) => pool_rows::free_sync(state, n),
        Resource::Lock(n) => pool_rows::free_lock(state, n),
        _ => SlotResult::Trapped(Trap::Resource),
    }
}

/// OUT, by what is named.
fn output(state: &State, t: u8, name: Resource, value: u32) -> SlotResult
    ensures means { (x : Thread) → denote (home_of state.now) (state_of state.now) t x result
        ≡ out_row (home_of state.now) (state_of state.now) t x value (meant_by name) }
    ensures steps { (x : Thread) →
        is_step (denote (home_of state.now) (state_of state.now) t x result) ≡ steps result }
    ensures fits { (x : Thread) → Fits (home_of state.now) (state_of state.now) t x result }
{
    match name {
        Resource::Port(p) => port_rows::drive(state, p, value),
        Resource::End(e) => end_rows::send_word(state, e, value),
        Resource::Lock(n) => pool_rows::give_back(state, t, n),
        _ => SlotResult::Trapped(Trap::Resource),
    }
}

/// IN, by what is named.
fn input(state: &State, d: Reg, name: Resource, identifier: u32) -> SlotResult
    ensures means { (t : ℕ) (x : Thread) → denote (home_of state.now) (state_of state.now) t x result
        ≡ in_row (home_of state.now) (state_of state.now) t x d identifier (meant_by name) }
    ensures steps { (t : ℕ) (x : Thread) →
        is_step (denote (home_of state.now) (state_of state.now) t x result) ≡ steps result }
    ensures fits { (t : ℕ) (x : Thread) → Fits (home_of state.now) (state_of state.now) t x result }
{
    match name {
        Resource::Port(p) => port_rows::read_port(state, d, p),
        Resource::Timer(n) => port_rows::read_clock(state, d, n),
        Resource::End(e) => end_rows::take_word(state, d, e),
        Resource::Lock(n) => pool_rows::hold(state, d, n, identifier),
        _ => SlotResult::Trapped(Trap::Resource),
    }
}

/// SETC, by what is named.
fn set_cond(state: &State, name: Resource, cond: Cond) -> SlotResult
    ensures means { (t : ℕ) (x : Thread) → denote (home_of state.now) (state_of state.now) t x result
        ≡ cond_row (state_of state.now) t x cond (meant_by name) }
    ensures steps { (t : ℕ) (x : Thread) →
        is_step (denote (home_of state.now) (state_of state.now) t x result) ≡ steps result }
    ensures fits { (t : ℕ) (x : Thread) → Fits (home_of state.now) (state_of state.now) t x result }
{
    match name {
        Resource::Port(p) => port_rows::set_port_cond(state, p, cond),
        Resource::Timer(n) => port_rows::set_timer_cond(state, n, cond),
        _ => SlotResult::Trapped(Trap::Resource),
    }
}

/// SETD, by what is named.
fn set_data(state: &State, name: Resource, value: u32) -> SlotResult
    ensures means { (t : ℕ) (x : Thread) → denote (home_of state.now) (state_of state.now) t x result
        ≡ data_row (state_of state.now) t x value (meant_by name) }
    ensures steps { (t : ℕ) (x : Thread) →
        is_step (denote (home_of state.now) (state_of state.now) t x result) ≡ steps result }
    ensures fits { (t : ℕ) (x : Thread) → Fits (home_of state.now) (state_of state.now) t x result }
{
    match name {
        Resource::Port(p) => port_rows::set_port_data(state, p, value),
        Resource::Timer(n) => port_rows::set_timer_data(state, n, value),
        _ => SlotResult::Trapped(Trap::Resource),
    }
}

/// The low byte of a word, as a data token.
fn data_token(value: u32) -> Token
    ensures { result ≡ data_of (value % 2 ^ 8) }
{
    Token {
        control: false,
        byte: (value % 0x100) as u8,
    }
}

fn control_token(n: u32) -> Token
    requires { n ≤ 255 }
    ensures { result ≡ control_of n }
{
    Token {
        control: true,
        byte: n as u8,
    }
}
