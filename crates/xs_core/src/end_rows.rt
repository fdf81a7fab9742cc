// The rows of channel ends.

ghost use Rattle.std.specs.Prelude.{◌≡◌, ◌+◌, ◌<◌, ◌≤◌, ◌++◌, ◌∷◌, [], ◌^◌, ℕ, true, length};
ghost use Rattle.xs_chanend.specs.Ends.{end_at};
ghost use Rattle.xs_core.specs.Ends.{end_did, is_word, EndFits, IsSent};
ghost use Rattle.xs_core.specs.Order.{IsInOrder, KeepsHome, Moves};
ghost use Rattle.xs_core.specs.Idle.{KeepsOthers};
ghost use Rattle.xs_core.specs.Names.{meant_by};
ghost use Rattle.xs_core.specs.Seen.{home_of, state_of, thread_at};
ghost use Rattle.xs_core.specs.SlotResults.{denote, steps, Fits};
ghost use Rattle.xs_instr.specs.Did.{is_step, map_did};
ghost use Rattle.xs_instr.specs.declared.state.Moved.TheVariants.{Tok};
ghost use Rattle.xs_instr.specs.Ends.{check, data_token, ins_byte, ins_control, outs, peer_of, take_byte, take_word, tokens_go, tokens_taken, tokens_to, word_tokens, Passed, Word};
ghost use Rattle.xs_instr.specs.Resources.{AnEnd, on_end};
ghost use Rattle.xs_instr.specs.Rows.{gets_with, goes_with, in_row, out_row, put_ends};

use crate::moves::go;
use crate::names::Resource;
use crate::slot_result::SlotResult;
use crate::state::State;
use crate::threads::{pass, pass_with};
use circular_buffer::HeapCircularBuffer;
use xs_chanend::{Checked1, Taken};
use xs_instr::{Moved, Record, Reg, Sent, Thread, Token, Trap};

/// What a thread does at a channel end, which is meant by its number.
#[derive(Clone, Copy)]
pub enum EndStep {
    /// A word goes out, as four data tokens.
    SendWord(u32, u32),
    /// A token goes out.
    SendToken(u32, Token),
    /// A register gets the word of the first four tokens.
    TakeWord(Reg, u32),
    /// A register gets the byte of the first token.
    TakeByte(Reg, u32),
    /// The first token is taken, which is that control token.
    TakeControl(u32, u8),
}

/// OUT on a channel end.
pub fn send_word(state: &State, e: u32, value: u32) -> SlotResult
    ensures means { (t : ℕ) (x : Thread) → denote (home_of state.now) (state_of state.now) t x result
        ≡ out_row (home_of state.now) (state_of state.now) t x value (AnEnd e) }
    ensures steps { (t : ℕ) (x : Thread) →
        is_step (denote (home_of state.now) (state_of state.now) t x result) ≡ steps result }
    ensures fits { (t : ℕ) (x : Thread) → Fits (home_of state.now) (state_of state.now) t x result }
{
    if !state.ends.has(e) {
        return SlotResult::Trapped(Trap::Resource);
    }
    if state.ends.credits(e) >= 4 {
        SlotResult::End(EndStep::SendWord(e, value))
    } else {
        SlotResult::Paused
    }
}

/// OUTT and OUTCT.
pub fn send_token(state: &State, name: Resource, token: Token) -> SlotResult
    ensures means { (t : ℕ) (x : Thread) → denote (home_of state.now) (state_of state.now) t x result
        ≡ map_did (goes_with put_ends (state_of state.now) t x) (on_end (state_of state.now)
        (outs (home_of state.now) (state_of state.now).clock (token ∷ []) (state_of state.now).ends)
        (meant_by name)) }
    ensures steps { (t : ℕ) (x : Thread) →
        is_step (denote (home_of state.now) (state_of state.now) t x result) ≡ steps result }
    ensures fits { (t : ℕ) (x : Thread) → Fits (home_of state.now) (state_of state.now) t x result }
{
    let Resource::End(e) = name else {
        return SlotResult::Trapped(Trap::Resource);
    };
    if !state.ends.has(e) {
        return SlotResult::Trapped(Trap::Resource);
    }
    if state.ends.credits(e) >= 1 {
        SlotResult::End(EndStep::SendToken(e, token))
    } else {
        SlotResult::Paused
    }
}

/// IN on a channel end.
pub fn take_word(state: &State, d: Reg, e: u32) -> SlotResult
    ensures means { (t name : ℕ) (x : Thread) → denote (home_of state.now) (state_of state.now) t x
        result ≡ in_row (home_of state.now) (state_of state.now) t x d name (AnEnd e) }
    ensures steps { (t : ℕ) (x : Thread) →
        is_step (denote (home_of state.now) (state_of state.now) t x result) ≡ steps result }
    ensures fits { (t : ℕ) (x : Thread) → Fits (home_of state.now) (state_of state.now) t x result }
{
    if !state.ends.has(e) {
        return SlotResult::Trapped(Trap::Resource);
    }
    match state.ends.word(e) {
        Taken::Word(_) => SlotResult::End(EndStep::TakeWord(d, e)),
        Taken::Control(_) => SlotResult::Trapped(Trap::Mismatch),
        Taken::NotYet => SlotResult::Paused,
    }
}

/// INT.
pub fn take_byte(state: &State, d: Reg, name: Resource) -> SlotResult
    ensures means { (t : ℕ) (x : Thread) → denote (home_of state.now) (state_of state.now) t x result
        ≡ map_did (gets_with put_ends (state_of state.now) t x d) (on_end (state_of state.now)
        (ins_byte (home_of state.now) (state_of state.now).clock (state_of state.now).ends)
        (meant_by name)) }
    ensures steps { (t : ℕ) (x : Thread) →
        is_step (denote (home_of state.now) (state_of state.now) t x result) ≡ steps result }
    ensures fits { (t : ℕ) (x : Thread) → Fits (home_of state.now) (state_of state.now) t x result }
{
    let Resource::End(e) = name else {
        return SlotResult::Trapped(Trap::Resource);
    };
    if !state.ends.has(e) {
        return SlotResult::Trapped(Trap::Resource);
    }
    match state.ends.byte(e) {
        Taken::Word(_) => SlotResult::End(EndStep::TakeByte(d, e)),
        Taken::Control(_) => SlotResult::Trapped(Trap::Mismatch),
        Taken::NotYet => SlotResult::Paused,
    }
}

/// CHKCT.
pub fn take_control(state: &State, name: Resource, c: u8) -> SlotResult
    ensures means { (t : ℕ) (x : Thread) → denote (home_of state.now) (state_of state.now) t x result
        ≡ map_did (goes_with put_ends (state_of state.now) t x) (on_end (state_of state.now)
        (ins_control (home_of state.now) (state_of state.now).clock c (state_of state.now).ends)
        (meant_by name)) }
    ensures steps { (t : ℕ) (x : Thread) →
        is_step (denote (home_of state.now) (state_of state.now) t x result) ≡ steps result }
    ensures fits { (t : ℕ) (x : Thread) → Fits (home_of state.now) (state_of state.now) t x result }
{
    let Resource::End(e) = name else {
        return SlotResult::Trapped(Trap::Resource);
    };
    if !state.ends.has(e) {
        return SlotResult::Trapped(Trap::Resource);
    }
    match state.ends.checked(e, c) {
        Checked1::Passed => SlotResult::End(EndStep::TakeControl(e, c)),
        Checked1::Other(_) => SlotResult::Trapped(Trap::Mismatch),
        Checked1::NotYet => SlotResult::Paused,
    }
}

/// Sends a word as four data tokens.
fn post_word(state: &mut State, outbox: &mut HeapCircularBuffer<Sent>, e: u32, value: u32)
    requires order { IsInOrder state.old }
    requires there { e < length state.old.ends }
    requires fits { 4 ≤ (end_at state.old.ends e).credits }
    requires spare { length outbox.old.items + 4 ≤ outbox.old.capacity }
    ensures moves { let s = state.old in
        Moves s (tokens_go (home_of s) s.ports.clock s.ends e (end_at s.ends e) (word_tokens value)
        (peer_of s.fixed.pairs s.ports.core e)) state.new outbox.old outbox.new }
{
    let peer = state.fixed.peers.as_slice()[e as usize];
    let _ = state.ends.spend(e, 4);
    let (here, clock) = (state.ports.core(), state.ports.clock());
    let moves = word_moves(peer.end, value);
    go(&mut state.ends, outbox, here, peer.core, clock, &moves);
}

/// Sends a token.
fn post_token(state: &mut State, outbox: &mut HeapCircularBuffer<Sent>, e: u32, token: Token)
    requires order { IsInOrder state.old }
    requires there { e < length state.old.ends }
    requires fits { 1 ≤ (end_at state.old.ends e).credits }
    requires spare { length outbox.old.items + 4 ≤ outbox.old.capacity }
    ensures moves { let s = state.old in
        Moves s (tokens_go (home_of s) s.ports.clock s.ends e (end_at s.ends e) (token ∷ [])
        (peer_of s.fixed.pairs s.ports.core e)) state.new outbox.old outbox.new }
{
    let peer = state.fixed.peers.as_slice()[e as usize];
    let _ = state.ends.spend(e, 1);
    let (here, clock) = (state.ports.core(), state.ports.clock());
    let moves = [Moved::Tok {
        end: peer.end,
        token,
    }];
    go(&mut state.ends, outbox, here, peer.core, clock, &moves);
}

/// Takes a word of four data tokens, and gives their credits back.
fn get_word(state: &mut State, outbox: &mut HeapCircularBuffer<Sent>, e: u32) -> u32
    requires order { IsInOrder state.old }
    requires there { e < length state.old.ends }
    requires fits { is_word (take_word (end_at state.old.ends e).tokens) ≡ true }
    requires spare { length outbox.old.items + 4 ≤ outbox.old.capacity }
    ensures value { take_word (end_at state.old.ends e).tokens ≡ Word result }
    ensures moves { let s = state.old in
        Moves s (tokens_taken (home_of s) s.ports.clock s.ends e (end_at s.ends e) 4
        (peer_of s.fixed.pairs s.ports.core e)) state.new outbox.old outbox.new }
{
    let peer = state.fixed.peers.as_slice()[e as usize];
    let Taken::Word(value) = state.ends.take_word(e) else {
        unreachable!()
    };
    let (here, clock) = (state.ports.core(), state.ports.clock());
    let moves = [Moved::Credit { end: peer.end }; 4];
    go(&mut state.ends, outbox, here, peer.core, clock, &moves);
    value
}

/// Takes a data token, and gives its credit back.
fn get_byte(state: &mut State, outbox: &mut HeapCircularBuffer<Sent>, e: u32) -> u32
    requires order { IsInOrder state.old }
    requires there { e < length state.old.ends }
    requires fits { is_word (take_byte (end_at state.old.ends e).tokens) ≡ true }
    requires spare { length outbox.old.items + 4 ≤ outbox.old.capacity }
    ensures value { take_byte (end_at state.old.ends e).tokens ≡ Word result }
    ensures moves { let s = state.old in
        Moves s (tokens_taken (home_of s) s.ports.clock s.ends e (end_at s.ends e) 1
        (peer_of s.fixed.pairs s.ports.core e)) state.new outbox.old outbox.new }
{
    let peer = state.fixed.peers.as_slice()[e as usize];
    let Taken::Word(value) = state.ends.take_byte(e) else {
        unreachable!()
    };
    let (here, clock) = (state.ports.core(), state.ports.clock());
    let moves = [Moved::Credit { end: peer.end }];
    go(&mut state.ends, outbox, here, peer.core, clock, &moves);
    value
}

/// Takes the control token, and gives its credit back.
fn get_control(state: &mut State, outbox: &mut HeapCircularBuffer<Sent>, e: u32, c: u8)
    requires order { IsInOrder state.old }
    requires there { e < length state.old.ends }
    requires fits { check (end_at state.old.ends e).tokens c ≡ Passed }
    requires spare { length outbox.old.items + 4 ≤ outbox.old.capacity }
    ensures moves { let s = state.old in
        Moves s (tokens_taken (home_of s) s.ports.clock s.ends e (end_at s.ends e) 1
        (peer_of s.fixed.pairs s.ports.core e)) state.new outbox.old outbox.new }
{
    let peer = state.fixed.peers.as_slice()[e as usize];
    let _ = state.ends.check(e, c);
    let (here, clock) = (state.ports.core(), state.ports.clock());
    let moves = [Moved::Credit { end: peer.end }];
    go(&mut state.ends, outbox, here, peer.core, clock, &moves);
}

/// The tokens of a word on their way to an end.
fn word_moves(end: u32, v: u32) -> [Moved; 4]
    ensures { result ≡ tokens_to end (word_tokens v) }
{
    [
        data_move(end, v / 0x100_0000),
        data_move(end, v / 0x1_0000 % 0x100),
        data_move(end, v / 0x100 % 0x100),
        data_move(end, v % 0x100),
    ]
}

/// A data token on its way to an end.
fn data_move(end: u32, byte: u32) -> Moved
    requires { byte < 2 ^ 8 }
    ensures { result ≡ Tok end (data_token byte) }
{
    Moved::Tok {
        end,
        token: Token {
            control: false,
            byte: byte as u8,
        },
    }
}

/// Takes the step.
#[tactic(auto, using(crate::proofs::Lists::get_set_other))]
pub fn apply(
    state: &mut State,
    outbox: &mut HeapCircularBuffer<Sent>,
    t: u8,
    step: EndStep,
) -> Option<Record>
    requires there { t < 8 }
    requires room { (thread_at state.old.threads t).pc + 1 < 2 ^ 32 }
    requires fits { EndFits (state_of state.old) step }
    requires order { IsInOrder state.old }
    requires spare { length outbox.old.items + 4 ≤ outbox.old.capacity }
    ensures made { IsSent (end_did (home_of state.old) (state_of state.old) t (thread_at
        state.old.threads t) step) (state_of state.new) result outbox.old.items outbox.new.items }
    ensures kept { KeepsHome state.old state.new }
    ensures order { IsInOrder state.new }
    ensures few { length outbox.new.items ≤ length outbox.old.items + 4 }
    ensures capacity { outbox.new.capacity ≡ outbox.old.capacity }
    ensures others { KeepsOthers t state.old.threads state.new.threads }
{
    match step {
        EndStep::SendWord(e, value) => {
            post_word(state, outbox, e, value);
            pass(&mut state.threads, t);
            None
        }
        EndStep::SendToken(e, token) => {
            post_token(state, outbox, e, token);
            pass(&mut state.threads, t);
            None
        }
        EndStep::TakeWord(d, e) => {
            let value = get_word(state, outbox, e);
            pass_with(&mut state.threads, t, d, value);
            Some(Record::Com {
                core: state.ports.core(),
                value,
            })
        }
        EndStep::TakeByte(d, e) => {
            let value = get_byte(state, outbox, e);
            pass_with(&mut state.threads, t, d, value);
            None
        }
        EndStep::TakeControl(e, c) => {
            get_control(state, outbox, e, c);
            pass(&mut state.threads, t);
            None
        }
    }
}
