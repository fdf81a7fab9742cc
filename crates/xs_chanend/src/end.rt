// One channel end.

ghost use Rattle.std.specs.Prelude.{◌≡◌, ◌+◌, ◌-◌, ◌<◌, ◌≤◌, ◌↔◌, [], ◌∷◌, ◌++◌, true, false, length, drop, slice_get, IsTrue, IfOk};
ghost use Rattle.std.specs.Bool.{OnTrue, OnFalse};
ghost use Rattle.xs_instr.specs.Ends.{has_token, take_word, take_byte, check};
ghost use Rattle.xs_instr.specs.Machine.{boot_end};
ghost use Rattle.xs_chanend.specs.Ends.{taken_as, checked_as, without_first, without_credits};
ghost use Rattle.xs_chanend.specs.Front.{data_of, found_as, end_after, end_checked};

use crate::taken::{Checked1, Taken};
use circular_buffer::HeapCircularBuffer;
use std::alloc::Global;
use std::marker::Model;
use xs_instr::Token;
use xw_words::Memory;

/// How many tokens an end can hold, and how many credits it has at first.
const ROOM: u32 = 8;

/// A channel end, which contracts see as its tokens, first come first, and its credits.
#[derive(Drop)]
pub struct End {
    tokens: HeapCircularBuffer<Token>,
    credits: u32,
}

impl Model for End {
    ghost use Rattle.std.specs.Prelude.{◌≡◌};
    ghost use Rattle.xs_instr.specs.declared.state.ChanEnd.{ChanEnd};

    ghost Value = { ChanEnd };

    ghost view = { λ e. record { tokens = e.tokens.items; credits = e.credits } };

    ghost invariant = { λ e. e.tokens.capacity ≡ 8 };
}

/// Why no data token is at a place.
#[derive(Clone, Copy, PartialEq, Eq)]
pub enum Stop {
    Control(u8),
    NotYet,
}

impl End {
    /// An end with no token and with all credits.
    pub fn new(alloc: Global) -> Result<End, Memory>
        ensures { IfOk result (λ end. end ≡ boot_end) }
    {
        let tokens = HeapCircularBuffer::with_capacity(alloc, ROOM as usize)?;
        Ok(End {
            tokens,
            credits: ROOM,
        })
    }

    /// Puts a token last. `false`: the end is full, and stays as it was.
    pub fn put(&mut self, t: Token) -> bool
        ensures full { (result ≡ false) ↔ (length self.old.tokens ≡ 8) }
        ensures last { OnTrue result (self.new ≡ record self.old { tokens = self.old.tokens ++ t ∷ [] }) }
        ensures refused { OnFalse result (self.new ≡ self.old) }
    {
        if self.tokens.len() < ROOM as usize {
            let _ = self.tokens.push_back(t);
            true
        } else {
            false
        }
    }

    /// Takes a word of four data tokens.
    pub fn take_word(&mut self) -> Taken
        ensures taken { taken_as result ≡ take_word self.old.tokens }
        ensures left { self.new ≡ end_after self.old 4 result }
    {
        match self.first_word() {
            Ok(v) => {
                self.drop_first(4);
                Taken::Word(v)
            }
            Err(Stop::Control(c)) => Taken::Control(c),
            Err(Stop::NotYet) => Taken::NotYet,
        }
    }

    /// Takes a data token.
    pub fn take_byte(&mut self) -> Taken
        ensures taken { taken_as result ≡ take_byte self.old.tokens }
        ensures left { self.new ≡ end_after self.old 1 result }
    {
        match self.data_at(0) {
            Ok(b) => {
                self.drop_first(1);
                Taken::Word(b as u32)
            }
            Err(Stop::Control(c)) => Taken::Control(c),
            Err(Stop::NotYet) => Taken::NotYet,
        }
    }

    /// Takes the control token `c`, where it is the first token.
    pub fn check(&mut self, c: u8) -> Checked1
        ensures checked { checked_as result ≡ check self.old.tokens c }
        ensures left { self.new ≡ end_checked self.old result }
    {
        match self.tokens.front() {
            None => Checked1::NotYet,
            Some(&t) => {
                if t.control && t.byte == c {
                    self.drop_first(1);
                    Checked1::Passed
                } else {
                    Checked1::Other(t)
                }
            }
        }
    }

    /// What `take_word` would find.
    pub fn word(&self) -> Taken
        ensures { taken_as result ≡ take_word self.now.tokens }
    {
        match self.first_word() {
            Ok(v) => Taken::Word(v),
            Err(Stop::Control(c)) => Taken::Control(c),
            Err(Stop::NotYet) => Taken::NotYet,
        }
    }

    /// What `take_byte` would find.
    pub fn byte(&self) -> Taken
        ensures { taken_as result ≡ take_byte self.now.tokens }
    {
        match self.data_at(0) {
            Ok(b) => Taken::Word(b as u32),
            Err(Stop::Control(c)) => Taken::Control(c),
            Err(Stop::NotYet) => Taken::NotYet,
        }
    }

    /// What `check` would find.
    pub fn checked(&self, c: u8) -> Checked1
        ensures { checked_as result ≡ check self.now.tokens c }
    {
        match self.tokens.front() {
            None => Checked1::NotYet,
            Some(&t) => {
                if t.control && t.byte == c {
                    Checked1::Passed
                } else {
                    Checked1::Other(t)
                }
            }
        }
    }

    /// Whether a token is there.
    pub fn any(&self) -> bool
        ensures { result ≡ has_token self.now.tokens }
    {
        !self.tokens.is_empty()
    }

    /// How many credits there are.
    pub fn credits(&self) -> u32
        ensures { result ≡ self.now.credits }
    {
        self.credits
    }

    /// Spends `n` credits. `false`: there are fewer, and the end stays as it was.
    pub fn spend(&mut self, n: u32) -> bool
        ensures few { (result ≡ false) ↔ (self.old.credits < n) }
        ensures spent { OnTrue result (self.new ≡ without_credits self.old n) }
        ensures refused { OnFalse result (self.new ≡ self.old) }
    {
        if n <= self.credits {
            self.credits -= n;
            true
        } else {
            false
        }
    }

    /// Gives one credit back.
    pub fn credit(&mut self)
        requires { self.old.credits < 8 }
        ensures { self.new ≡ record self.old { credits = self.old.credits + 1 } }
    {
        self.credits += 1;
    }

    // The byte of the token at a place, counted from the first, where it is data.
    fn data_at(&self, i: usize) -> Result<u8, Stop>
        ensures { result ≡ data_of (slice_get self.now.tokens i) }
    {
        match self.tokens.get(i) {
            None => Err(Stop::NotYet),
            Some(t) => {
                if t.control {
                    Err(Stop::Control(t.byte))
                } else {
                    Ok(t.byte)
                }
            }
        }
    }

    // The word of the first four tokens, most significant byte first.
    fn first_word(&self) -> Result<u32, Stop>
        ensures { found_as result ≡ take_word self.now.tokens }
    {
        let a = self.data_at(0)?;
        let b = self.data_at(1)?;
        let c = self.data_at(2)?;
        let d = self.data_at(3)?;
        Ok(((a as u32 * 256 + b as u32) * 256 + c as u32) * 256 + d as u32)
    }

    // Without the first `n` tokens.
    fn drop_first(&mut self, n: usize)
        requires { n ≤ length self.old.tokens }
        ensures { self.new ≡ without_first self.old n }
    {
        let keep = self.tokens.len() - n;
        self.tokens.truncate_front(keep);
    }
}
