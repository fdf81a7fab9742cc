// All channel ends of a core.

ghost use Rattle.std.specs.Prelude.{◌≡◌, ◌<◌, ◌≤◌, ◌↔◌, ◌+◌, true, false, length, nat_lt, replicate, IfOk};
ghost use Rattle.std.specs.Bool.{OnTrue, OnFalse};
ghost use Rattle.xs_instr.specs.declared.state.Moved.TheVariants.{Tok, Credit};
ghost use Rattle.xs_instr.specs.Ends.{arrives, has_token, take_word, take_byte, check};
ghost use Rattle.xs_instr.specs.Machine.{boot_end};
ghost use Rattle.xs_chanend.specs.Ends.{end_at, taken_as, checked_as, after_input, after_check, after_spending};

use crate::end::End;
use crate::taken::{Checked1, Taken};
use std::alloc::Global;
use std::marker::Model;
use xs_instr::Token;
use xw_words::Memory;

/// The channel ends of a core, which contracts see as the list of their tokens and credits.
#[derive(Drop)]
pub struct Ends {
    all: Vec<End>,
}

impl Model for Ends {
    ghost use Rattle.std.specs.Prelude.{List};
    ghost use Rattle.xs_instr.specs.declared.state.ChanEnd.{ChanEnd};

    ghost Value = { List ChanEnd };

    ghost view = { λ ends. ends.all.items };
}

impl Ends {
    /// That many ends, each with no token and 8 credits. It takes all memory that is ever taken for them. The one error is
    /// want of memory.
    pub fn new(alloc: Global, count: u32) -> Result<Ends, Memory>
        ensures { IfOk result (λ ends. ends ≡ replicate count boot_end) }
    {
        let mut all = Vec::new(alloc);
        for _ in 0..count {
            let end = End::new(alloc)?;
            match all.push(end) {
                Ok(()) => {}
                Err(_) => return Err(Memory),
            }
        }
        Ok(Ends { all })
    }

    /// Puts a token last at an end. `false`: 8 tokens are there, and nothing changes.
    pub fn put(&mut self, end: u32, t: Token) -> bool
        requires { end < length self.old }
        ensures full { (result ≡ false) ↔ (length (end_at self.old end).tokens ≡ 8) }
        ensures last { OnTrue result (self.new ≡ arrives self.old (Tok end t)) }
        ensures refused { OnFalse result (self.new ≡ self.old) }
        ensures count { length self.new ≡ length self.old }
    {
        let it = &mut self.all[end as usize];
        it.put(t)
    }

    /// Takes a word: of the first four tokens, or of all where fewer are there, a control token is told and nothing
    /// is taken; else four data tokens are taken, the most significant byte first.
    pub fn take_word(&mut self, end: u32) -> Taken
        requires { end < length self.old }
        ensures taken { taken_as result ≡ take_word (end_at self.old end).tokens }
        ensures left { self.new ≡ after_input self.old end 4 result }
        ensures count { length self.new ≡ length self.old }
    {
        let it = &mut self.all[end as usize];
        it.take_word()
    }

    /// Takes a byte: a first token that is control is told and nothing is taken; else the data token is taken.
    pub fn take_byte(&mut self, end: u32) -> Taken
        requires { end < length self.old }
        ensures taken { taken_as result ≡ take_byte (end_at self.old end).tokens }
        ensures left { self.new ≡ after_input self.old end 1 result }
        ensures count { length self.new ≡ length self.old }
    {
        let it = &mut self.all[end as usize];
        it.take_byte()
    }

    /// Takes the control token `c` where it stands first. Another token is told and stays.
    pub fn check(&mut self, end: u32, c: u8) -> Checked1
        requires { end < length self.old }
        ensures checked { checked_as result ≡ check (end_at self.old end).tokens c }
        ensures left { self.new ≡ after_check self.old end result }
        ensures count { length self.new ≡ length self.old }
    {
        let it = &mut self.all[end as usize];
        it.check(c)
    }

    /// Whether there is an end of that number.
    pub fn has(&self, end: u32) -> bool
        ensures { result ≡ nat_lt end (length self.now) }
    {
        (end as usize) < self.all.len()
    }

    /// What `take_word` would find; nothing is taken.
    pub fn word(&self, end: u32) -> Taken
        requires { end < length self.now }
        ensures { taken_as result ≡ take_word (end_at self.now end).tokens }
    {
        self.all[end as usize].word()
    }

    /// What `take_byte` would find; nothing is taken.
    pub fn byte(&self, end: u32) -> Taken
        requires { end < length self.now }
        ensures { taken_as result ≡ take_byte (end_at self.now end).tokens }
    {
        self.all[end as usize].byte()
    }

    /// What `check` would find; nothing is taken.
    pub fn checked(&self, end: u32, c: u8) -> Checked1
        requires { end < length self.now }
        ensures { checked_as result ≡ check (end_at self.now end).tokens c }
    {
        self.all[end as usize].checked(c)
    }

    /// Whether a token is at an end.
    pub fn any(&self, end: u32) -> bool
        requires { end < length self.now }
        ensures { result ≡ has_token (end_at self.now end).tokens }
    {
        self.all[end as usize].any()
    }

    /// How many credits an end has.
    pub fn credits(&self, end: u32) -> u32
        requires { end < length self.now }
        ensures { result ≡ (end_at self.now end).credits }
    {
        self.all[end as usize].credits()
    }

    /// Spends `n` credits of an end. `false`: fewer are there, and nothing changes.
    pub fn spend(&mut self, end: u32, n: u32) -> bool
        requires { end < length self.old }
        ensures few { (result ≡ false) ↔ ((end_at self.old end).credits < n) }
        ensures spent { OnTrue result (self.new ≡ after_spending self.old end n) }
        ensures refused { OnFalse result (self.new ≡ self.old) }
        ensures count { length self.new ≡ length self.old }
    {
        let it = &mut self.all[end as usize];
        it.spend(n)
    }

    /// Gives an end that has fewer than 8 credits one back.
    pub fn credit(&mut self, end: u32)
        requires there { end < length self.old }
        requires room { (end_at self.old end).credits < 8 }
        ensures given { self.new ≡ arrives self.old (Credit end) }
        ensures count { length self.new ≡ length self.old }
    {
        let it = &mut self.all[end as usize];
        it.credit();
    }
}
