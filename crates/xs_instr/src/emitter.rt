ghost use Rattle.std.specs.Prelude.{◌≡◌, ◌+◌, ◌<◌, ◌^◌, true, false, [], ◌∷◌, ◌++◌, length, map, IfOk, OnOk, OnErr};
ghost use Rattle.xs_instr.specs.Extends.{Extends};
ghost use Rattle.xs_instr.specs.Lines.{at_pos, IsOpen, HasTarget, HasNoHole, line, open_line, landed, last_pos, instr_of, pos_of, with_target};

use crate::image::Code;
use crate::instr::Instr;
use std::alloc::{AllocError, Global};
use std::marker::Model;
use xw_words::{List, Memory, Pos};

/// Instructions that were gathered, each with its place in the text.
#[derive(Drop)]
pub struct Emitter {
    instrs: Vec<Instr>,
    places: Vec<Pos>,
    holes: Vec<bool>,
}

/// An instruction whose target is still open, by its index.
#[derive(Clone, Copy)]
pub struct Hole {
    index: u32,
}

impl Model for Emitter {
    ghost use Rattle.std.specs.Prelude.{List};
    ghost use Rattle.xs_instr.specs.Lines.{Line, AreEven, lines_of};

    ghost Value = { List Line };

    ghost view = { λ e. lines_of e.instrs.items e.places.items e.holes.items };

    ghost invariant = { λ e. AreEven e.instrs.items e.places.items e.holes.items };
}

impl Emitter {
    /// No instruction yet. It takes no memory.
    pub fn new(alloc: Global) -> Emitter
        ensures { result ≡ [] }
    {
        Emitter {
            instrs: Vec::new(alloc),
            places: Vec::new(alloc),
            holes: Vec::new(alloc),
        }
    }

    /// The next index.
    pub fn here(&self) -> u32
        ensures next { result ≡ length self.now }
        ensures few { length self.now < 2 ^ 32 }
    {
        self.instrs.len() as u32
    }

    /// The place of the last instruction, or 1:1 where there is none.
    pub fn pos(&self) -> Pos
        ensures { result ≡ last_pos self.now }
    {
        let places = self.places.as_slice();
        if places.len() == 0 {
            Pos { line: 1, col: 1 }
        } else {
            places[places.len() - 1]
        }
    }

    /// Adds an instruction, and gives its index. The one error is want of memory, which changes nothing.
    pub fn put(&mut self, instr: Instr, pos: Pos) -> Result<u32, Memory>
        requires { length self.old + 1 < 2 ^ 32 }
        ensures ok { OnOk result (self.new ≡ self.old ++ line instr pos ∷ []) }
        ensures index { IfOk result (λ i. i ≡ length self.old) }
        ensures refused { OnErr result (self.new ≡ self.old) }
    {
        let index = self.instrs.len() as u32;
        add(
            &mut self.instrs,
            &mut self.places,
            &mut self.holes,
            instr,
            pos,
            false,
        )?;
        Ok(index)
    }

    /// Adds instructions at one place. The one error is want of memory; the emitter then holds what it held, and perhaps some of
    /// them behind it.
    pub fn put_all(&mut self, instrs: &[Instr], pos: Pos) -> Result<(), Memory>
        requires { length self.old + length instrs.now < 2 ^ 32 }
        ensures ok { OnOk result (self.new ≡ self.old ++ at_pos pos instrs.now) }
        ensures refused { OnErr result (Extends self.old self.new) }
    {
        for instr in instrs {
            self.put(*instr, pos)?;
        }
        Ok(())
    }

    /// Adds an instruction whose target is open. The one error is want of memory, which changes nothing.
    pub fn hole(&mut self, instr: Instr, pos: Pos) -> Result<Hole, Memory>
        requires few { length self.old + 1 < 2 ^ 32 }
        requires target { HasTarget instr }
        ensures ok { OnOk result (self.new ≡ self.old ++ open_line instr pos ∷ []) }
        ensures index { IfOk result (λ h. h.index ≡ length self.old) }
        ensures refused { OnErr result (self.new ≡ self.old) }
    {
        let index = self.instrs.len() as u32;
        add(
            &mut self.instrs,
            &mut self.places,
            &mut self.holes,
            instr,
            pos,
            true,
        )?;
        Ok(Hole { index })
    }

    /// Makes the next index the target of an open instruction.
    pub fn land(&mut self, hole: Hole)
        requires { IsOpen self.old hole.index }
        ensures { self.new ≡ landed self.old hole.index (length self.old) }
    {
        let target = self.instrs.len() as u32;
        let at = hole.index as usize;
        self.instrs[at] = aimed(self.instrs[at], target);
        self.holes[at] = false;
    }

    /// The code, once no target is open. It takes no memory.
    pub fn finish(self) -> Code
        requires { HasNoHole self }
        ensures instrs { result.instrs ≡ map instr_of self }
        ensures places { result.«at» ≡ map pos_of self }
    {
        let Emitter { instrs, places, .. } = self;
        Code {
            instrs: List::from_vec(instrs),
            at: List::from_vec(places),
        }
    }
}

/// The instruction with another target, where it is one of those whose target may be open.
fn aimed(instr: Instr, target: u32) -> Instr
    ensures { result ≡ with_target instr target }
{
    match instr {
        Instr::Brft(a, _) => Instr::Brft(a, target),
        Instr::Brff(a, _) => Instr::Brff(a, target),
        Instr::Brfu(_) => Instr::Brfu(target),
        Instr::Blrf(_) => Instr::Blrf(target),
        Instr::Setv(r, _) => Instr::Setv(r, target),
        Instr::Tinitpc(t, _) => Instr::Tinitpc(t, target),
        _ => instr,
    }
}

/// Puts an item at the end of each, or changes none.
fn add(
    instrs: &mut Vec<Instr>,
    places: &mut Vec<Pos>,
    open_ones: &mut Vec<bool>,
    instr: Instr,
    pos: Pos,
    is_open: bool,
) -> Result<(), Memory>
    ensures instrs { OnOk result (instrs.new.items ≡ instrs.old.items ++ instr ∷ []) }
    ensures places { OnOk result (places.new.items ≡ places.old.items ++ pos ∷ []) }
    ensures open_ones { OnOk result (open_ones.new.items ≡ open_ones.old.items ++ is_open ∷ []) }
    ensures no_instrs { OnErr result (instrs.new.items ≡ instrs.old.items) }
    ensures no_places { OnErr result (places.new.items ≡ places.old.items) }
    ensures no_open { OnErr result (open_ones.new.items ≡ open_ones.old.items) }
{
    match instrs.push(instr) {
        Ok(()) => {}
        Err(_) => return Err(Memory),
    }
    match places.push(pos) {
        Ok(()) => {}
        Err(_) => {
            let _ = instrs.pop();
            return Err(Memory);
        }
    }
    match open_ones.push(is_open) {
        Ok(()) => Ok(()),
        Err(_) => {
            let _ = instrs.pop();
            let _ = places.pop();
            Err(Memory)
        }
    }
}
