// The machine, event by event and round by round.

ghost use Rattle.std.specs.Prelude.{◌≡◌, ◌≤◌, ◌+◌, IfOk, OnErr, OnOk};
ghost use Rattle.xs_instr.specs.Machine.{Move, Step, Tick, does};
ghost use Rattle.xs_instr.specs.Valid.{Valid, IsGoodStim};
ghost use Rattle.xs_instr.specs.declared.image.Image.{Image};
ghost use Rattle.xs_instr.specs.declared.image.Stim.{Stim};
ghost use Rattle.xs_fabric.specs.declared.machine.Event.TheVariants.{NotEnabled};
ghost use Rattle.xs_fabric.specs.EndWord.{end_of, has_trap};
ghost use Rattle.xs_fabric.specs.Lockstep.{events_in, rounds_at};

use crate::cores::{boot_cores, move_core, step_core, tick_core};
use crate::link::{Links, are_empty, no_links};
use crate::round::all_rounds;
use crate::totals::{sum_of_sights, word_of};
use std::alloc::Global;
use std::marker::Model;
use xs_core::Core;
use xs_instr::{EndWord, Image, Record, Stim};
use xw_words::Memory;

/// Whether an event was enabled, and so was done.
#[derive(Clone, Copy, PartialEq, Eq)]
pub enum Event {
    Done,
    NotEnabled,
}

/// A machine of four cores, which contracts see as what no event changes of the cores, its state, and for how many more
/// records there is room.
pub struct Machine {
    cores: Vec<Core>,
    links: Links,
    trace: Vec<Record>,
}

impl Drop for Machine {
    /// Gives back its memory.
    fn drop(self) {
        let Machine {
            cores,
            links,
            trace,
        } = self;
        drop(cores);
        drop(links);
        drop(trace);
    }
}

impl Model for Machine {
    ghost use Rattle.xs_fabric.specs.Seen.{Running};

    ghost Value = { Running };

    ghost use Rattle.xs_fabric.specs.Inside.{running_of, IsMachine};

    ghost view = { running_of };

    ghost invariant = { IsMachine };
}

impl Machine {
    ghost use Rattle.xs_fabric.specs.Seen.{IsBooted, IsEvent, IsRunOf};

    /// The machine of an image under a stimulus, as it starts. A core that the image doesn't hold has no code and eight
    /// unused threads. Its links have all their places, and it has no room for records yet. The one error is want of memory.
    pub fn boot(alloc: Global, image: &Image, stim: &Stim) -> Result<Machine, Memory>
        requires valid { Valid image.now }
        requires stim { IsGoodStim stim.now }
        ensures booted { IfOk result (λ machine. IsBooted image.now stim.now machine) }
        ensures room { IfOk result (λ machine. machine.room ≡ 0) }
    {
        let cores = boot_cores(alloc, image, stim)?;
        let links = no_links(alloc)?;
        Ok(Machine {
            cores,
            links,
            trace: Vec::new(alloc),
        })
    }

    /// Makes room for `n` records. The one error is want of memory, and then nothing changes.
    pub fn reserve(&mut self, n: u32) -> Result<(), Memory>
        ensures room { OnOk result (n ≤ self.new.room) }
        ensures no_less { self.old.room ≤ self.new.room }
        ensures refused { OnErr result (self.new ≡ self.old) }
        ensures rest { self.new ≡ record self.old { room = self.new.room } }
    {
        self.trace.reserve(n as usize)?;
        Ok(())
    }

    /// A step of a thread: one instruction or one event that it takes. Not enabled, nothing changes. It needs room for one
    /// record.
    pub fn step(&mut self, core: u8, thread: u8) -> Event
        requires room { 1 ≤ self.old.room }
        ensures event { (L : Image) (s : Stim) → IsRunOf L s self.old →
            IsEvent (does L s self.old.state (Step core thread)) self.old.state result self.new.state }
        ensures run { self.new.homes ≡ self.old.homes }
        ensures room { self.old.room ≤ self.new.room + 1 }
        ensures same_room { result ≡ NotEnabled → self.new.room ≡ self.old.room }
    {
        step_core(
            &mut self.cores,
            &mut self.links,
            &mut self.trace,
            core,
            thread,
        )
    }

    /// A tick of a core's clock. Not enabled at its last value, nor where there is no such core, and then nothing changes.
    pub fn tick(&mut self, core: u8) -> Event
        requires room { 1 ≤ self.old.room }
        ensures event { (L : Image) (s : Stim) → IsRunOf L s self.old →
            IsEvent (does L s self.old.state (Tick core)) self.old.state result self.new.state }
        ensures run { self.new.homes ≡ self.old.homes }
        ensures room { self.new.room ≡ self.old.room }
    {
        tick_core(&mut self.cores, core)
    }

    /// A move: the first item of the link from a core to another, a token or a credit, comes to its end. Not enabled where
    /// nothing is on the link, nor where there is no such core, and then nothing changes.
    pub fn move_one(&mut self, from: u8, to: u8) -> Event
        requires room { 1 ≤ self.old.room }
        ensures event { (L : Image) (s : Stim) → IsRunOf L s self.old →
            IsEvent (does L s self.old.state (Move from to)) self.old.state result self.new.state }
        ensures run { self.new.homes ≡ self.old.homes }
        ensures room { self.new.room ≡ self.old.room }
    {
        move_core(&mut self.cores, &mut self.links, from, to)
    }

    /// A round: for each core a tick, then what is due comes to it, and then a step of each thread that is ready at its
    /// turn. Answers how many events it had. It needs room for 32 records.
    pub fn round(&mut self) -> u32
        requires room { 32 ≤ self.old.room }
        ensures state { (L : Image) (s : Stim) → IsRunOf L s self.old →
            self.new.state ≡ rounds_at L s self.old.state 4 }
        ensures events { (L : Image) (s : Stim) → IsRunOf L s self.old →
            result ≡ events_in L s self.old.state 4 }
        ensures run { self.new.homes ≡ self.old.homes }
        ensures room { self.old.room ≤ self.new.room + 32 }
    {
        all_rounds(&mut self.cores, &mut self.links, &mut self.trace)
    }

    /// What was recorded so far.
    pub fn trace(&self) -> &[Record]
        ensures { result.now ≡ self.now.state.trace }
    {
        self.trace.as_slice()
    }

    /// How a run ends that ends here.
    pub fn end(&self) -> EndWord
        ensures { (L : Image) (s : Stim) → IsRunOf L s self.now → result ≡ end_of L s self.now.state }
    {
        word_of(sum_of_sights(self.cores.as_slice()), are_empty(&self.links))
    }

    /// Whether some thread is trapped.
    pub fn trapped(&self) -> bool
        ensures { (L : Image) (s : Stim) → IsRunOf L s self.now → result ≡ has_trap L s self.now.state }
    {
        sum_of_sights(self.cores.as_slice()).trapped != 0
    }
}
