// One core.

ghost use Rattle.std.specs.Prelude.{◌≡◌, ◌+◌, ◌≤◌, ◌<◌, ℕ, [], ◌∷◌, length, IfOk, MatchOption, OnErr, OnOk};
ghost use Rattle.xs_core.specs.Slots.{IsTurn};
ghost use Rattle.xs_instr.specs.Did.{Idle};
ghost use Rattle.xs_instr.specs.Machine.{came, home_of, boot_core, parts_in};
ghost use Rattle.xs_instr.specs.Sight.{sight};
ghost use Rattle.xs_instr.specs.Slot.{slot, is_ready, last_clock, ticked};
ghost use Rattle.xs_instr.specs.Valid.{Valid, IsGoodStim};

use crate::did::Did;
use crate::moves::arrive;
use crate::state::{State, THREADS};
use crate::{boot, counts, slots, threads};
use circular_buffer::HeapCircularBuffer;
use std::alloc::Global;
use std::marker::Model;
use xs_instr::{Image, Moved, Sent, Sight, Stim, Thread};
use xw_words::Memory;

/// For how many tokens and credits there is room in the outbox after `reserve_window`.
const WINDOW: usize = 256;

/// A core, which contracts see as what no event changes of it, its state, what it has sent to other cores and is not
/// taken yet, and for how much more of this there is room.
pub struct Core {
    state: State,
    outbox: HeapCircularBuffer<Sent>,
    in_use: u8,
}

impl Drop for Core {
    /// Gives back its memory.
    fn drop(self) {
        let Core {
            state,
            outbox,
            in_use: _,
        } = self;
        drop(state);
        drop(outbox);
    }
}

impl Model for Core {
    ghost use Rattle.xs_core.specs.Core.{Seen};

    ghost Value = { Seen };

    ghost use Rattle.xs_core.specs.Inside.{seen_of, IsCore};

    ghost view = { seen_of };

    ghost invariant = { IsCore };
}

impl Core {
    ghost use Rattle.xs_core.specs.Deliver.{HasRoomFrom};

    /// Core `number` of the image as it starts, with its own copies of its part, the channels and the stimulus. A core
    /// that the image doesn't hold has no code, no ports and no ends, and its threads are unused. Its outbox has no room
    /// yet. `Err` is given where an allocation failed.
    pub fn new(alloc: Global, image: &Image, number: u8, stim: &Stim) -> Result<Core, Memory>
        requires number { number < 4 }
        requires image { Valid image.now }
        requires stim { IsGoodStim stim.now }
        ensures home { IfOk result (λ core. core.home ≡ home_of image.now stim.now number) }
        ensures state { IfOk result
            (λ core. core.state ≡ boot_core (parts_in image.now.cores number)) }
        ensures outbox { IfOk result (λ core. core.outbox ≡ []) }
        ensures spare { IfOk result (λ core. core.spare ≡ 0) }
    {
        let outbox = HeapCircularBuffer::with_capacity(alloc, 0)?;
        let state = boot::state_for(alloc, image, number, stim)?;
        let in_use = threads::in_use(&state.threads);
        Ok(Core {
            state,
            outbox,
            in_use,
        })
    }

    /// Makes room in the outbox for 256 tokens and credits. `Err` is given where an allocation failed, and then nothing
    /// changes.
    pub fn reserve_window(&mut self) -> Result<(), Memory>
        ensures room { OnOk result (256 ≤ self.new.spare) }
        ensures refused { OnErr result (self.new ≡ self.old) }
        ensures rest { self.new ≡ record self.old { spare = self.new.spare } }
    {
        if self.spare() < WINDOW {
            self.outbox.resize(self.outbox.len() + WINDOW)?;
        }
        Ok(())
    }

    /// For how many tokens and credits there is room in the outbox.
    pub fn spare(&self) -> usize
        ensures { result ≡ self.now.spare }
    {
        self.outbox.capacity() - self.outbox.len()
    }

    /// The core's number.
    pub fn number(&self) -> u8
        ensures { result ≡ self.now.home.number }
    {
        self.state.ports.core()
    }

    /// How many threads the core has: eight.
    pub fn thread_count(&self) -> u8
        ensures eight { result ≡ 8 }
        ensures count { result ≡ length self.now.state.threads }
    {
        count_of(&self.state.threads)
    }

    /// Each thread from that number on is unused, so that its turn does nothing.
    pub fn in_use(&self) -> u8
        ensures few { result ≤ 8 }
        ensures rest { (t : ℕ) → result ≤ t → slot self.now.home self.now.state t ≡ Idle }
    {
        self.in_use
    }

    /// The clock, in ticks from the start.
    pub fn clock(&self) -> u32
        ensures { result ≡ self.now.state.clock }
    {
        self.state.ports.clock()
    }

    /// Whether the thread's turn would be a step, which may be one that traps.
    pub fn ready(&self, thread: u8) -> bool
        requires { thread < 8 }
        ensures { result ≡ is_ready self.now.home self.now.state thread }
    {
        counts::can_step(&self.state, thread)
    }

    /// The thread takes its turn: a step with its record, a wait that changes nothing, or a trap, which halts the thread.
    /// One that is unused or halted does nothing. What goes to other cores, at most four tokens or credits, stands last
    /// in the outbox.
    pub fn slot(&mut self, thread: u8) -> Did
        requires thread { thread < 8 }
        requires spare { 4 ≤ self.old.spare }
        ensures turn { IsTurn (slot self.old.home self.old.state thread) self.old.home
            self.old.state thread result self.new.state self.old.outbox self.new.outbox }
        ensures home { self.new.home ≡ self.old.home }
        ensures few { length self.new.outbox ≤ length self.old.outbox + 4 }
        ensures spare { self.new.spare + length self.new.outbox
            ≡ self.old.spare + length self.old.outbox }
    {
        if thread >= self.in_use {
            return Did::Idle;
        }
        slots::take(&mut self.state, &mut self.outbox, &mut self.in_use, thread)
    }

    /// The clock goes up by one tick.
    pub fn tick(&mut self)
        requires { self.old.state.clock < last_clock }
        ensures { self.new ≡ record self.old { state = ticked self.old.state } }
    {
        let clock = self.state.ports.clock() + 1;
        self.state.ports.tick(clock);
    }

    /// A token or a credit of another core comes to its end, which has room for it beside all that a peer on this core may
    /// still send.
    pub fn deliver(&mut self, moved: Moved)
        requires { HasRoomFrom self.old.home self.old.state.ends moved }
        ensures { self.new ≡ record self.old { state = came self.old.state moved } }
    {
        arrive(&mut self.state.ends, moved);
    }

    /// Takes what stands first in the outbox, and makes room for one more. `None` exactly where nothing does.
    pub fn take_sent(&mut self) -> Option<Sent>
        ensures sent { MatchOption result ((self.old.outbox ≡ []) × (self.new.outbox ≡ []))
            (λ sent. self.old.outbox ≡ sent ∷ self.new.outbox) }
        ensures state { self.new.state ≡ self.old.state }
        ensures home { self.new.home ≡ self.old.home }
        ensures spare { self.new.spare + length self.new.outbox
            ≡ self.old.spare + length self.old.outbox }
    {
        self.outbox.pop_front()
    }

    /// How many roots have not ended, and how many threads are in use, halted, ready, and waiting on a port or timer, also by
    /// an event that is enabled.
    pub fn sight(&self) -> Sight
        ensures { result ≡ sight self.now.home self.now.state }
    {
        Sight {
            roots: self.state.roots,
            used: counts::used(&self.state.threads),
            trapped: counts::trapped(&self.state.threads),
            ready: counts::ready(&self.state),
            timed: counts::timed(&self.state),
        }
    }
}

fn count_of(threads: &[Thread; THREADS]) -> u8
    ensures eight { result ≡ 8 }
    ensures count { result ≡ length threads.now }
{
    threads.len() as u8
}
