// One core's rounds: a tick, what is due, and a turn of each thread.

ghost use Rattle.std.specs.Prelude.{◌≡◌, ◌≤◌, ◌<◌, ◌+◌, ◌*◌, ◌++◌, ◌∷◌, [], ℕ, List as Items, length, vec_len, vec_capacity};
ghost use Rattle.xr_windows.specs.Alone.{Alone, after_round, alone, begins, own_part};
ghost use Rattle.xr_windows.specs.Coming.{coming_of};
ghost use Rattle.xr_windows.specs.Goes.{CanGo, Goes, Holds};
ghost use Rattle.xr_windows.specs.declared.stamped.Stamped.{Stamped as StampedOf};
ghost use Rattle.xs_fabric.specs.Lockstep.{Part, tick_once, turn, turns};
ghost use Rattle.xs_instr.specs.declared.state.Sent.{Sent};

use crate::coming::Coming;
use crate::stamped::Stamped;
use xs_core::{Core, Did};
use xs_instr::Record;

const THREADS: u8 = 8;

/// So many rounds of a core, at most eight, with what is on its way to it. What it sends stands in its outbox.
pub fn run_ticks(core: &mut Core, coming: &mut Coming, records: &mut Vec<Stamped>, ticks: u32)
    requires few { ticks ≤ 8 }
    requires can { (n : ℕ) → n < ticks → CanGo core.old.home
        (alone core.old.home (begins core.old.state (coming_of coming.old)) n).core
        (alone core.old.home (begins core.old.state (coming_of coming.old)) n).coming }
    requires spare { 256 ≤ core.old.spare }
    requires outbox { core.old.outbox ≡ [] }
    requires room { vec_len records.old + 64 ≤ vec_capacity records.old }
    ensures goes { Goes (alone core.old.home (begins core.old.state (coming_of coming.old)) ticks)
        records.old.items core.new (coming_of coming.new) records.new.items }
    ensures home { core.new.home ≡ core.old.home }
    ensures most { length core.new.outbox ≤ 256 }
{
    for round in 0..ticks {
        one_round(core, coming, records);
    }
}

/// A core's part of a round.
fn one_round(core: &mut Core, coming: &mut Coming, records: &mut Vec<Stamped>)
    requires can { CanGo core.old.home core.old.state (coming_of coming.old) }
    requires spare { 32 ≤ core.old.spare }
    requires room { vec_len records.old + 8 ≤ vec_capacity records.old }
    ensures goes { (a : Alone) (records0 : Items StampedOf) →
        Goes a records0 core.old (coming_of coming.old) records.old.items →
        Goes (after_round a (tick_once a.core).clock (own_part core.old.home a)) records0 core.new
        (coming_of coming.new) records.new.items }
    ensures home { core.new.home ≡ core.old.home }
    ensures few { length core.new.outbox ≤ length core.old.outbox + 32 }
    ensures spare { core.new.spare + length core.new.outbox
        ≡ core.old.spare + length core.old.outbox }
    ensures len { vec_len records.new ≤ vec_len records.old + 8 }
    ensures capacity { vec_capacity records.old ≤ vec_capacity records.new }
{
    core.tick();
    let clock = core.clock();
    coming.deliver(core, clock);
    take_turns(core, records, clock);
}

/// A turn of each thread.
fn take_turns(core: &mut Core, records: &mut Vec<Stamped>, tick: u32)
    requires spare { 32 ≤ core.old.spare }
    requires room { vec_len records.old + 8 ≤ vec_capacity records.old }
    ensures turns { Holds
        (turns core.old.home (record { core = core.old.state; made = []; sent = [] }) 8) tick
        core.old.outbox records.old.items core.new records.new.items }
    ensures home { core.new.home ≡ core.old.home }
    ensures few { length core.new.outbox ≤ length core.old.outbox + 32 }
    ensures spare { core.new.spare + length core.new.outbox
        ≡ core.old.spare + length core.old.outbox }
    ensures len { vec_len records.new ≤ vec_len records.old + 8 }
    ensures capacity { vec_capacity records.old ≤ vec_capacity records.new }
{
    for thread in 0..THREADS {
        take_turn(core, records, tick, thread);
    }
}

/// A thread's turn. What it sends stands last in the core's outbox, and a record of it last among the records.
fn take_turn(core: &mut Core, records: &mut Vec<Stamped>, tick: u32, thread: u8)
    requires thread { thread < 8 }
    requires spare { 4 ≤ core.old.spare }
    requires room { vec_len records.old < vec_capacity records.old }
    ensures turn { (p : Part) (outbox0 : Items Sent) (records0 : Items StampedOf) →
        Holds p tick outbox0 records0 core.old records.old.items →
        Holds (turn core.old.home p thread) tick outbox0 records0 core.new records.new.items }
    ensures home { core.new.home ≡ core.old.home }
    ensures few { length core.new.outbox ≤ length core.old.outbox + 4 }
    ensures spare { core.new.spare + length core.new.outbox
        ≡ core.old.spare + length core.old.outbox }
    ensures len { vec_len records.new ≤ vec_len records.old + 1 }
    ensures capacity { vec_capacity records.old ≤ vec_capacity records.new }
{
    match core.slot(thread) {
        Did::Made(None) => {}
        Did::Made(Some(made)) => note(records, tick, made),
        Did::Trapped(kind, pos) => {
            let core = core.number();
            note(records, tick, Record::Fault { core, pos, kind });
        }
        Did::Paused => {}
        Did::Idle => {}
    }
}

/// Adds a record of that tick, for which there is room.
fn note(records: &mut Vec<Stamped>, tick: u32, made: Record)
    requires { vec_len records.old < vec_capacity records.old }
    ensures items { records.new.items
        ≡ records.old.items ++ record { tick = tick; made = made } ∷ [] }
    ensures len { vec_len records.new ≡ vec_len records.old + 1 }
    ensures capacity { vec_capacity records.old ≤ vec_capacity records.new }
{
    records.push(Stamped { tick, made }).unwrap();
}
