// Rounds of the four cores.

ghost use Rattle.std.specs.Prelude.{◌≡◌, ◌<◌, ◌≤◌, ◌+◌, ◌++◌, length, map, nat_lt, vec_len, vec_capacity};
ghost use Rattle.xs_instr.specs.Slot.{last_clock};
ghost use Rattle.xs_instr.specs.declared.image.Image.{Image};
ghost use Rattle.xs_instr.specs.declared.image.Stim.{Stim};
ghost use Rattle.xw_words.specs.Words.{truth};
ghost use Rattle.xs_fabric.specs.Kept.{IsRunning};
ghost use Rattle.xs_fabric.specs.Lockstep.{events_in, rounds_at, steps_in, turns, tick_once as once_ticked};
ghost use Rattle.xs_fabric.specs.Rooms.{CanGo, IsIdle};
ghost use Rattle.xs_fabric.specs.Rounds.{links_after, own_round, part, round_events};
ghost use Rattle.xs_fabric.specs.Seen.{home_in, homes, together};

use crate::delivery::deliver_all;
use crate::link::Links;
use crate::turn::{send_all, take_turn};
use xs_core::Core;
use xs_instr::Record;

const CORES: usize = 4;

const LAST_CLOCK: u32 = u32::MAX;

/// A round of the four cores, and how many events it had.
pub fn all_rounds(cores: &mut Vec<Core>, links: &mut Links, trace: &mut Vec<Record>) -> u32
    requires running { IsRunning cores.old.items links.old trace.old.items }
    requires room { vec_len trace.old + 32 ≤ vec_capacity trace.old }
    ensures rounds { (L : Image) (s : Stim) → map home_in cores.old.items ≡ homes L s →
        together cores.new.items links.new trace.new.items
        ≡ rounds_at L s (together cores.old.items links.old trace.old.items) 4 }
    ensures events { (L : Image) (s : Stim) → map home_in cores.old.items ≡ homes L s →
        result ≡ events_in L s (together cores.old.items links.old trace.old.items) 4 }
    ensures homes { map home_in cores.new.items ≡ map home_in cores.old.items }
    ensures running { IsRunning cores.new.items links.new trace.new.items }
    ensures len { vec_len trace.new ≤ vec_len trace.old + 32 }
    ensures capacity { vec_capacity trace.old ≤ vec_capacity trace.new }
{
    let mut events = 0;
    for i in 0..CORES {
        let core = &mut cores[i];
        events += one_round(core, links, trace);
    }
    events
}

/// A core's part of a round, and how many events it had: its tick, what is due, and a turn of each thread.
fn one_round(core: &mut Core, links: &mut Links, trace: &mut Vec<Record>) -> u32
    requires can { CanGo core.old links.old }
    requires room { vec_len trace.old + 8 ≤ vec_capacity trace.old }
    ensures state { core.new.state ≡ (own_round core.old.home links.old core.old.state).core }
    ensures links { links.new ≡ links_after core.old.home links.old core.old.state }
    ensures trace { trace.new.items
        ≡ trace.old.items ++ (own_round core.old.home links.old core.old.state).made }
    ensures events { result ≡ round_events core.old.home links.old core.old.state }
    ensures few { result ≤ 2057 }
    ensures home { core.new.home ≡ core.old.home }
    ensures idle { IsIdle core.new }
    ensures len { vec_len trace.new ≤ vec_len trace.old + 8 }
    ensures capacity { vec_capacity trace.old ≤ vec_capacity trace.new }
{
    let ticks = tick_once(core);
    let moves = deliver_all(core, links);
    let steps = take_turns(core, trace);
    send_all(core, links);
    ticks + moves + steps
}

/// A tick where there can be one, and how many there were.
fn tick_once(core: &mut Core) -> u32
    ensures core { core.new ≡ record core.old { state = once_ticked core.old.state } }
    ensures events { result ≡ truth (nat_lt core.old.state.clock last_clock) }
{
    if core.clock() == LAST_CLOCK {
        return 0;
    }
    core.tick();
    1
}

/// A turn of each thread, and how many of them were steps. Past the last thread in use no turn does anything.
fn take_turns(core: &mut Core, trace: &mut Vec<Record>) -> u32
    requires spare { 32 ≤ core.old.spare }
    requires room { vec_len trace.old + 8 ≤ vec_capacity trace.old }
    ensures turns { part core.new trace.new.items
        ≡ turns core.old.home (part core.old trace.old.items) 8 }
    ensures steps { result ≡ steps_in core.old.home (part core.old trace.old.items) 8 }
    ensures few { result ≤ 8 }
    ensures home { core.new.home ≡ core.old.home }
    ensures spare { core.new.spare + length core.new.outbox
        ≡ core.old.spare + length core.old.outbox }
    ensures len { vec_len trace.new ≤ vec_len trace.old + 8 }
    ensures capacity { vec_capacity trace.old ≤ vec_capacity trace.new }
{
    let mut steps = 0;
    let mut thread = 0;
    'used: while thread < core.in_use() {
        steps += count(take_turn(core, trace, thread));
        thread += 1;
    }
    steps
}

/// One for what happened, and nothing for what didn't.
fn count(happened: bool) -> u32
    ensures { result ≡ truth happened }
{
    if happened { 1 } else { 0 }
}
