// The four cores of a machine: how they start, and single events.

ghost use Rattle.std.specs.Prelude.{◌≡◌, ◌≤◌, ◌<◌, ◌+◌, ◌++◌, [], ◌∷◌, IfOk, OnOk, List as Items, map, vec_len, vec_capacity};
ghost use Rattle.xs_instr.specs.Machine.{Move, Step, Tick, boot, boot_core, does, home_of, parts_in};
ghost use Rattle.xs_instr.specs.Valid.{Valid, IsGoodStim};
ghost use Rattle.xs_instr.specs.declared.image.Image.{Image};
ghost use Rattle.xs_instr.specs.declared.image.Stim.{Stim};
ghost use Rattle.xs_instr.specs.declared.trace.Record.{Record as RecordOf};
ghost use Rattle.xs_fabric.specs.Kept.{AreIdle, IsRunning};
ghost use Rattle.xs_fabric.specs.Rooms.{FirstHasRoom};
ghost use Rattle.xs_fabric.specs.Rounds.{Links as LinksOf};
ghost use Rattle.xs_fabric.specs.Seen.{IsEvent, answer_of, home_in, homes, state_in, together};
ghost use Rattle.xs_fabric.specs.declared.machine.Event.TheVariants.{NotEnabled};

use crate::link::{Links, take};
use crate::machine::Event;
use crate::turn::{send_all, take_turn};
use std::alloc::Global;
use xs_core::Core;
use xs_instr::{Image, Record, Stim};
use xw_words::{List, Memory};

const CORES: u8 = 4;

const LAST_CLOCK: u32 = u32::MAX;

/// The four cores of an image under a stimulus, as they start, each with room for what it sends in a round.
pub fn boot_cores(alloc: Global, image: &Image, stim: &Stim) -> Result<Vec<Core>, Memory>
    requires valid { Valid image.now }
    requires stim { IsGoodStim stim.now }
    ensures homes { IfOk result (λ cores. map home_in cores.items ≡ homes image.now stim.now) }
    ensures states { IfOk result (λ cores. map state_in cores.items ≡ (boot image.now).cores) }
    ensures idle { IfOk result (λ cores. AreIdle cores.items) }
{
    let mut cores = List::new(alloc);
    add_cores(&mut cores, alloc, image, stim)?;
    Ok(cores.into_vec())
}

/// Puts the four cores as they start into a list with nothing in it, each with room for what it sends in a round.
fn add_cores(
    cores: &mut List<Core>,
    alloc: Global,
    image: &Image,
    stim: &Stim,
) -> Result<(), Memory>
    requires none { cores.old ≡ [] }
    requires valid { Valid image.now }
    requires stim { IsGoodStim stim.now }
    ensures homes { OnOk result (map home_in cores.new ≡ homes image.now stim.now) }
    ensures states { OnOk result (map state_in cores.new ≡ (boot image.now).cores) }
    ensures idle { OnOk result (AreIdle cores.new) }
{
    add_core(cores, alloc, image, 0, stim)?;
    add_core(cores, alloc, image, 1, stim)?;
    add_core(cores, alloc, image, 2, stim)?;
    add_core(cores, alloc, image, 3, stim)
}

/// Puts one core as it starts at the end, with room for what it sends in a round.
fn add_core(
    cores: &mut List<Core>,
    alloc: Global,
    image: &Image,
    number: u8,
    stim: &Stim,
) -> Result<(), Memory>
    requires number { number < 4 }
    requires valid { Valid image.now }
    requires stim { IsGoodStim stim.now }
    ensures home { OnOk result (map home_in cores.new
        ≡ map home_in cores.old ++ home_of image.now stim.now number ∷ []) }
    ensures state { OnOk result (map state_in cores.new
        ≡ map state_in cores.old ++ boot_core (parts_in image.now.cores number) ∷ []) }
    ensures idle { OnOk result (AreIdle cores.old → AreIdle cores.new) }
{
    match Core::new(alloc, image, number, stim) {
        Ok(core) => add_with_room(cores, core),
        Err(error) => Err(error),
    }
}

/// Puts a core that has sent nothing at the end, with room for what it sends in a round.
fn add_with_room(cores: &mut List<Core>, mut core: Core) -> Result<(), Memory>
    requires { core.outbox ≡ [] }
    ensures home { OnOk result (map home_in cores.new ≡ map home_in cores.old ++ core.home ∷ []) }
    ensures state { OnOk result (map state_in cores.new ≡ map state_in cores.old ++ core.state ∷ []) }
    ensures idle { OnOk result (AreIdle cores.old → AreIdle cores.new) }
{
    match core.reserve_window() {
        Ok(()) => cores.push(core),
        Err(error) => {
            drop(core);
            Err(error)
        }
    }
}

/// A step of a thread of one of the cores. What it sends goes onto the core's links.
pub fn step_core(
    cores: &mut Vec<Core>,
    links: &mut Links,
    trace: &mut Vec<Record>,
    core: u8,
    thread: u8,
) -> Event
    requires running { IsRunning cores.old.items links.old trace.old.items }
    requires room { vec_len trace.old < vec_capacity trace.old }
    ensures event { (L : Image) (s : Stim) → map home_in cores.old.items ≡ homes L s →
        IsEvent (does L s (together cores.old.items links.old trace.old.items) (Step core thread))
        (together cores.old.items links.old trace.old.items) result
        (together cores.new.items links.new trace.new.items) }
    ensures homes { map home_in cores.new.items ≡ map home_in cores.old.items }
    ensures idle { AreIdle cores.new.items }
    ensures len { vec_len trace.new ≤ vec_len trace.old + 1 }
    ensures capacity { vec_capacity trace.old ≤ vec_capacity trace.new }
    ensures none { result ≡ NotEnabled → trace.new ≡ trace.old }
{
    if core >= CORES {
        return Event::NotEnabled;
    }
    let core = &mut cores[core as usize];
    if thread >= core.thread_count() {
        return Event::NotEnabled;
    }
    let stepped = take_turn(core, trace, thread);
    send_all(core, links);
    answer(stepped)
}

fn answer(enabled: bool) -> Event
    ensures { result ≡ answer_of enabled }
{
    if enabled {
        Event::Done
    } else {
        Event::NotEnabled
    }
}

/// A tick of one of the cores.
pub fn tick_core(cores: &mut Vec<Core>, core: u8) -> Event
    requires four { vec_len cores.old ≡ 4 }
    ensures event { (L : Image) (s : Stim) (links : LinksOf) (trace : Items RecordOf) →
        map home_in cores.old.items ≡ homes L s →
        IsEvent (does L s (together cores.old.items links trace) (Tick core))
        (together cores.old.items links trace) result (together cores.new.items links trace) }
    ensures homes { map home_in cores.new.items ≡ map home_in cores.old.items }
    ensures idle { AreIdle cores.old.items → AreIdle cores.new.items }
{
    if core >= CORES {
        return Event::NotEnabled;
    }
    let core = &mut cores[core as usize];
    if core.clock() == LAST_CLOCK {
        return Event::NotEnabled;
    }
    core.tick();
    Event::Done
}

/// The first item of a link comes to its end.
pub fn move_core(cores: &mut Vec<Core>, links: &mut Links, from: u8, to: u8) -> Event
    requires four { vec_len cores.old ≡ 4 }
    requires room { FirstHasRoom cores.old.items links.old from to }
    ensures event { (L : Image) (s : Stim) (trace : Items RecordOf) →
        map home_in cores.old.items ≡ homes L s →
        IsEvent (does L s (together cores.old.items links.old trace) (Move from to))
        (together cores.old.items links.old trace) result
        (together cores.new.items links.new trace) }
    ensures homes { map home_in cores.new.items ≡ map home_in cores.old.items }
    ensures idle { AreIdle cores.old.items → AreIdle cores.new.items }
{
    if from >= CORES || to >= CORES {
        return Event::NotEnabled;
    }
    match take(links, from, to) {
        None => Event::NotEnabled,
        Some(item) => {
            cores[to as usize].deliver(item.moved);
            Event::Done
        }
    }
}
