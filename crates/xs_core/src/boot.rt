// A core as it starts.

ghost use Rattle.std.specs.Option.{option_copied};
ghost use Rattle.std.specs.Prelude.{◌≡◌, ◌<◌, ◌≤◌, length, replicate, IfOk};
ghost use Rattle.xs_core.specs.Order.{IsInOrder};
ghost use Rattle.xs_core.specs.Seen.{home_of as home_in, state_of};
ghost use Rattle.xs_core.specs.Start.{started};
ghost use Rattle.xs_core.specs.Wired.{ArePeers, peer_as};
ghost use Rattle.xs_instr.specs.Ends.{peer_of};
ghost use Rattle.xs_instr.specs.Machine.{boot_core, boot_end, boot_events, boot_ports, boot_threads, boot_timer, home_of, no_parts, parts_in, root_thread, unused_thread};
ghost use Rattle.xs_instr.specs.Pool.{lock_free};
ghost use Rattle.xs_instr.specs.Valid.{Valid, IsGoodStim, AreGoodPorts};
ghost use Rattle.xs_port.specs.Ports.{boot_seen};

use crate::state::{Fixed, LOCKS, Peer, State, THREADS};
use std::alloc::Global;
use xs_chanend::Ends;
use xs_event::Events;
use xs_instr::{Code, Cond, CoreImage, Image, Lock, Mode, Pair, Regs, Stim, Thread, Timer};
use xs_pool::Pool;
use xs_port::Ports;
use xs_state::{Ram, Registers};
use xw_words::{List, Memory};

/// The parts of core `number` as it starts.
pub fn state_for(alloc: Global, image: &Image, number: u8, stim: &Stim) -> Result<State, Memory>
    requires image { Valid image.now }
    requires stim { IsGoodStim stim.now }
    ensures home { IfOk result (λ state. home_in state ≡ home_of image.now stim.now number) }
    ensures state { IfOk result
        (λ state. state_of state ≡ boot_core (parts_in image.now.cores number)) }
    ensures order { IfOk result IsInOrder }
{
    let fixed = fixed_for(alloc, image, number)?;
    parts_for(alloc, fixed, number, stim)
}

/// The parts of a core around what no event changes of it.
fn parts_for(alloc: Global, fixed: Fixed, number: u8, stim: &Stim) -> Result<State, Memory>
    requires ports { AreGoodPorts fixed.parts.ports }
    requires roots { length fixed.parts.roots ≤ 8 }
    requires stim { IsGoodStim stim.now }
    ensures fixed { IfOk result (λ state. state.fixed ≡ fixed) }
    ensures core { IfOk result (λ state. state.ports.core ≡ number) }
    ensures stim { IfOk result (λ state. state.ports.stim ≡ stim.now.lines) }
    ensures state { IfOk result (λ state. state_of state ≡ boot_core fixed.parts) }
{
    let Made {
        ports,
        words,
        resources,
    } = made_for(alloc, &fixed.parts, number, stim)?;
    Ok(state_of_parts(fixed, ports, words, resources))
}

/// What is made of the parts of a core as it starts.
struct Made {
    ports: Ports,
    words: Ram,
    resources: Resources,
}

/// What is made of the parts of core `number`.
fn made_for(alloc: Global, parts: &CoreImage, number: u8, stim: &Stim) -> Result<Made, Memory>
    requires ports { AreGoodPorts parts.now.ports }
    requires stim { IsGoodStim stim.now }
    ensures ports { IfOk result
        (λ made. made.ports ≡ boot_seen (boot_ports parts.now.ports) stim.now.lines number) }
    ensures words { IfOk result (λ made. made.words ≡ replicate parts.now.words 0) }
    ensures timers { IfOk result (λ made. made.resources.timers ≡ replicate parts.now.timers boot_timer) }
    ensures ends { IfOk result (λ made. made.resources.ends ≡ replicate parts.now.ends boot_end) }
    ensures events { IfOk result (λ made. made.resources.events ≡ boot_events) }
{
    let ports = Ports::new(alloc, &parts.ports, stim, number)?;
    let words = Ram::new(alloc, parts.words)?;
    let resources = resources_for(alloc, parts.timers, parts.ends)?;
    Ok(Made {
        ports,
        words,
        resources,
    })
}

/// A core as it starts, of its parts.
fn state_of_parts(fixed: Fixed, ports: Ports, words: Ram, resources: Resources) -> State
    requires { length fixed.parts.roots ≤ 8 }
    ensures fixed { result.fixed ≡ fixed }
    ensures ports { result.ports ≡ ports }
    ensures state { state_of result ≡ record (boot_core fixed.parts) {
      clock = ports.clock;
      words = words;
      ports = ports.ports;
      timers = resources.timers;
      ends = resources.ends;
      events = resources.events;
    } }
{
    let Resources {
        timers,
        ends,
        events,
    } = resources;
    State {
        roots: fixed.parts.roots.len() as u32,
        threads: threads(&fixed.parts.roots),
        words,
        pool: Pool::new(),
        locks: [free_lock(); LOCKS],
        ports,
        timers,
        ends,
        events,
        fixed,
    }
}

/// The timers, the channel ends and the events of a core as it starts.
struct Resources {
    timers: List<Timer>,
    ends: Ends,
    events: Events,
}

/// So many timers and ends, and no events.
fn resources_for(alloc: Global, timers_wanted: u32, ends_wanted: u32) -> Result<Resources, Memory>
    ensures timers { IfOk result (λ resources. resources.timers ≡ replicate timers_wanted boot_timer) }
    ensures ends { IfOk result (λ resources. resources.ends ≡ replicate ends_wanted boot_end) }
    ensures events { IfOk result (λ resources. resources.events ≡ boot_events) }
{
    let timers = timers(alloc, timers_wanted)?;
    let ends = Ends::new(alloc, ends_wanted)?;
    let events = Events::new(alloc)?;
    Ok(Resources {
        timers,
        ends,
        events,
    })
}

/// What no event changes of core `number`, copied.
fn fixed_for(alloc: Global, image: &Image, number: u8) -> Result<Fixed, Memory>
    ensures parts { IfOk result (λ fixed. fixed.parts ≡ parts_in image.now.cores number) }
    ensures pairs { IfOk result (λ fixed. fixed.pairs ≡ image.now.chans) }
    ensures peers { IfOk result (λ fixed. ArePeers image.now.chans number
        (parts_in image.now.cores number).ends fixed.peers) }
{
    let parts = part_of(alloc, image.cores.as_slice(), number)?;
    let pairs = image.chans.copy(alloc)?;
    let peers = peers(alloc, image.chans.as_slice(), number, parts.ends)?;
    Ok(Fixed {
        parts,
        pairs,
        peers,
    })
}

/// The peer of each of the core's ends.
fn peers(alloc: Global, pairs: &[Pair], core: u8, ends: u32) -> Result<List<Peer>, Memory>
    ensures { IfOk result (ArePeers pairs.now core ends) }
{
    let mut peers = List::new(alloc);
    for end in 0..ends {
        peers.push(peer(pairs, core, end))?;
    }
    Ok(peers)
}

/// An end's peer by the channels; an end that no channel names is its own.
fn peer(pairs: &[Pair], core: u8, end: u32) -> Peer
    ensures { peer_as result ≡ peer_of pairs.now core end }
{
    for pair in pairs {
        if pair.core == core && pair.end == end {
            return Peer {
                core: pair.peer_core,
                end: pair.peer_end,
            };
        }
        if pair.peer_core == core && pair.peer_end == end {
            return Peer {
                core: pair.core,
                end: pair.end,
            };
        }
    }
    Peer { core, end }
}

fn part_of(alloc: Global, cores: &[CoreImage], number: u8) -> Result<CoreImage, Memory>
    ensures { IfOk result (λ part. part ≡ parts_in cores.now number) }
{
    for part in cores {
        if part.number == number {
            let copy = part.copy(alloc)?;
            return Ok(copy);
        }
    }
    Ok(no_part(alloc, number))
}

/// The part of a core that the image doesn't hold.
fn no_part(alloc: Global, number: u8) -> CoreImage
    ensures { result ≡ no_parts number }
{
    CoreImage {
        number,
        words: 0,
        timers: 0,
        ends: 0,
        ports: List::new(alloc),
        roots: List::new(alloc),
        code: Code {
            instrs: List::new(alloc),
            at: List::new(alloc),
        },
    }
}

/// The roots' threads, and then unused ones.
fn threads(roots: &List<u32>) -> [Thread; THREADS]
    ensures { result ≡ boot_threads roots.now 8 }
{
    let mut threads = [unused(); THREADS];
    for t in 0..THREADS {
        threads[t] = thread_for(roots.get(t));
    }
    threads
}

/// A thread at its root, or unused where there is none.
fn thread_for(root: Option<&u32>) -> Thread
    ensures { result ≡ started (option_copied root.entry) }
{
    match root {
        None => unused(),
        Some(root) => root_at(*root),
    }
}

fn root_at(pc: u32) -> Thread
    ensures { result ≡ root_thread pc }
{
    Thread {
        mode: Mode::Running,
        pc,
        ..unused()
    }
}

fn unused() -> Thread
    ensures { result ≡ unused_thread }
{
    Thread {
        mode: Mode::Unused,
        pc: 0,
        regs: Regs::new(),
        event_bit: false,
        tie: None,
    }
}

fn free_lock() -> Lock
    ensures { result ≡ lock_free }
{
    Lock {
        taken: false,
        holder: None,
    }
}

/// So many timers as they start.
fn timers(alloc: Global, count: u32) -> Result<List<Timer>, Memory>
    ensures { IfOk result (λ timers. timers ≡ replicate count boot_timer) }
{
    let timer = Timer {
        cond: Cond::None,
        datum: 0,
        latch: None,
    };
    let timers = vec![in alloc; timer; count as usize]?;
    Ok(List::from_vec(timers))
}
