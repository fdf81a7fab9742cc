// Machines of several cores, round by round and event by event.

ghost use Rattle.xs_instr.specs.Valid.{Valid};

use crate::listings::{FULL, NO_WORD, OUTPUT, THREE_WORDS};
use std::alloc::Global;
use xr_listed::{ListingErr, read_image};
use xs_fabric::{Event, Machine};
use xs_instr::{EndWord, Image, Record, Stim};
use xw_words::{List, Memory};

/// What is asked of a machine, with what is wanted.
#[derive(Clone, Copy)]
enum Asked {
    /// So many rounds, each with that many events.
    Rounds(u32, u32),
    Step(u8, u8, Event),
    Tick(u8, Event),
    Move(u8, u8, Event),
    /// How many records there are, and how the run would end.
    Seen(usize, EndWord),
}

/// What is sent at tick 3 comes at tick 11 and not before. A word is four tokens, and each token that is taken gives a credit back,
/// eight ticks later again. While anything is on its way the run isn't stuck, though no thread can step.
const WORDS_OVER_A_LINK: [Asked; 26] = [
    Asked::Rounds(1, 6),
    Asked::Seen(0, EndWord::Stopped),
    Asked::Rounds(5, 5),
    Asked::Seen(0, EndWord::Stopped),
    Asked::Rounds(4, 4),
    Asked::Seen(0, EndWord::Stopped),
    Asked::Rounds(1, 9),
    Asked::Seen(1, EndWord::Stopped),
    Asked::Rounds(1, 4),
    Asked::Seen(1, EndWord::Stopped),
    Asked::Rounds(1, 9),
    Asked::Seen(2, EndWord::Stopped),
    Asked::Rounds(5, 4),
    Asked::Seen(2, EndWord::Stopped),
    Asked::Rounds(1, 9),
    Asked::Seen(2, EndWord::Stopped),
    Asked::Rounds(1, 5),
    Asked::Seen(2, EndWord::Stopped),
    Asked::Rounds(1, 8),
    Asked::Seen(2, EndWord::Stopped),
    Asked::Rounds(5, 4),
    Asked::Seen(2, EndWord::Stopped),
    Asked::Rounds(1, 9),
    Asked::Seen(3, EndWord::Stopped),
    Asked::Rounds(1, 5),
    Asked::Seen(3, EndWord::Finished),
];

/// A thread that waits for a word which nobody sends is stuck, once the other thread has ended.
const STUCK: [Asked; 6] = [
    Asked::Rounds(1, 6),
    Asked::Seen(0, EndWord::Stopped),
    Asked::Rounds(1, 5),
    Asked::Seen(0, EndWord::Stuck),
    Asked::Rounds(20, 4),
    Asked::Seen(0, EndWord::Stuck),
];

/// Eight threads on each of four cores step in each round.
const ALL_STEP: [Asked; 6] = [
    Asked::Rounds(1, 36),
    Asked::Seen(0, EndWord::Stopped),
    Asked::Rounds(1, 36),
    Asked::Seen(0, EndWord::Finished),
    Asked::Rounds(1, 4),
    Asked::Seen(0, EndWord::Finished),
];

/// A move is enabled where something is on that link, at any tick, and brings the first item: so a word is there after four moves, with its
/// bytes in their order. Without a round nothing is due.
const MOVES: [Asked; 18] = [
    Asked::Move(1, 3, Event::NotEnabled),
    Asked::Step(1, 0, Event::Done),
    Asked::Step(1, 0, Event::Done),
    Asked::Step(1, 0, Event::Done),
    Asked::Move(3, 1, Event::NotEnabled),
    Asked::Move(1, 2, Event::NotEnabled),
    Asked::Move(4, 3, Event::NotEnabled),
    Asked::Move(1, 4, Event::NotEnabled),
    Asked::Step(3, 0, Event::Done),
    Asked::Step(3, 0, Event::NotEnabled),
    Asked::Move(1, 3, Event::Done),
    Asked::Move(1, 3, Event::Done),
    Asked::Move(1, 3, Event::Done),
    Asked::Step(3, 0, Event::NotEnabled),
    Asked::Move(1, 3, Event::Done),
    Asked::Move(1, 3, Event::NotEnabled),
    Asked::Step(3, 0, Event::Done),
    Asked::Move(3, 1, Event::Done),
];

/// An output waits for its time, and nothing else is enabled.
const EVENTS: [Asked; 28] = [
    Asked::Step(0, 0, Event::Done),
    Asked::Step(0, 0, Event::Done),
    Asked::Step(0, 0, Event::Done),
    Asked::Step(0, 0, Event::Done),
    Asked::Step(0, 0, Event::Done),
    Asked::Step(0, 0, Event::Done),
    Asked::Step(0, 0, Event::Done),
    Asked::Step(0, 0, Event::Done),
    Asked::Step(0, 0, Event::Done),
    Asked::Step(0, 0, Event::NotEnabled),
    Asked::Tick(0, Event::Done),
    Asked::Step(0, 0, Event::NotEnabled),
    Asked::Tick(1, Event::Done),
    Asked::Step(0, 0, Event::NotEnabled),
    Asked::Tick(0, Event::Done),
    Asked::Step(0, 0, Event::Done),
    Asked::Step(0, 0, Event::Done),
    Asked::Step(0, 0, Event::Done),
    Asked::Step(0, 0, Event::Done),
    Asked::Step(0, 0, Event::Done),
    Asked::Step(0, 0, Event::NotEnabled),
    Asked::Step(0, 1, Event::NotEnabled),
    Asked::Step(3, 0, Event::NotEnabled),
    Asked::Step(4, 0, Event::NotEnabled),
    Asked::Step(0, 8, Event::NotEnabled),
    Asked::Tick(4, Event::NotEnabled),
    Asked::Seen(1, EndWord::Finished),
    Asked::Rounds(1, 4),
];

/// The first word that core 3 took.
const ONE_TAKEN: [Record; 1] = [Record::Com {
    core: 3,
    value: 0x0102_0304,
}];

const THREE_TAKEN: [Record; 3] = [
    Record::Com {
        core: 3,
        value: 0x0102_0304,
    },
    Record::Com { core: 3, value: 5 },
    Record::Com { core: 3, value: 6 },
];

const PUT_OUT: [Record; 1] = [Record::PortOut {
    core: 0,
    port: 0,
    stamp: 2,
    value: 1,
}];

/// A listing, what is asked of its machine from the start on, and all that is recorded then.
const RUNS: [(&str, &[Asked], &[Record]); 5] = [
    (THREE_WORDS, &WORDS_OVER_A_LINK, &THREE_TAKEN),
    (NO_WORD, &STUCK, &[]),
    (FULL, &ALL_STEP, &[]),
    (THREE_WORDS, &MOVES, &ONE_TAKEN),
    (OUTPUT, &EVENTS, &PUT_OUT),
];

/// Five machines answer what was worked out by hand. One that doesn't is told by its place among the runs, and a call of it by its place in its
/// table: behind the last one for what is recorded in the end.
#[test]
fn machines_answer(rt: HostRuntime) {
    assert_eq!(rt; wrong_run(rt.alloc()), Ok(None));
}

/// The first run whose machine answers otherwise, and the place of the call.
fn wrong_run(alloc: Global) -> Result<Option<(usize, usize)>, ListingErr> {
    for (run, (listing, calls, trace)) in RUNS.iter().enumerate() {
        let image = read_image(alloc, listing)?;
        if let Some(call) = wrong_call(alloc, &image, calls, trace)? {
            return Ok(Some((run, call)));
        }
    }
    Ok(None)
}

/// The place of the first call that the image's machine answers otherwise.
fn wrong_call(
    alloc: Global,
    image: &Image,
    calls: &[Asked],
    trace: &[Record],
) -> Result<Option<usize>, Memory>
    requires { Valid image.now }
{
    let stim = Stim {
        lines: List::new(alloc),
    };
    let mut machine = Machine::boot(alloc, image, &stim)?;
    wrong_of(&mut machine, calls, trace)
}

fn wrong_of(
    machine: &mut Machine,
    calls: &[Asked],
    trace: &[Record],
) -> Result<Option<usize>, Memory> {
    for (place, asked) in calls.iter().enumerate() {
        if !answers_so(machine, *asked)? {
            return Ok(Some(place));
        }
    }
    let is_so = machine.trace() == trace && !machine.trapped();
    Ok(if is_so { None } else { Some(calls.len()) })
}

fn answers_so(machine: &mut Machine, asked: Asked) -> Result<bool, Memory> {
    machine.reserve(32)?;
    Ok(match asked {
        Asked::Rounds(rounds, events) => return have_events(machine, rounds, events),
        Asked::Step(core, thread, event) => machine.step(core, thread) == event,
        Asked::Tick(core, event) => machine.tick(core) == event,
        Asked::Move(from, to, event) => machine.move_one(from, to) == event,
        Asked::Seen(records, end) => machine.trace().len() == records && machine.end() == end,
    })
}

/// Whether each of so many rounds has that many events.
fn have_events(machine: &mut Machine, rounds: u32, events: u32) -> Result<bool, Memory> {
    for _round in 0..rounds {
        machine.reserve(32)?;
        if machine.round() != events {
            return Ok(false);
        }
    }
    Ok(true)
}
