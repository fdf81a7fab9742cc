//! One run of calls on three ports, with answers that were worked out by hand.

ghost use Rattle.std.specs.Prelude.{◌≡◌, ◌<◌, length, IfOk};
ghost use Rattle.xs_instr.specs.Valid.{AreGoodPorts, IsGoodStim};

use std::alloc::{AllocError, Global};
use xs_instr::{Cond, Dir, PortDecl, PortGot, Stim, StimLine};
use xs_port::Ports;
use xw_words::{List, Memory};

#[derive(Clone, Copy)]
enum Call {
    Tick(u32),
    Pins,
    SetCond(Cond),
    SetData(u32),
    SetTime(u32),
    Meets,
    Latch,
    Read,
    Drive(u32),
    Stamp,
}

#[derive(Clone, Copy, PartialEq)]
enum Answer {
    Value(u32),
    Flag(bool),
    Got(Option<PortGot>),
    Stamp(u16),
    Done,
}

/// What a call answers. No port takes a condition of timers.
fn made(ports: &mut Ports, p: u32, call: Call) -> Answer
    requires { p < length ports.old.ports }
{
    match call {
        Call::Pins => return Answer::Value(ports.pins(p)),
        Call::SetCond(Cond::After) => return Answer::Flag(false),
        Call::Meets => return Answer::Flag(ports.meets(p)),
        Call::Read => return Answer::Got(ports.read(p)),
        Call::Drive(v) => return Answer::Got(ports.drive(p, v)),
        Call::Stamp => return Answer::Stamp(ports.stamp(p)),
        Call::Tick(clock) => ports.tick(clock),
        Call::SetCond(c) => ports.set_cond(p, c),
        Call::SetData(v) => ports.set_data(p, v),
        Call::SetTime(t) => ports.set_time(p, t),
        Call::Latch => ports.latch(p),
    }
    Answer::Done
}

// 1A, 4A and 32A, of 1, 4 and 32 bits.
fn decls(alloc: Global) -> Result<List<PortDecl>, AllocError>
    ensures { IfOk result (λ decls. AreGoodPorts decls) }
{
    let v = vec![in alloc;
        PortDecl {
            port: 0,
            dir: Dir::In
        },
        PortDecl {
            port: 16,
            dir: Dir::Both
        },
        PortDecl {
            port: 28,
            dir: Dir::Out
        },
    ]?;
    Ok(List::from_vec(v))
}

fn line(tick: u32, core: u8, port: u8, value: u32) -> StimLine
    ensures { result ≡ record { tick = tick; core = core; port = port; value = value } }
{
    StimLine {
        tick,
        core,
        port,
        value,
    }
}

// Lines at tick 0, of another core, and two lines of one tick for one port.
fn stim(alloc: Global) -> Result<Stim, AllocError>
    ensures { IfOk result (λ stim. IsGoodStim stim) }
{
    let v = vec![in alloc;
        line(0, 2, 0, 1),
        line(0, 1, 0, 0),
        line(5, 2, 16, 3),
        line(5, 2, 16, 9),
        line(5, 2, 0, 0),
        line(70_000, 2, 16, 15),
    ]?;
    Ok(Stim {
        lines: List::from_vec(v),
    })
}

/// The calls, each with a port and what it answers. A tick is told all ports.
const CALLS: [(u32, Call, Answer); 66] = [
    (0, Call::Pins, Answer::Value(1)),
    (1, Call::Pins, Answer::Value(0)),
    (2, Call::Pins, Answer::Value(0)),
    (0, Call::Meets, Answer::Flag(true)),
    (0, Call::SetCond(Cond::Eq), Answer::Done),
    (0, Call::Meets, Answer::Flag(false)),
    (0, Call::Read, Answer::Got(None)),
    (0, Call::SetData(3), Answer::Done),
    (0, Call::Meets, Answer::Flag(true)),
    (0, Call::SetCond(Cond::Neq), Answer::Done),
    (0, Call::Read, Answer::Got(None)),
    (0, Call::SetCond(Cond::None), Answer::Done),
    (
        0,
        Call::Read,
        Answer::Got(Some(PortGot { value: 1, stamp: 0 })),
    ),
    (0, Call::Stamp, Answer::Stamp(0)),
    (0, Call::Tick(4), Answer::Done),
    (0, Call::Pins, Answer::Value(1)),
    (1, Call::Pins, Answer::Value(0)),
    (0, Call::Tick(5), Answer::Done),
    (0, Call::Pins, Answer::Value(0)),
    (1, Call::Pins, Answer::Value(9)),
    (1, Call::SetTime(0x1_0007), Answer::Done),
    (1, Call::Meets, Answer::Flag(false)),
    (1, Call::Read, Answer::Got(None)),
    (1, Call::SetCond(Cond::Eq), Answer::Done),
    (1, Call::Meets, Answer::Flag(false)),
    (1, Call::SetData(0x79), Answer::Done),
    (1, Call::Meets, Answer::Flag(true)),
    (1, Call::SetTime(0x1_0007), Answer::Done),
    (1, Call::Meets, Answer::Flag(false)),
    // The time is come, and an event latches; a time that is set after it stays.
    (0, Call::Tick(7), Answer::Done),
    (1, Call::Meets, Answer::Flag(true)),
    (1, Call::Latch, Answer::Done),
    (1, Call::SetTime(3), Answer::Done),
    // The counter has wrapped once: 70,000 - 65,536 = 4,464.
    (0, Call::Tick(70_000), Answer::Done),
    (1, Call::Pins, Answer::Value(15)),
    (
        1,
        Call::Read,
        Answer::Got(Some(PortGot { value: 9, stamp: 7 })),
    ),
    (1, Call::Stamp, Answer::Stamp(7)),
    (1, Call::SetCond(Cond::Neq), Answer::Done),
    (1, Call::SetTime(3), Answer::Done),
    (1, Call::Latch, Answer::Done),
    (1, Call::SetTime(3), Answer::Done),
    (
        1,
        Call::Read,
        Answer::Got(Some(PortGot {
            value: 15,
            stamp: 4464,
        })),
    ),
    (1, Call::Meets, Answer::Flag(false)),
    (1, Call::SetCond(Cond::None), Answer::Done),
    (
        1,
        Call::Read,
        Answer::Got(Some(PortGot {
            value: 15,
            stamp: 4464,
        })),
    ),
    (1, Call::Stamp, Answer::Stamp(4464)),
    (
        2,
        Call::Drive(0xffff_ffff),
        Answer::Got(Some(PortGot {
            value: 0xffff_ffff,
            stamp: 4464,
        })),
    ),
    (2, Call::Stamp, Answer::Stamp(4464)),
    (
        1,
        Call::Drive(0x1f),
        Answer::Got(Some(PortGot {
            value: 15,
            stamp: 4464,
        })),
    ),
    (
        0,
        Call::Drive(2),
        Answer::Got(Some(PortGot {
            value: 0,
            stamp: 4464,
        })),
    ),
    (2, Call::SetTime(0), Answer::Done),
    (2, Call::Drive(5), Answer::Got(None)),
    (0, Call::Tick(131_071), Answer::Done),
    (2, Call::Drive(5), Answer::Got(None)),
    // The counter has wrapped twice: it is 0.
    (0, Call::Tick(131_072), Answer::Done),
    (
        2,
        Call::Drive(5),
        Answer::Got(Some(PortGot { value: 5, stamp: 0 })),
    ),
    (2, Call::Stamp, Answer::Stamp(0)),
    (
        2,
        Call::Drive(6),
        Answer::Got(Some(PortGot { value: 6, stamp: 0 })),
    ),
    (0, Call::SetTime(1), Answer::Done),
    (0, Call::Read, Answer::Got(None)),
    (0, Call::Tick(131_073), Answer::Done),
    (
        0,
        Call::Read,
        Answer::Got(Some(PortGot { value: 0, stamp: 1 })),
    ),
    (
        0,
        Call::Read,
        Answer::Got(Some(PortGot { value: 0, stamp: 1 })),
    ),
    (0, Call::Tick(131_074), Answer::Done),
    (
        0,
        Call::Read,
        Answer::Got(Some(PortGot { value: 0, stamp: 2 })),
    ),
    (0, Call::Stamp, Answer::Stamp(2)),
];

/// The place of the first call on three new ports that is answered otherwise.
pub fn wrong_call(alloc: Global) -> Result<Option<usize>, Memory> {
    let decls = decls(alloc)?;
    let stim = stim(alloc)?;
    let mut ports = Ports::new(alloc, &decls, &stim, 2)?;
    Ok(wrong_of(&mut ports))
}

fn wrong_of(ports: &mut Ports) -> Option<usize> {
    for (place, (port, call, want)) in CALLS.iter().enumerate() {
        if !ports.has(*port) || made(ports, *port, *call) != *want {
            return Some(place);
        }
    }
    None
}
