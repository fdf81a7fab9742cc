//! The event that is taken of those that are ready.

use std::alloc::Global;
use xs_event::{Events, Ready};
use xs_instr::Res;
use xw_words::Memory;

enum Call {
    SetVector(Res, u32),
    Vector(Res, u32),
    Enable(Res, u8),
    Disable(Res),
    Clear(u8),
    Pick(u8, Ready, Option<Res>),
}

const ALL: Ready = Ready {
    ports: 0xffff_ffff,
    timers: 0xffff_ffff,
    ends: 0xffff_ffff,
};

const ALL_BUT_PORT_31: Ready = Ready {
    ports: 0x7fff_ffff,
    timers: 0xffff_ffff,
    ends: 0xffff_ffff,
};

const TIMER_7_AND_ENDS: Ready = Ready {
    ports: 0,
    timers: 0x80,
    ends: 0xffff_ffff,
};

const END_5: Ready = Ready {
    ports: 0,
    timers: 0,
    ends: 0x20,
};

const END_4: Ready = Ready {
    ports: 0,
    timers: 0,
    ends: 0x10,
};

const CALLS: [Call; 31] = [
    Call::Vector(Res::Port(3), 0),
    Call::SetVector(Res::Port(3), 40),
    Call::SetVector(Res::Timer(3), 70),
    Call::Vector(Res::Port(3), 40),
    Call::Vector(Res::Port(2), 0),
    Call::Vector(Res::End(3), 0),
    Call::SetVector(Res::Port(3), 41),
    Call::Vector(Res::Port(3), 41),
    Call::Pick(0, ALL, None),
    Call::Enable(Res::End(5), 0),
    Call::Enable(Res::Timer(7), 0),
    Call::Enable(Res::Timer(2), 0),
    Call::Enable(Res::Port(31), 0),
    Call::Enable(Res::Port(3), 1),
    Call::Pick(0, ALL, Some(Res::Port(31))),
    Call::Pick(0, ALL_BUT_PORT_31, Some(Res::Timer(2))),
    Call::Pick(0, TIMER_7_AND_ENDS, Some(Res::Timer(7))),
    Call::Pick(0, END_5, Some(Res::End(5))),
    Call::Pick(0, END_4, None),
    Call::Pick(1, ALL, Some(Res::Port(3))),
    Call::Enable(Res::Port(3), 0),
    Call::Pick(0, ALL, Some(Res::Port(3))),
    Call::Pick(1, ALL, None),
    Call::Disable(Res::Port(3)),
    Call::Pick(0, ALL, Some(Res::Port(31))),
    Call::Enable(Res::Timer(0), 7),
    Call::Clear(0),
    Call::Pick(0, ALL, None),
    Call::Pick(7, ALL, Some(Res::Timer(0))),
    Call::Vector(Res::Port(3), 41),
    Call::Vector(Res::Timer(3), 70),
];

/// The place of the first call that is answered otherwise.
pub fn wrong_call(alloc: Global) -> Result<Option<usize>, Memory> {
    let mut events = Events::new(alloc)?;
    for (place, call) in CALLS.iter().enumerate() {
        if !answers_so(&mut events, call) {
            return Ok(Some(place));
        }
    }
    Ok(None)
}

fn answers_so(events: &mut Events, call: &Call) -> bool {
    match call {
        Call::SetVector(r, k) => events.set_vector(*r, *k),
        Call::Vector(r, k) => return events.vector(*r) == *k,
        Call::Enable(r, thread) => events.enable(*r, *thread),
        Call::Disable(r) => events.disable(*r),
        Call::Clear(thread) => events.clear(*thread),
        Call::Pick(thread, ready, r) => return events.pick(*thread, ready) == *r,
    }
    true
}
