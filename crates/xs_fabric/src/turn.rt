// A thread's turn, and what a core sends.

ghost use Rattle.std.specs.Prelude.{◌≡◌, false, ◌<◌, ◌≤◌, ◌+◌, ◌++◌, [], ◌∷◌, length, vec_len, vec_capacity};
ghost use Rattle.xs_instr.specs.Machine.{on_links};
ghost use Rattle.xs_instr.specs.Slot.{is_ready};
ghost use Rattle.xs_fabric.specs.Lockstep.{turn};
ghost use Rattle.xs_fabric.specs.Rooms.{CanSend};
ghost use Rattle.xs_fabric.specs.Rounds.{part};

use crate::link::{Links, put};
use xs_core::{Core, Did};
use xs_instr::Record;

/// Adds a record, for which there is room.
fn note(trace: &mut Vec<Record>, made: Record)
    requires { vec_len trace.old < vec_capacity trace.old }
    ensures items { trace.new.items ≡ trace.old.items ++ made ∷ [] }
    ensures len { vec_len trace.new ≡ vec_len trace.old + 1 }
    ensures capacity { vec_capacity trace.old ≤ vec_capacity trace.new }
{
    trace.push(made).unwrap();
}

/// A thread's turn, and whether it was a step. What it sends stands last in the core's outbox.
pub fn take_turn(core: &mut Core, trace: &mut Vec<Record>, thread: u8) -> bool
    requires thread { thread < 8 }
    requires spare { 4 ≤ core.old.spare }
    requires room { vec_len trace.old < vec_capacity trace.old }
    ensures turn { part core.new trace.new.items
        ≡ turn core.old.home (part core.old trace.old.items) thread }
    ensures stepped { result ≡ is_ready core.old.home core.old.state thread }
    ensures home { core.new.home ≡ core.old.home }
    ensures few { length core.new.outbox ≤ length core.old.outbox + 4 }
    ensures spare { core.new.spare + length core.new.outbox
        ≡ core.old.spare + length core.old.outbox }
    ensures len { vec_len trace.new ≤ vec_len trace.old + 1 }
    ensures capacity { vec_capacity trace.old ≤ vec_capacity trace.new }
    ensures none { result ≡ false → trace.new ≡ trace.old }
{
    match core.slot(thread) {
        Did::Made(None) => true,
        Did::Made(Some(made)) => {
            note(trace, made);
            true
        }
        Did::Trapped(kind, pos) => {
            let core = core.number();
            note(trace, Record::Fault { core, pos, kind });
            true
        }
        Did::Paused => false,
        Did::Idle => false,
    }
}

/// What stands in the core's outbox goes onto its links.
pub fn send_all(core: &mut Core, links: &mut Links)
    requires number { core.old.home.number < 4 }
    requires can { CanSend core.old.home.number links.old core.old.outbox }
    ensures links { links.new ≡ on_links links.old core.old.home.number core.old.outbox }
    ensures state { core.new.state ≡ core.old.state }
    ensures home { core.new.home ≡ core.old.home }
    ensures outbox { core.new.outbox ≡ [] }
    ensures spare { core.new.spare ≡ core.old.spare + length core.old.outbox }
{
    let from = core.number();
    'sent: while let Some(sent) = core.take_sent() {
        put(links, from, sent);
    }
}
