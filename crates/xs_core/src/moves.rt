// Tokens and credits on their way.

ghost use Rattle.std.specs.Prelude.{◌≡◌, ◌+◌, ◌<◌, ◌≤◌, ◌++◌, length, nat_eq};
ghost use Rattle.xs_core.specs.Room.{HasRoom, HasRoomAlong};
ghost use Rattle.xs_instr.specs.Ends.{all_arrive, all_sent, arrives, goes_by};

use circular_buffer::HeapCircularBuffer;
use xs_chanend::Ends;
use xs_instr::{Moved, Sent};

/// A token or a credit comes to its end.
pub fn arrive(ends: &mut Ends, moved: Moved)
    requires { HasRoom ends.old moved }
    ensures { ends.new ≡ arrives ends.old moved }
{
    match moved {
        Moved::Tok { end, token } => {
            let _ = ends.put(end, token);
        }
        Moved::Credit { end } => ends.credit(end),
    }
}

/// Each comes to its end, one after the other.
fn arrive_all(ends: &mut Ends, moves: &[Moved])
    requires { HasRoomAlong ends.old moves.now }
    ensures { ends.new ≡ all_arrive ends.old moves.now }
{
    for moved in moves {
        arrive(ends, *moved);
    }
}

/// Each is sent off the core.
fn send_all(outbox: &mut HeapCircularBuffer<Sent>, to: u8, tick: u32, moves: &[Moved])
    requires { length outbox.old.items + length moves.now ≤ outbox.old.capacity }
    ensures items { outbox.new.items ≡ outbox.old.items ++ all_sent to tick moves.now }
    ensures capacity { outbox.new.capacity ≡ outbox.old.capacity }
{
    for moved in moves {
        let sent = Sent {
            to,
            tick,
            moved: *moved,
        };
        let _ = outbox.push_back(sent);
    }
}

/// Within the core they arrive at once, else they are sent.
pub fn go(
    ends: &mut Ends,
    outbox: &mut HeapCircularBuffer<Sent>,
    here: u8,
    to: u8,
    tick: u32,
    moves: &[Moved],
)
    requires room { to ≡ here → HasRoomAlong ends.old moves.now }
    requires spare { length outbox.old.items + length moves.now ≤ outbox.old.capacity }
    ensures ends { ends.new ≡ (goes_by ends.old to tick moves.now (nat_eq to here)).ends }
    ensures sent { outbox.new.items
        ≡ outbox.old.items ++ (goes_by ends.old to tick moves.now (nat_eq to here)).sent }
    ensures capacity { outbox.new.capacity ≡ outbox.old.capacity }
{
    if to == here {
        arrive_all(ends, moves);
    } else {
        send_all(outbox, to, tick, moves);
    }
}
