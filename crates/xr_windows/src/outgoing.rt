// What goes out of a core in a window.

ghost use Rattle.std.specs.Prelude.{◌≡◌, ◌<◌, ◌≤◌, ◌+◌, ◌++◌, [], ◌∷◌, IfOk, OnOk, length, vec_len, vec_capacity, nat_eq};
ghost use Rattle.xr_windows.specs.Alone.{sent_for};
ghost use Rattle.xr_windows.specs.Sending.{IsSent, batches_from, unless};
ghost use Rattle.xr_windows.specs.Rooms.{IsRoom};
ghost use Rattle.xr_windows.specs.Windows.{batch, has_one};

use crate::batch::Batch;
use crate::run_name::RunName;
use std::alloc::Global;
use std::marker::PhantomData;
use std::mem;
use xs_core::Core;
use xs_instr::{Item, Sent};
use xw_words::{List, Memory};

/// How many items a core sends in a window at most: in each of eight ticks each of its eight threads at most four.
const MOST: usize = 256;

/// How many batches go out at most.
const CORES: usize = 4;

/// What goes out of a core in a window, by the number of the receiver. Its memory is used again from window to window.
#[derive(Drop)]
pub struct Outgoing {
    pub to0: Vec<Item>,
    pub to1: Vec<Item>,
    pub to2: Vec<Item>,
    pub to3: Vec<Item>,
}

impl Outgoing {
    /// Nothing, and no room. It takes no memory.
    pub fn nothing(alloc: Global) -> Outgoing {
        Outgoing {
            to0: Vec::new(alloc),
            to1: Vec::new(alloc),
            to2: Vec::new(alloc),
            to3: Vec::new(alloc),
        }
    }

    /// Forgets what is there, and makes room for a window. The one error is want of memory.
    pub fn make_room(&mut self) -> Result<(), Memory>
        ensures to0 { OnOk result (IsRoom self.new.to0) }
        ensures to1 { OnOk result (IsRoom self.new.to1) }
        ensures to2 { OnOk result (IsRoom self.new.to2) }
        ensures to3 { OnOk result (IsRoom self.new.to3) }
    {
        make_room(&mut self.to0)?;
        make_room(&mut self.to1)?;
        make_room(&mut self.to2)?;
        make_room(&mut self.to3)?;
        Ok(())
    }

    /// Takes all that the core has sent, for which there is room. Whether that was anything.
    pub fn take_all(&mut self, core: &mut Core) -> bool
        requires room0 { vec_len self.old.to0 + length core.old.outbox ≤ vec_capacity self.old.to0 }
        requires room1 { vec_len self.old.to1 + length core.old.outbox ≤ vec_capacity self.old.to1 }
        requires room2 { vec_len self.old.to2 + length core.old.outbox ≤ vec_capacity self.old.to2 }
        requires room3 { vec_len self.old.to3 + length core.old.outbox ≤ vec_capacity self.old.to3 }
        ensures to0 { self.new.to0.items ≡ self.old.to0.items ++ sent_for 0 core.old.outbox }
        ensures to1 { self.new.to1.items ≡ self.old.to1.items ++ sent_for 1 core.old.outbox }
        ensures to2 { self.new.to2.items ≡ self.old.to2.items ++ sent_for 2 core.old.outbox }
        ensures to3 { self.new.to3.items ≡ self.old.to3.items ++ sent_for 3 core.old.outbox }
        ensures some { result ≡ has_one core.old.outbox }
        ensures outbox { core.new.outbox ≡ [] }
        ensures state { core.new.state ≡ core.old.state }
        ensures home { core.new.home ≡ core.old.home }
    {
        let mut some = false;
        'sent: while let Some(sent) = core.take_sent() {
            some = true;
            put(&mut self.to0, 0, sent);
            put(&mut self.to1, 1, sent);
            put(&mut self.to2, 2, sent);
            put(&mut self.to3, 3, sent);
        }
        some
    }

    /// The batches of a core's window, by the number of the receiver. They go into a vector that has room for four, and what they leave
    /// is replaced by other memory.
    pub fn filed<U: RunName>(
        &mut self,
        from: u8,
        window: u32,
        batches: Vec<Batch<U>>,
        other: Outgoing,
    ) -> List<Batch<U>>
        requires from { from < 4 }
        requires to0 { self.old.to0.items ≡ batch U.listing U.stimulus U.ticks from 0 window }
        requires to1 { self.old.to1.items ≡ batch U.listing U.stimulus U.ticks from 1 window }
        requires to2 { self.old.to2.items ≡ batch U.listing U.stimulus U.ticks from 2 window }
        requires to3 { self.old.to3.items ≡ batch U.listing U.stimulus U.ticks from 3 window }
        requires empty { batches.items ≡ [] }
        requires room { 4 ≤ vec_capacity batches }
        ensures { result ≡ batches_from U.listing U.stimulus U.ticks from window }
    {
        let mut batches = batches;
        file::<U>(&mut batches, from, 0, window, &mut self.to0, other.to0);
        file::<U>(&mut batches, from, 1, window, &mut self.to1, other.to1);
        file::<U>(&mut batches, from, 2, window, &mut self.to2, other.to2);
        file::<U>(&mut batches, from, 3, window, &mut self.to3, other.to3);
        List::from_vec(batches)
    }
}

/// Forgets what is there, and makes room for what a core sends in a window. The one error is want of memory.
fn make_room(items: &mut Vec<Item>) -> Result<(), Memory>
    ensures { OnOk result (IsRoom items.new) }
{
    items.clear();
    items.reserve(MOST)?;
    Ok(())
}

/// Room for the batches of a window. The one error is want of memory.
pub fn no_batches<U: RunName>(alloc: Global) -> Result<Vec<Batch<U>>, Memory>
    ensures items { IfOk result (λ batches. batches.items ≡ []) }
    ensures room { IfOk result (λ batches. 4 ≤ vec_capacity batches) }
{
    let batches = Vec::with_capacity(alloc, CORES)?;
    Ok(batches)
}

/// Adds what was sent, where it is for that core.
fn put(items: &mut Vec<Item>, to: u8, sent: Sent)
    requires { vec_len items.old < vec_capacity items.old }
    ensures items { items.new.items ≡ items.old.items ++ sent_for to (sent ∷ []) }
    ensures len { vec_len items.new ≤ vec_len items.old + 1 }
    ensures capacity { vec_capacity items.old ≤ vec_capacity items.new }
{
    if sent.to == to {
        let item = Item {
            tick: sent.tick,
            moved: sent.moved,
        };
        items.push(item).unwrap();
    }
}

/// Adds a batch of what was sent, unless the core is both sender and receiver. In the place of what it takes stands other memory.
fn file<U: RunName>(
    batches: &mut Vec<Batch<U>>,
    from: u8,
    to: u8,
    window: u32,
    items: &mut Vec<Item>,
    other: Vec<Item>,
)
    requires from { from < 4 }
    requires to { to < 4 }
    requires sent { items.old.items ≡ batch U.listing U.stimulus U.ticks from to window }
    requires room { vec_len batches.old < vec_capacity batches.old }
    ensures items { batches.new.items ≡ batches.old.items
        ++ unless (record { from = from; to = to; window = window; items = items.old.items })
        (nat_eq from to) }
    ensures len { vec_len batches.new ≤ vec_len batches.old + 1 }
    ensures capacity { vec_capacity batches.old ≤ vec_capacity batches.new }
{
    if from != to {
        let sent = mem::replace(items, other);
        let batch = batch_of::<U>(from, to, window, sent);
        batches.push(batch).unwrap();
    }
}

/// A batch of the run, by what the run has there.
fn batch_of<U: RunName>(from: u8, to: u8, window: u32, items: Vec<Item>) -> Batch<U>
    requires { IsSent U.listing U.stimulus U.ticks
        (record { from = from; to = to; window = window; items = items.items }) }
    ensures { result ≡ record { from = from; to = to; window = window; items = items.items } }
{
    Batch {
        from,
        to,
        window,
        items: List::from_vec(items),
        of: PhantomData,
    }
}
