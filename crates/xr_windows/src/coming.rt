// What is on its way to a core.

ghost use Rattle.std.specs.Prelude.{◌≡◌, ◌<◌, ◌≤◌, ◌+◌, ◌++◌, [], ℕ, OnOk, drop, length, vec_len, vec_capacity};
ghost use Rattle.xr_windows.specs.Alone.{due_in};
ghost use Rattle.xr_windows.specs.Coming.{HasRoomFor, coming_of};
ghost use Rattle.xr_windows.specs.Sending.{items_in};
ghost use Rattle.xs_fabric.specs.Lockstep.{all_came, due_of, late_of};
ghost use Rattle.xs_fabric.specs.Rooms.{AllHaveRoom};

use crate::batch::Batch;
use crate::needs::Needs;
use crate::outgoing::Outgoing;
use crate::run_name::RunName;
use std::alloc::Global;
use std::mem;
use xs_core::Core;
use xs_instr::Item;
use xw_words::Memory;

/// How many ticks an item is on its way.
const TICKS: u64 = 8;

/// What is on its way to a core, by the number of the sender, first sent first.
#[derive(Drop)]
pub struct Coming {
    pub from0: Vec<Item>,
    pub from1: Vec<Item>,
    pub from2: Vec<Item>,
    pub from3: Vec<Item>,
}

impl Coming {
    /// Nothing. It takes no memory.
    pub fn nothing(alloc: Global) -> Coming
        ensures from0 { result.from0.items ≡ [] }
        ensures from1 { result.from1.items ≡ [] }
        ensures from2 { result.from2.items ≡ [] }
        ensures from3 { result.from3.items ≡ [] }
    {
        Coming {
            from0: Vec::new(alloc),
            from1: Vec::new(alloc),
            from2: Vec::new(alloc),
            from3: Vec::new(alloc),
        }
    }

    /// Makes room for what these batches bring. The one error is want of memory; nothing changes either way.
    pub fn make_room<U: RunName>(&mut self, got: &Needs<U>) -> Result<(), Memory>
        ensures from0 { self.new.from0.items ≡ self.old.from0.items }
        ensures from1 { self.new.from1.items ≡ self.old.from1.items }
        ensures from2 { self.new.from2.items ≡ self.old.from2.items }
        ensures from3 { self.new.from3.items ≡ self.old.from3.items }
        ensures room0 { OnOk result (HasRoomFor self.new.from0 got.now.from0) }
        ensures room1 { OnOk result (HasRoomFor self.new.from1 got.now.from1) }
        ensures room2 { OnOk result (HasRoomFor self.new.from2 got.now.from2) }
        ensures room3 { OnOk result (HasRoomFor self.new.from3 got.now.from3) }
    {
        make_room::<U>(&mut self.from0, &got.from0)?;
        make_room::<U>(&mut self.from1, &got.from1)?;
        make_room::<U>(&mut self.from2, &got.from2)?;
        make_room::<U>(&mut self.from3, &got.from3)?;
        Ok(())
    }

    /// Takes what these batches bring, for which there is room, behind what waits, and answers memory that is free now.
    pub fn take_in<U: RunName>(&mut self, alloc: Global, got: &mut Needs<U>) -> Outgoing
        requires room0 { HasRoomFor self.old.from0 got.old.from0 }
        requires room1 { HasRoomFor self.old.from1 got.old.from1 }
        requires room2 { HasRoomFor self.old.from2 got.old.from2 }
        requires room3 { HasRoomFor self.old.from3 got.old.from3 }
        ensures from0 { self.new.from0.items ≡ self.old.from0.items ++ items_in got.old.from0 }
        ensures from1 { self.new.from1.items ≡ self.old.from1.items ++ items_in got.old.from1 }
        ensures from2 { self.new.from2.items ≡ self.old.from2.items ++ items_in got.old.from2 }
        ensures from3 { self.new.from3.items ≡ self.old.from3.items ++ items_in got.old.from3 }
    {
        let to0 = bring::<U>(alloc, &mut self.from0, &mut got.from0);
        let to1 = bring::<U>(alloc, &mut self.from1, &mut got.from1);
        let to2 = bring::<U>(alloc, &mut self.from2, &mut got.from2);
        let to3 = bring::<U>(alloc, &mut self.from3, &mut got.from3);
        Outgoing { to0, to1, to2, to3 }
    }

    /// What is due at that tick of the core's clock comes to it, by the number of the sender and then as it was sent.
    pub fn deliver(&mut self, core: &mut Core, clock: u32)
        requires { AllHaveRoom core.old.home core.old.state
            (due_in (coming_of self.old) clock 4) }
        ensures core { core.new ≡ record core.old {
          state = all_came core.old.state (due_in (coming_of self.old) clock 4);
        } }
        ensures from0 { self.new.from0.items ≡ late_of clock self.old.from0.items }
        ensures from1 { self.new.from1.items ≡ late_of clock self.old.from1.items }
        ensures from2 { self.new.from2.items ≡ late_of clock self.old.from2.items }
        ensures from3 { self.new.from3.items ≡ late_of clock self.old.from3.items }
    {
        deliver_due(core, &mut self.from0, clock);
        deliver_due(core, &mut self.from1, clock);
        deliver_due(core, &mut self.from2, clock);
        deliver_due(core, &mut self.from3, clock);
    }
}

/// Makes room for what a batch brings. The one error is want of memory.
fn make_room<U: RunName>(waiting: &mut Vec<Item>, came: &Option<Batch<U>>) -> Result<(), Memory>
    ensures items { waiting.new.items ≡ waiting.old.items }
    ensures room { OnOk result (HasRoomFor waiting.new came.now) }
{
    if let Some(batch) = came {
        waiting.reserve(batch.items.len())?;
    }
    Ok(())
}

/// Takes what a batch brings behind what waits, and answers memory that is free now. Mostly nothing waits, and then nothing is copied.
fn bring<U: RunName>(
    alloc: Global,
    waiting: &mut Vec<Item>,
    came: &mut Option<Batch<U>>,
) -> Vec<Item>
    requires { HasRoomFor waiting.old came.old }
    ensures { waiting.new.items ≡ waiting.old.items ++ items_in came.old }
{
    let Some(batch) = came.take() else {
        return Vec::new(alloc);
    };
    let mut items = batch.into_items().into_vec();
    if waiting.is_empty() {
        mem::swap(waiting, &mut items);
        return items;
    }
    waiting.append(&mut items).unwrap();
    items
}

/// The first items come to the core, as far as they are due.
fn deliver_due(core: &mut Core, items: &mut Vec<Item>, clock: u32)
    requires { AllHaveRoom core.old.home core.old.state (due_of clock items.old.items) }
    ensures core { core.new ≡ record core.old {
      state = all_came core.old.state (due_of clock items.old.items);
    } }
    ensures items { items.new.items ≡ late_of clock items.old.items }
{
    let due = deliver_first(core, items.as_slice(), clock);
    if due > 0 {
        forget_first(items, due);
    }
}

/// The first items come to the core, as far as they are due. How many these are.
#[tactic(auto, using(crate::proofs::FirstDue::dues))]
fn deliver_first(core: &mut Core, items: &[Item], clock: u32) -> usize
    requires { AllHaveRoom core.old.home core.old.state (due_of clock items.now) }
    ensures core { core.new ≡ record core.old {
      state = all_came core.old.state (due_of clock items.now);
    } }
    ensures within { result ≤ length items.now }
    ensures rest { drop result items.now ≡ late_of clock items.now }
{
    let mut at = 0;
    'items: while at < items.len() {
        if items[at].tick as u64 + TICKS > clock as u64 {
            break;
        }
        core.deliver(items[at].moved);
        at += 1;
    }
    at
}

/// Forgets so many items.
#[tactic(auto, using(crate::proofs::FirstDue::forgets))]
fn forget_first(items: &mut Vec<Item>, count: usize)
    requires { count ≤ vec_len items.old }
    ensures { items.new.items ≡ drop count items.old.items }
{
    let left = items.len() - count;
    items.copy_within(count.., 0);
    items.truncate(left);
}
