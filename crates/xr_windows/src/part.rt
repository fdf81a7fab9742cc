// One core of a run, window by window.

ghost use Rattle.std.specs.Prelude.{◌≡◌, ◌<◌, ◌≤◌, ◌+◌, [], IfOk, OnOk, OnErr, nat_eq, vec_len, vec_capacity};
ghost use Rattle.xr_windows.specs.Parts.{IsPartOf, IsStart, state_of};
ghost use Rattle.xr_windows.specs.Pending.{has_item, pending};
ghost use Rattle.xr_windows.specs.Sending.{AreNeeded, batches_from, batches_to};
ghost use Rattle.xr_windows.specs.Windows.{ticks_in, windows_of};
ghost use Rattle.xs_instr.specs.Sight.{sight};
ghost use Rattle.xs_instr.specs.declared.image.Image.{Image};
ghost use Rattle.xs_instr.specs.declared.image.Stim.{Stim};

use crate::batch::Batch;
use crate::coming::Coming;
use crate::needs::Needs;
use crate::outgoing::{Outgoing, no_batches};
use crate::rounds::run_ticks;
use crate::run_name::RunName;
use crate::stamped::Stamped;
use std::alloc::Global;
use std::marker::Model;
use xs_core::Core;
use xs_instr::{Item, Sight};
use xw_words::{List, Memory};

/// How many records a core makes in a window at most: in each of eight ticks one a thread.
const MOST_RECORDS: usize = 64;

/// How many ticks a window has, but for the last one of a run.
const WINDOW: u32 = 8;

/// A core of a run after some of its windows, with its records so far. Contracts see it as what no event changes of the
/// core, how it stands between two windows, how many windows it has run, and for how many ticks the run goes.
#[derive(Drop)]
pub struct Part {
    core: Core,
    coming: Coming,
    outgoing: Outgoing,
    records: Vec<Stamped>,
    has_sent: bool,
    ran: u32,
    ticks: u32,
}

impl Model for Part {
    ghost use Rattle.xr_windows.specs.Parts.{Standing, IsDrained, standing_of};

    ghost Value = { Standing };

    ghost view = { standing_of };

    ghost invariant = { IsDrained };
}

impl Part {
    /// A core of a run before its first window, for 1 to 200,000 ticks. It takes no memory.
    pub fn new(alloc: Global, core: Core, ticks: u32) -> Part
        requires fresh { core.outbox ≡ [] }
        requires ticks { (1 ≤ ticks) × (ticks ≤ 200000) }
        ensures part { (L : Image) (s : Stim) → IsStart L s core → IsPartOf L s ticks result }
        ensures home { result.home ≡ core.home }
        ensures ran { result.ran ≡ 0 }
    {
        Part {
            core,
            coming: Coming::nothing(alloc),
            outgoing: Outgoing::nothing(alloc),
            records: Vec::new(alloc),
            has_sent: false,
            ran: 0,
            ticks,
        }
    }

    /// Runs the next window, where one is left. It needs the run's batches of the window before, from the three other cores
    /// by number, and none for window 0, and answers those of this window, by number. Its memory it takes first, and where
    /// that lacks nothing changes.
    pub fn run_window<U: RunName>(
        &mut self,
        alloc: Global,
        got: &List<Batch<U>>,
    ) -> Result<List<Batch<U>>, Memory>
        requires part { IsPartOf U.listing U.stimulus U.ticks self.old }
        requires left { self.old.ran < windows_of U.ticks }
        requires got { got.now
            ≡ batches_to U.listing U.stimulus U.ticks self.old.home.number self.old.ran }
        ensures part { OnOk result (IsPartOf U.listing U.stimulus U.ticks self.new) }
        ensures ran { OnOk result (self.new.ran ≡ self.old.ran + 1) }
        ensures sent { IfOk result (λ out. out
            ≡ batches_from U.listing U.stimulus U.ticks self.old.home.number self.old.ran) }
        ensures home { self.new.home ≡ self.old.home }
        ensures refused { OnErr result (self.new ≡ self.old) }
    {
        let mut needs = Needs::copies(alloc, got.as_slice())?;
        self.run_with::<U>(alloc, &mut needs)
    }

    /// The same, where the batches stand by the number of the sender. They are taken, and their memory serves for what is sent
    /// later. Where memory lacks they stay.
    pub fn run_with<U: RunName>(
        &mut self,
        alloc: Global,
        got: &mut Needs<U>,
    ) -> Result<List<Batch<U>>, Memory>
        requires part { IsPartOf U.listing U.stimulus U.ticks self.old }
        requires left { self.old.ran < windows_of U.ticks }
        requires got { AreNeeded U.listing U.stimulus U.ticks self.old.home.number self.old.ran
            got.old.from0 got.old.from1 got.old.from2 got.old.from3 }
        ensures part { OnOk result (IsPartOf U.listing U.stimulus U.ticks self.new) }
        ensures ran { OnOk result (self.new.ran ≡ self.old.ran + 1) }
        ensures sent { IfOk result (λ out. out
            ≡ batches_from U.listing U.stimulus U.ticks self.old.home.number self.old.ran) }
        ensures home { self.new.home ≡ self.old.home }
        ensures refused { OnErr result (self.new ≡ self.old) }
        ensures kept { OnErr result (got.new ≡ got.old) }
    {
        self.coming.make_room::<U>(got)?;
        self.outgoing.make_room()?;
        let batches = no_batches::<U>(alloc)?;
        self.records.reserve(MOST_RECORDS)?;
        self.core.reserve_window()?;
        let free = self.coming.take_in::<U>(alloc, got);
        let window = self.ran;
        let ticks = length_of(window, self.ticks);
        run_ticks(&mut self.core, &mut self.coming, &mut self.records, ticks);
        self.has_sent = self.outgoing.take_all(&mut self.core);
        self.ran = window + 1;
        let number = self.core.number();
        Ok(self.outgoing.filed::<U>(number, window, batches, free))
    }

    /// The records so far, in order, each with its tick.
    pub fn records(&self) -> &[Stamped]
        ensures { result.now ≡ self.now.records }
    {
        self.records.as_slice()
    }

    /// The core's number.
    pub fn number(&self) -> u8
        ensures { result ≡ self.now.home.number }
    {
        self.core.number()
    }

    /// For how many ticks the run goes.
    pub fn ticks(&self) -> u32
        ensures { result ≡ self.now.ticks }
    {
        self.ticks
    }

    /// How many windows it has run.
    pub fn ran(&self) -> u32
        ensures { result ≡ self.now.ran }
    {
        self.ran
    }

    /// Whether it has run its last window.
    pub fn is_done(&self) -> bool
        requires { self.now.ticks ≤ 200000 }
        ensures { result ≡ nat_eq self.now.ran (windows_of self.now.ticks) }
    {
        self.ran == (self.ticks + WINDOW - 1) / WINDOW
    }

    /// How many of the core's roots have not ended, and how many of its threads are so.
    pub fn sight(&self) -> Sight
        ensures { result ≡ sight self.now.home self.now.core }
    {
        self.core.sight()
    }

    /// Whether an item that was sent to the core isn't delivered yet, or the window that it ran last sent one.
    pub fn pending(&self) -> bool
        ensures { result ≡ pending (state_of self.now) }
    {
        let coming = &self.coming;
        has_some(&coming.from0)
            || has_some(&coming.from1)
            || has_some(&coming.from2)
            || has_some(&coming.from3)
            || self.has_sent
    }
}

/// How many ticks window k has.
fn length_of(window: u32, ticks: u32) -> u32
    requires { (window < windows_of ticks) × (ticks ≤ 200000) }
    ensures { result ≡ ticks_in ticks window }
{
    let end = WINDOW * (window + 1);
    let end = if end < ticks { end } else { ticks };
    end - WINDOW * window
}

fn has_some(items: &Vec<Item>) -> bool
    ensures { result ≡ has_item items.now.items }
{
    !items.is_empty()
}
