// What a core sends to another in one window of a run.

ghost use Rattle.std.specs.Prelude.{◌≡◌, IfOk};

use crate::run_name::RunName;
use std::alloc::Global;
use std::marker::{Model, PhantomData};
use xs_instr::Item;
use xw_words::{List, Memory};

/// What a core sends to another in one window of the run that U names, in order. Contracts see it as its numbers and its
/// items, and know that these are what the run has there.
#[derive(Drop)]
pub struct Batch<U: RunName> {
    pub from: u8,
    pub to: u8,
    pub window: u32,
    pub items: List<Item>,
    pub of: PhantomData<U>,
}

impl<U: RunName> Model for Batch<U> {
    ghost use Rattle.xr_windows.specs.Sending.{Sending, IsSent};

    ghost Value = { Sending };

    ghost view = { λ b. record { from = b.from; to = b.to; window = b.window; items = b.items } };

    ghost invariant = { λ b. IsSent U.listing U.stimulus U.ticks
        (record { from = b.from; to = b.to; window = b.window; items = b.items }) };
}

impl<U: RunName> Batch<U> {
    ghost use Rattle.xr_windows.specs.Sending.{IsSent};

    /// What the type keeps.
    pub fn is_sent(&self)
        ensures { IsSent U.listing U.stimulus U.ticks self.now }
    {
        let _ = &self.items;
    }

    /// What was sent.
    pub fn into_items(self) -> List<Item>
        ensures { result ≡ self.items }
    {
        let Batch {
            from: _,
            to: _,
            window: _,
            items,
            of: _,
        } = self;
        items
    }

    /// An equal batch, in memory of its own. The one error is want of memory.
    pub fn copy(&self, alloc: Global) -> Result<Batch<U>, Memory>
        ensures { IfOk result (λ copy. copy ≡ self.now) }
    {
        let items = self.items.copy(alloc)?;
        Ok(Batch {
            from: self.from,
            to: self.to,
            window: self.window,
            items,
            of: PhantomData,
        })
    }
}
