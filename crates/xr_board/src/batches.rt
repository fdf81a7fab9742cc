// What goes to each of four cores in a window.

ghost use Rattle.std.specs.Prelude.{◌≡◌, ◌<◌, ◌∷◌, [], OnOk};
ghost use Rattle.xr_board.specs.ForCores.{AreAdded};

use std::alloc::Global;
use xr_windows::{Batch, RunName};
use xw_words::{List, Memory};

/// The batches of a window, by number of the receiver and then of the sender.
#[derive(Drop)]
pub struct Batches<U: RunName> {
    pub to0: List<Batch<U>>,
    pub to1: List<Batch<U>>,
    pub to2: List<Batch<U>>,
    pub to3: List<Batch<U>>,
}

impl<U: RunName> Batches<U> {
    /// None. It takes no memory.
    pub fn new(alloc: Global) -> Batches<U>
        ensures to0 { result.to0 ≡ [] }
        ensures to1 { result.to1 ≡ [] }
        ensures to2 { result.to2 ≡ [] }
        ensures to3 { result.to3 ≡ [] }
    {
        Batches {
            to0: List::new(alloc),
            to1: List::new(alloc),
            to2: List::new(alloc),
            to3: List::new(alloc),
        }
    }

    /// Adds each batch for its core. The one error is want of memory.
    pub fn add_all(&mut self, out: List<Batch<U>>) -> Result<(), Memory>
        ensures { OnOk result (AreAdded out self.old.to0 self.old.to1 self.old.to2 self.old.to3
            self.new.to0 self.new.to1 self.new.to2 self.new.to3) }
    {
        let mut rest = out.into_vec();
        'batches: while !rest.is_empty() {
            let batch = rest.remove(0);
            batch.is_sent();
            self.add(batch)?;
        }
        Ok(())
    }

    // Adds a batch for its core.
    fn add(&mut self, batch: Batch<U>) -> Result<(), Memory>
        requires { batch.to < 4 }
        ensures { OnOk result (AreAdded (batch ∷ []) self.old.to0 self.old.to1 self.old.to2
            self.old.to3 self.new.to0 self.new.to1 self.new.to2 self.new.to3) }
    {
        match batch.to {
            0 => self.to0.push(batch)?,
            1 => self.to1.push(batch)?,
            2 => self.to2.push(batch)?,
            _ => self.to3.push(batch)?,
        }
        Ok(())
    }
}
