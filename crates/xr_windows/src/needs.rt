// What a window of a core needs.

ghost use Rattle.std.specs.Prelude.{◌≡◌, ◌<◌, ◌∷◌, [], ℕ, IfOk, None};
ghost use Rattle.xr_windows.specs.Sending.{AreNeeded, batches_to, latest};

use crate::batch::Batch;
use crate::run_name::RunName;
use std::alloc::Global;
use xw_words::{List, Memory};

/// The batches that a window of a core needs, by the number of the sender: those of the window before from the three other cores. The
/// first window needs none.
#[derive(Drop)]
pub struct Needs<U: RunName> {
    pub from0: Option<Batch<U>>,
    pub from1: Option<Batch<U>>,
    pub from2: Option<Batch<U>>,
    pub from3: Option<Batch<U>>,
}

impl<U: RunName> Needs<U> {
    /// No batch.
    pub fn nothing() -> Needs<U>
        ensures from0 { result.from0 ≡ None }
        ensures from1 { result.from1 ≡ None }
        ensures from2 { result.from2 ≡ None }
        ensures from3 { result.from3 ≡ None }
    {
        Needs {
            from0: None,
            from1: None,
            from2: None,
            from3: None,
        }
    }

    /// The batches of a list that has those that a window needs. It takes no memory.
    pub fn of(batches: List<Batch<U>>) -> Needs<U>
        ensures { (i k : ℕ) → i < 4 → batches ≡ batches_to U.listing U.stimulus U.ticks i k →
            AreNeeded U.listing U.stimulus U.ticks i k result.from0 result.from1 result.from2
            result.from3 }
    {
        let mut needs = Needs::nothing();
        let mut rest = batches.into_vec();
        'batches: while !rest.is_empty() {
            let batch = rest.remove(0);
            batch.is_sent();
            needs.put(batch);
        }
        needs
    }

    /// The same of copies. The one error is want of memory.
    pub fn copies(alloc: Global, batches: &[Batch<U>]) -> Result<Needs<U>, Memory>
        ensures { IfOk result (λ needs. (i k : ℕ) → i < 4 →
            batches.now ≡ batches_to U.listing U.stimulus U.ticks i k →
            AreNeeded U.listing U.stimulus U.ticks i k needs.from0 needs.from1 needs.from2
            needs.from3) }
    {
        let mut copies = List::new(alloc);
        for batch in batches {
            copies.push(batch.copy(alloc)?)?;
        }
        Ok(Needs::of(copies))
    }

    // Puts a batch into the place of its sender.
    fn put(&mut self, batch: Batch<U>)
        requires { batch.from < 4 }
        ensures from0 { self.new.from0 ≡ latest 0 self.old.from0 (batch ∷ []) }
        ensures from1 { self.new.from1 ≡ latest 1 self.old.from1 (batch ∷ []) }
        ensures from2 { self.new.from2 ≡ latest 2 self.old.from2 (batch ∷ []) }
        ensures from3 { self.new.from3 ≡ latest 3 self.old.from3 (batch ∷ []) }
    {
        match batch.from {
            0 => self.from0 = Some(batch),
            1 => self.from1 = Some(batch),
            2 => self.from2 = Some(batch),
            _ => self.from3 = Some(batch),
        }
    }
}
