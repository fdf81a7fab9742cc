ghost use Rattle.std.specs.Prelude.{◌≡◌, ℕ, List, true, false, not, IfOk, OnOk};
ghost use Rattle.xc_names.specs.Taken.{OthersStay, is_taken};

use indexmap::IndexSet;
use std::alloc::Global;
use xw_words::Memory;

/// The identifiers of ports that are taken, each on a core.
#[derive(Drop)]
pub struct Taken<'a> {
    keys: IndexSet<(&'a [u8], u32)>,
}

impl<'a> Taken<'a> {
    /// With none taken.
    pub fn new(alloc: Global) -> Taken<'a>
        ensures { (t : List ℕ) (core : ℕ) → is_taken result t core ≡ false }
    {
        Taken {
            keys: IndexSet::new(alloc),
        }
    }

    /// Takes an identifier on a core, and says whether it was free.
    pub fn take(&mut self, identifier: &'a [u8], core: u32) -> Result<bool, Memory>
        ensures free { IfOk result (λ free. free ≡ not (is_taken self.old identifier.now core)) }
        ensures here { OnOk result (is_taken self.new identifier.now core ≡ true) }
        ensures others { OnOk result (OthersStay self.old self.new identifier.now core) }
    {
        match self.keys.insert_full((identifier, core)) {
            Ok((_, is_new)) => Ok(is_new),
            Err(_) => Err(Memory),
        }
    }
}
