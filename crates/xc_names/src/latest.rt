ghost use Rattle.std.specs.Prelude.{◌≡◌, ℕ, List, None, Some, OnOk};
ghost use Rattle.xc_names.specs.Latest.{OthersStay, latest_of};

use indexmap::IndexMap;
use std::alloc::Global;
use xw_words::Memory;

/// For spellings of names the place of the declaration that was seen last. The spellings are those of the marks themselves.
#[derive(Drop)]
pub struct Latest<'a> {
    places: IndexMap<&'a [u8], usize>,
}

impl<'a> Latest<'a> {
    /// With no place for any.
    pub fn new(alloc: Global) -> Latest<'a>
        ensures { (t : List ℕ) → latest_of result t ≡ None }
    {
        Latest {
            places: IndexMap::new(alloc),
        }
    }

    /// The place for a spelling, if there is one.
    pub fn get(&self, name: &'a [u8]) -> Option<usize>
        ensures { result ≡ latest_of self.now name.now }
    {
        self.places.get(name).copied()
    }

    /// Keeps this place for a spelling.
    pub fn keep(&mut self, name: &'a [u8], place: usize) -> Result<(), Memory>
        ensures here { OnOk result (latest_of self.new name.now ≡ Some place) }
        ensures others { OnOk result (OthersStay self.old self.new name.now) }
    {
        match self.places.insert(name, place) {
            Ok(_) => Ok(()),
            Err(_) => Err(Memory),
        }
    }
}
