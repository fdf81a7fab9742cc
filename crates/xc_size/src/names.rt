ghost use Rattle.std.specs.Prelude.{◌≡◌, ℕ, List, None, Some, OnOk};
ghost use Rattle.xc_size.specs.Numbers.{OthersStay, number_of};

use indexmap::IndexMap;
use std::alloc::Global;
use xw_words::Memory;

/// The numbers of functions by their names, which are those of the program itself.
#[derive(Drop)]
pub struct Names<'a> {
    numbers: IndexMap<&'a [u8], usize>,
}

impl<'a> Names<'a> {
    /// With no name.
    pub fn new(alloc: Global) -> Names<'a>
        ensures { (t : List ℕ) → number_of result t ≡ None }
    {
        Names {
            numbers: IndexMap::new(alloc),
        }
    }

    /// The number of the function with a name, if there is one.
    pub fn number(&self, name: &'a [u8]) -> Option<usize>
        ensures { result ≡ number_of self.now name.now }
    {
        self.numbers.get(name).copied()
    }

    /// Gives a name this number.
    pub fn keep(&mut self, name: &'a [u8], number: usize) -> Result<(), Memory>
        ensures here { OnOk result (number_of self.new name.now ≡ Some number) }
        ensures others { OnOk result (OthersStay self.old self.new name.now) }
    {
        match self.numbers.insert(name, number) {
            Ok(_) => Ok(()),
            Err(_) => Err(Memory),
        }
    }
}
