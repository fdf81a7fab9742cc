ghost use Rattle.std.specs.Prelude.{◌≡◌, None, OnOk};
ghost use Rattle.xc_tree.specs.Pieces.{defined};

use std::alloc::Global;
use std::collections::BTreeMap;
use xc_tree::Number;
use xw_words::Memory;

/// The numbers of the names that are defined so far. The names are bytes of the text itself.
#[derive(Drop)]
pub struct Names<'a> {
    numbers: BTreeMap<&'a [u8], Number>,
}

impl<'a> Names<'a> {
    ghost use Rattle.xc_lexer.specs.Names.{numbers_of};

    /// No names.
    pub fn new(alloc: Global) -> Names<'a>
        ensures { numbers_of result ≡ (λ name. None) }
    {
        Names {
            numbers: BTreeMap::new(alloc),
        }
    }

    /// The number of a name, if it is defined.
    pub fn number(&self, name: &'a [u8]) -> Option<Number>
        ensures { result ≡ numbers_of self.now name.now }
    {
        self.numbers.get(&name).copied()
    }

    /// Defines a name.
    pub fn define(&mut self, name: &'a [u8], number: Number) -> Result<(), Memory>
        ensures ok { OnOk result
            (numbers_of self.new ≡ defined (numbers_of self.old) name.now number) }
    {
        match self.numbers.insert(name, number) {
            Ok(_) => Ok(()),
            Err(_) => Err(Memory),
        }
    }
}
