ghost use Rattle.std.specs.Prelude.{◌≡◌, replicate, true, IfOk};
ghost use Rattle.xc_size.specs.Known.{AreKnown, AreOfFunctions, AreSizesFrom, IsKnown, main_in};
ghost use Rattle.xc_size.specs.Sizes.{size_called};

use crate::functions::numbers_of;
use crate::names::Names;
use crate::size::Size;
use std::alloc::Global;
use xc_tree::{FuncItem, Text};
use xw_words::{List, Memory};

/// The sizes of functions, as far as they are known.
#[derive(Drop)]
pub struct Sizes<'a> {
    /// The functions, in the order of the text.
    pub all: List<&'a FuncItem>,
    /// The functions' numbers.
    pub names: Names<'a>,
    /// By the functions' numbers the size that a call of it adds to the part in which it stands.
    pub each: List<Option<Size>>,
}

impl<'a> Sizes<'a> {
    /// Of these functions, with no size known.
    pub fn new(alloc: Global, all: List<&'a FuncItem>) -> Result<Sizes<'a>, Memory>
        ensures all { IfOk result (λ sizes. sizes.all ≡ all.entry) }
        ensures functions { IfOk result (λ sizes. AreOfFunctions sizes) }
        ensures none { IfOk result (λ sizes. AreSizesFrom sizes 0) }
    {
        let each = List::from_vec(repeated(alloc, None, all.len())?);
        let names = numbers_of(alloc, all.as_slice())?;
        Ok(Sizes { all, names, each })
    }

    /// The function `main`, if there is one.
    pub fn main_function(&self) -> Option<&'a FuncItem>
        ensures { result ≡ main_in self.now }
    {
        match self.names.number(b"main") {
            None => None,
            Some(number) => self.all.get(number).copied(),
        }
    }

    /// The size that a call adds of the function with a name: of nothing where it isn't known.
    pub fn called(&self, name: &'a Text) -> Size
        ensures { result ≡ size_called self.now name.now }
    {
        let Some(number) = self.names.number(name.as_slice()) else {
            return Size::none();
        };
        match self.each.get(number) {
            Some(Some(size)) => *size,
            _ => Size::none(),
        }
    }

    /// Whether the sizes of these functions are known.
    pub fn knows(&self, callees: &[Option<usize>]) -> bool
        ensures { result ≡ true → AreKnown self.now.each callees.now }
    {
        for callee in callees {
            if !self.knows_one(*callee) {
                return false;
            }
        }
        true
    }

    fn knows_one(&self, callee: Option<usize>) -> bool
        ensures { result ≡ true → IsKnown self.now.each callee }
    {
        let Some(number) = callee else {
            return true;
        };
        match self.each.get(number) {
            Some(Some(_)) => true,
            _ => false,
        }
    }
}

/// So many times one size, or none.
pub fn repeated(
    alloc: Global,
    size: Option<Size>,
    count: usize,
) -> Result<Vec<Option<Size>>, Memory>
    ensures { IfOk result (λ each. each.items ≡ replicate count size) }
{
    match vec![in alloc; size; count] {
        Ok(each) => Ok(each),
        Err(_) => Err(Memory),
    }
}
