ghost use Rattle.std.specs.Prelude.{◌≡◌, IfOk};
ghost use Rattle.xc_size.specs.Functions.{AreNumbers, functions_at};
ghost use Rattle.xc_size.specs.Numbers.{number_of};
ghost use Rattle.xc_kernel.specs.Programs.{functions};
ghost use Rattle.xc_tree.specs.Trees.{program_of};

use crate::names::Names;
use std::alloc::Global;
use xc_tree::{FuncItem, Item, Tree};
use xw_words::{List, Memory};

/// The functions of a program, in the order of the text.
#[tactic(auto, using(crate::proofs::Listed::listed))]
pub fn functions_of<'a>(alloc: Global, tree: &'a Tree) -> Result<List<&'a FuncItem>, Memory>
    ensures { IfOk result (λ all. functions_at all ≡ functions (program_of tree.now)) }
{
    let mut all = List::new(alloc);
    for item in tree.items.as_slice() {
        match item {
            Item::Port(_) => {}
            Item::Func(function) => all.push(function)?,
        }
    }
    Ok(all)
}

/// The numbers of functions by their names: of those with one name the first.
pub fn numbers_of<'a>(alloc: Global, all: &[&'a FuncItem]) -> Result<Names<'a>, Memory>
    ensures { IfOk result (λ names. AreNumbers (number_of names) (functions_at all.now)) }
{
    let mut names = Names::new(alloc);
    let mut number = all.len();
    'back: while number > 0 {
        number -= 1;
        names.keep(all[number].name.text.as_slice(), number)?;
    }
    Ok(names)
}
