ghost use Rattle.std.specs.Prelude.{◌≡◌};
ghost use Rattle.xc_tree.specs.Trees.{item_of, program_of};
ghost use Rattle.xc_tree.specs.Least.{IsLeastOf};
ghost use Rattle.xc_names.specs.Mains.{IsMainless, is_main as is_main_of};

use xc_tree::{Item, Tree};
use xw_words::{Broken, Pos};

/// Rule 305, where there is no function `main` without parameters.
pub fn broken_main(tree: &Tree) -> Option<Broken>
    ensures { IsLeastOf (IsMainless (program_of tree.now)) result }
{
    for item in tree.items.as_slice() {
        if is_main(item) {
            return None;
        }
    }
    let pos = Pos { line: 1, col: 1 };
    Some(Broken { rule: 305, pos })
}

/// Whether an item is a function `main` without parameters.
fn is_main(item: &Item) -> bool
    ensures { result ≡ is_main_of (item_of item.now) }
{
    match item {
        Item::Port(_) => false,
        Item::Func(function) => {
            function.name.text.as_slice() == b"main".as_slice() && function.params.len() == 0
        }
    }
}
