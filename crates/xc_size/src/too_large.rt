ghost use Rattle.std.specs.Prelude.{◌≡◌, ◌<◌, List, true, false, IfNone, IfOk, IfSome};
ghost use Rattle.xc_size.specs.Known.{AreOfFunctions, AreSizesFrom, IsSizeOfBody, listed};
ghost use Rattle.xc_size.specs.Limits.{IsAbove, rule_509};
ghost use Rattle.xc_kernel.specs.Programs.{functions};
ghost use Rattle.xc_kernel.specs.Size.{Breaks509, IsTooLarge};
ghost use Rattle.xc_tree.specs.Plain.{Item};
ghost use Rattle.xc_tree.specs.Trees.{program_of, statement_of};

use crate::filling::whole_size;
use crate::functions::functions_of;
use crate::order::order_of;
use crate::size::Size;
use crate::sizes::Sizes;
use std::alloc::Global;
use xc_tree::{FuncItem, Tree};
use xw_words::{Broken, Memory, Pos};

/// Rule 509 at main's name, where the program with all its copies has more than 100,000 statements, more than 1,000,000
/// nodes of expressions or a depth above 1,000; else nothing. Nothing is copied to see it. The stack that it needs grows
/// with the depth of the tree. The one error is want of memory.
pub fn broken_size(alloc: Global, tree: &Tree) -> Result<Option<Broken>, Memory>
    ensures broken { IfOk result (λ best. IfSome best (λ b. Breaks509 (program_of tree.now) b)) }
    ensures small { IfOk result (λ best. IfNone best (IsTooLarge (program_of tree.now) → ⊥)) }
{
    let mut sizes = Sizes::new(alloc, functions_of(alloc, tree)?)?;
    let broken = broken_among(alloc, &mut sizes);
    drop(sizes);
    broken
}

/// The same of a program of which these are the functions.
fn broken_among<'a>(alloc: Global, sizes: &mut Sizes<'a>) -> Result<Option<Broken>, Memory>
    requires functions { AreOfFunctions sizes.old }
    requires none { AreSizesFrom sizes.old 0 }
    ensures broken { (program : List Item) → listed sizes.old ≡ functions program
        → IfOk result (λ best. IfSome best (λ b. Breaks509 program b)) }
    ensures small { (program : List Item) → listed sizes.old ≡ functions program
        → IfOk result (λ best. IfNone best (IsTooLarge program → ⊥)) }
{
    let Some(main) = sizes.main_function() else {
        return Ok(None);
    };
    let size = size_of_main(alloc, sizes, main)?;
    Ok(broken_by(size, main.name.pos))
}

/// The size of a program of which these are the functions and this is main.
fn size_of_main<'a>(
    alloc: Global,
    sizes: &mut Sizes<'a>,
    main: &'a FuncItem,
) -> Result<Size, Memory>
    requires functions { AreOfFunctions sizes.old }
    requires none { AreSizesFrom sizes.old 0 }
    ensures { IfOk result
        (λ size. IsSizeOfBody (listed sizes.old) (statement_of main.now.body) size) }
{
    let order = order_of(alloc, sizes)?;
    let size = whole_size(alloc, sizes, order.as_slice(), &main.body);
    drop(order);
    size
}

/// Rule 509 at a place, where a size is above the limits.
fn broken_by(size: Size, pos: Pos) -> Option<Broken>
    ensures broken { IfSome result (λ b. IsAbove size × (b ≡ rule_509 pos)) }
    ensures small { IfNone result (IsAbove size → ⊥) }
{
    if is_above(size) {
        Some(Broken { rule: 509, pos })
    } else {
        None
    }
}

/// Whether a size is above one of the limits: 100,000 statements, 1,000,000 nodes, a depth of 1,000.
fn is_above(size: Size) -> bool
    ensures yes { result ≡ true → IsAbove size }
    ensures no { result ≡ false → IsAbove size → ⊥ }
{
    size.statements > 100_000 || size.nodes > 1_000_000 || size.depth > 1_000
}
