ghost use Rattle.std.specs.Prelude.{◌≡◌, length, true, IfOk, OnOk};
ghost use Rattle.xc_size.specs.Known.{AreCalleesKnown, AreNextSizes, AreOfFunctions, AreRightDeeper, AreSizesAt, AreSizesFrom, IsSizeOfBody, listed};
ghost use Rattle.xc_tree.specs.Trees as tree;

use crate::callees::callees;
use crate::measure::{function, statement};
use crate::size::Size;
use crate::sizes::{Sizes, repeated};
use std::alloc::Global;
use xc_tree::Stmt;
use xw_words::{List, Memory};

/// The size of a statement with all that its calls add, by an order of the functions.
///
/// Where each function stands behind those that it calls, one pass finds all sizes. This is seen from what is known then, and
/// not proved of the order: were it otherwise, calls would be followed one step further in each of as many rounds as there
/// are functions.
pub fn whole_size<'a>(
    alloc: Global,
    sizes: &mut Sizes<'a>,
    order: &[usize],
    body: &'a Stmt,
) -> Result<Size, Memory>
    requires functions { AreOfFunctions sizes.old }
    requires none { AreSizesFrom sizes.old 0 }
    ensures { IfOk result
        (λ size. IsSizeOfBody (listed sizes.old) (tree.statement_of body.now) size) }
{
    add_in_order(alloc, sizes, order)?;
    if are_known(alloc, sizes, body)? {
        return Ok(statement(sizes, body));
    }
    add_by_rounds(alloc, sizes)?;
    Ok(statement(sizes, body))
}

/// Adds the sizes of functions in an order, as far as those of what they call are known.
fn add_in_order<'a>(alloc: Global, sizes: &mut Sizes<'a>, order: &[usize]) -> Result<(), Memory>
    requires functions { AreOfFunctions sizes.old }
    requires none { AreSizesFrom sizes.old 0 }
    ensures all { OnOk result (sizes.new.all ≡ sizes.old.all) }
    ensures functions { OnOk result (AreOfFunctions sizes.new) }
    ensures right { OnOk result (AreSizesFrom sizes.new (length sizes.old.all)) }
{
    for turn in 0..sizes.all.len() {
        add(alloc, sizes, order, turn)?;
    }
    Ok(())
}

/// Adds the size of the function at a place of the order, if there is one and the sizes of what it calls are known.
fn add<'a>(alloc: Global, sizes: &mut Sizes<'a>, order: &[usize], turn: usize) -> Result<(), Memory>
    requires functions { AreOfFunctions sizes.old }
    ensures all { OnOk result (sizes.new.all ≡ sizes.old.all) }
    ensures functions { OnOk result (AreOfFunctions sizes.new) }
    ensures right { OnOk result (AreRightDeeper sizes.old sizes.new) }
{
    if turn >= order.len() || order[turn] >= sizes.all.len() {
        return Ok(());
    }
    let number = order[turn];
    let f = sizes.all.as_slice()[number];
    if !are_known(alloc, sizes, &f.body)? {
        return Ok(());
    }
    let size = function(sizes, f);
    sizes.each.set(number, Some(size));
    Ok(())
}

/// Whether the sizes are known of all functions that a statement calls.
fn are_known<'a>(alloc: Global, sizes: &Sizes<'a>, body: &'a Stmt) -> Result<bool, Memory>
    ensures { IfOk result (λ known. known ≡ true → AreCalleesKnown sizes.now body.now) }
{
    let callees = callees(alloc, &sizes.names, body)?;
    Ok(sizes.knows(callees.as_slice()))
}

/// Finds all sizes in as many rounds as there are functions.
fn add_by_rounds<'a>(alloc: Global, sizes: &mut Sizes<'a>) -> Result<(), Memory>
    requires functions { AreOfFunctions sizes.old }
    ensures all { OnOk result (sizes.new.all ≡ sizes.old.all) }
    ensures functions { OnOk result (AreOfFunctions sizes.new) }
    ensures right { OnOk result (AreSizesAt sizes.new (length sizes.old.all)) }
{
    sizes.each = List::from_vec(repeated(alloc, Some(Size::none()), sizes.all.len())?);
    for _ in 0..sizes.all.len() {
        sizes.each = next_sizes(alloc, sizes)?;
    }
    Ok(())
}

/// The sizes of functions where calls are followed one step further.
fn next_sizes<'a>(alloc: Global, sizes: &Sizes<'a>) -> Result<List<Option<Size>>, Memory>
    ensures { IfOk result (λ each. AreNextSizes sizes.now each (length sizes.now.all)) }
{
    let mut each = List::new(alloc);
    for number in 0..sizes.all.len() {
        let size = function(sizes, sizes.all.as_slice()[number]);
        each.push(Some(size))?;
    }
    Ok(each)
}
