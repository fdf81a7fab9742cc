// Where branches and ports are placed.
ghost use Rattle.std.specs.Prelude.{◌≡◌, ◌-◌, OnOk};
ghost use Rattle.xc_tree.specs.Shapes.Places.{is_made_of_these as made_of_these, operators, signs};
ghost use Rattle.xc_tree.specs.Trees as tree;
ghost use Rattle.xc_tree.specs.Types.Named.{named_of};
ghost use Rattle.xc_tree.specs.Types.Words.{is_among};
ghost use Rattle.xc_types.specs.Places.{all_indices, has_form_of_place};
ghost use Rattle.xc_types.specs.After as after;

use crate::checker::Checker;
use crate::enclosing::{Enclosing, directly_in_main};
use crate::entities::{is_index, what_of};
use crate::lvals::part;
use xc_tree::symbols::{MINUS, PLUS, STAR};
use xc_tree::{At, Ex, Expr, Named};
use xw_words::Memory;

/// Checks a place, if there is one: rule 508.
#[tactic(auto, using(crate::proofs::Placings::placings))]
pub fn place_if_any(found: &mut Checker, named: &Named, place: &Option<At>) -> Result<(), Memory>
    ensures { OnOk result (found.new ≡ after.place_if_any named.now place.now found.old) }
{
    match place {
        None => Ok(()),
        Some(place) => place_at(found, named, place),
    }
}

/// Checks the place of a branch, if it has one, by what stands around its `par`: rules 503 and 508.
#[tactic(auto, using(crate::proofs::Placings::placings))]
pub fn branch_place(
    found: &mut Checker,
    named: &Named,
    around: &Enclosing,
    place: &Option<At>,
) -> Result<(), Memory>
    ensures { OnOk result
        (found.new ≡ after.branch_place named.now around.now place.now found.old) }
{
    match place {
        None => Ok(()),
        Some(place) => {
            found.breaks_where(!directly_in_main(around), 503, place.on);
            place_at(found, named, place)
        }
    }
}

/// Checks a place: rule 508.
#[tactic(auto, using(crate::proofs::Placings::placings))]
fn place_at(found: &mut Checker, named: &Named, place: &At) -> Result<(), Memory>
    ensures { OnOk result (found.new ≡ after.place_at named.now place.now found.old) }
{
    let first = found.names.count();
    part(found, named, &place.value)?;
    let is_well_formed = has_form(named, &place.value, first, found.names.count());
    found.breaks_where(!is_well_formed, 508, place.first);
    Ok(())
}

/// Whether an expression, whose names are those from the first up to the last, has the form of a place's.
fn has_form(named: &Named, e: &Expr, first: usize, last: usize) -> bool
    ensures { result ≡ has_form_of_place named.now e.now first last }
{
    is_made_of_these(e) && are_indices(named, first, last)
}

/// Whether an expression is made of numbers, names, `+`, `-`, `*` and brackets alone.
#[tactic(auto, using(crate::proofs::Steps::expressions))]
fn is_made_of_these(e: &Expr) -> bool
    ensures { result ≡ made_of_these (tree.expression_of e.now) }
{
    match &e.kind {
        Ex::Num(_, _) => true,
        Ex::Name(_) => true,
        Ex::Index(_, _) => false,
        Ex::Un(symbol, operand) => is_sign(*symbol) && is_made_of_these(operand),
        Ex::Bin(symbol, left, right) => {
            is_operator(*symbol) && is_made_of_these(left) && is_made_of_these(right)
        }
        Ex::Cond(_, _, _) => false,
        Ex::Cast(_, _) => false,
    }
}

/// Whether a symbol is `+` or `-`.
fn is_sign(symbol: u8) -> bool
    ensures { result ≡ is_among signs symbol }
{
    symbol == PLUS || symbol == MINUS
}

/// Whether a symbol is `+`, `-` or `*`.
fn is_operator(symbol: u8) -> bool
    ensures { result ≡ is_among operators symbol }
{
    symbol == PLUS || symbol == MINUS || symbol == STAR
}

/// Whether the names from the first up to the last are indices of replicated `par`s.
#[tactic(auto, using(crate::proofs::Placings::counted))]
fn are_indices(named: &Named, first: usize, last: usize) -> bool
    ensures { result ≡ all_indices (named_of named.now) first (last - first) }
{
    for k in first..last {
        if !is_index(what_of(named, k)) {
            return false;
        }
    }
    true
}
