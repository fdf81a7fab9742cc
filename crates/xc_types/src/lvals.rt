ghost use Rattle.std.specs.Prelude.{◌≡◌, OnOk};
ghost use Rattle.xc_types.specs.After as after;

use crate::checker::Checker;
use crate::entities::{is_index, is_word, what_of, word_is_unsigned};
use crate::expressions::expression;
use xc_tree::{Ex, Expr, Named};
use xw_words::Memory;

/// Checks an expression where an `lval` is needed: rules 403 and 412 speak of a name alone.
#[tactic(auto, using(crate::proofs::Steps::steps))]
pub fn lval(found: &mut Checker, named: &Named, e: &Expr) -> Result<(), Memory>
    ensures { OnOk result (found.new ≡ after.lval named.now e.now found.old) }
{
    match &e.kind {
        Ex::Name(_) => {
            let what = what_of(named, found.names.count());
            found.breaks_where(!is_word(what), 403, e.pos);
            found.breaks_where(is_index(what), 412, e.pos);
            found.add_type(word_is_unsigned(what))?;
            found.pass()
        }
        _ => part(found, named, e),
    }
}

/// Checks an argument whose parameter is neither by value nor `&`: a name alone needs be no word.
#[tactic(auto, using(crate::proofs::Steps::steps))]
pub fn whole(found: &mut Checker, named: &Named, e: &Expr) -> Result<(), Memory>
    ensures { OnOk result (found.new ≡ after.whole named.now e.now found.old) }
{
    match &e.kind {
        Ex::Name(_) => {
            let what = what_of(named, found.names.count());
            found.add_type(word_is_unsigned(what))?;
            found.pass()
        }
        _ => part(found, named, e),
    }
}

/// Checks an expression whose type nothing asks for.
pub fn part(found: &mut Checker, named: &Named, e: &Expr) -> Result<(), Memory>
    ensures { OnOk result (found.new ≡ after.part named.now e.now found.old) }
{
    expression(found, named, e)?;
    Ok(())
}

/// Checks an expression, if there is one.
#[tactic(auto, using(crate::proofs::Steps::steps))]
pub fn part_if_any(found: &mut Checker, named: &Named, e: &Option<Expr>) -> Result<(), Memory>
    ensures { OnOk result (found.new ≡ after.part_if_any named.now e.now found.old) }
{
    match e {
        None => Ok(()),
        Some(e) => part(found, named, e),
    }
}
