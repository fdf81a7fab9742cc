ghost use Rattle.std.specs.Prelude.{◌≡◌, ◌||◌, false, length, IfOk, OnOk};
ghost use Rattle.xc_tree.specs.Plain as plain;
ghost use Rattle.xc_tree.specs.Trees.{expression_of};
ghost use Rattle.xc_tree.specs.Types.Named.{named_of};
ghost use Rattle.xc_tree.specs.Types.Words.{form_is_unsigned, gives_unsigned as gives, is_unsigned};
ghost use Rattle.xc_types.specs.Checker.{after_indexed, after_word, next_has_unsigned, next_is_unsigned, with_type};
ghost use Rattle.xc_types.specs.After as after;

use crate::checker::Checker;
use crate::entities::{elements_are_unsigned, is_array, is_word, what_of, word_is_unsigned};
use xc_tree::symbols::{ABOVE, BANG, BELOW, EQUALS_EQUALS, OR_OR, SHIFT_DOWN, SHIFT_UP};
use xc_tree::{Ex, Expr, Named};
use xw_words::{Memory, Pos};

/// Whether an operator gives a word that is `unsigned`, by whether its operands are.
pub fn gives_unsigned(symbol: u8, first: bool, second: bool) -> bool
    ensures { result ≡ gives symbol first second }
{
    match symbol {
        BANG | BELOW | ABOVE | EQUALS_EQUALS..=OR_OR => false,
        SHIFT_UP | SHIFT_DOWN => first,
        _ => first || second,
    }
}

/// Whether one of two words is `unsigned`, which a word that is one of them then is.
fn either(first: bool, second: bool) -> bool
    ensures { result ≡ (first || second) }
{
    first || second
}

/// Checks a name where a word is needed, and says whether it is `unsigned`: rule 401.
fn word(found: &mut Checker, named: &Named, pos: Pos) -> Result<bool, Memory>
    ensures found { OnOk result (found.new ≡ after_word (named_of named.now) pos found.old) }
    ensures is_unsigned { IfOk result (λ u. u ≡ next_is_unsigned (named_of named.now) found.old) }
{
    let what = what_of(named, found.names.count());
    let is_unsigned = word_is_unsigned(what);
    found.breaks_where(!is_word(what), 401, pos);
    found.add_type(is_unsigned)?;
    found.pass()?;
    Ok(is_unsigned)
}

/// Checks a name before a `[`, and says whether the elements are `unsigned`: rule 402.
fn indexed(found: &mut Checker, named: &Named, pos: Pos) -> Result<bool, Memory>
    ensures found { OnOk result (found.new ≡ after_indexed (named_of named.now) pos found.old) }
    ensures is_unsigned { IfOk result (λ u. u ≡ next_has_unsigned (named_of named.now) found.old) }
{
    let what = what_of(named, found.names.count());
    let is_unsigned = elements_are_unsigned(what);
    found.breaks_where(!is_array(what), 402, pos);
    found.add_type(is_unsigned)?;
    found.pass()?;
    Ok(is_unsigned)
}

/// Checks an expression where a word is needed, and says whether it is `unsigned`.
#[cycle(expression)]
#[tactic(auto, using(crate::proofs::Steps::expression_steps))]
pub fn expression(found: &mut Checker, named: &Named, e: &Expr) -> Result<bool, Memory>
    ensures found { OnOk result (found.new ≡ after.expression named.now e.now found.old) }
    ensures is_unsigned { IfOk result
        (λ u. u ≡ is_unsigned (named_of named.now) found.old.names (expression_of e.now)) }
{
    match &e.kind {
        Ex::Num(_, is_unsigned) => {
            found.add_type(*is_unsigned)?;
            Ok(*is_unsigned)
        }
        Ex::Name(_) => word(found, named, e.pos),
        Ex::Index(_, index) => element(found, named, index, e.pos),
        Ex::Un(symbol, operand) => unary(found, named, *symbol, operand),
        Ex::Bin(symbol, left, right) => {
            let first = expression(found, named, left)?;
            right_operand(found, named, *symbol, first, right)
        }
        Ex::Cond(test, first, second) => {
            let node = condition(found, named, test)?;
            let first = expression(found, named, first)?;
            let second = expression(found, named, second)?;
            let is_unsigned = either(first, second);
            found.set_type(node, is_unsigned);
            Ok(is_unsigned)
        }
        Ex::Cast(is_unsigned, operand) => cast(found, named, *is_unsigned, operand),
    }
}

/// Checks an element of an array, whose name stands at this place, and says whether it is `unsigned`.
#[cycle(expression)]
#[tactic(auto, using(crate::proofs::Steps::expression_steps))]
fn element(found: &mut Checker, named: &Named, index: &Expr, pos: Pos) -> Result<bool, Memory>
    ensures found { OnOk result (found.new
        ≡ after.expression named.now index.now (after_indexed (named_of named.now) pos found.old)) }
    ensures is_unsigned { IfOk result (λ u. u ≡ next_has_unsigned (named_of named.now) found.old) }
{
    let is_unsigned = indexed(found, named, pos)?;
    expression(found, named, index)?;
    Ok(is_unsigned)
}

/// Checks an expression behind `(unsigned)` or `(int)`, and says which it was.
#[cycle(expression)]
#[tactic(auto, using(crate::proofs::Steps::expression_steps))]
fn cast(
    found: &mut Checker,
    named: &Named,
    becomes_unsigned: bool,
    operand: &Expr,
) -> Result<bool, Memory>
    ensures found { OnOk result (found.new
        ≡ after.expression named.now operand.now (with_type becomes_unsigned found.old)) }
    ensures is_unsigned { IfOk result (λ u. u ≡ becomes_unsigned) }
{
    found.add_type(becomes_unsigned)?;
    expression(found, named, operand)?;
    Ok(becomes_unsigned)
}

/// Checks an operator before its operand, and says whether it gives an `unsigned`.
#[cycle(expression)]
#[tactic(auto, using(crate::proofs::Steps::expression_steps))]
fn unary(found: &mut Checker, named: &Named, symbol: u8, operand: &Expr) -> Result<bool, Memory>
    ensures found { OnOk result
        (found.new ≡ after.unary named.now symbol operand.now found.old) }
    ensures is_unsigned { IfOk result (λ u. u ≡ form_is_unsigned (named_of named.now)
        found.old.names (plain.unary symbol (expression_of operand.now))) }
{
    let node = found.add_type(false)?;
    let inside = expression(found, named, operand)?;
    let is_unsigned = gives_unsigned(symbol, inside, false);
    found.set_type(node, is_unsigned);
    Ok(is_unsigned)
}

/// Checks an operator and its right operand, behind the left one, and says whether it gives an `unsigned`.
#[cycle(expression)]
#[tactic(auto, using(crate::proofs::Steps::expression_steps))]
fn right_operand(
    found: &mut Checker,
    named: &Named,
    symbol: u8,
    first: bool,
    right: &Expr,
) -> Result<bool, Memory>
    ensures found { OnOk result
        (found.new ≡ after.right_operand named.now symbol first right.now found.old) }
    ensures is_unsigned { IfOk result (λ u. u ≡ gives symbol first
        (is_unsigned (named_of named.now) found.old.names (expression_of right.now))) }
{
    let node = found.add_type(false)?;
    let second = expression(found, named, right)?;
    let is_unsigned = gives_unsigned(symbol, first, second);
    found.set_type(node, is_unsigned);
    Ok(is_unsigned)
}

/// Checks what stands before a `?`, and gives the place of that node, whose type isn't known yet.
#[cycle(expression)]
#[tactic(auto, using(crate::proofs::Steps::expression_steps))]
fn condition(found: &mut Checker, named: &Named, test: &Expr) -> Result<usize, Memory>
    ensures found { OnOk result
        (found.new ≡ with_type false (after.expression named.now test.now found.old)) }
    ensures place { IfOk result
        (λ place. place ≡ length (after.expression named.now test.now found.old).types) }
{
    expression(found, named, test)?;
    found.add_type(false)
}
