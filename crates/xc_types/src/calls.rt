ghost use Rattle.std.specs.Option.{option_copied};
ghost use Rattle.std.specs.Prelude.{◌≡◌, ◌&&◌, not, IfOk, OnOk};
ghost use Rattle.xc_tree.specs.Types.Named.{function_of as function, named_of};
ghost use Rattle.xc_tree.specs.Types.Rules as rule;
ghost use Rattle.xc_tree.specs.Types.Sites as sites;
ghost use Rattle.xc_types.specs.Enclosing.{around_of, is_in_transaction};
ghost use Rattle.xc_types.specs.Judged.{has_number_of, judged_arguments, judged_further, kind_of, with_call};
ghost use Rattle.xc_types.specs.After as after;
ghost use Rattle.xc_types.specs.Given.{head};

use crate::checker::Checker;
use crate::enclosing::{Enclosing, in_transaction};
use crate::entities::what_of;
use crate::judged::Judged;
use crate::lvals::{lval, part, whole};
use xc_tree::{Arg, Expr, FuncItem, Item, Named, Param, ParamKind, Rhs, What};
use xw_words::{Memory, Pos};

/// Checks what may stand at the right of an `=`.
#[tactic(auto, using(crate::proofs::Steps::steps))]
pub fn right_side_if_any(
    found: &mut Checker,
    named: &Named,
    around: &Enclosing,
    rhs: &Option<Rhs>,
) -> Result<(), Memory>
    ensures { OnOk result
        (found.new ≡ after.right_side_if_any named.now around.now rhs.now found.old) }
{
    match rhs {
        None => Ok(()),
        Some(rhs) => right_side(found, named, around, rhs, true),
    }
}

/// Checks an expression or a call, which is what stands at the right of an `=` or a statement.
#[tactic(auto, using(crate::proofs::Steps::steps))]
pub fn right_side(
    found: &mut Checker,
    named: &Named,
    around: &Enclosing,
    rhs: &Rhs,
    is_right_side: bool,
) -> Result<(), Memory>
    ensures { OnOk result
        (found.new ≡ after.right_side named.now around.now rhs.now is_right_side found.old) }
{
    match rhs {
        Rhs::Value(value) => part(found, named, value),
        Rhs::Call { name: _, pos, args } => {
            let called = function_of(named, what_of(named, found.names.count()));
            found.pass()?;
            let judged = arguments(found, named, params_of(called), args.as_slice())?;
            judge_call(
                found,
                around,
                called,
                args.len(),
                &judged,
                is_right_side,
                *pos,
            );
            Ok(())
        }
    }
}

/// Keeps what a call breaks, whose name stands at this place, by what is called, how many arguments it has, and what is said
/// of them.
#[tactic(auto, using(crate::proofs::Judging::callable))]
fn judge_call(
    found: &mut Checker,
    around: &Enclosing,
    called: Option<&FuncItem>,
    number: usize,
    judged: &Judged,
    is_right_side: bool,
    pos: Pos,
)
    ensures { found.new ≡ with_call (around_of around.now) (head called.entry)
        number judged.now is_right_side pos found.old }
{
    found.breaks_where(!called.is_some(), 404, pos);
    found.breaks_where(!has_number(called, number), 405, pos);
    found.breaks(judged.misfit);
    found.breaks_where(lacks_word(is_right_side, called), 407, pos);
    found.breaks(judged.again);
    found.breaks_where(has_channel_inside(around, judged), 506, pos);
}

/// Whether a call is a right side that gives no word.
fn lacks_word(is_right_side: bool, called: Option<&FuncItem>) -> bool
    ensures { result ≡ (is_right_side && not (rule.gives_word (head called.entry))) }
{
    is_right_side && !gives_word(called)
}

/// Whether a channel is an argument of a call inside a transaction.
fn has_channel_inside(around: &Enclosing, judged: &Judged) -> bool
    ensures { result ≡ (is_in_transaction around.now && judged.now.has_channel) }
{
    in_transaction(around) && judged.has_channel
}

/// The function that a name means.
fn function_of<'a>(named: &'a Named, what: Option<&What>) -> Option<&'a FuncItem>
    ensures { head result ≡ function (named_of named.now) (option_copied what.entry) }
{
    let What::Func(k) = what? else {
        return None;
    };
    match named.tree.items.get(*k as usize)? {
        Item::Func(function) => Some(function),
        Item::Port(_) => None,
    }
}

/// The parameters of what is called, if it is a function.
fn params_of(called: Option<&FuncItem>) -> &[Param]
    ensures { result.now ≡ sites.params_of (head called.entry) }
{
    match called {
        None => &[],
        Some(function) => function.params.as_slice(),
    }
}

/// Whether there are as many arguments as parameters, where what is called is a function.
fn has_number(called: Option<&FuncItem>, arguments: usize) -> bool
    ensures { result ≡ has_number_of (head called.entry) arguments }
{
    match called {
        None => true,
        Some(function) => arguments == function.params.len(),
    }
}

/// Whether a call gives a word; so does one of what isn't a function.
fn gives_word(called: Option<&FuncItem>) -> bool
    ensures { result ≡ rule.gives_word (head called.entry) }
{
    match called {
        None => true,
        Some(function) => function.result.is_some(),
    }
}

/// Checks the arguments of a call, and says what is to be said of them together.
fn arguments(
    found: &mut Checker,
    named: &Named,
    params: &[Param],
    args: &[Arg],
) -> Result<Judged, Memory>
    ensures found { OnOk result
        (found.new ≡ after.arguments named.now params.now args.now found.old) }
    ensures judged { IfOk result
        (λ j. j ≡ judged_arguments named.now params.now args.now found.old) }
{
    let mut judged = Judged::new(found.alloc);
    judge_each(found, named, params, args, &mut judged)?;
    Ok(judged)
}

/// Checks the arguments of a call, one behind the other, and judges each.
#[tactic(auto, using(crate::proofs::Judging::passing))]
fn judge_each(
    found: &mut Checker,
    named: &Named,
    params: &[Param],
    args: &[Arg],
    judged: &mut Judged,
) -> Result<(), Memory>
    ensures found { OnOk result
        (found.new ≡ after.arguments named.now params.now args.now found.old) }
    ensures judged { OnOk result
        (judged.new ≡ judged_further named.now params.now args.now found.old judged.old) }
{
    for (i, arg) in args.iter().enumerate() {
        let parameter = parameter_at(params, i);
        judged.judge(named, found.names.count(), parameter, arg)?;
        argument(found, named, parameter, &arg.value)?;
    }
    Ok(())
}

/// What the parameter at a place is, if there is one.
fn parameter_at(params: &[Param], i: usize) -> Option<&ParamKind>
    ensures { option_copied result ≡ kind_of params.now i }
{
    match params.get(i) {
        None => None,
        Some(parameter) => Some(&parameter.kind),
    }
}

/// Checks an argument for its parameter, where it has one.
#[tactic(auto, using(crate::proofs::Steps::steps))]
fn argument(
    found: &mut Checker,
    named: &Named,
    parameter: Option<&ParamKind>,
    e: &Expr,
) -> Result<(), Memory>
    ensures { OnOk result
        (found.new ≡ after.argument named.now (option_copied parameter.entry) e.now found.old) }
{
    match parameter {
        Some(ParamKind::Value(_)) => part(found, named, e),
        Some(ParamKind::Ref(_)) => lval(found, named, e),
        Some(ParamKind::Array(_, _) | ParamKind::End(_) | ParamKind::Port(_)) => {
            whole(found, named, e)
        }
        None => whole(found, named, e),
    }
}
