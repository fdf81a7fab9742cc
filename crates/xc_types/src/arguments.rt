// Which parameters an argument fits.
ghost use Rattle.std.specs.Option.{option_copied};
ghost use Rattle.std.specs.Prelude.{◌≡◌};
ghost use Rattle.xc_tree.specs.Names.Marks as marks;
ghost use Rattle.xc_tree.specs.Types.Calls as call;
ghost use Rattle.xc_types.specs.Given.{argument, element_given as element_of, given, name_given as name_of, variable_at};

use crate::entities::{
    declaration_of, is_array_of, is_channel, is_channel_of, is_port_of, is_variable, is_word_of,
    length_does, length_of, what_of,
};
use xc_tree::{Ex, Expr, Named, ParamKind, TreeDir, What};
use xw_words::Pos;

/// Whether an argument, before which the text has k names, fits its parameter, where it has one.
pub fn fits(named: &Named, k: usize, parameter: Option<&ParamKind>, e: &Expr) -> bool
    ensures { result ≡ call.fits (option_copied parameter.entry) (given named.now k e.now) }
{
    match parameter {
        None => true,
        Some(ParamKind::Value(_)) => true,
        Some(ParamKind::Ref(is_unsigned)) => fits_reference(named, k, *is_unsigned, e),
        Some(ParamKind::Array(is_unsigned, length)) => {
            fits_array(named, k, *is_unsigned, number_of(length), e)
        }
        Some(ParamKind::End(is_streaming)) => fits_end(named, k, *is_streaming, e),
        Some(ParamKind::Port(dir)) => fits_port(named, k, *dir, e),
    }
}

/// A length without the place of its number.
fn number_of(length: &Option<(u32, Pos)>) -> Option<u32>
    ensures { result ≡ marks.length_of length.now }
{
    match length {
        None => None,
        Some((length, _)) => Some(*length),
    }
}

/// What the name means that is given by itself, before which the text has k names.
fn name_given<'a>(named: &'a Named, k: usize, e: &Expr) -> Option<&'a What>
    ensures { option_copied result ≡ name_of (given named.now k e.now) }
{
    match &e.kind {
        Ex::Name(_) => what_of(named, k),
        _ => None,
    }
}

/// What the name means of which an element is given, before which the text has k names.
fn element_given<'a>(named: &'a Named, k: usize, e: &Expr) -> Option<&'a What>
    ensures { option_copied result ≡ element_of (given named.now k e.now) }
{
    match &e.kind {
        Ex::Index(_, _) => what_of(named, k),
        _ => None,
    }
}

#[tactic(auto, using(crate::proofs::Givens::fitting))]
fn fits_reference(named: &Named, k: usize, is_unsigned: bool, e: &Expr) -> bool
    ensures { result ≡ call.fits_reference is_unsigned (given named.now k e.now) }
{
    is_word_of(is_unsigned, name_given(named, k, e))
        || is_array_of(is_unsigned, element_given(named, k, e))
}

#[tactic(auto, using(crate::proofs::Givens::fitting))]
fn fits_array(named: &Named, k: usize, is_unsigned: bool, length: Option<u32>, e: &Expr) -> bool
    ensures { result ≡ call.fits_array is_unsigned length (given named.now k e.now) }
{
    let what = name_given(named, k, e);
    is_array_of(is_unsigned, what) && length_does(length, length_of(what))
}

#[tactic(auto, using(crate::proofs::Givens::fitting))]
fn fits_end(named: &Named, k: usize, is_streaming: bool, e: &Expr) -> bool
    ensures { result ≡ call.fits_end is_streaming (given named.now k e.now) }
{
    is_channel_of(is_streaming, name_given(named, k, e))
}

#[tactic(auto, using(crate::proofs::Givens::fitting))]
fn fits_port(named: &Named, k: usize, dir: TreeDir, e: &Expr) -> bool
    ensures { result ≡ call.fits_port dir (given named.now k e.now) }
{
    is_port_of(dir, name_given(named, k, e))
}

/// Whether an argument, before which the text has k names, is a channel.
#[tactic(auto, using(crate::proofs::Givens::fitting))]
pub fn is_channel_given(named: &Named, k: usize, e: &Expr) -> bool
    ensures { result ≡ call.is_channel_given (given named.now k e.now) }
{
    is_channel(name_given(named, k, e))
}

/// The variable that a call may change through an argument: for an `&` or array parameter the one that is given by itself or
/// by an element.
pub fn referred(named: &Named, k: usize, parameter: Option<&ParamKind>, e: &Expr) -> Option<u32>
    ensures { result
        ≡ call.referred (argument named.now k (option_copied parameter.entry) e.now.pos e.now) }
{
    match parameter {
        Some(ParamKind::Ref(_) | ParamKind::Array(_, _)) => variable_of(named, k, e),
        _ => None,
    }
}

#[tactic(auto, using(crate::proofs::Steps::steps))]
fn variable_of(named: &Named, k: usize, e: &Expr) -> Option<u32>
    ensures { result ≡ call.variable_of (given named.now k e.now) }
{
    match &e.kind {
        Ex::Name(_) | Ex::Index(_, _) => declared_variable(named, k),
        Ex::Num(_, _) | Ex::Un(_, _) | Ex::Bin(_, _, _) | Ex::Cond(_, _, _) | Ex::Cast(_, _) =>
            None,
    }
}

/// The declaration of the name before which k others stand, if it is a variable.
fn declared_variable(named: &Named, k: usize) -> Option<u32>
    ensures { result ≡ variable_at named.now k }
{
    if is_variable(what_of(named, k)) {
        declaration_of(named, k)
    } else {
        None
    }
}
