ghost use Rattle.std.specs.Prelude.{◌≡◌, [], map};
ghost use Rattle.xw_words.specs.declared.pos.Pos.{Pos};
ghost use Rattle.xw_words.specs.Words as words;
ghost use Rattle.xc_kernel.specs.Kernels as kernel;
ghost use Rattle.xc_kernel.specs.Eval as spec;
ghost use Rattle.xc_kernel.specs.Plain as plain;
ghost use Rattle.xc_kernel.specs.Values as values;
ghost use Rattle.xc_kernel.specs.Meant.{operator_meant};
ghost use Rattle.xc_inline.specs.Words.{word_in};

use xc_kernel::{Kx, Operator, Place, operator_at};
use xw_words::{ashr, div_s, div_u, less_s, rem_s, rem_u, shl, shr};

/// The word that an expression has where no variable has words, or `None` for an error.
#[cycle(eval)]
#[tactic(auto, using(crate::proofs::Laws::Expressions::values))]
pub fn eval(e: &Kx) -> Option<u32>
    ensures { result ≡ word_in (spec.eval [] (kernel.expression_of e.now)) }
{
    match e {
        Kx::Num(value) => Some(*value),
        Kx::Read(place) => eval_place(place),
        Kx::Op(symbol, unsigned, operands, _) => {
            eval_operation(operator_at(*symbol), *unsigned, operands.as_slice())
        }
    }
}

/// What stands at a place: 0 in a word, and there is no element.
#[tactic(auto, using(crate::proofs::Laws::Expressions::values))]
fn eval_place(place: &Place) -> Option<u32>
    ensures { result ≡ word_in (spec.eval_place [] (kernel.place_of place.now)) }
{
    match place {
        Place::Word(_) => Some(0),
        Place::Elem(_, _, _) => None,
    }
}

/// The word of an operation; an operand's error counts where its word is needed.
#[cycle(eval)]
fn eval_operation(operator: Operator, unsigned: bool, operands: &[Kx]) -> Option<u32>
    ensures { (pos : Pos) → result ≡ word_in (values.applied (operator_meant operator) unsigned pos
        (spec.eval_all [] (plain.operands (map kernel.expression_of operands.now)))) }
{
    match operands {
        [] => Some(0),
        [only] => Some(of_one(operator, eval(only)?)),
        [first, second] => with_second(operator, unsigned, eval(first)?, eval(second)),
        [test, second, third, ..] => {
            if eval(test)? != 0 {
                eval(second)
            } else {
                eval(third)
            }
        }
    }
}

/// Of one word; `+` leaves it.
fn of_one(operator: Operator, a: u32) -> u32
    ensures { values.word result ≡ values.of_one (operator_meant operator) a }
{
    match operator {
        Operator::Minus => a.wrapping_neg(),
        Operator::BitNot => !a,
        Operator::Not => truth(a == 0),
        _ => a,
    }
}

/// Of a word and a second operand's, which counts only where it is needed.
fn with_second(operator: Operator, unsigned: bool, a: u32, second: Option<u32>) -> Option<u32>
    ensures { (pos : Pos) (v : values.Value) → second ≡ word_in v → result
        ≡ word_in (values.with_second (operator_meant operator) unsigned pos a v) }
{
    match operator {
        Operator::And => { if a != 0 { truth_of(second) } else { Some(0) } }
        Operator::Or => { if a != 0 { Some(1) } else { truth_of(second) } }
        _ => of_two(operator, unsigned, a, second?),
    }
}

/// Of two words, for operators of `unsigned` words or else of `int` ones.
fn of_two(operator: Operator, unsigned: bool, a: u32, b: u32) -> Option<u32>
    ensures { (pos : Pos) → result
        ≡ word_in (values.of_two (operator_meant operator) unsigned pos a b) }
{
    match operator {
        Operator::BoundsCheck => below(a, b),
        Operator::BitAnd => Some(a & b),
        Operator::BitOr => Some(a | b),
        Operator::BitXor => Some(a ^ b),
        Operator::Plus => Some(a.wrapping_add(b)),
        Operator::Minus => Some(a.wrapping_sub(b)),
        Operator::Times => Some(a.wrapping_mul(b)),
        Operator::Divide => quotient(unsigned, a, b),
        Operator::Remainder => remainder(unsigned, a, b),
        Operator::Less => Some(truth(is_less(unsigned, a, b))),
        Operator::Greater => Some(truth(is_less(unsigned, b, a))),
        Operator::Equal => Some(truth(a == b)),
        Operator::Ne => Some(truth(a != b)),
        Operator::AtMost => Some(truth(!is_less(unsigned, b, a))),
        Operator::AtLeast => Some(truth(!is_less(unsigned, a, b))),
        Operator::ShiftUp => Some(shl(a, b)),
        Operator::ShiftDown => Some(shifted(unsigned, a, b)),
        Operator::Cond
        | Operator::BitNot
        | Operator::Not
        | Operator::And
        | Operator::Or
        | Operator::NoOperator => Some(0),
    }
}

/// An index, where it is below a length.
fn below(index: u32, length: u32) -> Option<u32>
    ensures { (pos : Pos) → result ≡ word_in (values.tested index length pos) }
{
    if index < length { Some(index) } else { None }
}

fn quotient(unsigned: bool, a: u32, b: u32) -> Option<u32>
    ensures { result ≡ values.quotient unsigned a b }
{
    if unsigned { div_u(a, b) } else { div_s(a, b) }
}

fn remainder(unsigned: bool, a: u32, b: u32) -> Option<u32>
    ensures { result ≡ values.remainder unsigned a b }
{
    if unsigned { rem_u(a, b) } else { rem_s(a, b) }
}

fn shifted(unsigned: bool, a: u32, b: u32) -> u32
    ensures { result ≡ values.shifted unsigned a b }
{
    if unsigned { shr(a, b) } else { ashr(a, b) }
}

fn is_less(unsigned: bool, a: u32, b: u32) -> bool
    ensures { result ≡ values.is_less unsigned a b }
{
    if unsigned { a < b } else { less_s(a, b) }
}

/// 1 or 0, as a word is true.
fn truth_of(word: Option<u32>) -> Option<u32>
    ensures { (v : values.Value) → word ≡ word_in v → result ≡ word_in (values.truth_of v) }
{
    Some(truth(word? != 0))
}

fn truth(holds: bool) -> u32
    ensures { result ≡ words.truth holds }
{
    if holds { 1 } else { 0 }
}
