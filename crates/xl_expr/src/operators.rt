ghost use Rattle.std.specs.Prelude.{◌≡◌};
ghost use Rattle.xc_kernel.specs.Meant.{operator_meant};
ghost use Rattle.xl_expr.specs.Code as code;

use xc_kernel::Operator;
use xs_instr::{Instr, Reg};
use xw_words::Pos;

/// An operation's operator, whether its operands are unsigned, and its place.
#[derive(Clone, Copy)]
pub struct Operation {
    pub operator: Operator,
    pub is_unsigned: bool,
    pub pos: Pos,
}

/// The instruction that makes of the words in two registers that in r0; the test of an index gives its truth in the second one.
pub fn main_instr(operator: Operator, unsigned: bool, a: Reg, b: Reg) -> Instr
    ensures { result ≡ code.main_instr (operator_meant operator) unsigned a b }
{
    match operator {
        Operator::Plus => Instr::Add(Reg::R0, a, b),
        Operator::Minus => Instr::Sub(Reg::R0, a, b),
        Operator::Times => Instr::Mul(Reg::R0, a, b),
        Operator::Divide => quotient_instr(unsigned, a, b),
        Operator::Remainder => remainder_instr(unsigned, a, b),
        Operator::BitAnd => Instr::And(Reg::R0, a, b),
        Operator::BitOr => Instr::Or(Reg::R0, a, b),
        Operator::BitXor => Instr::Xor(Reg::R0, a, b),
        Operator::ShiftUp => Instr::Shl(Reg::R0, a, b),
        Operator::ShiftDown => shift_instr(unsigned, a, b),
        Operator::Equal | Operator::Ne => Instr::Eq(Reg::R0, a, b),
        Operator::Less | Operator::AtLeast => less_instr(unsigned, a, b),
        Operator::Greater | Operator::AtMost => less_instr(unsigned, b, a),
        Operator::BoundsCheck => Instr::Lsu(b, a, b),
        Operator::Cond
        | Operator::BitNot
        | Operator::Not
        | Operator::And
        | Operator::Or
        | Operator::NoOperator => Instr::Ldc(Reg::R0, 0),
    }
}

fn quotient_instr(unsigned: bool, a: Reg, b: Reg) -> Instr
    ensures { result ≡ code.quotient_instr unsigned a b }
{
    if unsigned {
        Instr::Divu(Reg::R0, a, b)
    } else {
        Instr::Divs(Reg::R0, a, b)
    }
}

fn remainder_instr(unsigned: bool, a: Reg, b: Reg) -> Instr
    ensures { result ≡ code.remainder_instr unsigned a b }
{
    if unsigned {
        Instr::Remu(Reg::R0, a, b)
    } else {
        Instr::Rems(Reg::R0, a, b)
    }
}

fn shift_instr(unsigned: bool, a: Reg, b: Reg) -> Instr
    ensures { result ≡ code.shift_instr unsigned a b }
{
    if unsigned {
        Instr::Shr(Reg::R0, a, b)
    } else {
        Instr::Ashr(Reg::R0, a, b)
    }
}

fn less_instr(unsigned: bool, a: Reg, b: Reg) -> Instr
    ensures { result ≡ code.less_instr unsigned a b }
{
    if unsigned {
        Instr::Lsu(Reg::R0, a, b)
    } else {
        Instr::Lss(Reg::R0, a, b)
    }
}
