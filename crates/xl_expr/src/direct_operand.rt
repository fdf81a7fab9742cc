ghost use Rattle.std.specs.Prelude.{◌≡◌, nat_lt};
ghost use Rattle.xc_kernel.specs.Kernels.{expression_of, place_of};
ghost use Rattle.xl_expr.specs.Code as code;
ghost use Rattle.xl_expr.specs.Plans.{var_in};
ghost use Rattle.xc_kernel.specs.Meant.{operator_meant};

use crate::plan::{Plan, VarAt};
use xc_kernel::{Kx, Operator, Place};
use xs_instr::{Instr, Reg};

/// An operand whose word one instruction brings to a register: a number, or the word at dp + 4n.
#[derive(Clone, Copy)]
pub enum Direct {
    Number(u32),
    Word(u32),
}

/// The instruction that brings a direct operand to a register.
pub fn brought(operand: Direct, to: Reg) -> Instr
    ensures { result ≡ code.brought operand to }
{
    match operand {
        Direct::Number(value) => Instr::Ldc(to, value),
        Direct::Word(n) => Instr::Ldwdp(to, n),
    }
}

/// How one instruction brings an expression's word to a register. `None` where none does.
#[tactic(auto, using(xc_kernel::proofs::Forms::forms))]
pub fn direct_of(plan: &Plan, x: &Kx) -> Option<Direct>
    ensures { result ≡ code.direct_of plan.now.vars (expression_of x.now) }
{
    match x {
        Kx::Num(value) => Some(Direct::Number(*value)),
        Kx::Read(place) => direct_place(plan, place),
        Kx::Op(_, _, _, _) => None,
    }
}

#[tactic(auto, using(xc_kernel::proofs::Forms::forms))]
fn direct_place(plan: &Plan, place: &Place) -> Option<Direct>
    ensures { result ≡ code.direct_place plan.now.vars (place_of place.now) }
{
    match place {
        Place::Word(v) => direct_word(plan, *v),
        Place::Elem(v, index, _) => direct_element(plan, *v, index),
    }
}

fn direct_element(plan: &Plan, v: u32, index: &Kx) -> Option<Direct>
    ensures { result ≡ code.direct_element (var_in plan.now.vars v) (expression_of index.now) }
{
    match plan.placed(v) {
        None => None,
        Some(found) => match fixed_index(index, found.words) {
            None => None,
            Some(i) => match found.place {
                VarAt::Near(n) => Some(Direct::Word(n.wrapping_add(i))),
                VarAt::Far(_) | VarAt::Through(_) => None,
            },
        },
    }
}

/// An index that needs no test: a number below the length.
#[tactic(auto, using(xc_kernel::proofs::Forms::forms))]
pub fn fixed_index(index: &Kx, words: u32) -> Option<u32>
    ensures { result ≡ code.fixed_index (expression_of index.now) words }
{
    match index {
        Kx::Num(i) => where_below(*i, words),
        Kx::Read(_) | Kx::Op(_, _, _, _) => None,
    }
}

fn where_below(i: u32, words: u32) -> Option<u32>
    ensures { result ≡ code.where_below i (nat_lt i words) }
{
    if i < words { Some(i) } else { None }
}

fn direct_word(plan: &Plan, v: u32) -> Option<Direct>
    ensures { result ≡ code.direct_word (var_in plan.now.vars v) }
{
    match plan.placed(v) {
        None => None,
        Some(found) => match found.place {
            VarAt::Near(n) => Some(Direct::Word(n)),
            VarAt::Far(_) | VarAt::Through(_) => None,
        },
    }
}

/// What is added, where a number at the right of the operator is added or taken away.
pub fn added(operator: Operator, operand: Direct) -> Option<u32>
    ensures { result ≡ code.added (operator_meant operator) operand }
{
    match operand {
        Direct::Word(_) => None,
        Direct::Number(value) => match operator {
            Operator::Plus => Some(value),
            Operator::Minus => Some(0_u32.wrapping_sub(value)),
            _ => None,
        },
    }
}

/// What is added, where a number at the left of the operator is.
pub fn added_to(operator: Operator, operand: Direct) -> Option<u32>
    ensures { result ≡ code.added_to (operator_meant operator) operand }
{
    match operand {
        Direct::Word(_) => None,
        Direct::Number(value) => match operator {
            Operator::Plus => Some(value),
            _ => None,
        },
    }
}
