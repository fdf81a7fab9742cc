ghost use Rattle.std.specs.Prelude.{◌≡◌, ◌+◌, ◌*◌, ◌<◌, ◌≤◌, ◌^◌, [], ◌∷◌, ◌++◌, length, map, OnOk, OnErr, Some};
ghost use Rattle.xc_kernel.specs.Kernels.{expression_of, place_of};
ghost use Rattle.xs_instr.specs.Lines.{HasTarget, line, last_pos, at_pos};
ghost use Rattle.xl_expr.specs.Code as spec;
ghost use Rattle.xl_expr.specs.Code.{one_tail, negated, after_main, index_if, direct_tail, operand_of, held_word, word_at_place, element_read, element_code, moved_to, expression_code, place_code, two_code, joined_code, operation_code, codes, code_to};
ghost use Rattle.xs_instr.specs.Adds.{Adds};
ghost use Rattle.xs_instr.specs.Extends.{Extends};
ghost use Rattle.xl_expr.specs.Targets.{AreAimed};
ghost use Rattle.xl_expr.specs.Above.{EvaluatesAbove};
ghost use Rattle.xl_expr.specs.Works.{Evaluates};
ghost use Rattle.xc_kernel.specs.Meant.{operator_meant};
ghost use Rattle.xl_expr.specs.Measures.{nodes, nodes_of, nodes_at, depth, depth_of, depth_at};
ghost use Rattle.xl_expr.specs.Operands.{operands_of};
ghost use Rattle.xl_expr.specs.Parts.{kept_behind, short_behind, choice_code};

use crate::direct_operand::{Direct, added, added_to, brought, direct_of, fixed_index};
use crate::operators::{Operation, main_instr};
use crate::plan::{Plan, VarAt, VarPlan};
use xc_kernel::{Kx, Operator, Place, operator_at};
use xs_instr::{Emitter, Instr, Reg};
use xw_words::{Memory, Pos};

/// The code that gives an expression's word in a register. `evaluates` says what it does: wherever it stands from this index
/// on, where the plan's layout holds, and whatever other threads do in between that leaves what this one relies on, it comes
/// to the next index with the word that the expression has in the register, or traps with the expression's error, within 8
/// steps for each node.
///
/// The one error is want of memory; the emitter then holds what it held, and perhaps further instructions behind it.
pub fn emit_expr(e: &mut Emitter, plan: &Plan, x: &Kx, to: Reg) -> Result<(), Memory>
    requires room { length e.old + 8 * nodes (expression_of x.now) < 2 ^ 32 }
    requires shallow { depth (expression_of x.now) ≤ 400 }
    ensures size { OnOk result (length e.new ≤ length e.old + 8 * nodes (expression_of x.now)) }
    ensures code { OnOk result (e.new
        ≡ e.old ++ code_to plan.now.vars (expression_of x.now) to (length e.old) (last_pos e.old)) }
    ensures evaluates { OnOk result
        (Adds e.old e.new (Evaluates plan.now.vars (expression_of x.now) to (length e.old))) }
    ensures aimed { OnOk result (Adds e.old e.new (AreAimed (length e.old))) }
    ensures refused { OnErr result (Extends e.old e.new) }
{
    emit_to(e, plan, x, to)?;
    Ok(())
}

fn emit_to(e: &mut Emitter, plan: &Plan, x: &Kx, to: Reg) -> Result<(), Memory>
    requires room { length e.old + 8 * nodes (expression_of x.now) < 2 ^ 32 }
    requires shallow { depth (expression_of x.now) ≤ 400 }
    ensures code { OnOk result (e.new
        ≡ e.old ++ code_to plan.now.vars (expression_of x.now) to (length e.old) (last_pos e.old)) }
    ensures refused { OnErr result (Extends e.old e.new) }
{
    let last = e.pos();
    match direct_of(plan, x) {
        Some(operand) => e.put_all(&[brought(operand, to)], last),
        None => {
            emit_at(e, plan, x, 0, last)?;
            let behind = e.pos();
            put_move(e, to, behind)?;
            Ok(())
        }
    }
}

/// The code that gives an expression's word in r0, and leaves the thread's temporary words below number `k`. `evaluates` says what it
/// does: the same as that of `emit_expr`, within 7 steps for each node, and those words are as they were once the word is there.
///
/// The one error is want of memory; the emitter then holds what it held, and perhaps further instructions behind it.
pub fn emit_above(e: &mut Emitter, plan: &Plan, x: &Kx, k: u32) -> Result<(), Memory>
    requires room { length e.old + 8 * nodes (expression_of x.now) < 2 ^ 32 }
    requires shallow { depth (expression_of x.now) ≤ 400 }
    requires inside { k ≤ 112 }
    ensures size { OnOk result (length e.new ≤ length e.old + 7 * nodes (expression_of x.now)) }
    ensures code { OnOk result (e.new
        ≡ e.old ++ expression_code plan.now.vars (expression_of x.now) k (length e.old) (last_pos e.old)) }
    ensures evaluates { OnOk result
        (Adds e.old e.new (EvaluatesAbove plan.now.vars (expression_of x.now) k (length e.old))) }
    ensures aimed { OnOk result (Adds e.old e.new (AreAimed (length e.old))) }
    ensures refused { OnErr result (Extends e.old e.new) }
{
    let last = e.pos();
    emit_at(e, plan, x, k, last)?;
    Ok(())
}

/// Moves r0 to a register.
fn put_move(e: &mut Emitter, to: Reg, pos: Pos) -> Result<(), Memory>
    requires { length e.old + 1 < 2 ^ 32 }
    ensures ok { OnOk result (e.new ≡ e.old ++ at_pos pos (moved_to to)) }
    ensures refused { OnErr result (Extends e.old e.new) }
{
    match to {
        Reg::R0 => Ok(()),
        _ => {
            e.put_all(&[Instr::Or(to, Reg::R0, Reg::R0)], pos)?;
            Ok(())
        }
    }
}

/// The code that gives an expression's word in r0; the thread's temporary words from number `k` on serve it. An instruction
/// without a place of its own has the place `last`.
#[cycle(expression)]
pub fn emit_at(e: &mut Emitter, plan: &Plan, x: &Kx, k: u32, last: Pos) -> Result<(), Memory>
    requires room { length e.old + 8 * nodes (expression_of x.now) < 2 ^ 32 }
    requires deep { k + depth (expression_of x.now) < 2 ^ 32 }
    ensures ok { OnOk result (e.new ≡ e.old ++ expression_code plan.now.vars (expression_of x.now) k
        (length e.old) last) }
    ensures refused { OnErr result (Extends e.old e.new) }
{
    match x {
        Kx::Num(value) => e.put_all(&[Instr::Ldc(Reg::R0, *value)], last),
        Kx::Read(place) => emit_place(e, plan, place, k, last),
        Kx::Op(symbol, unsigned, operands, pos) => {
            let operation = Operation {
                operator: operator_at(*symbol),
                is_unsigned: *unsigned,
                pos: *pos,
            };
            emit_operation(e, plan, operation, operands.as_slice(), k, last)
        }
    }
}

/// The code that reads a place.
#[cycle(expression)]
fn emit_place(e: &mut Emitter, plan: &Plan, place: &Place, k: u32, last: Pos) -> Result<(), Memory>
    requires room { length e.old + 8 * nodes_at (place_of place.now) < 2 ^ 32 }
    requires deep { k + depth_at (place_of place.now) < 2 ^ 32 }
    ensures ok { OnOk result
        (e.new ≡ e.old ++ place_code plan.now.vars (place_of place.now) k (length e.old) last) }
    ensures refused { OnErr result (Extends e.old e.new) }
{
    match place {
        Place::Word(v) => match plan.placed(*v) {
            None => Ok(()),
            Some(found) => put_word(e, found.place, last),
        },
        Place::Elem(v, index, pos) => match plan.placed(*v) {
            None => Ok(()),
            Some(found) => emit_element(e, plan, found, index, *pos, k, last),
        },
    }
}

/// The code that reads an element of a variable.
#[cycle(expression)]
fn emit_element(
    e: &mut Emitter,
    plan: &Plan,
    found: VarPlan,
    index: &Kx,
    pos: Pos,
    k: u32,
    last: Pos,
) -> Result<(), Memory>
    requires room { length e.old + 8 * (1 + nodes (expression_of index.now)) < 2 ^ 32 }
    requires deep { k + (1 + depth (expression_of index.now)) < 2 ^ 32 }
    ensures ok { OnOk result (e.new ≡ e.old ++ element_code (Some found) (expression_of index.now) pos
        (expression_code plan.now.vars (expression_of index.now)) k (length e.old) last) }
    ensures refused { OnErr result (Extends e.old e.new) }
{
    match (found.place, fixed_index(index, found.words)) {
        (VarAt::Near(n), Some(i)) => e.put_all(&[Instr::Ldwdp(Reg::R0, n.wrapping_add(i))], pos),
        (VarAt::Near(n), None) => {
            emit_at(e, plan, index, k, last)?;
            put_element(e, found.words, Instr::Ldawdp(Reg::R11, n), pos)
        }
        (VarAt::Far(n), Some(i)) => put_held(e, n, i, pos),
        (VarAt::Far(n), None) => {
            emit_at(e, plan, index, k, last)?;
            put_element(e, found.words, Instr::Ldwdp(Reg::R11, n), pos)
        }
        (VarAt::Through(n), _) => put_held(e, n, 0, pos),
    }
}

/// The word at 4i behind the address that the word at dp + 4n holds comes to r0.
fn put_held(e: &mut Emitter, n: u32, i: u32, pos: Pos) -> Result<(), Memory>
    requires { length e.old + 3 < 2 ^ 32 }
    ensures ok { OnOk result (e.new ≡ e.old ++ at_pos pos (held_word n i)) }
    ensures refused { OnErr result (Extends e.old e.new) }
{
    e.put_all(
        &[
            Instr::Ldwdp(Reg::R11, n),
            Instr::Ldc(Reg::R0, i),
            Instr::Ldw(Reg::R0, Reg::R11, Reg::R0),
        ],
        pos,
    )
}

/// The code that reads a word where the plan has it.
fn put_word(e: &mut Emitter, place: VarAt, pos: Pos) -> Result<(), Memory>
    requires { length e.old + 3 < 2 ^ 32 }
    ensures ok { OnOk result (e.new ≡ e.old ++ at_pos pos (word_at_place place)) }
    ensures refused { OnErr result (Extends e.old e.new) }
{
    match place {
        VarAt::Near(n) => e.put_all(&[Instr::Ldwdp(Reg::R0, n)], pos),
        VarAt::Far(n) | VarAt::Through(n) => put_held(e, n, 0, pos),
    }
}

/// What reads an element, by its index in r0, after the index's test; `base` brings the array's first address to r11.
fn put_element(e: &mut Emitter, words: u32, base: Instr, pos: Pos) -> Result<(), Memory>
    requires { length e.old + 5 < 2 ^ 32 }
    ensures ok { OnOk result (e.new ≡ e.old ++ at_pos pos (element_read base words)) }
    ensures refused { OnErr result (Extends e.old e.new) }
{
    e.put_all(
        &[
            Instr::Ldc(Reg::R11, words),
            Instr::Lsu(Reg::R11, Reg::R0, Reg::R11),
            Instr::Ecallf(Reg::R11),
            base,
            Instr::Ldw(Reg::R0, Reg::R11, Reg::R0),
        ],
        pos,
    )
}

/// What one operand's operator makes of r0.
fn put_one_tail(e: &mut Emitter, operator: Operator, pos: Pos) -> Result<(), Memory>
    requires { length e.old + 2 < 2 ^ 32 }
    ensures ok { OnOk result (e.new ≡ e.old ++ at_pos pos (one_tail (operator_meant operator))) }
    ensures refused { OnErr result (Extends e.old e.new) }
{
    match operator {
        Operator::Minus => e.put_all(&[Instr::Neg(Reg::R0, Reg::R0)], pos),
        Operator::BitNot => e.put_all(&[Instr::Not(Reg::R0, Reg::R0)], pos),
        Operator::Not => put_negated(e, pos),
        _ => Ok(()),
    }
}

/// 1 where r0 is 0, and 0 where it is not.
fn put_negated(e: &mut Emitter, pos: Pos) -> Result<(), Memory>
    requires { length e.old + 2 < 2 ^ 32 }
    ensures ok { OnOk result (e.new ≡ e.old ++ at_pos pos negated) }
    ensures refused { OnErr result (Extends e.old e.new) }
{
    e.put_all(
        &[
            Instr::Ldc(Reg::R11, 0),
            Instr::Eq(Reg::R0, Reg::R0, Reg::R11),
        ],
        pos,
    )
}

/// What follows the main instruction of two operands' operator.
fn put_after_main(
    e: &mut Emitter,
    operator: Operator,
    a: Reg,
    b: Reg,
    pos: Pos,
) -> Result<(), Memory>
    requires { length e.old + 2 < 2 ^ 32 }
    ensures ok { OnOk result (e.new ≡ e.old ++ at_pos pos (after_main (operator_meant operator) a b)) }
    ensures refused { OnErr result (Extends e.old e.new) }
{
    match operator {
        Operator::Ne | Operator::AtMost | Operator::AtLeast => put_negated(e, pos),
        Operator::BoundsCheck => put_index_if(e, a, b, pos),
        _ => Ok(()),
    }
}

/// An index goes to r0, if its test holds.
fn put_index_if(e: &mut Emitter, index: Reg, test: Reg, pos: Pos) -> Result<(), Memory>
    requires { length e.old + 2 < 2 ^ 32 }
    ensures ok { OnOk result (e.new ≡ e.old ++ at_pos pos (index_if index test)) }
    ensures refused { OnErr result (Extends e.old e.new) }
{
    match index {
        Reg::R0 => e.put_all(&[Instr::Ecallf(test)], pos),
        _ => e.put_all(
            &[Instr::Ecallf(test), Instr::Or(Reg::R0, index, index)],
            pos,
        ),
    }
}

/// A direct operand and the word in r0 make that in r0; in their order they go to two registers, unless one is added as it is.
fn put_direct_tail(
    e: &mut Emitter,
    operation: Operation,
    operand: Direct,
    sum: Option<u32>,
    a: Reg,
    b: Reg,
) -> Result<(), Memory>
    requires { length e.old + 4 < 2 ^ 32 }
    ensures ok { OnOk result (e.new ≡ e.old ++ at_pos operation.pos
        (direct_tail (operator_meant operation.operator) operation.is_unsigned operand sum a b)) }
    ensures refused { OnErr result (Extends e.old e.new) }
{
    let pos = operation.pos;
    match sum {
        Some(n) => e.put_all(&[Instr::Addi(Reg::R0, Reg::R0, n)], pos),
        None => {
            e.put_all(
                &[
                    brought(operand, Reg::R11),
                    main_instr(operation.operator, operation.is_unsigned, a, b),
                ],
                pos,
            )?;
            put_after_main(e, operation.operator, a, b, pos)
        }
    }
}

/// The code of an operation.
#[cycle(expression)]
fn emit_operation(
    e: &mut Emitter,
    plan: &Plan,
    operation: Operation,
    operands: &[Kx],
    k: u32,
    last: Pos,
) -> Result<(), Memory>
    requires room { length e.old + 8 * (1 + nodes_of (operands_of operands.now)) < 2 ^ 32 }
    requires deep { k + (1 + depth_of (operands_of operands.now)) < 2 ^ 32 }
    ensures ok { OnOk result (e.new ≡ e.old ++ operation_code (operator_meant operation.operator)
        operation.is_unsigned operation.pos (codes plan.now.vars (operands_of operands.now)) k (length e.old) last) }
    ensures refused { OnErr result (Extends e.old e.new) }
{
    match operands {
        [] => e.put_all(&[Instr::Ldc(Reg::R0, 0)], operation.pos),
        [only] => {
            emit_at(e, plan, only, k, last)?;
            put_one_tail(e, operation.operator, operation.pos)
        }
        [first, second] => emit_two(e, plan, operation, first, second, k, last),
        [test, second, third, ..] => {
            emit_at(e, plan, test, k, last)?;
            emit_choice(e, plan, second, third, operation.pos, k)
        }
    }
}

/// The code of an operation with two operands.
#[cycle(expression)]
fn emit_two(
    e: &mut Emitter,
    plan: &Plan,
    operation: Operation,
    first: &Kx,
    second: &Kx,
    k: u32,
    last: Pos,
) -> Result<(), Memory>
    requires room { length e.old + 8 * (1 + nodes (expression_of first.now) + nodes
        (expression_of second.now)) < 2 ^ 32 }
    requires deep_first { k + (1 + depth (expression_of first.now)) < 2 ^ 32 }
    requires deep_second { k + (1 + depth (expression_of second.now)) < 2 ^ 32 }
    ensures ok { OnOk result (e.new ≡ e.old ++ two_code (operator_meant operation.operator)
        operation.is_unsigned operation.pos (operand_of plan.now.vars (expression_of first.now))
        (operand_of plan.now.vars (expression_of second.now)) k (length e.old) last) }
    ensures refused { OnErr result (Extends e.old e.new) }
{
    match operation.operator {
        Operator::And => {
            emit_at(e, plan, first, k, last)?;
            emit_short(e, plan, Instr::Brff(Reg::R0, 0), second, operation.pos, k)
        }
        Operator::Or => {
            emit_at(e, plan, first, k, last)?;
            emit_short(e, plan, Instr::Brft(Reg::R0, 0), second, operation.pos, k)
        }
        _ => emit_joined(e, plan, operation, first, second, k, last),
    }
}

/// The code of an operation of both operands' words, of which one may be direct.
#[cycle(expression)]
fn emit_joined(
    e: &mut Emitter,
    plan: &Plan,
    operation: Operation,
    first: &Kx,
    second: &Kx,
    k: u32,
    last: Pos,
) -> Result<(), Memory>
    requires room { length e.old + 8 * (1 + nodes (expression_of first.now) + nodes
        (expression_of second.now)) < 2 ^ 32 }
    requires deep_first { k + (1 + depth (expression_of first.now)) < 2 ^ 32 }
    requires deep_second { k + (1 + depth (expression_of second.now)) < 2 ^ 32 }
    ensures ok { OnOk result (e.new ≡ e.old ++ joined_code (operator_meant operation.operator)
        operation.is_unsigned operation.pos (expression_code plan.now.vars (expression_of first.now))
        (expression_code plan.now.vars (expression_of second.now))
        (spec.direct_of plan.now.vars (expression_of first.now))
        (spec.direct_of plan.now.vars (expression_of second.now)) k (length e.old) last) }
    ensures refused { OnErr result (Extends e.old e.new) }
{
    match (direct_of(plan, first), direct_of(plan, second)) {
        (_, Some(operand)) => {
            emit_at(e, plan, first, k, last)?;
            let sum = added(operation.operator, operand);
            put_direct_tail(e, operation, operand, sum, Reg::R0, Reg::R11)
        }
        (Some(operand), None) => {
            emit_at(e, plan, second, k, last)?;
            let sum = added_to(operation.operator, operand);
            put_direct_tail(e, operation, operand, sum, Reg::R11, Reg::R0)
        }
        (None, None) => {
            emit_at(e, plan, first, k, last)?;
            emit_kept(e, plan, operation, second, k)
        }
    }
}

/// The code behind the first of two operands, whose word is kept while the second one's is found.
#[cycle(expression)]
fn emit_kept(
    e: &mut Emitter,
    plan: &Plan,
    operation: Operation,
    second: &Kx,
    k: u32,
) -> Result<(), Memory>
    requires room { length e.old + 8 * (1 + nodes (expression_of second.now)) < 2 ^ 32 }
    requires deep { k + (1 + depth (expression_of second.now)) < 2 ^ 32 }
    ensures ok { OnOk result (e.new ≡ e.old ++ kept_behind plan.now.vars
        (operator_meant operation.operator) operation.is_unsigned operation.pos (expression_of second.now) k (length e.old)) }
    ensures refused { OnErr result (Extends e.old e.new) }
{
    let pos = operation.pos;
    e.put_all(&[Instr::Stwsp(Reg::R0, k)], pos)?;
    emit_at(e, plan, second, k + 1, pos)?;
    e.put_all(
        &[
            Instr::Ldwsp(Reg::R11, k),
            main_instr(operation.operator, operation.is_unsigned, Reg::R11, Reg::R0),
        ],
        pos,
    )?;
    put_after_main(e, operation.operator, Reg::R11, Reg::R0, pos)?;
    Ok(())
}

/// The code behind the first operand of `&&` or `||`.
#[cycle(expression)]
fn emit_short(
    e: &mut Emitter,
    plan: &Plan,
    jump: Instr,
    second: &Kx,
    pos: Pos,
    k: u32,
) -> Result<(), Memory>
    requires target { HasTarget jump }
    requires room { length e.old + 8 * (1 + nodes (expression_of second.now)) < 2 ^ 32 }
    requires deep { k + (1 + depth (expression_of second.now)) < 2 ^ 32 }
    ensures ok { OnOk result (e.new
        ≡ e.old ++ short_behind plan.now.vars jump pos (expression_of second.now) k (length e.old)) }
    ensures refused { OnErr result (Extends e.old e.new) }
{
    let skip = e.hole(jump, pos)?;
    emit_at(e, plan, second, k + 1, pos)?;
    e.land(skip);
    e.put_all(
        &[
            Instr::Ldc(Reg::R11, 0),
            Instr::Eq(Reg::R0, Reg::R0, Reg::R11),
            Instr::Eq(Reg::R0, Reg::R0, Reg::R11),
        ],
        pos,
    )?;
    Ok(())
}

/// The code behind the test of `? :`.
#[cycle(expression)]
fn emit_choice(
    e: &mut Emitter,
    plan: &Plan,
    second: &Kx,
    third: &Kx,
    pos: Pos,
    k: u32,
) -> Result<(), Memory>
    requires room { length e.old + 8 * (1 + nodes (expression_of second.now) + nodes
        (expression_of third.now)) < 2 ^ 32 }
    requires deep_second { k + (1 + depth (expression_of second.now)) < 2 ^ 32 }
    requires deep_third { k + (1 + depth (expression_of third.now)) < 2 ^ 32 }
    ensures ok { OnOk result (e.new ≡ e.old ++ choice_code plan.now.vars pos
        (expression_of second.now) (expression_of third.now) k (length e.old)) }
    ensures refused { OnErr result (Extends e.old e.new) }
{
    let past = e.hole(Instr::Brff(Reg::R0, 0), pos)?;
    emit_at(e, plan, second, k + 1, pos)?;
    let over = e.hole(Instr::Brfu(0), pos)?;
    e.land(past);
    emit_at(e, plan, third, k + 1, pos)?;
    e.land(over);
    Ok(())
}
