ghost use Rattle.std.specs.Prelude.{◌≡◌, ◌+◌, ◌*◌, ◌<◌, ◌≤◌, ◌^◌, [], ◌∷◌, ◌++◌, length, IfOk, OnOk, OnErr};
ghost use Rattle.xc_kernel.specs.Kernels.{expression_of, statement_of};
ghost use Rattle.xs_instr.specs.Extends.{Extends};
ghost use Rattle.xs_instr.specs.Lines.{last_pos};
ghost use Rattle.xl_expr.specs.Measures.{depth, nodes};
ghost use Rattle.xl_ends.specs.Sides.{sides_of};
ghost use Rattle.xl_statements.specs.Built.{AreBuilt, AreNarrow, AreShallow, IsBuilt, IsNarrow, IsShallow, most, most_levels, most_of_all, statements_of};
ghost use Rattle.xl_statements.specs.Emits.{AllEmit, Branching, Closes, Emits, Emitted, LoopCode, OneSide, TwoSides};
ghost use Rattle.xl_statements.specs.declared.leaving.JumpTarget.TheVariants.{BlockEnd};

use crate::leaving::{JumpTarget, Leaving, emit_leaving, end_here};
use crate::par::emit_par;
use crate::select::emit_select;
use crate::transfer::{emit_input, emit_output};
use std::alloc::Global;
use xc_kernel::{Kst, Kx};
use xl_ends::Side;
use xl_expr::Plan;
use xl_flow::{emit_back, emit_jump, emit_set, emit_test, emit_zero};
use xs_instr::Emitter;
use xw_words::{List, Memory};

/// The code of statements that stand in these sides of channels, and the jumps out of blocks around them, which are still open.
///
/// The one error is want of memory; the emitter then holds what it held, and perhaps further instructions behind it.
pub fn emit_statements(
    alloc: Global,
    e: &mut Emitter,
    plan: &Plan,
    sides: &[Option<Side>],
    statements: &[Kst],
) -> Result<List<Leaving>, Memory>
    requires built { AreBuilt (statements_of statements.now) }
    requires shallow { AreShallow (statements_of statements.now) }
    requires narrow { AreNarrow (statements_of statements.now) }
    requires stack { plan.now.first_stack ≤ 16384 }
    requires room { length e.old
        + most_of_all plan.now.vars (statements_of statements.now) < 2 ^ 32 }
    ensures code { IfOk result (λ left. Emitted
        (AllEmit plan.now (sides_of sides.now) (statements_of statements.now))
        e.old e.new [] left) }
    ensures size { OnOk result
        (length e.new ≤ length e.old + most_of_all plan.now.vars (statements_of statements.now)) }
    ensures refused { OnErr result (Extends e.old e.new) }
{
    let mut left = Vec::new(alloc);
    emit_all(alloc, e, plan, sides, statements, &mut left)?;
    Ok(List::from_vec(left))
}

/// The code of statements, one after the other; their jumps to ends go behind those in `left`.
#[cycle(statement)]
pub(crate) fn emit_all(
    alloc: Global,
    e: &mut Emitter,
    plan: &Plan,
    sides: &[Option<Side>],
    statements: &[Kst],
    left: &mut Vec<Leaving>,
) -> Result<(), Memory>
    requires built { AreBuilt (statements_of statements.now) }
    requires shallow { AreShallow (statements_of statements.now) }
    requires narrow { AreNarrow (statements_of statements.now) }
    requires stack { plan.now.first_stack ≤ 16384 }
    requires room { length e.old
        + most_of_all plan.now.vars (statements_of statements.now) < 2 ^ 32 }
    ensures code { OnOk result (Emitted
        (AllEmit plan.now (sides_of sides.now) (statements_of statements.now))
        e.old e.new left.old.items left.new.items) }
    ensures size { OnOk result
        (length e.new ≤ length e.old + most_of_all plan.now.vars (statements_of statements.now)) }
    ensures refused { OnErr result (Extends e.old e.new) }
{
    for statement in statements {
        emit_one(alloc, e, plan, sides, statement, left)?;
    }
    Ok(())
}

#[cycle(statement)]
fn emit_one(
    alloc: Global,
    e: &mut Emitter,
    plan: &Plan,
    sides: &[Option<Side>],
    statement: &Kst,
    left: &mut Vec<Leaving>,
) -> Result<(), Memory>
    requires built { IsBuilt (statement_of statement.now) }
    requires shallow { IsShallow (statement_of statement.now) }
    requires narrow { IsNarrow (statement_of statement.now) }
    requires stack { plan.now.first_stack ≤ 16384 }
    requires room { length e.old + most plan.now.vars (statement_of statement.now) < 2 ^ 32 }
    ensures code { OnOk result (Emitted
        (Emits plan.now (sides_of sides.now) (statement_of statement.now))
        e.old e.new left.old.items left.new.items) }
    ensures size { OnOk result
        (length e.new ≤ length e.old + most plan.now.vars (statement_of statement.now)) }
    ensures refused { OnErr result (Extends e.old e.new) }
{
    match statement {
        Kst::Zero(v) => emit_zero(e, plan, *v),
        Kst::Set(place, x) => emit_set(e, plan, place, x),
        Kst::Out(output) => emit_output(e, plan, sides, output),
        Kst::In(input) => emit_input(e, plan, sides, input),
        Kst::If(test, first, second) => {
            emit_if(
                alloc,
                e,
                plan,
                sides,
                test,
                first.as_slice(),
                second.as_slice(),
                left,
            )
        }
        Kst::Loop(test, body, next) => {
            emit_loop(
                alloc,
                e,
                plan,
                sides,
                test,
                body.as_slice(),
                next.as_slice(),
                left,
            )
        }
        Kst::Block(block, inside) => emit_block(
            alloc,
            e,
            plan,
            sides,
            *block,
            inside.as_slice(),
            left,
        ),
        Kst::Exit(block) => emit_leaving(e, JumpTarget::BlockEnd(*block), left),
        Kst::Par(branches) => emit_par(alloc, e, plan, sides, branches.as_slice(), left),
        Kst::Select(select) => emit_select(alloc, e, plan, sides, select, left),
        Kst::Tran { .. } => unreachable!(),
    }
}

#[cycle(statement)]
fn emit_if(
    alloc: Global,
    e: &mut Emitter,
    plan: &Plan,
    sides: &[Option<Side>],
    test: &Kx,
    first: &[Kst],
    second: &[Kst],
    left: &mut Vec<Leaving>,
) -> Result<(), Memory>
    requires built { AreBuilt (statements_of first.now) }
    requires built_second { AreBuilt (statements_of second.now) }
    requires shallow { depth (expression_of test.now) ≤ most_levels }
    requires shallow_first { AreShallow (statements_of first.now) }
    requires shallow_second { AreShallow (statements_of second.now) }
    requires narrow_first { AreNarrow (statements_of first.now) }
    requires narrow_second { AreNarrow (statements_of second.now) }
    requires stack { plan.now.first_stack ≤ 16384 }
    requires room { length e.old + 8 * nodes (expression_of test.now)
        + most_of_all plan.now.vars (statements_of first.now)
        + most_of_all plan.now.vars (statements_of second.now) + 2 < 2 ^ 32 }
    ensures code { OnOk result (Emitted
        (Branching (statements_of second.now) plan.now.vars (expression_of test.now)
        (AllEmit plan.now (sides_of sides.now) (statements_of first.now))
        (AllEmit plan.now (sides_of sides.now) (statements_of second.now)))
        e.old e.new left.old.items left.new.items) }
    ensures size { OnOk result (length e.new ≤ length e.old + 8 * nodes (expression_of test.now)
        + most_of_all plan.now.vars (statements_of first.now)
        + most_of_all plan.now.vars (statements_of second.now) + 2) }
    ensures refused { OnErr result (Extends e.old e.new) }
{
    if second.len() == 0 {
        emit_one_side(alloc, e, plan, sides, test, first, left)
    } else {
        emit_two_sides(alloc, e, plan, sides, test, first, second, left)
    }
}

#[cycle(statement)]
fn emit_one_side(
    alloc: Global,
    e: &mut Emitter,
    plan: &Plan,
    sides: &[Option<Side>],
    test: &Kx,
    first: &[Kst],
    left: &mut Vec<Leaving>,
) -> Result<(), Memory>
    requires built { AreBuilt (statements_of first.now) }
    requires shallow { depth (expression_of test.now) ≤ most_levels }
    requires shallow_first { AreShallow (statements_of first.now) }
    requires narrow_first { AreNarrow (statements_of first.now) }
    requires stack { plan.now.first_stack ≤ 16384 }
    requires room { length e.old + 8 * nodes (expression_of test.now)
        + most_of_all plan.now.vars (statements_of first.now) + 1 < 2 ^ 32 }
    ensures code { OnOk result (Emitted
        (OneSide plan.now.vars (expression_of test.now)
        (AllEmit plan.now (sides_of sides.now) (statements_of first.now)))
        e.old e.new left.old.items left.new.items) }
    ensures size { OnOk result (length e.new ≤ length e.old + 8 * nodes (expression_of test.now)
        + most_of_all plan.now.vars (statements_of first.now) + 1) }
    ensures refused { OnErr result (Extends e.old e.new) }
{
    let last = e.pos();
    let past = emit_test(e, plan, test, last)?;
    emit_all(alloc, e, plan, sides, first, left)?;
    e.land(past);
    Ok(())
}

#[cycle(statement)]
fn emit_two_sides(
    alloc: Global,
    e: &mut Emitter,
    plan: &Plan,
    sides: &[Option<Side>],
    test: &Kx,
    first: &[Kst],
    second: &[Kst],
    left: &mut Vec<Leaving>,
) -> Result<(), Memory>
    requires built { AreBuilt (statements_of first.now) }
    requires built_second { AreBuilt (statements_of second.now) }
    requires shallow { depth (expression_of test.now) ≤ most_levels }
    requires shallow_first { AreShallow (statements_of first.now) }
    requires shallow_second { AreShallow (statements_of second.now) }
    requires narrow_first { AreNarrow (statements_of first.now) }
    requires narrow_second { AreNarrow (statements_of second.now) }
    requires stack { plan.now.first_stack ≤ 16384 }
    requires room { length e.old + 8 * nodes (expression_of test.now)
        + most_of_all plan.now.vars (statements_of first.now)
        + most_of_all plan.now.vars (statements_of second.now) + 2 < 2 ^ 32 }
    ensures code { OnOk result (Emitted
        (TwoSides plan.now.vars (expression_of test.now)
        (AllEmit plan.now (sides_of sides.now) (statements_of first.now))
        (AllEmit plan.now (sides_of sides.now) (statements_of second.now)))
        e.old e.new left.old.items left.new.items) }
    ensures size { OnOk result (length e.new ≤ length e.old + 8 * nodes (expression_of test.now)
        + most_of_all plan.now.vars (statements_of first.now)
        + most_of_all plan.now.vars (statements_of second.now) + 2) }
    ensures refused { OnErr result (Extends e.old e.new) }
{
    let last = e.pos();
    let past = emit_test(e, plan, test, last)?;
    emit_all(alloc, e, plan, sides, first, left)?;
    let last = e.pos();
    let over = emit_jump(e, last)?;
    e.land(past);
    emit_all(alloc, e, plan, sides, second, left)?;
    e.land(over);
    Ok(())
}

#[cycle(statement)]
fn emit_loop(
    alloc: Global,
    e: &mut Emitter,
    plan: &Plan,
    sides: &[Option<Side>],
    test: &Kx,
    body: &[Kst],
    next: &[Kst],
    left: &mut Vec<Leaving>,
) -> Result<(), Memory>
    requires built { AreBuilt (statements_of body.now) }
    requires built_next { AreBuilt (statements_of next.now) }
    requires shallow { depth (expression_of test.now) ≤ most_levels }
    requires shallow_body { AreShallow (statements_of body.now) }
    requires shallow_next { AreShallow (statements_of next.now) }
    requires narrow_body { AreNarrow (statements_of body.now) }
    requires narrow_next { AreNarrow (statements_of next.now) }
    requires stack { plan.now.first_stack ≤ 16384 }
    requires room { length e.old + 8 * nodes (expression_of test.now)
        + most_of_all plan.now.vars (statements_of body.now)
        + most_of_all plan.now.vars (statements_of next.now) + 2 < 2 ^ 32 }
    ensures code { OnOk result (Emitted
        (LoopCode plan.now.vars (expression_of test.now)
        (AllEmit plan.now (sides_of sides.now) (statements_of body.now))
        (AllEmit plan.now (sides_of sides.now) (statements_of next.now)))
        e.old e.new left.old.items left.new.items) }
    ensures size { OnOk result (length e.new ≤ length e.old + 8 * nodes (expression_of test.now)
        + most_of_all plan.now.vars (statements_of body.now)
        + most_of_all plan.now.vars (statements_of next.now) + 2) }
    ensures refused { OnErr result (Extends e.old e.new) }
{
    let start = e.here();
    let last = e.pos();
    let out = emit_test(e, plan, test, last)?;
    emit_all(alloc, e, plan, sides, body, left)?;
    emit_all(alloc, e, plan, sides, next, left)?;
    let last = e.pos();
    emit_back(e, start, last)?;
    e.land(out);
    Ok(())
}

#[cycle(statement)]
fn emit_block(
    alloc: Global,
    e: &mut Emitter,
    plan: &Plan,
    sides: &[Option<Side>],
    block: u32,
    inside: &[Kst],
    left: &mut Vec<Leaving>,
) -> Result<(), Memory>
    requires built { AreBuilt (statements_of inside.now) }
    requires shallow { AreShallow (statements_of inside.now) }
    requires narrow { AreNarrow (statements_of inside.now) }
    requires stack { plan.now.first_stack ≤ 16384 }
    requires room { length e.old + most_of_all plan.now.vars (statements_of inside.now) < 2 ^ 32 }
    ensures code { OnOk result (Emitted
        (Closes (BlockEnd block) (AllEmit plan.now (sides_of sides.now) (statements_of inside.now)))
        e.old e.new left.old.items left.new.items) }
    ensures size { OnOk result
        (length e.new ≤ length e.old + most_of_all plan.now.vars (statements_of inside.now)) }
    ensures refused { OnErr result (Extends e.old e.new) }
{
    let outside = left.len();
    emit_all(alloc, e, plan, sides, inside, left)?;
    end_here(e, JumpTarget::BlockEnd(block), outside, left)
}
