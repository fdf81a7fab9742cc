// Steps of code as the cases write them: assignments, variables that become 0, transfers, tests and jumps.

ghost use Rattle.std.specs.Bool.{OnTrue};
ghost use Rattle.std.specs.Prelude.{◌≤◌, length, OnOk};
ghost use Rattle.xc_kernel.specs.Kernels.{expression_of, place_of};
ghost use Rattle.xl_expr.specs.Measures.{depth, depth_at, nodes, nodes_at};
ghost use Rattle.xl_expr.specs.Plans.{var_in};
ghost use Rattle.xl_expr.specs.Targets.{AreAimed};
ghost use Rattle.xl_flow.specs.Zeros.{room_of};

use crate::expressions::{NAME, expression, number, place};
use crate::machine::{add, add_expression, begun, finished};
use crate::places::MEMORY;
use crate::transfers::{add_entry, add_port_in, add_port_out, add_timer_in};
use crate::trouble::Trouble;
use std::alloc::Global;
use xc_kernel::{Kx, Place};
use xl_expr::{Plan, VarAt};
use xl_flow::{emit_back, emit_jump, emit_set, emit_test, emit_zero};
use xs_instr::{Code, Emitter, Instr, Reg};
use xw_words::{Memory, Pos};

/// Behind how much code a step may stand.
const MOST_BEFORE: u32 = 2000;

/// The code of some steps, behind that of the memory's words.
pub fn code_of(alloc: Global, plan: &Plan, steps: &str) -> Result<Code, Trouble> {
    let mut e = begun(alloc, &MEMORY)?;
    for step in steps.split(" ; ") {
        if e.here() > MOST_BEFORE {
            return Err(Trouble::Long);
        }
        add_step(alloc, &mut e, plan, step)?;
    }
    finished(e)
}

fn add_step(alloc: Global, e: &mut Emitter, plan: &Plan, step: &str) -> Result<(), Trouble>
    requires few { length e.old ≤ 2000 }
    requires aimed { AreAimed 0 e.old }
    ensures aimed { OnOk result (AreAimed 0 e.new) }
{
    let (word, rest) = step.split_once(' ').ok_or(Trouble::Line)?;
    match word {
        "give" => add_give(alloc, e, plan, rest),
        "set" => add_set(alloc, e, plan, rest),
        "zero" => add_zero(e, plan, rest),
        "out" => add_port_out(alloc, e, plan, rest),
        "in" => add_port_in(alloc, e, plan, rest),
        "timer" => add_timer_in(alloc, e, plan, rest),
        "enter" => add_entry(alloc, e, plan, rest),
        "while" => add_loop(alloc, e, plan, rest),
        "pass" => add_pass(alloc, e, plan, rest),
        _ => Err(Trouble::Line),
    }
}

/// `EXPRESSION`: its word goes out.
fn add_give(alloc: Global, e: &mut Emitter, plan: &Plan, text: &str) -> Result<(), Trouble>
    requires few { length e.old ≤ 2000 }
    requires aimed { AreAimed 0 e.old }
    ensures aimed { OnOk result (AreAimed 0 e.new) }
{
    let x = expression(alloc, text)?;
    add_expression(e, plan, &x, Reg::R5)?;
    add(e, Instr::Ldc(Reg::R11, 0))?;
    add(e, Instr::Out(Reg::R11, Reg::R5))?;
    Ok(())
}

/// `PLACE | EXPRESSION`
fn add_set(alloc: Global, e: &mut Emitter, plan: &Plan, text: &str) -> Result<(), Trouble>
    requires few { length e.old ≤ 2000 }
    requires aimed { AreAimed 0 e.old }
    ensures aimed { OnOk result (AreAimed 0 e.new) }
{
    let (dst, x) = text.split_once(" | ").ok_or(Trouble::Line)?;
    let dst = place(alloc, dst)?;
    let x = expression(alloc, x)?;
    let set = emit_set(e, plan, &dst, &x);
    drop(dst);
    drop(x);
    Ok(set?)
}

/// `VARIABLE`
fn add_zero(e: &mut Emitter, plan: &Plan, text: &str) -> Result<(), Trouble>
    requires few { length e.old ≤ 2000 }
    requires aimed { AreAimed 0 e.old }
    ensures aimed { OnOk result (AreAimed 0 e.new) }
{
    let v = number(text)?;
    if !is_short(plan, v) {
        return Err(Trouble::Long);
    }
    emit_zero(e, plan, v)?;
    Ok(())
}

/// Whether a variable's code of zeros is short.
fn is_short(plan: &Plan, v: u32) -> bool
    ensures { OnTrue result (room_of (var_in plan.now.vars v) ≤ 100) }
{
    match plan.placed(v) {
        None => true,
        Some(found) => match found.place {
            VarAt::Near(_) | VarAt::Far(_) => found.words <= 40,
            VarAt::Through(_) => true,
        },
    }
}

/// `TEST | PLACE | EXPRESSION`
fn add_loop(alloc: Global, e: &mut Emitter, plan: &Plan, text: &str) -> Result<(), Trouble>
    requires few { length e.old ≤ 2000 }
    requires aimed { AreAimed 0 e.old }
    ensures aimed { OnOk result (AreAimed 0 e.new) }
{
    let (test, rest) = text.split_once(" | ").ok_or(Trouble::Line)?;
    let (dst, x) = rest.split_once(" | ").ok_or(Trouble::Line)?;
    let test = expression(alloc, test)?;
    let dst = place(alloc, dst)?;
    let x = expression(alloc, x)?;
    let added = add_while(e, plan, &test, &dst, &x, NAME);
    drop(test);
    drop(dst);
    drop(x);
    Ok(added?)
}

/// The code that sets a place while an expression isn't 0.
fn add_while(
    e: &mut Emitter,
    plan: &Plan,
    test: &Kx,
    dst: &Place,
    x: &Kx,
    pos: Pos,
) -> Result<(), Memory>
    requires few { length e.old ≤ 2000 }
    requires aimed { AreAimed 0 e.old }
    requires nodes_test { nodes (expression_of test.now) ≤ 1000 }
    requires depth_test { depth (expression_of test.now) ≤ 400 }
    requires nodes { nodes (expression_of x.now) ≤ 1000 }
    requires depth { depth (expression_of x.now) ≤ 400 }
    requires nodes_at { nodes_at (place_of dst.now) ≤ 1000 }
    requires depth_at { depth_at (place_of dst.now) ≤ 400 }
    ensures aimed { OnOk result (AreAimed 0 e.new) }
{
    let top = e.here();
    let out = emit_test(e, plan, test, pos)?;
    emit_set(e, plan, dst, x)?;
    emit_back(e, top, pos)?;
    e.land(out);
    Ok(())
}

/// `PLACE | EXPRESSION`
fn add_pass(alloc: Global, e: &mut Emitter, plan: &Plan, text: &str) -> Result<(), Trouble>
    requires few { length e.old ≤ 2000 }
    requires aimed { AreAimed 0 e.old }
    ensures aimed { OnOk result (AreAimed 0 e.new) }
{
    let (dst, x) = text.split_once(" | ").ok_or(Trouble::Line)?;
    let dst = place(alloc, dst)?;
    let x = expression(alloc, x)?;
    let added = add_passed(e, plan, &dst, &x, NAME);
    drop(dst);
    drop(x);
    Ok(added?)
}

/// The code of an assignment, and of a jump over it.
fn add_passed(e: &mut Emitter, plan: &Plan, dst: &Place, x: &Kx, pos: Pos) -> Result<(), Memory>
    requires few { length e.old ≤ 2000 }
    requires aimed { AreAimed 0 e.old }
    requires nodes { nodes (expression_of x.now) ≤ 1000 }
    requires depth { depth (expression_of x.now) ≤ 400 }
    requires nodes_at { nodes_at (place_of dst.now) ≤ 1000 }
    requires depth_at { depth_at (place_of dst.now) ≤ 400 }
    ensures aimed { OnOk result (AreAimed 0 e.new) }
{
    let over = emit_jump(e, pos)?;
    emit_set(e, plan, dst, x)?;
    e.land(over);
    Ok(())
}
