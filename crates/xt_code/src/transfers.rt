//! Transfers as the cases write them: outputs to ports, inputs from ports and timers, and where the case of a select begins.

ghost use Rattle.std.specs.Prelude.{◌≤◌, length, option_map, IfOk, OnOk};
ghost use Rattle.xc_kernel.specs.Kernels.{condition_of, expression_of, input_of, output_of as plain_output, place_of};
ghost use Rattle.xl_expr.specs.Destinations.{dest_depth, dest_nodes};
ghost use Rattle.xl_expr.specs.Targets.{AreAimed};
ghost use Rattle.xl_port.specs.Inputs.{input_depth, input_nodes};
ghost use Rattle.xl_port.specs.Outputs.{output_depth, output_nodes};
ghost use Rattle.xl_port.specs.Timings.{time_depth, time_nodes, timing_expression};

use crate::expressions::{NAME, expression, number, place};
use crate::trouble::Trouble;
use std::alloc::Global;
use xc_kernel::{KHead, KOut, KRes, Kx, Place};
use xc_tree::words::{PINSEQ_WORD, PINSNEQ_WORD, TIMERAFTER_WORD};
use xl_expr::Plan;
use xl_port::{emit_port_in, emit_port_out, emit_timer_in};
use xl_select::open_case;
use xs_instr::Emitter;

/// What may stand behind the port or timer of a transfer, as text.
#[derive(Clone, Copy)]
struct Parts<'t> {
    time: Option<&'t str>,
    /// The test as the place of its word in `WORDS`, and what is in its brackets.
    condition: Option<(u8, &'t str)>,
    target: Option<&'t str>,
    stamp: Option<&'t str>,
}

/// `PORT VALUE`, and `at X` and `stamp PLACE` behind it.
pub fn add_port_out(alloc: Global, e: &mut Emitter, plan: &Plan, text: &str) -> Result<(), Trouble>
    requires few { length e.old ≤ 2000 }
    requires aimed { AreAimed 0 e.old }
    ensures aimed { OnOk result (AreAimed 0 e.new) }
{
    let (front, parts) = parted(text)?;
    let (port, value) = front.split_once(' ').ok_or(Trouble::Line)?;
    let output = output_of(alloc, number(port)?, value, parts)?;
    let added = emit_port_out(e, plan, &output);
    drop(output);
    Ok(added?)
}

/// `PORT`, and one of `at X`, `pinseq X` and `pinsneq X`, `to PLACE` and `stamp PLACE` behind it.
pub fn add_port_in(alloc: Global, e: &mut Emitter, plan: &Plan, text: &str) -> Result<(), Trouble>
    requires few { length e.old ≤ 2000 }
    requires aimed { AreAimed 0 e.old }
    ensures aimed { OnOk result (AreAimed 0 e.new) }
{
    let (port, parts) = parted(text)?;
    let head = head_of(alloc, KRes::Port(number(port)?), parts)?;
    let added = emit_port_in(e, plan, &head);
    drop(head);
    Ok(added?)
}

/// `TIMER`, and `timerafter X` and `to PLACE` behind it.
pub fn add_timer_in(alloc: Global, e: &mut Emitter, plan: &Plan, text: &str) -> Result<(), Trouble>
    requires few { length e.old ≤ 2000 }
    requires aimed { AreAimed 0 e.old }
    ensures aimed { OnOk result (AreAimed 0 e.new) }
{
    let (timer, parts) = parted(text)?;
    if parts.time.is_some() || parts.stamp.is_some() {
        return Err(Trouble::Line);
    }
    let head = head_of(alloc, KRes::Timer(number(timer)?), parts)?;
    let added = emit_timer_in(e, plan, &head);
    drop(head);
    Ok(added?)
}

/// `PORT`, and `to PLACE` and `stamp PLACE` behind it.
pub fn add_entry(alloc: Global, e: &mut Emitter, plan: &Plan, text: &str) -> Result<(), Trouble>
    requires few { length e.old ≤ 2000 }
    requires aimed { AreAimed 0 e.old }
    ensures aimed { OnOk result (AreAimed 0 e.new) }
{
    let (port, parts) = parted(text)?;
    if parts.time.is_some() || parts.condition.is_some() {
        return Err(Trouble::Line);
    }
    let head = head_of(alloc, KRes::Port(number(port)?), parts)?;
    let added = open_case(e, plan, &head, 0, true);
    drop(head);
    Ok(added?)
}

/// What stands in front of all parts, and the parts.
fn parted(text: &str) -> Result<(&str, Parts<'_>), Trouble> {
    let mut parts = Parts {
        time: None,
        condition: None,
        target: None,
        stamp: None,
    };
    let Some((front, rest)) = text.split_once(" | ") else {
        return Ok((text, parts));
    };
    for part in rest.split(" | ") {
        let (word, rest) = part.split_once(' ').ok_or(Trouble::Line)?;
        match word {
            "at" => parts.time = Some(rest),
            "to" => parts.target = Some(rest),
            "stamp" => parts.stamp = Some(rest),
            _ => parts.condition = Some((test_of(word)?, rest)),
        }
    }
    Ok((front, parts))
}

/// The place of a test's word in `WORDS`.
fn test_of(word: &str) -> Result<u8, Trouble> {
    match word {
        "pinseq" => Ok(PINSEQ_WORD),
        "pinsneq" => Ok(PINSNEQ_WORD),
        "timerafter" => Ok(TIMERAFTER_WORD),
        _ => Err(Trouble::Line),
    }
}

fn output_of(alloc: Global, port: u32, value: &str, parts: Parts<'_>) -> Result<KOut, Trouble>
    ensures nodes { IfOk result (λ output. output_nodes (plain_output output) ≤ 3000) }
    ensures depth { IfOk result (λ output. output_depth (plain_output output) ≤ 400) }
{
    if parts.condition.is_some() || parts.target.is_some() {
        return Err(Trouble::Line);
    }
    let time = time_of(alloc, parts.time)?;
    let value = expression(alloc, value)?;
    let stamp = target_of(alloc, parts.stamp)?;
    Ok(KOut {
        res: KRes::Port(port),
        time,
        value,
        stamp,
        pos: NAME,
    })
}

fn head_of(alloc: Global, res: KRes, parts: Parts<'_>) -> Result<KHead, Trouble>
    ensures nodes { IfOk result (λ head. input_nodes (input_of head) ≤ 3000) }
    ensures depth { IfOk result (λ head. input_depth (input_of head) ≤ 400) }
{
    let (time, cond) = timing_of(alloc, parts)?;
    let dest = target_of(alloc, parts.target)?;
    let stamp = target_of(alloc, parts.stamp)?;
    Ok(KHead {
        res,
        time,
        cond,
        dest,
        stamp,
        pos: NAME,
    })
}

/// The time or the condition. No transfer has both.
fn timing_of(alloc: Global, parts: Parts<'_>) -> Result<(Option<Kx>, Option<(u8, Kx)>), Trouble>
    ensures nodes { IfOk result (λ timing. time_nodes (timing_expression
        (option_map expression_of timing.0) (option_map condition_of timing.1)) ≤ 1000) }
    ensures depth { IfOk result (λ timing. time_depth (timing_expression
        (option_map expression_of timing.0) (option_map condition_of timing.1)) ≤ 400) }
{
    match (parts.time, parts.condition) {
        (None, None) => Ok((None, None)),
        (Some(time), None) => {
            let time = expression(alloc, time)?;
            Ok((Some(time), None))
        }
        (None, Some((test, value))) => {
            let value = expression(alloc, value)?;
            Ok((None, Some((test, value))))
        }
        (Some(_), Some(_)) => Err(Trouble::Line),
    }
}

fn time_of(alloc: Global, text: Option<&str>) -> Result<Option<Kx>, Trouble>
    ensures nodes { IfOk result (λ time. time_nodes (option_map expression_of time) ≤ 1000) }
    ensures depth { IfOk result (λ time. time_depth (option_map expression_of time) ≤ 400) }
{
    match text {
        None => Ok(None),
        Some(text) => {
            let time = expression(alloc, text)?;
            Ok(Some(time))
        }
    }
}

fn target_of(alloc: Global, text: Option<&str>) -> Result<Option<Place>, Trouble>
    ensures nodes { IfOk result (λ target. dest_nodes (option_map place_of target) ≤ 1000) }
    ensures depth { IfOk result (λ target. dest_depth (option_map place_of target) ≤ 400) }
{
    match text {
        None => Ok(None),
        Some(text) => {
            let target = place(alloc, text)?;
            Ok(Some(target))
        }
    }
}
