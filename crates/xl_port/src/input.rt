//! The code of inputs from ports.
ghost use Rattle.std.specs.Prelude.{◌+◌, ◌*◌, ◌<◌, ◌≤◌, ◌^◌, length, OnOk, OnErr};
ghost use Rattle.xc_kernel.specs.Kernels.{input_of};
ghost use Rattle.xs_instr.specs.Adds.{Adds};
ghost use Rattle.xs_instr.specs.Extends.{Extends};
ghost use Rattle.xl_expr.specs.Targets.{AreAimed};
ghost use Rattle.xl_port.specs.Inputs.{Inputs, input_depth, input_nodes, waiting_depth, waiting_nodes};
ghost use Rattle.xl_port.specs.Waits.{TakesIn};

use crate::setting::{emit_timing, emit_transfer, waits_of};
use crate::stamp::emit_stamp;
use xc_kernel::KHead;
use xl_expr::{Plan, emit_destination};
use xs_instr::{Emitter, Instr, Reg};
use xw_words::Memory;

/// The code of an input from a port: the word of its time or condition, the transfer, the store of the value where there is a place for
/// it, and then the store of the port's counter of the transfer, where there is a place for that.
///
/// `inputs` says what the code does: wherever it stands from this index on, where the plan's layout holds, and whatever other threads
/// do in between that leaves what this one relies on, it comes, within 8 steps for each node of the time or condition and four more,
/// to where its next step reads the port's pins to r0 as soon as they meet what it waits for, with the port's name as its place; or to
/// where the next step traps with the error of the time or condition. The time is a value of the port's counter, of which 16 bits count;
/// of the condition's word those count that the port has. Its condition asks for its pins, as the rules of types have it. Behind the
/// transfer value and stamp are stored by `writes` and `stamps`.
///
/// The one error is want of memory; the emitter then holds what it held, and perhaps further instructions behind it.
pub fn emit_port_in(e: &mut Emitter, plan: &Plan, h: &KHead) -> Result<(), Memory>
    requires room { length e.old + 8 * input_nodes (input_of h.now) + 8 < 2 ^ 32 }
    requires shallow { input_depth (input_of h.now) ≤ 400 }
    ensures size { OnOk result
        (length e.new ≤ length e.old + 8 * input_nodes (input_of h.now) + 8) }
    ensures inputs { OnOk result
        (Adds e.old e.new (Inputs plan.now (input_of h.now) (length e.old))) }
    ensures aimed { OnOk result (Adds e.old e.new (AreAimed (length e.old))) }
    ensures refused { OnErr result (Extends e.old e.new) }
{
    emit_take(e, plan, h)?;
    emit_destination(e, plan, &h.dest)?;
    emit_stamp(e, plan, h.res, &h.stamp, h.pos)?;
    Ok(())
}

/// The code of the transfer, of a port or a timer, which leaves the value in r0.
///
/// The one error is want of memory; the emitter then holds what it held, and perhaps further instructions behind it.
pub fn emit_take(e: &mut Emitter, plan: &Plan, h: &KHead) -> Result<(), Memory>
    requires room { length e.old + 8 * waiting_nodes (input_of h.now) + 5 < 2 ^ 32 }
    requires shallow { waiting_depth (input_of h.now) ≤ 400 }
    ensures size { OnOk result
        (length e.new ≤ length e.old + 8 * waiting_nodes (input_of h.now) + 5) }
    ensures takes { OnOk result
        (Adds e.old e.new (TakesIn plan.now (input_of h.now) (length e.old))) }
    ensures aimed { OnOk result (Adds e.old e.new (AreAimed (length e.old))) }
    ensures refused { OnErr result (Extends e.old e.new) }
{
    let own = Instr::In(Reg::R0, Reg::R11);
    emit_timing(e, plan, &h.time, &h.cond)?;
    emit_transfer(e, plan, h.res, waits_of(&h.time, &h.cond), own, h.pos)?;
    Ok(())
}
