//! The code of outputs to ports.
ghost use Rattle.std.specs.Prelude.{◌≡◌, ◌+◌, ◌*◌, ◌<◌, ◌≤◌, ◌^◌, length, option_map, None, OnOk, OnErr};
ghost use Rattle.xc_kernel.specs.Kernels.{expression_of, output_of};
ghost use Rattle.xs_instr.specs.Adds.{Adds};
ghost use Rattle.xs_instr.specs.Extends.{Extends};
ghost use Rattle.xl_expr.specs.Targets.{AreAimed};
ghost use Rattle.xl_port.specs.Outputs.{DrivesPort, Outputs, driving_depth, driving_nodes, output_depth, output_nodes};
ghost use Rattle.xl_port.specs.Timings.{time_depth, time_nodes};
ghost use Rattle.xl_port.specs.Waits.{TimeEvaluates, waits_for};

use crate::setting::{Waits, emit_transfer};
use crate::stamp::emit_stamp;
use xc_kernel::{KOut, Kx};
use xl_expr::{Plan, emit_expr};
use xs_instr::{Emitter, Instr, Reg};
use xw_words::Memory;

/// The code of an output to a port: the time's word, the value's, the transfer, and then the store of the port's counter of then,
/// where there is a place for it.
///
/// `outputs` says what the code does: wherever it stands from this index on, where the plan's layout holds, and whatever other
/// threads do in between that leaves what this one relies on, it comes, within 8 steps for each node of its time and value and four
/// more, to where its next step puts the value out as soon as the time is come, with the port's name as its place; or to where the
/// next step traps with the error of the time, else of the value. The time is a value of the port's counter, of which 16 bits count.
/// Behind the transfer the stamp is stored by `stamps`.
///
/// The one error is want of memory; the emitter then holds what it held, and perhaps further instructions behind it.
pub fn emit_port_out(e: &mut Emitter, plan: &Plan, o: &KOut) -> Result<(), Memory>
    requires room { length e.old + 8 * output_nodes (output_of o.now) + 8 < 2 ^ 32 }
    requires shallow { output_depth (output_of o.now) ≤ 400 }
    ensures size { OnOk result
        (length e.new ≤ length e.old + 8 * output_nodes (output_of o.now) + 8) }
    ensures outputs { OnOk result
        (Adds e.old e.new (Outputs plan.now (output_of o.now) (length e.old))) }
    ensures aimed { OnOk result (Adds e.old e.new (AreAimed (length e.old))) }
    ensures refused { OnErr result (Extends e.old e.new) }
{
    emit_drive(e, plan, o)?;
    emit_stamp(e, plan, o.res, &o.stamp, o.pos)?;
    Ok(())
}

/// The code of the transfer.
fn emit_drive(e: &mut Emitter, plan: &Plan, o: &KOut) -> Result<(), Memory>
    requires room { length e.old + 8 * driving_nodes (output_of o.now) + 5 < 2 ^ 32 }
    requires shallow { driving_depth (output_of o.now) ≤ 400 }
    ensures size { OnOk result
        (length e.new ≤ length e.old + 8 * driving_nodes (output_of o.now) + 5) }
    ensures drives { OnOk result
        (Adds e.old e.new (DrivesPort plan.now (output_of o.now) (length e.old))) }
    ensures aimed { OnOk result (Adds e.old e.new (AreAimed (length e.old))) }
    ensures refused { OnErr result (Extends e.old e.new) }
{
    let own = Instr::Out(Reg::R11, Reg::R0);
    emit_time(e, plan, &o.time)?;
    emit_expr(e, plan, &o.value, Reg::R0)?;
    emit_transfer(e, plan, o.res, waits_of_time(&o.time), own, o.pos)?;
    Ok(())
}

/// What an output waits for.
fn waits_of_time(time: &Option<Kx>) -> Waits
    ensures { result ≡ waits_for (option_map expression_of time.now) None }
{
    match time {
        Some(_) => Waits::Time,
        None => Waits::AtOnce,
    }
}

/// The code that gives the time's word in r10, where there is a time.
fn emit_time(e: &mut Emitter, plan: &Plan, time: &Option<Kx>) -> Result<(), Memory>
    requires room { length e.old + 8 * time_nodes (option_map expression_of time.now) < 2 ^ 32 }
    requires shallow { time_depth (option_map expression_of time.now) ≤ 400 }
    ensures size { OnOk result
        (length e.new ≤ length e.old + 8 * time_nodes (option_map expression_of time.now)) }
    ensures adds { OnOk result (Adds e.old e.new
        (TimeEvaluates plan.now.vars (option_map expression_of time.now) (length e.old))) }
    ensures aimed { OnOk result (Adds e.old e.new (AreAimed (length e.old))) }
    ensures refused { OnErr result (Extends e.old e.new) }
{
    match time {
        None => Ok(()),
        Some(time) => {
            emit_expr(e, plan, time, Reg::R10)?;
            Ok(())
        }
    }
}
