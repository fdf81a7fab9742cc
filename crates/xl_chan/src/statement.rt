ghost use Rattle.std.specs.Prelude.{◌≡◌, ◌+◌, ◌*◌, ◌<◌, ◌≤◌, ◌^◌, ◌++◌, length, option_map, OnOk, OnErr};
ghost use Rattle.xc_kernel.specs.Kernels.{expression_of, place_of};
ghost use Rattle.xs_instr.specs.Adds.{Adds};
ghost use Rattle.xs_instr.specs.Extends.{Extends};
ghost use Rattle.xl_expr.specs.Destinations.{dest_depth, dest_nodes};
ghost use Rattle.xl_expr.specs.Measures.{depth, nodes};
ghost use Rattle.xl_expr.specs.Targets.{AreAimed};
ghost use Rattle.xl_chan.specs.Transfers.{Receives, SendsValue, TakesTo};

use crate::transfer::{emit_in, emit_out};
use xc_kernel::{Kx, Place};
use xl_expr::{Plan, emit_destination, emit_expr};
use xs_instr::{Emitter, Reg};
use xw_words::{Memory, Pos};

/// The code of an output over a channel: the value's word, and then its transfer, by `emit_out`.
///
/// `sends` says what the code does: wherever it stands from this index on, where the plan's layout holds, and whatever other threads
/// do in between that leaves what this one relies on, it comes, within 8 steps for each node of the value and three more, to where it
/// takes the steps of the protocol; or to where the next step traps with the value's error.
///
/// The one error is want of memory; the emitter then holds what it held, and perhaps further instructions behind it.
pub fn emit_send(
    e: &mut Emitter,
    plan: &Plan,
    end: u32,
    value: &Kx,
    plain: bool,
    pos: Pos,
) -> Result<(), Memory>
    requires room { length e.old + 8 * nodes (expression_of value.now) + 6 < 2 ^ 32 }
    requires shallow { depth (expression_of value.now) ≤ 400 }
    ensures size { OnOk result
        (length e.new ≤ length e.old + 8 * nodes (expression_of value.now) + 6) }
    ensures sends { OnOk result (Adds e.old e.new
        (SendsValue plan.now end (expression_of value.now) plain pos (length e.old))) }
    ensures aimed { OnOk result (Adds e.old e.new (AreAimed (length e.old))) }
    ensures refused { OnErr result (Extends e.old e.new) }
{
    emit_expr(e, plan, value, Reg::R0)?;
    emit_out(e, plan, end, Reg::R0, plain, pos)?;
    Ok(())
}

/// The code of an input over a channel: the transfer, by `emit_in`, and then the write of the word, where there is a place for it.
///
/// `takes` says what the code does: wherever it stands from this index on, where the plan has the end, and whatever other threads do
/// in between that leaves what this one relies on, it comes within three steps to where it takes the steps of the protocol. Behind
/// them, where the layout of the place holds then, it writes the word, or traps with the error of the place's index, within 8 steps
/// for each node. `receives` says the same by its two parts.
///
/// The one error is want of memory; the emitter then holds what it held, and perhaps further instructions behind it.
pub fn emit_receive(
    e: &mut Emitter,
    plan: &Plan,
    end: u32,
    dest: &Option<Place>,
    plain: bool,
    pos: Pos,
) -> Result<(), Memory>
    requires room { length e.old + 8 * dest_nodes (option_map place_of dest.now) + 6 < 2 ^ 32 }
    requires shallow { dest_depth (option_map place_of dest.now) ≤ 400 }
    ensures size { OnOk result
        (length e.new ≤ length e.old + 8 * dest_nodes (option_map place_of dest.now) + 6) }
    ensures takes { OnOk result (Adds e.old e.new
        (TakesTo plan.now end (option_map place_of dest.now) plain pos (length e.old))) }
    ensures receives { OnOk result (Adds e.old e.new
        (Receives plan.now end (option_map place_of dest.now) plain pos (length e.old))) }
    ensures aimed { OnOk result (Adds e.old e.new (AreAimed (length e.old))) }
    ensures refused { OnErr result (Extends e.old e.new) }
{
    emit_in(e, plan, end, Reg::R0, plain, pos)?;
    emit_destination(e, plan, dest)?;
    Ok(())
}
