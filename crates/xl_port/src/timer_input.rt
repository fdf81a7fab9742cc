//! The code of inputs from timers.
ghost use Rattle.std.specs.Prelude.{◌+◌, ◌*◌, ◌<◌, ◌≤◌, ◌^◌, length, OnOk, OnErr};
ghost use Rattle.xc_kernel.specs.Kernels.{input_of};
ghost use Rattle.xs_instr.specs.Adds.{Adds};
ghost use Rattle.xs_instr.specs.Extends.{Extends};
ghost use Rattle.xl_expr.specs.Targets.{AreAimed};
ghost use Rattle.xl_port.specs.Inputs.{input_depth, input_nodes};
ghost use Rattle.xl_port.specs.TimerInputs.{TimerInputs};

use crate::input::emit_take;
use xc_kernel::KHead;
use xl_expr::{Plan, emit_destination};
use xs_instr::Emitter;
use xw_words::Memory;

/// The code of an input from a timer: the word of its condition, the transfer, and then the store of the clock, where there is a place
/// for it.
///
/// `timer_inputs` says what the code does: wherever it stands from this index on, where the plan's layout holds, and whatever other
/// threads do in between that leaves what this one relies on, it comes, within 8 steps for each node of the condition and four more, to
/// where its next step reads the core's clock, in ticks and all its 32 bits, to r0 as soon as it is after the condition's time, with the
/// timer's name as its place; or to where the next step traps with the condition's error. Behind the transfer the clock is stored by
/// `writes`. A timer has no stamp and no time to be set, and its condition asks for the clock, as the rules of types have it.
///
/// The one error is want of memory; the emitter then holds what it held, and perhaps further instructions behind it.
pub fn emit_timer_in(e: &mut Emitter, plan: &Plan, h: &KHead) -> Result<(), Memory>
    requires room { length e.old + 8 * input_nodes (input_of h.now) + 8 < 2 ^ 32 }
    requires shallow { input_depth (input_of h.now) ≤ 400 }
    ensures size { OnOk result
        (length e.new ≤ length e.old + 8 * input_nodes (input_of h.now) + 8) }
    ensures timer_inputs { OnOk result
        (Adds e.old e.new (TimerInputs plan.now (input_of h.now) (length e.old))) }
    ensures aimed { OnOk result (Adds e.old e.new (AreAimed (length e.old))) }
    ensures refused { OnErr result (Extends e.old e.new) }
{
    emit_take(e, plan, h)?;
    emit_destination(e, plan, &h.dest)?;
    Ok(())
}
