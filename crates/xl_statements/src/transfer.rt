// The code of outputs and inputs.

ghost use Rattle.std.specs.Prelude.{◌+◌, ◌*◌, ◌<◌, ◌≤◌, ◌^◌, [], length, OnOk, OnErr};
ghost use Rattle.xc_kernel.specs.Kernels.{input_of, output_of};
ghost use Rattle.xc_kernel.specs.Plain as kernel;
ghost use Rattle.xs_instr.specs.Extends.{Extends};
ghost use Rattle.xl_ends.specs.Sides.{sides_of};
ghost use Rattle.xl_statements.specs.Built.{IsBuilt, IsShallow, most};
ghost use Rattle.xl_statements.specs.Emits.{Emits, Emitted};

use xc_kernel::{KHead, KOut, KRes};
use xl_chan::{emit_receive, emit_send};
use xl_ends::{Side, end_at};
use xl_expr::Plan;
use xl_port::{emit_port_in, emit_port_out, emit_timer_in};
use xs_instr::Emitter;
use xw_words::Memory;

/// The code of an output: to a port, or over a channel from the end of the side in which it stands.
pub(crate) fn emit_output(
    e: &mut Emitter,
    plan: &Plan,
    sides: &[Option<Side>],
    output: &KOut,
) -> Result<(), Memory>
    requires built { IsBuilt (kernel.output (output_of output.now)) }
    requires shallow { IsShallow (kernel.output (output_of output.now)) }
    requires room { length e.old
        + most plan.now.vars (kernel.output (output_of output.now)) < 2 ^ 32 }
    ensures code { OnOk result (Emitted
        (Emits plan.now (sides_of sides.now) (kernel.output (output_of output.now)))
        e.old e.new [] []) }
    ensures size { OnOk result (length e.new
        ≤ length e.old + most plan.now.vars (kernel.output (output_of output.now))) }
    ensures refused { OnErr result (Extends e.old e.new) }
{
    match output.res {
        KRes::Port(_) => emit_port_out(e, plan, output),
        KRes::Timer(_) => unreachable!(),
        KRes::Chan(channel) => match end_at(plan.channels.as_slice(), sides, channel) {
            None => Ok(()),
            Some(end) => emit_send(e, plan, end, &output.value, true, output.pos),
        },
    }
}

/// The code of an input: from a port, from a timer, or over a channel at the end of the side in which it stands.
pub(crate) fn emit_input(
    e: &mut Emitter,
    plan: &Plan,
    sides: &[Option<Side>],
    input: &KHead,
) -> Result<(), Memory>
    requires shallow { IsShallow (kernel.input (input_of input.now)) }
    requires room { length e.old + most plan.now.vars (kernel.input (input_of input.now)) < 2 ^ 32 }
    ensures code { OnOk result (Emitted
        (Emits plan.now (sides_of sides.now) (kernel.input (input_of input.now)))
        e.old e.new [] []) }
    ensures size { OnOk result (length e.new
        ≤ length e.old + most plan.now.vars (kernel.input (input_of input.now))) }
    ensures refused { OnErr result (Extends e.old e.new) }
{
    match input.res {
        KRes::Port(_) => emit_port_in(e, plan, input),
        KRes::Timer(_) => emit_timer_in(e, plan, input),
        KRes::Chan(channel) => match end_at(plan.channels.as_slice(), sides, channel) {
            None => Ok(()),
            Some(end) => emit_receive(e, plan, end, &input.dest, true, input.pos),
        },
    }
}
