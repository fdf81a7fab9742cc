//! The code at which a case of a select begins, once it was taken.
ghost use Rattle.std.specs.Prelude.{◌+◌, ◌*◌, ◌<◌, ◌≤◌, ◌^◌, length, OnOk, OnErr};
ghost use Rattle.xc_kernel.specs.Kernels.{input_of};
ghost use Rattle.xs_instr.specs.Adds.{Adds};
ghost use Rattle.xs_instr.specs.Extends.{Extends};
ghost use Rattle.xl_expr.specs.Targets.{AreAimed};
ghost use Rattle.xl_select.specs.Entry.{EntersCase, EntersPortCase, EntersTimerCase, ReadsPortLatch, ReadsTimerLatch};
ghost use Rattle.xl_select.specs.Entry.{entry_depth, entry_nodes};

use xc_kernel::{KHead, KRes};
use xl_chan::emit_receive;
use xl_expr::{Plan, emit_destination};
use xl_port::{emit_stamp, emit_with_name};
use xs_instr::{Emitter, Instr, Reg};
use xw_words::Memory;

/// The code at which a case begins, behind the taking of its event. Of a port or timer it is the input of what it latched then, and
/// of a channel the whole input, from this end of it. The word is stored behind it, and of a port its counter then, where there are
/// places for them. Of a port or timer `end` and `plain` aren't looked at; of a channel `plain` is false where no end of a message is
/// awaited.
///
/// `enters` says what the code does, wherever it stands from this index on. In a core where the plan has the port or timer, and it has
/// latched something, the thread's next step reads that to r0 after at most two steps, with the resource's name as its place, and never
/// pauses. Other threads may do in between what leaves what this one relies on. Behind it `writes` and `stamps` say what is stored. A
/// timer has no stamp, as the rules of types have it. Of a channel it is what `emit_receive` says.
///
/// The one error is want of memory; the emitter then holds what it held, and perhaps further instructions behind it.
pub fn open_case(
    e: &mut Emitter,
    plan: &Plan,
    h: &KHead,
    end: u32,
    plain: bool,
) -> Result<(), Memory>
    requires room { length e.old + 8 * entry_nodes (input_of h.now) + 6 < 2 ^ 32 }
    requires shallow { entry_depth (input_of h.now) ≤ 400 }
    ensures size { OnOk result
        (length e.new ≤ length e.old + 8 * entry_nodes (input_of h.now) + 6) }
    ensures enters { OnOk result (Adds e.old e.new
        (EntersCase plan.now (input_of h.now) end plain (length e.old))) }
    ensures aimed { OnOk result (Adds e.old e.new (AreAimed (length e.old))) }
    ensures refused { OnErr result (Extends e.old e.new) }
{
    match h.res {
        KRes::Port(_) => open_port_case(e, plan, h),
        KRes::Timer(_) => open_timer_case(e, plan, h),
        KRes::Chan(_) => emit_receive(e, plan, end, &h.dest, plain, h.pos),
    }
}

/// The code of a port's case.
fn open_port_case(e: &mut Emitter, plan: &Plan, h: &KHead) -> Result<(), Memory>
    requires room { length e.old + 8 * entry_nodes (input_of h.now) + 6 < 2 ^ 32 }
    requires shallow { entry_depth (input_of h.now) ≤ 400 }
    ensures size { OnOk result
        (length e.new ≤ length e.old + 8 * entry_nodes (input_of h.now) + 6) }
    ensures enters { OnOk result (Adds e.old e.new
        (EntersPortCase plan.now (input_of h.now) (length e.old))) }
    ensures aimed { OnOk result (Adds e.old e.new (AreAimed (length e.old))) }
    ensures refused { OnErr result (Extends e.old e.new) }
{
    emit_latched(e, plan, h)?;
    emit_destination(e, plan, &h.dest)?;
    emit_stamp(e, plan, h.res, &h.stamp, h.pos)?;
    Ok(())
}

/// The code of a timer's case.
fn open_timer_case(e: &mut Emitter, plan: &Plan, h: &KHead) -> Result<(), Memory>
    requires room { length e.old + 8 * entry_nodes (input_of h.now) + 6 < 2 ^ 32 }
    requires shallow { entry_depth (input_of h.now) ≤ 400 }
    ensures size { OnOk result
        (length e.new ≤ length e.old + 8 * entry_nodes (input_of h.now) + 6) }
    ensures enters { OnOk result (Adds e.old e.new
        (EntersTimerCase plan.now (input_of h.now) (length e.old))) }
    ensures aimed { OnOk result (Adds e.old e.new (AreAimed (length e.old))) }
    ensures refused { OnErr result (Extends e.old e.new) }
{
    emit_latched(e, plan, h)?;
    emit_destination(e, plan, &h.dest)
}

/// The code that reads what a port or timer latched to r0.
fn emit_latched(e: &mut Emitter, plan: &Plan, h: &KHead) -> Result<(), Memory>
    requires { length e.old + 3 < 2 ^ 32 }
    ensures size { OnOk result (length e.new ≤ length e.old + 3) }
    ensures of_port { OnOk result (Adds e.old e.new
        (ReadsPortLatch plan.now (input_of h.now) (length e.old))) }
    ensures of_timer { OnOk result (Adds e.old e.new
        (ReadsTimerLatch plan.now (input_of h.now) (length e.old))) }
    ensures aimed { OnOk result (Adds e.old e.new (AreAimed (length e.old))) }
    ensures refused { OnErr result (Extends e.old e.new) }
{
    emit_with_name(e, plan, h.res, &[Instr::In(Reg::R0, Reg::R11)], h.pos)
}
