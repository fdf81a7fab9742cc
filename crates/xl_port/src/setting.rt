//! What a transfer waits for, and the code that sets a port or timer for it.
ghost use Rattle.std.specs.Prelude.{◌≡◌, ◌+◌, ◌*◌, ◌<◌, ◌≤◌, ◌^◌, length, option_map, OnOk, OnErr};
ghost use Rattle.xc_kernel.specs.Kernels.{condition_of, expression_of};
ghost use Rattle.xs_instr.specs.Adds.{Adds};
ghost use Rattle.xs_instr.specs.Extends.{Extends};
ghost use Rattle.xl_expr.specs.Plans.{resource_in};
ghost use Rattle.xl_expr.specs.Targets.{AreAimed};
ghost use Rattle.xl_port.specs.Timings.{time_depth, time_nodes, timing_expression};
ghost use Rattle.xl_port.specs.Waits.{TimeEvaluates, UsesName, cond_of, test_named, transfer_instrs, waits_for};

use xc_kernel::{KRes, Kx};
use xc_tree::words::{PINSEQ_WORD, PINSNEQ_WORD};
use xl_expr::{Plan, emit_expr, emit_identifier};
use xs_instr::{Cond, Emitter, Instr, Reg};
use xw_words::{Memory, Pos};

/// What a condition compares with the word in r10: a port's pins, or the clock.
#[derive(Clone, Copy)]
pub enum Test {
    PinsEqual,
    PinsDiffer,
    AfterTime,
}

/// What a transfer waits for: nothing, the counter of its port at the time in r10, or a condition.
#[derive(Clone, Copy)]
pub enum Waits {
    AtOnce,
    Time,
    Condition(Test),
}

/// The test of a condition, by its word's place in `WORDS`.
pub fn test_of(word: u8) -> Test
    ensures { result ≡ test_named word }
{
    if word == PINSEQ_WORD {
        Test::PinsEqual
    } else if word == PINSNEQ_WORD {
        Test::PinsDiffer
    } else {
        Test::AfterTime
    }
}

/// What a transfer waits for, by its time and its condition.
pub fn waits_of(time: &Option<Kx>, cond: &Option<(u8, Kx)>) -> Waits
    ensures { result
        ≡ waits_for (option_map expression_of time.now) (option_map condition_of cond.now) }
{
    match time {
        Some(_) => Waits::Time,
        None => match cond {
            Some((word, _)) => Waits::Condition(test_of(*word)),
            None => Waits::AtOnce,
        },
    }
}

/// The code that gives the word of a transfer's time in r10, else that of its condition, where there is one.
///
/// The one error is want of memory; the emitter then holds what it held, and perhaps further instructions behind it.
pub fn emit_timing(
    e: &mut Emitter,
    plan: &Plan,
    time: &Option<Kx>,
    cond: &Option<(u8, Kx)>,
) -> Result<(), Memory>
    requires room { length e.old + 8 * time_nodes (timing_expression
        (option_map expression_of time.now) (option_map condition_of cond.now)) < 2 ^ 32 }
    requires shallow { time_depth (timing_expression
        (option_map expression_of time.now) (option_map condition_of cond.now)) ≤ 400 }
    ensures size { OnOk result (length e.new ≤ length e.old + 8 * time_nodes (timing_expression
        (option_map expression_of time.now) (option_map condition_of cond.now))) }
    ensures adds { OnOk result (Adds e.old e.new (TimeEvaluates plan.now.vars (timing_expression
        (option_map expression_of time.now) (option_map condition_of cond.now)) (length e.old))) }
    ensures aimed { OnOk result (Adds e.old e.new (AreAimed (length e.old))) }
    ensures refused { OnErr result (Extends e.old e.new) }
{
    match time {
        Some(time) => emit_expr(e, plan, time, Reg::R10),
        None => match cond {
            Some((_, value)) => emit_expr(e, plan, value, Reg::R10),
            None => Ok(()),
        },
    }
}

/// The code of a transfer: it names the port or timer in r11, clears it of what was set before, sets it for what the transfer waits
/// for, by the word in r10, and goes on to the transfer's own instruction.
///
/// The one error is want of memory; the emitter then holds what it held, and perhaps further instructions behind it.
pub fn emit_transfer(
    e: &mut Emitter,
    plan: &Plan,
    res: KRes,
    waits: Waits,
    own: Instr,
    pos: Pos,
) -> Result<(), Memory>
    requires { length e.old + 5 < 2 ^ 32 }
    ensures size { OnOk result (length e.new ≤ length e.old + 5) }
    ensures adds { OnOk result (Adds e.old e.new (UsesName
        (resource_in plan.now.ports plan.now.timers res)
        (transfer_instrs waits own) pos (length e.old))) }
    ensures refused { OnErr result (Extends e.old e.new) }
{
    let clearing = Instr::Setc(Reg::R11, Cond::None);
    match waits {
        Waits::AtOnce => emit_with_name(e, plan, res, &[clearing, own], pos),
        Waits::Time => {
            let timing = Instr::Setpt(Reg::R11, Reg::R10);
            emit_with_name(e, plan, res, &[clearing, timing, own], pos)
        }
        Waits::Condition(test) => {
            let asking = Instr::Setc(Reg::R11, cond_of_test(test));
            let comparing = Instr::Setd(Reg::R11, Reg::R10);
            emit_with_name(e, plan, res, &[asking, comparing, own], pos)
        }
    }
}

/// The machine's condition of a test.
fn cond_of_test(test: Test) -> Cond
    ensures { result ≡ cond_of test }
{
    match test {
        Test::PinsEqual => Cond::Eq,
        Test::PinsDiffer => Cond::Neq,
        Test::AfterTime => Cond::After,
    }
}

/// The name of a port or timer in r11, and instructions behind it; nothing where the plan doesn't have it.
///
/// The one error is want of memory; the emitter then holds what it held, and perhaps further instructions behind it.
pub fn emit_with_name(
    e: &mut Emitter,
    plan: &Plan,
    res: KRes,
    instrs: &[Instr],
    pos: Pos,
) -> Result<(), Memory>
    requires { length e.old + length instrs.now + 2 < 2 ^ 32 }
    ensures size { OnOk result (length e.new ≤ length e.old + length instrs.now + 2) }
    ensures adds { OnOk result (Adds e.old e.new (UsesName
        (resource_in plan.now.ports plan.now.timers res) instrs.now pos (length e.old))) }
    ensures refused { OnErr result (Extends e.old e.new) }
{
    match plan.res(res) {
        None => Ok(()),
        Some(place) => {
            emit_identifier(e, place, pos)?;
            e.put_all(instrs, pos)?;
            Ok(())
        }
    }
}
