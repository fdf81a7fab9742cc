ghost use Rattle.std.specs.Prelude.{◌≡◌, ◌+◌, ◌*◌, ◌<◌, ◌≤◌, ◌^◌, ◌++◌, length, OnOk, OnErr};
ghost use Rattle.xl_expr.specs.Plans.{var_in};
ghost use Rattle.xl_expr.specs.Targets.{AreAimed};
ghost use Rattle.xl_flow.specs.Zeros.{Zeroes, far_write, near_write, room_of, writes, zero_code};
ghost use Rattle.xs_instr.specs.Adds.{Adds};
ghost use Rattle.xs_instr.specs.Extends.{Extends};
ghost use Rattle.xs_instr.specs.Lines.{last_pos, at_pos};

use xl_expr::{Plan, VarAt};
use xs_instr::{Emitter, Instr, Reg};
use xw_words::{Memory, Pos};

/// The code that sets all words of a variable to 0; of an array of which the plan has one element alone, that element. `zeroes`
/// says what it does: wherever it stands from this index on, where the plan's layout holds, and whatever other threads do in
/// between that leaves what this one relies on, it comes to the next index with these words 0 and all other words that it
/// relies on as they were, within two steps for each word and two more, of which the last one writes the last word.
///
/// The one error is want of memory; the emitter then holds what it held, and perhaps further instructions behind it.
pub fn emit_zero(e: &mut Emitter, plan: &Plan, v: u32) -> Result<(), Memory>
    requires room { length e.old + room_of (var_in plan.now.vars v) < 2 ^ 32 }
    ensures size { OnOk result (length e.new ≤ length e.old + room_of (var_in plan.now.vars v)) }
    ensures code { OnOk result (e.new ≡ e.old ++ zero_code plan.now.vars v (last_pos e.old)) }
    ensures zeroes { OnOk result (Adds e.old e.new (Zeroes plan.now.vars v (length e.old))) }
    ensures aimed { OnOk result (Adds e.old e.new (AreAimed (length e.old))) }
    ensures refused { OnErr result (Extends e.old e.new) }
{
    let last = e.pos();
    put_zero(e, plan, v, last)?;
    Ok(())
}

/// The same, where an instruction without a place of its own has the place `last`.
fn put_zero(e: &mut Emitter, plan: &Plan, v: u32, last: Pos) -> Result<(), Memory>
    requires room { length e.old + room_of (var_in plan.now.vars v) < 2 ^ 32 }
    ensures code { OnOk result (e.new ≡ e.old ++ zero_code plan.now.vars v last) }
    ensures refused { OnErr result (Extends e.old e.new) }
{
    match plan.placed(v) {
        None => Ok(()),
        Some(found) => match found.place {
            VarAt::Near(n) => {
                e.put_all(&[Instr::Ldc(Reg::R0, 0)], last)?;
                put_near_writes(e, n, found.words, last)?;
                Ok(())
            }
            VarAt::Far(n) => {
                e.put_all(&[Instr::Ldc(Reg::R0, 0), Instr::Ldwdp(Reg::R11, n)], last)?;
                put_far_writes(e, found.words, last)?;
                Ok(())
            }
            VarAt::Through(n) => {
                e.put_all(&[Instr::Ldc(Reg::R0, 0), Instr::Ldwdp(Reg::R11, n)], last)?;
                put_far_writes(e, 1, last)?;
                Ok(())
            }
        },
    }
}

/// Writes r0 to so many words from dp + 4n on.
fn put_near_writes(e: &mut Emitter, n: u32, words: u32, pos: Pos) -> Result<(), Memory>
    requires { length e.old + words < 2 ^ 32 }
    ensures code { OnOk result (e.new ≡ e.old ++ at_pos pos (writes (near_write n) words)) }
    ensures refused { OnErr result (Extends e.old e.new) }
{
    'words: for i in 0..words {
        e.put_all(&[Instr::Stwdp(Reg::R0, n.wrapping_add(i))], pos)?;
    }
    Ok(())
}

/// Writes r0 to so many words from the address in r11 on.
fn put_far_writes(e: &mut Emitter, words: u32, pos: Pos) -> Result<(), Memory>
    requires { length e.old + 2 * words < 2 ^ 32 }
    ensures code { OnOk result (e.new ≡ e.old ++ at_pos pos (writes far_write words)) }
    ensures refused { OnErr result (Extends e.old e.new) }
{
    'words: for i in 0..words {
        e.put_all(
            &[
                Instr::Ldc(Reg::R10, i),
                Instr::Stw(Reg::R0, Reg::R11, Reg::R10),
            ],
            pos,
        )?;
    }
    Ok(())
}
