ghost use Rattle.std.specs.Prelude.{◌≡◌, ◌+◌, ◌<◌, ◌≤◌, ◌^◌, ◌++◌, length, OnOk, OnErr};
ghost use Rattle.xs_instr.specs.Lines.{at_pos};
ghost use Rattle.xl_expr.specs.Identifiers.{Identifies, identifier_instrs};
ghost use Rattle.xl_expr.specs.Targets.{AreAimed};
ghost use Rattle.xs_instr.specs.Adds.{Adds};
ghost use Rattle.xs_instr.specs.Extends.{Extends};

use crate::plan::ResAt;
use xs_instr::{Emitter, Instr, Reg};
use xw_words::{Memory, Pos};

/// The code that gives a resource's identifier in r11, as every piece begins that uses one. `identifies` says what it does, wherever it
/// stands and whatever other threads do in between.
///
/// The one error is want of memory; the emitter then holds what it held, and perhaps further instructions behind it.
pub fn emit_identifier(e: &mut Emitter, place: ResAt, pos: Pos) -> Result<(), Memory>
    requires { length e.old + 2 < 2 ^ 32 }
    ensures size { OnOk result (length e.new ≤ length e.old + 2) }
    ensures code { OnOk result (e.new ≡ e.old ++ at_pos pos (identifier_instrs place)) }
    ensures identifies { OnOk result (Adds e.old e.new (Identifies place (length e.old))) }
    ensures aimed { OnOk result (Adds e.old e.new (AreAimed (length e.old))) }
    ensures refused { OnErr result (Extends e.old e.new) }
{
    put_identifier(e, place, pos)?;
    Ok(())
}

fn put_identifier(e: &mut Emitter, place: ResAt, pos: Pos) -> Result<(), Memory>
    requires { length e.old + 2 < 2 ^ 32 }
    ensures code { OnOk result (e.new ≡ e.old ++ at_pos pos (identifier_instrs place)) }
    ensures refused { OnErr result (Extends e.old e.new) }
{
    match place {
        ResAt::Fixed(id) => e.put_all(&[Instr::Ldc(Reg::R11, id)], pos),
        ResAt::Held(n, j) => e.put_all(
            &[
                Instr::Ldwdp(Reg::R11, n),
                Instr::Addi(Reg::R11, Reg::R11, j.wrapping_mul(256)),
            ],
            pos,
        ),
    }
}
