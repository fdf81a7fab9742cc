ghost use Rattle.std.specs.Prelude.{◌≡◌, ◌+◌, ◌<◌, ◌^◌, [], ◌∷◌, ◌++◌, length, OnOk, OnErr};
ghost use Rattle.xl_expr.specs.Targets.{AreAimed};
ghost use Rattle.xl_par.specs.Closing.{Closes, EndsSlave, closing_instrs};
ghost use Rattle.xs_instr.specs.Adds.{Adds};
ghost use Rattle.xs_instr.specs.Extends.{Extends};
ghost use Rattle.xs_instr.specs.Lines.{at_pos, line};
ghost use Rattle.xs_instr.specs.declared.instr.Instr.TheVariants.{Ssync};

use xs_instr::{Emitter, Instr, Reg};
use xw_words::{Memory, Pos};

/// The code that ends a branch behind the first of a `par`. `ends` says what it does, wherever it stands: the next step of a thread that
/// is tied to a synchroniser leaves it waiting there.
///
/// The one error is want of memory; the emitter then holds what it held, and perhaps further instructions behind it.
pub fn close_slave(e: &mut Emitter, pos: Pos) -> Result<(), Memory>
    requires { length e.old + 1 < 2 ^ 32 }
    ensures code { OnOk result (e.new ≡ e.old ++ line Ssync pos ∷ []) }
    ensures ends { OnOk result (Adds e.old e.new (EndsSlave (length e.old))) }
    ensures aimed { OnOk result (Adds e.old e.new (AreAimed (length e.old))) }
    ensures refused { OnErr result (Extends e.old e.new) }
{
    e.put(Instr::Ssync, pos)?;
    Ok(())
}

/// The code that closes a `par`, behind its first branch. `closes` says what it does: wherever it stands, where r1 has the identifier of a
/// synchroniser that is taken, and whatever other threads do in between that leaves that and what this thread relies on, it comes within
/// seven own steps to where it pauses till all threads that are tied to the synchroniser wait; then they are unused, and its next step
/// gives the synchroniser back.
///
/// The one error is want of memory; the emitter then holds what it held, and perhaps further instructions behind it.
pub fn close_par(e: &mut Emitter, pos: Pos) -> Result<(), Memory>
    requires { length e.old + 9 < 2 ^ 32 }
    ensures code { OnOk result (e.new ≡ e.old ++ at_pos pos closing_instrs) }
    ensures closes { OnOk result (Adds e.old e.new (Closes pos (length e.old))) }
    ensures aimed { OnOk result (Adds e.old e.new (AreAimed (length e.old))) }
    ensures refused { OnErr result (Extends e.old e.new) }
{
    let closing = [
        Instr::Or(Reg::R10, Reg::R1, Reg::R1),
        Instr::Or(Reg::R1, Reg::R2, Reg::R2),
        Instr::Or(Reg::R2, Reg::R3, Reg::R3),
        Instr::Or(Reg::R3, Reg::R4, Reg::R4),
        Instr::Or(Reg::R4, Reg::R5, Reg::R5),
        Instr::Or(Reg::R5, Reg::R6, Reg::R6),
        Instr::Or(Reg::R6, Reg::R7, Reg::R7),
        Instr::Mjoin(Reg::R10),
        Instr::Freer(Reg::R10),
    ];
    e.put_all(&closing, pos)?;
    Ok(())
}
