ghost use Rattle.std.specs.Prelude.{◌≡◌, ◌+◌, ◌<◌, ◌^◌, [], ◌∷◌, ◌++◌, length, OnOk, OnErr};
ghost use Rattle.xl_expr.specs.Targets.{AreAimed};
ghost use Rattle.xl_par.specs.Roots.{EndsRoot};
ghost use Rattle.xs_instr.specs.Adds.{Adds};
ghost use Rattle.xs_instr.specs.Extends.{Extends};
ghost use Rattle.xs_instr.specs.Lines.{line};
ghost use Rattle.xs_instr.specs.declared.instr.Instr.TheVariants.{Freet};

use xs_instr::{Emitter, Instr};
use xw_words::{Memory, Pos};

/// The code that ends a root. `ends` says what it does, wherever it stands: the thread's next step leaves it unused, and one root
/// fewer.
///
/// The one error is want of memory; the emitter then holds what it held, and perhaps further instructions behind it.
pub fn end_root(e: &mut Emitter, pos: Pos) -> Result<(), Memory>
    requires { length e.old + 1 < 2 ^ 32 }
    ensures code { OnOk result (e.new ≡ e.old ++ line Freet pos ∷ []) }
    ensures ends { OnOk result (Adds e.old e.new (EndsRoot (length e.old))) }
    ensures aimed { OnOk result (Adds e.old e.new (AreAimed (length e.old))) }
    ensures refused { OnErr result (Extends e.old e.new) }
{
    e.put(Instr::Freet, pos)?;
    Ok(())
}
