ghost use Rattle.std.specs.Prelude.{◌≡◌, ◌+◌, ◌<◌, ◌≤◌, ◌^◌, [], length, OnOk, OnErr};
ghost use Rattle.xs_instr.specs.Adds.{Adds};
ghost use Rattle.xs_instr.specs.Extends.{Extends};
ghost use Rattle.xs_instr.specs.Lines.{last_pos};
ghost use Rattle.xl_ends.specs.Sides.{sides_of};
ghost use Rattle.xl_statements.specs.Built.{AreBuilt, AreNarrow, AreShallow, most_of_all, statements_of};
ghost use Rattle.xl_statements.specs.Inside.{AreInside, StandAlone};
ghost use Rattle.xl_statements.specs.Laws.{RootsStand};
ghost use Rattle.xl_statements.specs.Roots.{IsRoot};

use crate::walk::emit_statements;
use std::alloc::Global;
use xc_kernel::Kst;
use xl_ends::Side;
use xl_expr::Plan;
use xl_par::end_root;
use xs_instr::Emitter;
use xw_words::{Memory, Pos};

/// The code of a root: its statements, which stand in these sides of channels, and behind them at `pos` the instruction that ends it.
///
/// The one error is want of memory; the emitter then holds what it held, and perhaps further instructions behind it.
pub fn emit_root(
    alloc: Global,
    e: &mut Emitter,
    plan: &Plan,
    sides: &[Option<Side>],
    body: &[Kst],
    pos: Pos,
) -> Result<(), Memory>
    requires built { AreBuilt (statements_of body.now) }
    requires shallow { AreShallow (statements_of body.now) }
    requires narrow { AreNarrow (statements_of body.now) }
    requires inside { AreInside [] (statements_of body.now) }
    requires stack { plan.now.first_stack ≤ 16384 }
    requires room { length e.old + most_of_all plan.now.vars (statements_of body.now) + 1 < 2 ^ 32 }
    ensures root { OnOk result (Adds e.old e.new
        (IsRoot plan.now (sides_of sides.now) (statements_of body.now) pos (last_pos e.old)
        (length e.old))) }
    ensures alone { OnOk result (Adds e.old e.new (StandAlone (length e.old))) }
    ensures size { OnOk result
        (length e.new ≤ length e.old + most_of_all plan.now.vars (statements_of body.now) + 1) }
    ensures refused { OnErr result (Extends e.old e.new) }
{
    emit_statements(alloc, e, plan, sides, body)?;
    end_root(e, pos)?;
    Ok(())
}

/// Where a root's code stands, the code of each of its statements stands.
pub fn roots_stand()
    ensures { RootsStand }
{}
