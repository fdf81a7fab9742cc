ghost use Rattle.std.specs.Prelude.{◌≡◌, ◌+◌, ◌*◌, ◌<◌, ◌≤◌, ◌^◌, [], ◌∷◌, ◌++◌, length, IfOk, OnOk, OnErr};
ghost use Rattle.xs_instr.specs.declared.instr.Instr.TheVariants.{Brfu, Brbu};
ghost use Rattle.xc_kernel.specs.Kernels.{expression_of, place_of};
ghost use Rattle.xs_instr.specs.Lines.{line, open_line};
ghost use Rattle.xs_instr.specs.Adds.{Adds};
ghost use Rattle.xs_instr.specs.Extends.{Extends};
ghost use Rattle.xl_expr.specs.Measures.{nodes, nodes_at, depth, depth_at};
ghost use Rattle.xl_expr.specs.Targets.{AreAimed};
ghost use Rattle.xl_flow.specs.Flow.{AddsTest, Sets, Tests};

use xc_kernel::{Kx, Place};
use xl_expr::{Plan, emit_expr, emit_store};
use xs_instr::{Emitter, Hole, Instr, Reg};
use xw_words::{Memory, Pos};

/// The code of an assignment: the right side's word, and then the write of it.
///
/// The one error is want of memory; the emitter then holds what it held, and perhaps further instructions behind it.
pub fn emit_set(e: &mut Emitter, plan: &Plan, dst: &Place, x: &Kx) -> Result<(), Memory>
    requires room { length e.old + 8 * (nodes (expression_of x.now) + nodes_at (place_of dst.now))
        < 2 ^ 32 }
    requires shallow { depth (expression_of x.now) ≤ 400 }
    requires shallow_place { depth_at (place_of dst.now) ≤ 400 }
    ensures size { OnOk result (length e.new
        ≤ length e.old + 8 * (nodes (expression_of x.now) + nodes_at (place_of dst.now))) }
    ensures sets { OnOk result (Adds e.old e.new
        (Sets plan.now.vars (place_of dst.now) (expression_of x.now) (length e.old))) }
    ensures aimed { OnOk result (Adds e.old e.new (AreAimed (length e.old))) }
    ensures refused { OnErr result (Extends e.old e.new) }
{
    emit_expr(e, plan, x, Reg::R0)?;
    emit_store(e, plan, dst, Reg::R0)?;
    Ok(())
}

/// The code of a test: the hole is taken where the expression's word is 0.
///
/// The one error is want of memory; the emitter then holds what it held, and perhaps further instructions behind it.
pub fn emit_test(e: &mut Emitter, plan: &Plan, x: &Kx, pos: Pos) -> Result<Hole, Memory>
    requires room { length e.old + 8 * nodes (expression_of x.now) + 1 < 2 ^ 32 }
    requires shallow { depth (expression_of x.now) ≤ 400 }
    ensures size { OnOk result
        (length e.new ≤ length e.old + 8 * nodes (expression_of x.now) + 1) }
    ensures tests { IfOk result (λ hole. AddsTest e.old e.new hole.index pos
        (Tests plan.now.vars (expression_of x.now) (length e.old) pos)) }
    ensures aimed { IfOk result
        (λ hole. AddsTest e.old e.new hole.index pos (AreAimed (length e.old))) }
    ensures refused { OnErr result (Extends e.old e.new) }
{
    emit_expr(e, plan, x, Reg::R0)?;
    let hole = e.hole(Instr::Brff(Reg::R0, 0), pos)?;
    Ok(hole)
}

/// A jump forwards, whose target is open.
///
/// The one error is want of memory; the emitter then holds what it held, and perhaps further instructions behind it.
pub fn emit_jump(e: &mut Emitter, pos: Pos) -> Result<Hole, Memory>
    requires { length e.old + 1 < 2 ^ 32 }
    ensures code { OnOk result (e.new ≡ e.old ++ open_line (Brfu 0) pos ∷ []) }
    ensures index { IfOk result (λ hole. hole.index ≡ length e.old) }
    ensures refused { OnErr result (Extends e.old e.new) }
{
    let hole = e.hole(Instr::Brfu(0), pos)?;
    Ok(hole)
}

/// A jump backwards.
///
/// The one error is want of memory; the emitter then holds what it held, and perhaps further instructions behind it.
pub fn emit_back(e: &mut Emitter, to: u32, pos: Pos) -> Result<(), Memory>
    requires room { length e.old + 1 < 2 ^ 32 }
    requires behind { to ≤ length e.old }
    ensures code { OnOk result (e.new ≡ e.old ++ line (Brbu to) pos ∷ []) }
    ensures refused { OnErr result (Extends e.old e.new) }
{
    e.put(Instr::Brbu(to), pos)?;
    Ok(())
}
