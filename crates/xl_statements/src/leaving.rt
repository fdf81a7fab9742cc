// Jumps to the ends of blocks and selects, whose targets are open until these ends are there.

ghost use Rattle.std.specs.Prelude.{◌≡◌, ◌+◌, ◌<◌, ◌≤◌, ◌^◌, [], ◌∷◌, ◌++◌, drop, length, take, OnOk, OnErr};
ghost use Rattle.xs_instr.specs.Extends.{Extends};
ghost use Rattle.xl_statements.specs.Cells as cells;
ghost use Rattle.xl_statements.specs.Emits.{Emitted};
ghost use Rattle.xl_statements.specs.Landing.{Closable, closed_lines, others_leaving};

use xl_flow::emit_jump;
use xs_instr::{Emitter, Hole};
use xw_words::Memory;

/// Where a jump leads whose target is open.
#[derive(Clone, Copy)]
pub enum JumpTarget {
    /// To the end of a block, by its number.
    BlockEnd(u32),
    /// To the end of the innermost select around the jump.
    SelectEnd,
}

/// A jump to an end that is not there yet.
#[derive(Clone, Copy)]
pub struct Leaving {
    pub target: JumpTarget,
    pub hole: Hole,
}

/// The code of a jump to an end.
pub(crate) fn emit_leaving(
    e: &mut Emitter,
    target: JumpTarget,
    left: &mut Vec<Leaving>,
) -> Result<(), Memory>
    requires { length e.old + 1 < 2 ^ 32 }
    ensures code { OnOk result (Emitted (λ last pc code. code ≡ cells.leaving target last ∷ [])
        e.old e.new left.old.items left.new.items) }
    ensures size { OnOk result (length e.new ≤ length e.old + 1) }
    ensures refused { OnErr result (Extends e.old e.new) }
{
    let last = e.pos();
    let hole = emit_jump(e, last)?;
    match left.push(Leaving { target, hole }) {
        Ok(()) => Ok(()),
        Err(_) => Err(Memory),
    }
}

/// A block or select ends here. Of the jumps behind the first `outside` those to its end land, and the others are left.
pub(crate) fn end_here(
    e: &mut Emitter,
    ended: JumpTarget,
    outside: usize,
    left: &mut Vec<Leaving>,
) -> Result<(), Memory>
    requires within { outside ≤ length left.old.items }
    requires closable { Closable e.old ended (length e.old) (drop outside left.old.items) }
    ensures lines { e.new ≡ closed_lines e.old ended (length e.old) (drop outside left.old.items) }
    ensures others { OnOk result (left.new.items
        ≡ take outside left.old.items ++ others_leaving ended (drop outside left.old.items)) }
{
    land_jumps(e, ended, &left[outside..]);
    let inner = left.split_off(outside)?;
    push_others(left, ended, inner.as_slice())
}

/// The jumps to an end land.
fn land_jumps(e: &mut Emitter, ended: JumpTarget, inner: &[Leaving])
    requires { Closable e.old ended (length e.old) inner.now }
    ensures { e.new ≡ closed_lines e.old ended (length e.old) inner.now }
{
    for jump in inner {
        if is_same(jump.target, ended) {
            e.land(jump.hole);
        }
    }
}

/// The jumps to other ends are left.
fn push_others(left: &mut Vec<Leaving>, ended: JumpTarget, inner: &[Leaving]) -> Result<(), Memory>
    ensures { OnOk result (left.new.items ≡ left.old.items ++ others_leaving ended inner.now) }
{
    for jump in inner {
        if !is_same(jump.target, ended) {
            match left.push(*jump) {
                Ok(()) => {}
                Err(_) => return Err(Memory),
            }
        }
    }
    Ok(())
}

/// Whether two jumps lead to one end.
fn is_same(one: JumpTarget, other: JumpTarget) -> bool
    ensures { result ≡ cells.same_target one other }
{
    match (one, other) {
        (JumpTarget::BlockEnd(a), JumpTarget::BlockEnd(b)) => a == b,
        (JumpTarget::SelectEnd, JumpTarget::SelectEnd) => true,
        _ => false,
    }
}
