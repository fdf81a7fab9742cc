ghost use Rattle.std.specs.Prelude.{◌≡◌, ◌+◌, ◌*◌, ◌<◌, ◌≤◌, ◌^◌, ◌++◌, length, OnOk, OnErr, Some};
ghost use Rattle.xc_kernel.specs.Kernels.{expression_of, place_of};
ghost use Rattle.xs_instr.specs.Lines.{last_pos, at_pos};
ghost use Rattle.xs_instr.specs.Adds.{Adds};
ghost use Rattle.xl_expr.specs.Code.{expression_code};
ghost use Rattle.xs_instr.specs.Extends.{Extends};
ghost use Rattle.xl_expr.specs.Measures.{nodes, nodes_at, depth, depth_at};
ghost use Rattle.xl_expr.specs.Targets.{AreAimed};
ghost use Rattle.xl_expr.specs.Stores.{Stores, element_store, held_write, indexed_write, store_code, word_write};

use crate::direct_operand::fixed_index;
use crate::expression::emit_at;
use crate::plan::{Plan, VarAt, VarPlan};
use xc_kernel::{Kx, Place};
use xs_instr::{Emitter, Instr, Reg};
use xw_words::{Memory, Pos};

/// The code that writes a register's word to a place. `stores` says what it does: wherever it stands from this index on, where
/// the plan's layout holds, and whatever other threads do in between that leaves what this one relies on, it comes to where
/// its next step writes the word at the place's address, or where the next step traps with the error of the place's index,
/// within 8 steps for each node, the write among them.
///
/// The one error is want of memory; the emitter then holds what it held, and perhaps further instructions behind it.
pub fn emit_store(e: &mut Emitter, plan: &Plan, dst: &Place, from: Reg) -> Result<(), Memory>
    requires room { length e.old + 8 * nodes_at (place_of dst.now) < 2 ^ 32 }
    requires shallow { depth_at (place_of dst.now) ≤ 400 }
    ensures size { OnOk result (length e.new ≤ length e.old + 8 * nodes_at (place_of dst.now)) }
    ensures code { OnOk result (e.new ≡ e.old ++ store_code plan.now.vars (place_of dst.now) from
        (length e.old) (last_pos e.old)) }
    ensures stores { OnOk result
        (Adds e.old e.new (Stores plan.now.vars (place_of dst.now) from (length e.old))) }
    ensures aimed { OnOk result (Adds e.old e.new (AreAimed (length e.old))) }
    ensures refused { OnErr result (Extends e.old e.new) }
{
    let last = e.pos();
    emit_write(e, plan, dst, from, last)?;
    Ok(())
}

fn emit_write(e: &mut Emitter, plan: &Plan, dst: &Place, from: Reg, last: Pos) -> Result<(), Memory>
    requires room { length e.old + 8 * nodes_at (place_of dst.now) < 2 ^ 32 }
    requires shallow { depth_at (place_of dst.now) ≤ 400 }
    ensures code { OnOk result
        (e.new ≡ e.old ++ store_code plan.now.vars (place_of dst.now) from (length e.old) last) }
    ensures refused { OnErr result (Extends e.old e.new) }
{
    match dst {
        Place::Word(v) => match plan.placed(*v) {
            None => Ok(()),
            Some(found) => {
                put_word_write(e, found.place, from, last)?;
                Ok(())
            }
        },
        Place::Elem(v, index, pos) => match plan.placed(*v) {
            None => Ok(()),
            Some(found) => emit_element_write(e, plan, found, index, from, *pos),
        },
    }
}

/// A register's word goes to a variable's, where the plan has it.
fn put_word_write(e: &mut Emitter, place: VarAt, from: Reg, pos: Pos) -> Result<(), Memory>
    requires { length e.old + 5 < 2 ^ 32 }
    ensures code { OnOk result (e.new ≡ e.old ++ at_pos pos (word_write place from)) }
    ensures refused { OnErr result (Extends e.old e.new) }
{
    match place {
        VarAt::Near(n) => e.put_all(&[Instr::Stwdp(from, n)], pos),
        VarAt::Far(n) | VarAt::Through(n) => put_held_write(e, n, 0, from, pos),
    }
}

/// A register's word goes to the word at 4i behind the address that the word at dp + 4n holds.
fn put_held_write(e: &mut Emitter, n: u32, i: u32, from: Reg, pos: Pos) -> Result<(), Memory>
    requires { length e.old + 5 < 2 ^ 32 }
    ensures code { OnOk result (e.new ≡ e.old ++ at_pos pos (held_write n i from)) }
    ensures refused { OnErr result (Extends e.old e.new) }
{
    e.put_all(
        &[
            Instr::Stwsp(from, 0),
            Instr::Ldwdp(Reg::R11, n),
            Instr::Ldc(Reg::R0, i),
            Instr::Ldwsp(Reg::R10, 0),
            Instr::Stw(Reg::R10, Reg::R11, Reg::R0),
        ],
        pos,
    )
}

/// A register's word goes to an element of a variable.
fn emit_element_write(
    e: &mut Emitter,
    plan: &Plan,
    found: VarPlan,
    index: &Kx,
    from: Reg,
    pos: Pos,
) -> Result<(), Memory>
    requires room { length e.old + 8 * (1 + nodes (expression_of index.now)) < 2 ^ 32 }
    requires shallow { depth (expression_of index.now) ≤ 400 }
    ensures code { OnOk result (e.new ≡ e.old ++ element_store (Some found) (expression_of index.now)
        from pos (λ n. expression_code plan.now.vars (expression_of index.now) 1 n pos) (length e.old)) }
    ensures refused { OnErr result (Extends e.old e.new) }
{
    match (found.place, fixed_index(index, found.words)) {
        (VarAt::Near(n), Some(i)) => e.put_all(&[Instr::Stwdp(from, n.wrapping_add(i))], pos),
        (VarAt::Near(n), None) => {
            let base = Instr::Ldawdp(Reg::R11, n);
            emit_indexed_write(e, plan, index, found.words, base, from, pos)
        }
        (VarAt::Far(n), Some(i)) => put_held_write(e, n, i, from, pos),
        (VarAt::Far(n), None) => {
            let base = Instr::Ldwdp(Reg::R11, n);
            emit_indexed_write(e, plan, index, found.words, base, from, pos)
        }
        (VarAt::Through(n), _) => put_held_write(e, n, 0, from, pos),
    }
}

/// A register's word goes to an element, after its index's test; `base` brings the array's first address to r11.
fn emit_indexed_write(
    e: &mut Emitter,
    plan: &Plan,
    index: &Kx,
    words: u32,
    base: Instr,
    from: Reg,
    pos: Pos,
) -> Result<(), Memory>
    requires room { length e.old + 8 * (1 + nodes (expression_of index.now)) < 2 ^ 32 }
    requires shallow { depth (expression_of index.now) ≤ 400 }
    ensures code { OnOk result (e.new ≡ e.old ++ indexed_write base words from pos
        (λ n. expression_code plan.now.vars (expression_of index.now) 1 n pos) (length e.old)) }
    ensures refused { OnErr result (Extends e.old e.new) }
{
    e.put_all(&[Instr::Stwsp(from, 0)], pos)?;
    emit_at(e, plan, index, 1, pos)?;
    e.put_all(
        &[
            Instr::Ldc(Reg::R11, words),
            Instr::Lsu(Reg::R11, Reg::R0, Reg::R11),
            Instr::Ecallf(Reg::R11),
            base,
            Instr::Ldwsp(Reg::R10, 0),
            Instr::Stw(Reg::R10, Reg::R11, Reg::R0),
        ],
        pos,
    )?;
    Ok(())
}
