ghost use Rattle.std.specs.Prelude.{◌≡◌, ◌+◌, ◌-◌, ◌*◌, ◌<◌, ◌≤◌, ◌^◌, [], ◌∷◌, ◌++◌, length, IfOk, OnOk, OnErr};
ghost use Rattle.xs_instr.specs.Adds.{Adds};
ghost use Rattle.xs_instr.specs.Extends.{Extends};
ghost use Rattle.xs_instr.specs.Lines.{at_pos};
ghost use Rattle.xl_par.specs.Opening.{AreAimedWith, Opens, beginning_instrs, indices_of, opening_lines, slave_lines, slaves_lines, stack_offset as offset_of, starts_from};

use std::alloc::Global;
use xl_expr::Plan;
use xs_instr::{Emitter, GetKind, Hole, Instr, Reg};
use xw_words::{List, Memory, Pos};

/// The shifts that make the address of a thread's temporary words from its identifier, all but the offset.
const SHIFT_UP: u32 = 8;

const SHIFT_DOWN: u32 = 5;

/// What the kind of a thread's identifier gives when it is shifted so.
const KIND_SHIFTED: u32 = 32;

/// The bytes of a word.
const BYTES_OF_WORD: u32 = 4;

/// The code that opens a `par` of 2 to 8 branches: a synchroniser is got, a thread for each branch behind the first, and all are set off
/// together. The first branch's code follows, on the thread itself. The holes are the starts of the branches behind the first, in order.
///
/// `opens` says what the code does, whatever starts the holes get: wherever it stands, and whatever other threads do in between that
/// leaves what this one relies on and what it has got, it comes within 7 own steps for each branch and two more to where its next step
/// sets all off.
///
/// The one error is want of memory; the emitter then holds what it held, and perhaps further instructions behind it.
pub fn open_par(
    alloc: Global,
    e: &mut Emitter,
    plan: &Plan,
    branches: u32,
    pos: Pos,
) -> Result<List<Hole>, Memory>
    requires room { length e.old + 7 * branches + 3 < 2 ^ 32 }
    requires several { 2 ≤ branches }
    requires few { branches ≤ 8 }
    requires inside { plan.now.first_stack ≤ 16384 }
    ensures code { OnOk result (e.new
        ≡ e.old ++ opening_lines plan.now.first_stack pos (branches - 1)) }
    ensures holes { IfOk result
        (λ holes. indices_of holes ≡ starts_from (length e.old + 9) (branches - 1)) }
    ensures size { OnOk result (length e.new ≤ length e.old + 7 * branches + 3) }
    ensures opens { OnOk result
        (Adds e.old e.new
        (Opens plan.now.first_stack (branches - 1) pos (length e.old))) }
    ensures aimed { OnOk result
        (Adds e.old e.new (AreAimedWith (branches - 1) (length e.old))) }
    ensures refused { OnErr result (Extends e.old e.new) }
{
    let mut starts = Vec::new(alloc);
    put_beginning(e, pos)?;
    put_slaves(
        e,
        stack_offset(plan.first_stack),
        branches - 1,
        pos,
        &mut starts,
    )?;
    e.put(Instr::Msync(Reg::R1), pos)?;
    Ok(List::from_vec(starts))
}

/// What is added to a shifted identifier, where the temporary words of thread 0 begin at a word.
fn stack_offset(first_stack: u32) -> u32
    requires { first_stack ≤ 16384 }
    ensures { result ≡ offset_of first_stack }
{
    (BYTES_OF_WORD * first_stack).wrapping_sub(KIND_SHIFTED)
}

/// The synchronisers that the thread holds go on by one register, and a new one is got in r1.
fn put_beginning(e: &mut Emitter, pos: Pos) -> Result<(), Memory>
    requires { length e.old + 9 < 2 ^ 32 }
    ensures code { OnOk result (e.new ≡ e.old ++ at_pos pos beginning_instrs) }
    ensures refused { OnErr result (Extends e.old e.new) }
{
    let beginning = [
        Instr::Or(Reg::R7, Reg::R6, Reg::R6),
        Instr::Or(Reg::R6, Reg::R5, Reg::R5),
        Instr::Or(Reg::R5, Reg::R4, Reg::R4),
        Instr::Or(Reg::R4, Reg::R3, Reg::R3),
        Instr::Or(Reg::R3, Reg::R2, Reg::R2),
        Instr::Or(Reg::R2, Reg::R1, Reg::R1),
        Instr::Ldc(Reg::R8, SHIFT_UP),
        Instr::Ldc(Reg::R9, SHIFT_DOWN),
        Instr::Getr(Reg::R1, GetKind::Sync),
    ];
    e.put_all(&beginning, pos)
}

/// So many threads are got and prepared; their starts, which are open, go behind those in `starts`.
fn put_slaves(
    e: &mut Emitter,
    offset: u32,
    slaves: u32,
    pos: Pos,
    starts: &mut Vec<Hole>,
) -> Result<(), Memory>
    requires { length e.old + 7 * slaves < 2 ^ 32 }
    ensures code { OnOk result (e.new ≡ e.old ++ slaves_lines offset pos slaves) }
    ensures starts { OnOk result
        (indices_of starts.new.items ≡ indices_of starts.old.items ++ starts_from (length e.old) slaves) }
    ensures refused { OnErr result (Extends e.old e.new) }
{
    'slaves: for _ in 0..slaves {
        let start = put_slave(e, offset, pos)?;
        match starts.push(start) {
            Ok(()) => {}
            Err(_) => return Err(Memory),
        }
    }
    Ok(())
}

/// One thread is got and prepared.
fn put_slave(e: &mut Emitter, offset: u32, pos: Pos) -> Result<Hole, Memory>
    requires { length e.old + 7 < 2 ^ 32 }
    ensures code { OnOk result (e.new ≡ e.old ++ slave_lines offset pos) }
    ensures start { IfOk result (λ start. start.index ≡ length e.old + 1) }
    ensures refused { OnErr result (Extends e.old e.new) }
{
    e.put(Instr::Getst(Reg::R0, Reg::R1), pos)?;
    let start = e.hole(Instr::Tinitpc(Reg::R0, 0), pos)?;
    let preparing = [
        Instr::Tinitdp(Reg::R0, Reg::Dp),
        Instr::Shl(Reg::R11, Reg::R0, Reg::R8),
        Instr::Shr(Reg::R11, Reg::R11, Reg::R9),
        Instr::Addi(Reg::R11, Reg::R11, offset),
        Instr::Tinitsp(Reg::R0, Reg::R11),
    ];
    e.put_all(&preparing, pos)?;
    Ok(start)
}
