ghost use Rattle.std.specs.Prelude.{◌≡◌, ◌+◌, ◌<◌, ◌≤◌, ◌^◌, ◌++◌, length, OnOk, OnErr};
ghost use Rattle.xs_instr.specs.Adds.{Adds};
ghost use Rattle.xs_instr.specs.Extends.{Extends};
ghost use Rattle.xs_instr.specs.Lines.{at_pos};
ghost use Rattle.xl_expr.specs.Targets.{AreAimed};
ghost use Rattle.xl_chan.specs.Protocols as protocol;
ghost use Rattle.xl_chan.specs.Protocols.{input_instrs, kept_from_r11, output_instrs};
ghost use Rattle.xl_chan.specs.Transfers.{Sends, Takes};

use xl_expr::{Plan, emit_identifier};
use xs_instr::{Emitter, Instr, Reg};
use xw_words::{Memory, Pos};

/// The control token that ends a message.
pub const END: u32 = 1;

/// The control token that answers a message.
pub const ACK: u32 = 3;

/// The code that sends a register's word over the channel of an end, with the channel's name as its place; `plain` is false inside
/// a transaction on that channel and where the channel is streaming, where no end is told and no answer awaited.
///
/// `sends` says what the code does: wherever it stands from this index on, where the plan has the end, and whatever other threads do
/// in between that leaves what this one relies on, it comes within three steps to where it takes the steps of the protocol one after
/// the other, each of which pauses, goes on or traps by what stands at the end.
///
/// The one error is want of memory; the emitter then holds what it held, and perhaps further instructions behind it.
pub fn emit_out(
    e: &mut Emitter,
    plan: &Plan,
    end: u32,
    value: Reg,
    plain: bool,
    pos: Pos,
) -> Result<(), Memory>
    requires room { length e.old + 6 < 2 ^ 32 }
    ensures size { OnOk result (length e.new ≤ length e.old + 6) }
    ensures sends { OnOk result
        (Adds e.old e.new (Sends plan.now end value plain pos (length e.old))) }
    ensures aimed { OnOk result (Adds e.old e.new (AreAimed (length e.old))) }
    ensures refused { OnErr result (Extends e.old e.new) }
{
    match plan.end(end) {
        None => Ok(()),
        Some(place) => {
            put_kept_from_r11(e, value, pos)?;
            emit_identifier(e, place, pos)?;
            put_output(e, instead_of_r11(value), plain, pos)?;
            Ok(())
        }
    }
}

/// The code that takes a word from the channel of an end to a register, with the channel's name as its place; `plain` is that of
/// `emit_out`.
///
/// `takes` says what the code does: wherever it stands from this index on, where the plan has the end, and whatever other threads do
/// in between that leaves what this one relies on, it comes within three steps to where it takes the steps of the protocol one after
/// the other, each of which pauses, goes on or traps by what stands at the end.
///
/// The one error is want of memory; the emitter then holds what it held, and perhaps further instructions behind it.
pub fn emit_in(
    e: &mut Emitter,
    plan: &Plan,
    end: u32,
    to: Reg,
    plain: bool,
    pos: Pos,
) -> Result<(), Memory>
    requires room { length e.old + 6 < 2 ^ 32 }
    ensures size { OnOk result (length e.new ≤ length e.old + 6) }
    ensures takes { OnOk result
        (Adds e.old e.new (Takes plan.now end to plain pos (length e.old))) }
    ensures aimed { OnOk result (Adds e.old e.new (AreAimed (length e.old))) }
    ensures refused { OnErr result (Extends e.old e.new) }
{
    match plan.end(end) {
        None => Ok(()),
        Some(place) => {
            emit_identifier(e, place, pos)?;
            put_kept_from_r11(e, to, pos)?;
            put_input(e, beside(to), to, plain, pos)?;
            Ok(())
        }
    }
}

/// Puts what r11 holds into r10 where this register is r11.
fn put_kept_from_r11(e: &mut Emitter, register: Reg, pos: Pos) -> Result<(), Memory>
    requires { length e.old + 1 < 2 ^ 32 }
    ensures code { OnOk result (e.new ≡ e.old ++ at_pos pos (kept_from_r11 register)) }
    ensures refused { OnErr result (Extends e.old e.new) }
{
    match register {
        Reg::R11 => e.put_all(&[Instr::Or(Reg::R10, Reg::R11, Reg::R11)], pos),
        _ => Ok(()),
    }
}

/// The register itself, or r10 instead of r11.
fn instead_of_r11(register: Reg) -> Reg
    ensures { result ≡ protocol.instead_of_r11 register }
{
    match register {
        Reg::R11 => Reg::R10,
        _ => register,
    }
}

/// The register that names the end of an input to a register.
fn beside(to: Reg) -> Reg
    ensures { result ≡ protocol.beside to }
{
    match to {
        Reg::R11 => Reg::R10,
        _ => Reg::R11,
    }
}

/// The steps of an output of a register's word on the end that r11 names.
fn put_output(e: &mut Emitter, from: Reg, plain: bool, pos: Pos) -> Result<(), Memory>
    requires { length e.old + 3 < 2 ^ 32 }
    ensures code { OnOk result (e.new ≡ e.old ++ at_pos pos (output_instrs from plain)) }
    ensures refused { OnErr result (Extends e.old e.new) }
{
    let out = Instr::Out(Reg::R11, from);
    if plain {
        let ends = Instr::Outct(Reg::R11, END);
        let answered = Instr::Chkct(Reg::R11, ACK);
        e.put_all(&[out, ends, answered], pos)
    } else {
        e.put_all(&[out], pos)
    }
}

/// The steps of an input to a register on the end that another register names.
fn put_input(e: &mut Emitter, name: Reg, to: Reg, plain: bool, pos: Pos) -> Result<(), Memory>
    requires { length e.old + 3 < 2 ^ 32 }
    ensures code { OnOk result (e.new ≡ e.old ++ at_pos pos (input_instrs name to plain)) }
    ensures refused { OnErr result (Extends e.old e.new) }
{
    let input = Instr::In(to, name);
    if plain {
        let ended = Instr::Chkct(name, END);
        let answers = Instr::Outct(name, ACK);
        e.put_all(&[input, ended, answers], pos)
    } else {
        e.put_all(&[input], pos)
    }
}
