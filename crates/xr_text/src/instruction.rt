// Instructions.
ghost use Rattle.std.specs.Prelude.{◌≡◌, ◌++◌, codes};
ghost use Rattle.xs_instr.specs.Texts.{cond_text, get_text, instr_text, reg_text};
ghost use Rattle.xr_text.specs.Names.{name_of};
ghost use Rattle.xr_text.specs.Operands.{operand_text, with_operands};
ghost use Rattle.xw_io.specs.Gathering.{Drew};

use crate::numbers::add_number;
use xs_instr::{Cond, GetKind, Instr, Reg};
use xw_io::{Out, Sink};

/// What an instruction says of a register, a number, a condition or a kind of resource.
#[derive(Clone, Copy)]
pub enum Operand {
    Register(Reg),
    Number(u32),
    Condition(Cond),
    Kind(GetKind),
}

/// The operands of an instruction, in their order.
#[derive(Clone, Copy)]
pub enum Operands {
    None,
    One(Operand),
    Two(Operand, Operand),
    Three(Operand, Operand, Operand),
}

/// Adds an instruction's name and operands, as they stand in a listing, unless the sink has failed before.
pub fn add_instr<O: Sink>(out: &mut Out<'_, O>, instr: Instr)
    ensures same_sink { out.new.sink.ghost_name ≡ out.old.sink.ghost_name }
    ensures drew { Drew O.bytes O.faults out.old out.new (instr_text instr) }
{
    out.add(name(instr));
    match operands_of(instr) {
        Operands::None => {}
        Operands::One(a) => add_first(out, a),
        Operands::Two(a, b) => {
            add_first(out, a);
            add_next(out, b);
        }
        Operands::Three(a, b, c) => {
            add_first(out, a);
            add_next(out, b);
            add_next(out, c);
        }
    }
}

// An instruction's operands.
fn operands_of(instr: Instr) -> Operands
    ensures { instr_text instr ≡ with_operands (name_of instr) result }
{
    match instr {
        Instr::Add(a, b, c)
        | Instr::Sub(a, b, c)
        | Instr::Mul(a, b, c)
        | Instr::And(a, b, c)
        | Instr::Or(a, b, c)
        | Instr::Xor(a, b, c)
        | Instr::Eq(a, b, c)
        | Instr::Lss(a, b, c)
        | Instr::Lsu(a, b, c)
        | Instr::Shl(a, b, c)
        | Instr::Shr(a, b, c)
        | Instr::Ashr(a, b, c)
        | Instr::Divs(a, b, c)
        | Instr::Rems(a, b, c)
        | Instr::Divu(a, b, c)
        | Instr::Remu(a, b, c)
        | Instr::Ldw(a, b, c)
        | Instr::Stw(a, b, c) => {
            Operands::Three(
                Operand::Register(a),
                Operand::Register(b),
                Operand::Register(c),
            )
        }
        Instr::Addi(a, b, n) => {
            Operands::Three(
                Operand::Register(a),
                Operand::Register(b),
                Operand::Number(n),
            )
        }
        Instr::Neg(a, b)
        | Instr::Not(a, b)
        | Instr::Getst(a, b)
        | Instr::Tinitdp(a, b)
        | Instr::Tinitsp(a, b)
        | Instr::Out(a, b)
        | Instr::Outt(a, b)
        | Instr::In(a, b)
        | Instr::Int(a, b)
        | Instr::Setd(a, b)
        | Instr::Setpt(a, b)
        | Instr::Getts(a, b) => Operands::Two(Operand::Register(a), Operand::Register(b)),
        Instr::Ecallf(a)
        | Instr::Ecallt(a)
        | Instr::Setdp(a)
        | Instr::Setsp(a)
        | Instr::Freer(a)
        | Instr::Msync(a)
        | Instr::Mjoin(a)
        | Instr::Eeu(a)
        | Instr::Edu(a) => Operands::One(Operand::Register(a)),
        Instr::Ldc(a, n)
        | Instr::Ldwdp(a, n)
        | Instr::Stwdp(a, n)
        | Instr::Ldawdp(a, n)
        | Instr::Ldwsp(a, n)
        | Instr::Stwsp(a, n)
        | Instr::Ldawsp(a, n)
        | Instr::Brft(a, n)
        | Instr::Brff(a, n)
        | Instr::Brbt(a, n)
        | Instr::Brbf(a, n)
        | Instr::Tinitpc(a, n)
        | Instr::Outct(a, n)
        | Instr::Chkct(a, n)
        | Instr::Setv(a, n) => Operands::Two(Operand::Register(a), Operand::Number(n)),
        Instr::Brfu(n)
        | Instr::Brbu(n)
        | Instr::Blrf(n)
        | Instr::Blrb(n)
        | Instr::Entsp(n)
        | Instr::Retsp(n)
        | Instr::Setsr(n)
        | Instr::Clrsr(n) => Operands::One(Operand::Number(n)),
        Instr::Getr(a, kind) => Operands::Two(Operand::Register(a), Operand::Kind(kind)),
        Instr::Setc(a, cond) => Operands::Two(Operand::Register(a), Operand::Condition(cond)),
        Instr::Ssync | Instr::Freet | Instr::Clre | Instr::Waiteu => Operands::None,
    }
}

// An instruction's name.
fn name(instr: Instr) -> &'static [u8]
    ensures { result.now ≡ name_of instr }
{
    match instr {
        Instr::Add(..) => b"ADD",
        Instr::Sub(..) => b"SUB",
        Instr::Mul(..) => b"MUL",
        Instr::And(..) => b"AND",
        Instr::Or(..) => b"OR",
        Instr::Xor(..) => b"XOR",
        Instr::Addi(..) => b"ADDI",
        Instr::Neg(..) => b"NEG",
        Instr::Not(..) => b"NOT",
        Instr::Eq(..) => b"EQ",
        Instr::Lss(..) => b"LSS",
        Instr::Lsu(..) => b"LSU",
        Instr::Shl(..) => b"SHL",
        Instr::Shr(..) => b"SHR",
        Instr::Ashr(..) => b"ASHR",
        Instr::Divs(..) => b"DIVS",
        Instr::Rems(..) => b"REMS",
        Instr::Divu(..) => b"DIVU",
        Instr::Remu(..) => b"REMU",
        Instr::Ecallf(..) => b"ECALLF",
        Instr::Ecallt(..) => b"ECALLT",
        Instr::Ldc(..) => b"LDC",
        Instr::Ldwdp(..) => b"LDWDP",
        Instr::Stwdp(..) => b"STWDP",
        Instr::Ldawdp(..) => b"LDAWDP",
        Instr::Ldwsp(..) => b"LDWSP",
        Instr::Stwsp(..) => b"STWSP",
        Instr::Ldawsp(..) => b"LDAWSP",
        Instr::Ldw(..) => b"LDW",
        Instr::Stw(..) => b"STW",
        Instr::Setdp(..) => b"SETDP",
        Instr::Setsp(..) => b"SETSP",
        Instr::Brft(..) => b"BRFT",
        Instr::Brff(..) => b"BRFF",
        Instr::Brfu(..) => b"BRFU",
        Instr::Brbt(..) => b"BRBT",
        Instr::Brbf(..) => b"BRBF",
        Instr::Brbu(..) => b"BRBU",
        Instr::Blrf(..) => b"BLRF",
        Instr::Blrb(..) => b"BLRB",
        Instr::Entsp(..) => b"ENTSP",
        Instr::Retsp(..) => b"RETSP",
        Instr::Getr(..) => b"GETR",
        Instr::Freer(..) => b"FREER",
        Instr::Getst(..) => b"GETST",
        Instr::Tinitpc(..) => b"TINITPC",
        Instr::Tinitdp(..) => b"TINITDP",
        Instr::Tinitsp(..) => b"TINITSP",
        Instr::Msync(..) => b"MSYNC",
        Instr::Ssync => b"SSYNC",
        Instr::Mjoin(..) => b"MJOIN",
        Instr::Freet => b"FREET",
        Instr::Out(..) => b"OUT",
        Instr::Outt(..) => b"OUTT",
        Instr::Outct(..) => b"OUTCT",
        Instr::In(..) => b"IN",
        Instr::Int(..) => b"INT",
        Instr::Chkct(..) => b"CHKCT",
        Instr::Setc(..) => b"SETC",
        Instr::Setd(..) => b"SETD",
        Instr::Setpt(..) => b"SETPT",
        Instr::Getts(..) => b"GETTS",
        Instr::Setv(..) => b"SETV",
        Instr::Eeu(..) => b"EEU",
        Instr::Edu(..) => b"EDU",
        Instr::Clre => b"CLRE",
        Instr::Waiteu => b"WAITEU",
        Instr::Setsr(..) => b"SETSR",
        Instr::Clrsr(..) => b"CLRSR",
    }
}

// Adds an instruction's first operand.
fn add_first<O: Sink>(out: &mut Out<'_, O>, operand: Operand)
    ensures same_sink { out.new.sink.ghost_name ≡ out.old.sink.ghost_name }
    ensures drew { Drew O.bytes O.faults out.old out.new (codes " " ++ operand_text operand) }
{
    out.add(b" ");
    add_operand(out, operand);
}

// Adds a further operand.
fn add_next<O: Sink>(out: &mut Out<'_, O>, operand: Operand)
    ensures same_sink { out.new.sink.ghost_name ≡ out.old.sink.ghost_name }
    ensures drew { Drew O.bytes O.faults out.old out.new (codes ", " ++ operand_text operand) }
{
    out.add(b", ");
    add_operand(out, operand);
}

// Adds an operand.
fn add_operand<O: Sink>(out: &mut Out<'_, O>, operand: Operand)
    ensures same_sink { out.new.sink.ghost_name ≡ out.old.sink.ghost_name }
    ensures drew { Drew O.bytes O.faults out.old out.new (operand_text operand) }
{
    match operand {
        Operand::Register(reg) => out.add(register_name(reg)),
        Operand::Number(n) => add_number(out, n),
        Operand::Condition(cond) => out.add(condition_name(cond)),
        Operand::Kind(kind) => out.add(kind_name(kind)),
    }
}

// A register's name.
fn register_name(reg: Reg) -> &'static [u8]
    ensures { result.now ≡ reg_text reg }
{
    match reg {
        Reg::R0 => b"r0",
        Reg::R1 => b"r1",
        Reg::R2 => b"r2",
        Reg::R3 => b"r3",
        Reg::R4 => b"r4",
        Reg::R5 => b"r5",
        Reg::R6 => b"r6",
        Reg::R7 => b"r7",
        Reg::R8 => b"r8",
        Reg::R9 => b"r9",
        Reg::R10 => b"r10",
        Reg::R11 => b"r11",
        Reg::Cp => b"cp",
        Reg::Dp => b"dp",
        Reg::Sp => b"sp",
        Reg::Lr => b"lr",
    }
}

// A condition's name.
fn condition_name(cond: Cond) -> &'static [u8]
    ensures { result.now ≡ cond_text cond }
{
    match cond {
        Cond::None => b"NONE",
        Cond::Eq => b"EQ",
        Cond::Neq => b"NEQ",
        Cond::After => b"AFTER",
    }
}

// The name of what GETR takes.
fn kind_name(kind: GetKind) -> &'static [u8]
    ensures { result.now ≡ get_text kind }
{
    match kind {
        GetKind::Sync => b"SYNC",
        GetKind::Lock => b"LOCK",
    }
}
