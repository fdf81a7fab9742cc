// Instructions as a listing writes them.

use xs_instr::{Cond, GetKind, Instr, Reg};

/// What stands behind an instruction's name.
#[derive(Clone, Copy)]
enum Operand {
    Register(Reg),
    Number(u32),
    Kind(GetKind),
    Condition(Cond),
}

/// The instruction that a text is, if it is one: its name, and its operands with `, ` between them.
pub fn instr_of(text: &str) -> Option<Instr> {
    let Some((name, operands)) = text.split_once(' ') else {
        return alone(text);
    };
    let mut operands = operands.split(", ");
    let first = operand_of(operands.next()?)?;
    let Some(second) = operands.next() else {
        return with_one(name, first);
    };
    let second = operand_of(second)?;
    match operands.next() {
        None => with_two(name, first, second),
        Some(third) => with_three(name, first, second, operand_of(third)?),
    }
}

/// An instruction without operands.
fn alone(name: &str) -> Option<Instr> {
    match name {
        "SSYNC" => Some(Instr::Ssync),
        "FREET" => Some(Instr::Freet),
        "CLRE" => Some(Instr::Clre),
        "WAITEU" => Some(Instr::Waiteu),
        _ => None,
    }
}

fn with_one(name: &str, operand: Operand) -> Option<Instr> {
    match operand {
        Operand::Register(r) => of_register(name, r),
        Operand::Number(n) => of_number(name, n),
        _ => None,
    }
}

fn of_register(name: &str, r: Reg) -> Option<Instr> {
    match name {
        "ECALLF" => Some(Instr::Ecallf(r)),
        "ECALLT" => Some(Instr::Ecallt(r)),
        "SETDP" => Some(Instr::Setdp(r)),
        "SETSP" => Some(Instr::Setsp(r)),
        "FREER" => Some(Instr::Freer(r)),
        "MSYNC" => Some(Instr::Msync(r)),
        "MJOIN" => Some(Instr::Mjoin(r)),
        "EEU" => Some(Instr::Eeu(r)),
        "EDU" => Some(Instr::Edu(r)),
        _ => None,
    }
}

fn of_number(name: &str, n: u32) -> Option<Instr> {
    match name {
        "BRFU" => Some(Instr::Brfu(n)),
        "BRBU" => Some(Instr::Brbu(n)),
        "BLRF" => Some(Instr::Blrf(n)),
        "BLRB" => Some(Instr::Blrb(n)),
        "ENTSP" => Some(Instr::Entsp(n)),
        "RETSP" => Some(Instr::Retsp(n)),
        "SETSR" => Some(Instr::Setsr(n)),
        "CLRSR" => Some(Instr::Clrsr(n)),
        _ => None,
    }
}

fn with_two(name: &str, first: Operand, second: Operand) -> Option<Instr> {
    let Operand::Register(r) = first else {
        return None;
    };
    match second {
        Operand::Register(s) => of_two_registers(name, r, s),
        Operand::Number(n) => of_register_and_number(name, r, n),
        Operand::Kind(kind) if name == "GETR" => Some(Instr::Getr(r, kind)),
        Operand::Condition(cond) if name == "SETC" => Some(Instr::Setc(r, cond)),
        _ => None,
    }
}

fn of_two_registers(name: &str, r: Reg, s: Reg) -> Option<Instr> {
    match name {
        "NEG" => Some(Instr::Neg(r, s)),
        "NOT" => Some(Instr::Not(r, s)),
        "GETST" => Some(Instr::Getst(r, s)),
        "TINITDP" => Some(Instr::Tinitdp(r, s)),
        "TINITSP" => Some(Instr::Tinitsp(r, s)),
        "OUT" => Some(Instr::Out(r, s)),
        "OUTT" => Some(Instr::Outt(r, s)),
        "IN" => Some(Instr::In(r, s)),
        "INT" => Some(Instr::Int(r, s)),
        "SETD" => Some(Instr::Setd(r, s)),
        "SETPT" => Some(Instr::Setpt(r, s)),
        "GETTS" => Some(Instr::Getts(r, s)),
        _ => None,
    }
}

fn of_register_and_number(name: &str, r: Reg, n: u32) -> Option<Instr> {
    match name {
        "LDC" => Some(Instr::Ldc(r, n)),
        "LDWDP" => Some(Instr::Ldwdp(r, n)),
        "STWDP" => Some(Instr::Stwdp(r, n)),
        "LDAWDP" => Some(Instr::Ldawdp(r, n)),
        "LDWSP" => Some(Instr::Ldwsp(r, n)),
        "STWSP" => Some(Instr::Stwsp(r, n)),
        "LDAWSP" => Some(Instr::Ldawsp(r, n)),
        "BRFT" => Some(Instr::Brft(r, n)),
        "BRFF" => Some(Instr::Brff(r, n)),
        "BRBT" => Some(Instr::Brbt(r, n)),
        "BRBF" => Some(Instr::Brbf(r, n)),
        "TINITPC" => Some(Instr::Tinitpc(r, n)),
        "OUTCT" => Some(Instr::Outct(r, n)),
        "CHKCT" => Some(Instr::Chkct(r, n)),
        "SETV" => Some(Instr::Setv(r, n)),
        _ => None,
    }
}

fn with_three(name: &str, first: Operand, second: Operand, third: Operand) -> Option<Instr> {
    let (Operand::Register(d), Operand::Register(a)) = (first, second) else {
        return None;
    };
    match third {
        Operand::Register(b) => of_three_registers(name, d, a, b),
        Operand::Number(n) if name == "ADDI" => Some(Instr::Addi(d, a, n)),
        _ => None,
    }
}

fn of_three_registers(name: &str, d: Reg, a: Reg, b: Reg) -> Option<Instr> {
    match name {
        "ADD" => Some(Instr::Add(d, a, b)),
        "SUB" => Some(Instr::Sub(d, a, b)),
        "MUL" => Some(Instr::Mul(d, a, b)),
        "AND" => Some(Instr::And(d, a, b)),
        "OR" => Some(Instr::Or(d, a, b)),
        "XOR" => Some(Instr::Xor(d, a, b)),
        "EQ" => Some(Instr::Eq(d, a, b)),
        "LSS" => Some(Instr::Lss(d, a, b)),
        "LSU" => Some(Instr::Lsu(d, a, b)),
        "SHL" => Some(Instr::Shl(d, a, b)),
        "SHR" => Some(Instr::Shr(d, a, b)),
        "ASHR" => Some(Instr::Ashr(d, a, b)),
        "DIVS" => Some(Instr::Divs(d, a, b)),
        "REMS" => Some(Instr::Rems(d, a, b)),
        "DIVU" => Some(Instr::Divu(d, a, b)),
        "REMU" => Some(Instr::Remu(d, a, b)),
        "LDW" => Some(Instr::Ldw(d, a, b)),
        "STW" => Some(Instr::Stw(d, a, b)),
        _ => None,
    }
}

fn operand_of(text: &str) -> Option<Operand> {
    match text {
        "SYNC" => Some(Operand::Kind(GetKind::Sync)),
        "LOCK" => Some(Operand::Kind(GetKind::Lock)),
        "NONE" => Some(Operand::Condition(Cond::None)),
        "EQ" => Some(Operand::Condition(Cond::Eq)),
        "NEQ" => Some(Operand::Condition(Cond::Neq)),
        "AFTER" => Some(Operand::Condition(Cond::After)),
        _ => match register_of(text) {
            Some(r) => Some(Operand::Register(r)),
            None => number_of(text),
        },
    }
}

fn number_of(text: &str) -> Option<Operand> {
    match text.parse::<u32>() {
        Ok(n) => Some(Operand::Number(n)),
        Err(_) => None,
    }
}

fn register_of(text: &str) -> Option<Reg> {
    match text {
        "r0" => Some(Reg::R0),
        "r1" => Some(Reg::R1),
        "r2" => Some(Reg::R2),
        "r3" => Some(Reg::R3),
        "r4" => Some(Reg::R4),
        "r5" => Some(Reg::R5),
        "r6" => Some(Reg::R6),
        "r7" => Some(Reg::R7),
        "r8" => Some(Reg::R8),
        "r9" => Some(Reg::R9),
        "r10" => Some(Reg::R10),
        "r11" => Some(Reg::R11),
        "cp" => Some(Reg::Cp),
        "dp" => Some(Reg::Dp),
        "sp" => Some(Reg::Sp),
        "lr" => Some(Reg::Lr),
        _ => None,
    }
}
