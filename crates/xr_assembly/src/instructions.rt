// Instructions as words of a line.
ghost use Rattle.std.specs.Prelude.{◌≡◌, ◌∷◌, []};
ghost use Rattle.xr_assembly.specs.Cuts.{the_one_named};
ghost use Rattle.xr_assembly.specs.Instructions as spec;
ghost use Rattle.xr_assembly.specs.Instructions.{bare, conditions, kinds, on_number, on_one, on_register, on_register_and, on_register_and_number, on_three, on_three_registers, on_two, on_two_registers, on_two_registers_and, operand_before_comma, registers};
ghost use Rattle.xr_text.specs.Names.{name_of};
ghost use Rattle.xs_instr.specs.Texts.{cond_text, get_text, reg_text};

use crate::cuts::{before_last, named, numeral};
use xs_instr::{Cond, GetKind, Instr, Reg};

/// What a word behind an instruction's name is. `None` stands for a number of 2^32 or more.
#[derive(Clone, Copy)]
pub enum Operand {
    Register(Reg),
    Number(Option<u32>),
    Condition(Cond),
    Kind(GetKind),
}

/// An instruction, and whether its number is below 2^32. Where it isn't, 0 stands for it.
#[derive(Clone, Copy)]
pub struct Spoken {
    pub instr: Instr,
    pub fits: bool,
}

/// The instruction of this name without operands.
pub fn with_none(name: &[u8]) -> Option<Spoken>
    ensures { result ≡ spec.with_none name.now }
{
    let instr = bare_named(name)?;
    Some(Spoken { instr, fits: true })
}

/// The instruction of this name with this operand.
pub fn with_one(name: &[u8], a: &[u8]) -> Option<Spoken>
    ensures { result ≡ spec.with_one name.now a.now }
{
    let a = operand_of(a)?;
    let instr = one_named(name, a)?;
    Some(Spoken {
        instr,
        fits: fits(a),
    })
}

/// The instruction of this name with these two operands, a comma behind the first.
pub fn with_two(name: &[u8], a: &[u8], b: &[u8]) -> Option<Spoken>
    ensures { result ≡ spec.with_two name.now a.now b.now }
{
    let a = operand_before(a)?;
    let b = operand_of(b)?;
    let instr = two_named(name, a, b)?;
    Some(Spoken {
        instr,
        fits: fits(a) && fits(b),
    })
}

/// The instruction of this name with these three operands, a comma behind the first and the second.
pub fn with_three(name: &[u8], a: &[u8], b: &[u8], c: &[u8]) -> Option<Spoken>
    ensures { result ≡ spec.with_three name.now a.now b.now c.now }
{
    let a = operand_before(a)?;
    let b = operand_before(b)?;
    let c = operand_of(c)?;
    let instr = three_named(name, a, b, c)?;
    Some(Spoken {
        instr,
        fits: fits(a) && fits(b) && fits(c),
    })
}

fn fits(operand: Operand) -> bool
    ensures { result ≡ spec.fits operand }
{
    match operand {
        Operand::Number(n) => n.is_some(),
        _ => true,
    }
}

/// The operand that a word is with a comma behind it.
fn operand_before(word: &[u8]) -> Option<Operand>
    ensures { result ≡ operand_before_comma word.now }
{
    let word = before_last(word, b',')?;
    operand_of(word)
}

/// The operand that a word is.
fn operand_of(word: &[u8]) -> Option<Operand>
    ensures { result ≡ spec.operand word.now }
{
    if let Some(a) = register_named(word) {
        return Some(Operand::Register(a));
    }
    if let Some(cond) = condition_named(word) {
        return Some(Operand::Condition(cond));
    }
    if let Some(kind) = kind_named(word) {
        return Some(Operand::Kind(kind));
    }
    let n = numeral(word)?;
    Some(Operand::Number(n))
}

fn register_named(word: &[u8]) -> Option<Reg>
    ensures { result ≡ the_one_named reg_text registers word.now }
{
    let rows: [(&[u8], Reg); 16] = [
        (b"r0", Reg::R0),
        (b"r1", Reg::R1),
        (b"r2", Reg::R2),
        (b"r3", Reg::R3),
        (b"r4", Reg::R4),
        (b"r5", Reg::R5),
        (b"r6", Reg::R6),
        (b"r7", Reg::R7),
        (b"r8", Reg::R8),
        (b"r9", Reg::R9),
        (b"r10", Reg::R10),
        (b"r11", Reg::R11),
        (b"cp", Reg::Cp),
        (b"dp", Reg::Dp),
        (b"sp", Reg::Sp),
        (b"lr", Reg::Lr),
    ];
    named(&rows, word)
}

fn condition_named(word: &[u8]) -> Option<Cond>
    ensures { result ≡ the_one_named cond_text conditions word.now }
{
    let rows: [(&[u8], Cond); 4] = [
        (b"NONE", Cond::None),
        (b"EQ", Cond::Eq),
        (b"NEQ", Cond::Neq),
        (b"AFTER", Cond::After),
    ];
    named(&rows, word)
}

fn kind_named(word: &[u8]) -> Option<GetKind>
    ensures { result ≡ the_one_named get_text kinds word.now }
{
    let rows: [(&[u8], GetKind); 2] = [(b"SYNC", GetKind::Sync), (b"LOCK", GetKind::Lock)];
    named(&rows, word)
}

fn bare_named(name: &[u8]) -> Option<Instr>
    ensures { result ≡ the_one_named name_of bare name.now }
{
    let rows: [(&[u8], Instr); 4] = [
        (b"SSYNC", Instr::Ssync),
        (b"FREET", Instr::Freet),
        (b"CLRE", Instr::Clre),
        (b"WAITEU", Instr::Waiteu),
    ];
    named(&rows, name)
}

fn one_named(name: &[u8], a: Operand) -> Option<Instr>
    ensures { result ≡ the_one_named name_of (on_one a) name.now }
{
    match a {
        Operand::Register(a) => register_instr(name, a),
        Operand::Number(n) => number_instr(name, n.unwrap_or(0)),
        _ => None,
    }
}

fn two_named(name: &[u8], a: Operand, b: Operand) -> Option<Instr>
    ensures { result ≡ the_one_named name_of (on_two a b) name.now }
{
    match a {
        Operand::Register(a) => register_and(name, a, b),
        _ => None,
    }
}

fn register_and(name: &[u8], a: Reg, b: Operand) -> Option<Instr>
    ensures { result ≡ the_one_named name_of (on_register_and a b) name.now }
{
    match b {
        Operand::Register(b) => two_register_instr(name, a, b),
        Operand::Number(n) => register_and_number_instr(name, a, n.unwrap_or(0)),
        Operand::Condition(cond) => named(&[(b"SETC".as_slice(), Instr::Setc(a, cond))], name),
        Operand::Kind(kind) => named(&[(b"GETR".as_slice(), Instr::Getr(a, kind))], name),
    }
}

fn three_named(name: &[u8], a: Operand, b: Operand, c: Operand) -> Option<Instr>
    ensures { result ≡ the_one_named name_of (on_three a b c) name.now }
{
    match (a, b) {
        (Operand::Register(a), Operand::Register(b)) => two_registers_and(name, a, b, c),
        _ => None,
    }
}

fn two_registers_and(name: &[u8], a: Reg, b: Reg, c: Operand) -> Option<Instr>
    ensures { result ≡ the_one_named name_of (on_two_registers_and a b c) name.now }
{
    match c {
        Operand::Register(c) => three_register_instr(name, a, b, c),
        Operand::Number(n) => {
            named(
                &[(b"ADDI".as_slice(), Instr::Addi(a, b, n.unwrap_or(0)))],
                name,
            )
        }
        _ => None,
    }
}

fn register_instr(name: &[u8], a: Reg) -> Option<Instr>
    ensures { result ≡ the_one_named name_of (on_register a) name.now }
{
    let rows: [(&[u8], Instr); 9] = [
        (b"ECALLF", Instr::Ecallf(a)),
        (b"ECALLT", Instr::Ecallt(a)),
        (b"SETDP", Instr::Setdp(a)),
        (b"SETSP", Instr::Setsp(a)),
        (b"FREER", Instr::Freer(a)),
        (b"MSYNC", Instr::Msync(a)),
        (b"MJOIN", Instr::Mjoin(a)),
        (b"EEU", Instr::Eeu(a)),
        (b"EDU", Instr::Edu(a)),
    ];
    named(&rows, name)
}

fn number_instr(name: &[u8], n: u32) -> Option<Instr>
    ensures { result ≡ the_one_named name_of (on_number n) name.now }
{
    let rows: [(&[u8], Instr); 8] = [
        (b"BRFU", Instr::Brfu(n)),
        (b"BRBU", Instr::Brbu(n)),
        (b"BLRF", Instr::Blrf(n)),
        (b"BLRB", Instr::Blrb(n)),
        (b"ENTSP", Instr::Entsp(n)),
        (b"RETSP", Instr::Retsp(n)),
        (b"SETSR", Instr::Setsr(n)),
        (b"CLRSR", Instr::Clrsr(n)),
    ];
    named(&rows, name)
}

fn two_register_instr(name: &[u8], a: Reg, b: Reg) -> Option<Instr>
    ensures { result ≡ the_one_named name_of (on_two_registers a b) name.now }
{
    let rows: [(&[u8], Instr); 12] = [
        (b"NEG", Instr::Neg(a, b)),
        (b"NOT", Instr::Not(a, b)),
        (b"GETST", Instr::Getst(a, b)),
        (b"TINITDP", Instr::Tinitdp(a, b)),
        (b"TINITSP", Instr::Tinitsp(a, b)),
        (b"OUT", Instr::Out(a, b)),
        (b"OUTT", Instr::Outt(a, b)),
        (b"IN", Instr::In(a, b)),
        (b"INT", Instr::Int(a, b)),
        (b"SETD", Instr::Setd(a, b)),
        (b"SETPT", Instr::Setpt(a, b)),
        (b"GETTS", Instr::Getts(a, b)),
    ];
    named(&rows, name)
}

fn register_and_number_instr(name: &[u8], a: Reg, n: u32) -> Option<Instr>
    ensures { result ≡ the_one_named name_of (on_register_and_number a n) name.now }
{
    let rows: [(&[u8], Instr); 15] = [
        (b"LDC", Instr::Ldc(a, n)),
        (b"LDWDP", Instr::Ldwdp(a, n)),
        (b"STWDP", Instr::Stwdp(a, n)),
        (b"LDAWDP", Instr::Ldawdp(a, n)),
        (b"LDWSP", Instr::Ldwsp(a, n)),
        (b"STWSP", Instr::Stwsp(a, n)),
        (b"LDAWSP", Instr::Ldawsp(a, n)),
        (b"BRFT", Instr::Brft(a, n)),
        (b"BRFF", Instr::Brff(a, n)),
        (b"BRBT", Instr::Brbt(a, n)),
        (b"BRBF", Instr::Brbf(a, n)),
        (b"TINITPC", Instr::Tinitpc(a, n)),
        (b"OUTCT", Instr::Outct(a, n)),
        (b"CHKCT", Instr::Chkct(a, n)),
        (b"SETV", Instr::Setv(a, n)),
    ];
    named(&rows, name)
}

fn three_register_instr(name: &[u8], a: Reg, b: Reg, c: Reg) -> Option<Instr>
    ensures { result ≡ the_one_named name_of (on_three_registers a b c) name.now }
{
    let rows: [(&[u8], Instr); 18] = [
        (b"ADD", Instr::Add(a, b, c)),
        (b"SUB", Instr::Sub(a, b, c)),
        (b"MUL", Instr::Mul(a, b, c)),
        (b"AND", Instr::And(a, b, c)),
        (b"OR", Instr::Or(a, b, c)),
        (b"XOR", Instr::Xor(a, b, c)),
        (b"EQ", Instr::Eq(a, b, c)),
        (b"LSS", Instr::Lss(a, b, c)),
        (b"LSU", Instr::Lsu(a, b, c)),
        (b"SHL", Instr::Shl(a, b, c)),
        (b"SHR", Instr::Shr(a, b, c)),
        (b"ASHR", Instr::Ashr(a, b, c)),
        (b"DIVS", Instr::Divs(a, b, c)),
        (b"REMS", Instr::Rems(a, b, c)),
        (b"DIVU", Instr::Divu(a, b, c)),
        (b"REMU", Instr::Remu(a, b, c)),
        (b"LDW", Instr::Ldw(a, b, c)),
        (b"STW", Instr::Stw(a, b, c)),
    ];
    named(&rows, name)
}
