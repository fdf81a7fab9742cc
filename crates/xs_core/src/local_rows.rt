// The rows of registers, memory and flow.

ghost use Rattle.std.specs.Prelude.{◌≡◌, ◌+◌, ◌*◌, ◌%◌, ◌<◌, ◌^◌, true, slice_set, IfOk};
ghost use Rattle.xs_core.specs.Local.{LocalFits, is_local as is_local_of, is_value, local_after, local_did, local_in, with_local};
ghost use Rattle.xs_core.specs.Seen.{thread_at};
ghost use Rattle.xs_instr.specs.Did.{makes};
ghost use Rattle.xs_instr.specs.Memory.{address_at};
ghost use Rattle.xs_instr.specs.Rows.{Local, local_row, sets_where, passes_by, jumps_by, loads_at, stores_at, enters, returns};
ghost use Rattle.xw_words.specs.Words.{truth, word_difference};

use crate::state::THREADS;
use xs_instr::{Instr, Reg, Regs, Thread, Trap};
use xs_state::{Ram, Registers};
use xw_words::{ashr, div_s, div_u, less_s, rem_s, rem_u, shl, shr};

/// What a thread does to its registers and the core's words.
#[derive(Clone, Copy)]
pub enum LocalStep {
    /// On to the next instruction.
    Pass,
    /// A register is set.
    Set(Reg, u32),
    /// To an index.
    Jump(u32),
    /// To an index, and lr leads to the next instruction.
    Call(u32),
    /// The word at an address is set.
    Store(u32, u32),
    /// lr is kept at sp, which goes down by so many words.
    Enter(u32),
    /// sp and lr are set, and the way goes on at lr.
    Return(u32, u32),
}

/// Whether the instruction is one of registers, memory and flow.
pub fn is_local(instr: Instr) -> bool
    ensures { result ≡ is_local_of instr }
{
    match instr {
        Instr::Getr(_, _) | Instr::Freer(_) | Instr::Getst(_, _) => false,
        Instr::Tinitpc(_, _) | Instr::Tinitdp(_, _) | Instr::Tinitsp(_, _) => false,
        Instr::Msync(_) | Instr::Ssync | Instr::Mjoin(_) | Instr::Freet => false,
        Instr::Out(_, _) | Instr::Outt(_, _) | Instr::Outct(_, _) => false,
        Instr::In(_, _) | Instr::Int(_, _) | Instr::Chkct(_, _) => false,
        Instr::Setc(_, _) | Instr::Setd(_, _) | Instr::Setpt(_, _) => false,
        Instr::Getts(_, _) | Instr::Setv(_, _) | Instr::Eeu(_) | Instr::Edu(_) => false,
        Instr::Clre | Instr::Waiteu | Instr::Setsr(_) | Instr::Clrsr(_) => false,
        _ => true,
    }
}

/// What an instruction of registers, memory and flow does, or why it traps.
#[inline(always)]
pub fn step(thread: &Thread, words: &Ram, instr: Instr) -> Result<LocalStep, Trap>
    requires { is_local_of instr ≡ true }
    ensures row { local_did (local_in thread.now words.now) result
        ≡ local_row (local_in thread.now words.now) instr }
    ensures fits { IfOk result (λ s. LocalFits (local_in thread.now words.now) s) }
{
    let regs = &thread.regs;
    match instr {
        Instr::Divs(d, a, b) => set_where(d, div_s(regs.get(a), regs.get(b))),
        Instr::Rems(d, a, b) => set_where(d, rem_s(regs.get(a), regs.get(b))),
        Instr::Divu(d, a, b) => set_where(d, div_u(regs.get(a), regs.get(b))),
        Instr::Remu(d, a, b) => set_where(d, rem_u(regs.get(a), regs.get(b))),
        Instr::Ecallf(a) => pass_where(regs.get(a) != 0),
        Instr::Ecallt(a) => pass_where(regs.get(a) == 0),
        Instr::Ldwdp(d, n) => load(words, d, address(regs.dp, n)),
        Instr::Stwdp(s, n) => store(words, regs.get(s), address(regs.dp, n)),
        Instr::Ldwsp(d, n) => load(words, d, address(regs.sp, n)),
        Instr::Stwsp(s, n) => store(words, regs.get(s), address(regs.sp, n)),
        Instr::Ldw(d, b, i) => load(words, d, address(regs.get(b), regs.get(i))),
        Instr::Stw(s, b, i) => store(words, regs.get(s), address(regs.get(b), regs.get(i))),
        Instr::Brft(a, k) | Instr::Brbt(a, k) => Ok(jump_where(k, regs.get(a) != 0)),
        Instr::Brff(a, k) | Instr::Brbf(a, k) => Ok(jump_where(k, regs.get(a) == 0)),
        Instr::Brfu(k) | Instr::Brbu(k) => Ok(LocalStep::Jump(k)),
        Instr::Blrf(k) | Instr::Blrb(k) => Ok(LocalStep::Call(k)),
        Instr::Entsp(n) => enter(regs, words, n),
        Instr::Retsp(n) => go_back(regs, words, n),
        _ => Ok(value(regs, instr)),
    }
}

/// What an instruction does that sets a register to a value.
#[inline(always)]
fn value(regs: &Regs, instr: Instr) -> LocalStep
    requires { is_value instr ≡ true }
    ensures row { (own : Local) → own.regs ≡ regs.now → makes (local_after own result)
        ≡ local_row own instr }
    ensures fits { (own : Local) → LocalFits own result }
{
    match instr {
        Instr::Add(d, a, b) => LocalStep::Set(d, regs.get(a).wrapping_add(regs.get(b))),
        Instr::Sub(d, a, b) => LocalStep::Set(d, regs.get(a).wrapping_sub(regs.get(b))),
        Instr::Mul(d, a, b) => LocalStep::Set(d, regs.get(a).wrapping_mul(regs.get(b))),
        Instr::And(d, a, b) => LocalStep::Set(d, regs.get(a) & regs.get(b)),
        Instr::Or(d, a, b) => LocalStep::Set(d, regs.get(a) | regs.get(b)),
        Instr::Xor(d, a, b) => LocalStep::Set(d, regs.get(a) ^ regs.get(b)),
        Instr::Addi(d, a, n) => LocalStep::Set(d, regs.get(a).wrapping_add(n)),
        Instr::Neg(d, a) => LocalStep::Set(d, regs.get(a).wrapping_neg()),
        Instr::Not(d, a) => LocalStep::Set(d, !regs.get(a)),
        Instr::Eq(d, a, b) => LocalStep::Set(d, one_if(regs.get(a) == regs.get(b))),
        Instr::Lss(d, a, b) => LocalStep::Set(d, one_if(less_s(regs.get(a), regs.get(b)))),
        Instr::Lsu(d, a, b) => LocalStep::Set(d, one_if(regs.get(a) < regs.get(b))),
        Instr::Shl(d, a, b) => LocalStep::Set(d, shl(regs.get(a), regs.get(b))),
        Instr::Shr(d, a, b) => LocalStep::Set(d, shr(regs.get(a), regs.get(b))),
        Instr::Ashr(d, a, b) => LocalStep::Set(d, ashr(regs.get(a), regs.get(b))),
        Instr::Ldc(d, n) => LocalStep::Set(d, n),
        Instr::Ldawdp(d, n) => LocalStep::Set(d, address(regs.dp, n)),
        Instr::Ldawsp(d, n) => LocalStep::Set(d, address(regs.sp, n)),
        Instr::Setdp(s) => LocalStep::Set(Reg::Dp, regs.get(s)),
        Instr::Setsp(s) => LocalStep::Set(Reg::Sp, regs.get(s)),
        _ => unreachable!(),
    }
}

fn set_where(d: Reg, value: Option<u32>) -> Result<LocalStep, Trap>
    ensures row { (own : Local) → local_did own result ≡ sets_where own d value }
    ensures fits { (own : Local) → IfOk result (λ s. LocalFits own s) }
{
    match value {
        Some(value) => Ok(LocalStep::Set(d, value)),
        None => Err(Trap::Arithmetic),
    }
}

fn pass_where(holds: bool) -> Result<LocalStep, Trap>
    ensures row { (own : Local) → local_did own result ≡ passes_by own holds }
    ensures fits { (own : Local) → IfOk result (λ s. LocalFits own s) }
{
    if holds {
        Ok(LocalStep::Pass)
    } else {
        Err(Trap::Index)
    }
}

fn jump_where(k: u32, holds: bool) -> LocalStep
    ensures row { (own : Local) → makes (local_after own result) ≡ jumps_by own k holds }
    ensures fits { (own : Local) → LocalFits own result }
{
    if holds {
        LocalStep::Jump(k)
    } else {
        LocalStep::Pass
    }
}

fn load(words: &Ram, d: Reg, address: u32) -> Result<LocalStep, Trap>
    ensures row { (own : Local) → own.words ≡ words.now → local_did own result
        ≡ loads_at own d address }
    ensures fits { (own : Local) → IfOk result (λ s. LocalFits own s) }
{
    match words.read(address) {
        Some(value) => Ok(LocalStep::Set(d, value)),
        None => Err(Trap::Address),
    }
}

fn store(words: &Ram, value: u32, address: u32) -> Result<LocalStep, Trap>
    ensures row { (own : Local) → own.words ≡ words.now → local_did own result
        ≡ stores_at own value address }
    ensures fits { (own : Local) → own.words ≡ words.now → IfOk result (λ s. LocalFits own s) }
{
    match words.read(address) {
        Some(_) => Ok(LocalStep::Store(address, value)),
        None => Err(Trap::Address),
    }
}

/// ENTSP.
fn enter(regs: &Regs, words: &Ram, n: u32) -> Result<LocalStep, Trap>
    ensures row { (own : Local) → own.regs ≡ regs.now → own.words ≡ words.now → local_did own result
        ≡ enters own n }
    ensures fits { (own : Local) → own.regs ≡ regs.now → own.words ≡ words.now →
        IfOk result (λ s. LocalFits own s) }
{
    if n == 0 {
        return Ok(LocalStep::Pass);
    }
    match words.read(regs.sp) {
        Some(_) => Ok(LocalStep::Enter(n)),
        None => Err(Trap::Address),
    }
}

/// RETSP.
fn go_back(regs: &Regs, words: &Ram, n: u32) -> Result<LocalStep, Trap>
    ensures row { (own : Local) → own.regs ≡ regs.now → own.words ≡ words.now → local_did own result
        ≡ returns own n }
    ensures fits { (own : Local) → IfOk result (λ s. LocalFits own s) }
{
    if n == 0 {
        return Ok(LocalStep::Jump(regs.lr));
    }
    let sp = address(regs.sp, n);
    match words.read(sp) {
        Some(lr) => Ok(LocalStep::Return(sp, lr)),
        None => Err(Trap::Address),
    }
}

/// `n` words further up, wrapping.
fn address(base: u32, n: u32) -> u32
    ensures { result ≡ address_at base n }
{
    ((base as u64 + 4 * n as u64) % 0x1_0000_0000) as u32
}

fn one_if(holds: bool) -> u32
    ensures { result ≡ truth holds }
{
    if holds { 1 } else { 0 }
}

/// Takes the step.
#[inline(always)]
pub fn apply(threads: &mut [Thread; THREADS], words: &mut Ram, t: u8, step: LocalStep)
    requires there { t < 8 }
    requires room { (thread_at threads.old t).pc + 1 < 2 ^ 32 }
    requires fits { LocalFits (local_in (thread_at threads.old t) words.old) step }
    ensures threads { let own = local_after (local_in (thread_at threads.old t) words.old) step in
        threads.new ≡ slice_set threads.old t (with_local (thread_at threads.old t) own) }
    ensures words { words.new
        ≡ (local_after (local_in (thread_at threads.old t) words.old) step).words }
{
    let thread = &mut threads[t as usize];
    let next = thread.pc + 1;
    match step {
        LocalStep::Pass => thread.pc = next,
        LocalStep::Set(d, value) => {
            thread.regs.set(d, value);
            thread.pc = next;
        }
        LocalStep::Jump(k) => thread.pc = k,
        LocalStep::Call(k) => {
            thread.regs.lr = next;
            thread.pc = k;
        }
        LocalStep::Store(address, value) => {
            let _ = words.write(address, value);
            thread.pc = next;
        }
        LocalStep::Enter(n) => {
            let _ = words.write(thread.regs.sp, thread.regs.lr);
            thread.regs.sp = lower(thread.regs.sp, n);
            thread.pc = next;
        }
        LocalStep::Return(sp, lr) => {
            thread.regs.sp = sp;
            thread.regs.lr = lr;
            thread.pc = lr;
        }
    }
}

/// `n` words further down, wrapping.
fn lower(sp: u32, n: u32) -> u32
    ensures { result ≡ word_difference sp (4 * n % 2 ^ 32) }
{
    let bytes = (4 * n as u64 % 0x1_0000_0000) as u32;
    sp.wrapping_sub(bytes)
}
