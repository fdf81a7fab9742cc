// Whether code and roots are what an image may have.

ghost use Rattle.std.specs.Bool.{OnTrue};
ghost use Rattle.std.specs.Prelude.{length};
ghost use Rattle.xs_instr.specs.Valid.{AreGoodInstrs, AreIndices, IsGoodInstr};

use xs_instr::Instr;

/// Whether each instruction has its target on the right side, and each control token is a byte.
pub fn are_good(instrs: &[Instr]) -> bool
    ensures { OnTrue result (AreGoodInstrs (length instrs.now) 0 instrs.now) }
{
    let size = instrs.len();
    let mut rest = instrs;
    let mut index = 0usize;
    'each: while let [first, behind @ ..] = rest {
        if !is_good(size, index, *first) {
            return false;
        }
        rest = behind;
        index += 1;
    }
    true
}

/// Whether the instruction at an index has its target on the right side, and its control token is a byte.
fn is_good(size: usize, index: usize, instr: Instr) -> bool
    ensures { OnTrue result (IsGoodInstr size index instr) }
{
    match instr {
        Instr::Brft(_, k) | Instr::Brff(_, k) | Instr::Brfu(k) | Instr::Blrf(k) => {
            index < k as usize && (k as usize) < size
        }
        Instr::Brbt(_, k) | Instr::Brbf(_, k) | Instr::Brbu(k) | Instr::Blrb(k) => {
            k as usize <= index && (k as usize) < size
        }
        Instr::Setv(_, k) | Instr::Tinitpc(_, k) => (k as usize) < size,
        Instr::Outct(_, n) | Instr::Chkct(_, n) => n <= 255,
        _ => true,
    }
}

/// Whether each root is an index of the code.
pub fn are_indices(size: usize, roots: &[u32]) -> bool
    ensures { OnTrue result (AreIndices size roots.now) }
{
    let mut rest = roots;
    'each: while let [first, behind @ ..] = rest {
        if *first as usize >= size {
            return false;
        }
        rest = behind;
    }
    true
}
