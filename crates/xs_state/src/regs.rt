ghost use Rattle.std.specs.Prelude.{◌≡◌};
ghost use Rattle.xs_instr.specs.Registers.{no_regs, reg_get, reg_set};

use xs_instr::{Reg, Regs};

/// The registers of a thread by their names.
pub trait Registers {
    /// All are 0.
    fn new() -> Self;

    /// What a register holds.
    fn get(&self, r: Reg) -> u32;

    /// Puts a word into a register; the others stay.
    fn set(&mut self, r: Reg, v: u32);
}

impl Registers for Regs {
    #[inline]
    fn new() -> Regs
        ensures { result ≡ no_regs }
    {
        Regs {
            r0: 0,
            r1: 0,
            r2: 0,
            r3: 0,
            r4: 0,
            r5: 0,
            r6: 0,
            r7: 0,
            r8: 0,
            r9: 0,
            r10: 0,
            r11: 0,
            cp: 0,
            dp: 0,
            sp: 0,
            lr: 0,
        }
    }

    #[inline]
    fn get(&self, r: Reg) -> u32
        ensures { result ≡ reg_get self.now r }
    {
        match r {
            Reg::R0 => self.r0,
            Reg::R1 => self.r1,
            Reg::R2 => self.r2,
            Reg::R3 => self.r3,
            Reg::R4 => self.r4,
            Reg::R5 => self.r5,
            Reg::R6 => self.r6,
            Reg::R7 => self.r7,
            Reg::R8 => self.r8,
            Reg::R9 => self.r9,
            Reg::R10 => self.r10,
            Reg::R11 => self.r11,
            Reg::Cp => self.cp,
            Reg::Dp => self.dp,
            Reg::Sp => self.sp,
            Reg::Lr => self.lr,
        }
    }

    #[inline]
    fn set(&mut self, r: Reg, v: u32)
        ensures { self.new ≡ reg_set self.old r v }
    {
        match r {
            Reg::R0 => self.r0 = v,
            Reg::R1 => self.r1 = v,
            Reg::R2 => self.r2 = v,
            Reg::R3 => self.r3 = v,
            Reg::R4 => self.r4 = v,
            Reg::R5 => self.r5 = v,
            Reg::R6 => self.r6 = v,
            Reg::R7 => self.r7 = v,
            Reg::R8 => self.r8 = v,
            Reg::R9 => self.r9 = v,
            Reg::R10 => self.r10 = v,
            Reg::R11 => self.r11 = v,
            Reg::Cp => self.cp = v,
            Reg::Dp => self.dp = v,
            Reg::Sp => self.sp = v,
            Reg::Lr => self.lr = v,
        }
    }
}
