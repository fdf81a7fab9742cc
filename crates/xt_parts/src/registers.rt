//! The registers of a thread.

use xs_instr::{Reg, Regs};
use xs_state::Registers;

const ALL: [Reg; 16] = [
    Reg::R0,
    Reg::R1,
    Reg::R2,
    Reg::R3,
    Reg::R4,
    Reg::R5,
    Reg::R6,
    Reg::R7,
    Reg::R8,
    Reg::R9,
    Reg::R10,
    Reg::R11,
    Reg::Cp,
    Reg::Dp,
    Reg::Sp,
    Reg::Lr,
];

/// The place of the first register that doesn't start with 0, or doesn't keep a word of its own.
pub fn wrong_register() -> Option<usize> {
    let mut regs = Regs::new();
    let wrong = set_each(&mut regs);
    if wrong.is_some() {
        return wrong;
    }
    for (place, register) in ALL.iter().enumerate() {
        if regs.get(*register) != 100 + place as u32 {
            return Some(place);
        }
    }
    None
}

/// Sets each register. The place of the first that isn't 0 before.
fn set_each(regs: &mut Regs) -> Option<usize> {
    for (place, register) in ALL.iter().enumerate() {
        if regs.get(*register) != 0 {
            return Some(place);
        }
        regs.set(*register, 100 + place as u32);
    }
    None
}
