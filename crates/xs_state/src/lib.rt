//! The words of a core's memory and the registers of a thread.
#![tactic(auto)]

mod ram;
mod regs;

pub use ram::Ram;
pub use regs::Registers;
