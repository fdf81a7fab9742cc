use thiserror::Error;
use xw_words::{Broken, Memory};

/// Why a phase refuses a text or a program.
#[derive(Debug, Drop, Error)]
pub enum Refusal {
    /// It breaks a rule of the phase, of all that it breaks the first.
    #[error("{}:{}: rule {} is broken", .0.pos.line, .0.pos.col, .0.rule)]
    Broken(Broken),
    /// Memory could not be had.
    #[error("out of memory")]
    Memory,
}

impl From<Memory> for Refusal {
    ghost use Rattle.std.specs.Prelude.{◌≡◌};
    ghost use Rattle.xc_tree.specs.declared.refusal.Refusal.TheVariants as refusal;

    ghost from_gives = { λ _ r. r ≡ refusal.Memory };

    fn from(_: Memory) -> Refusal {
        Refusal::Memory
    }
}
