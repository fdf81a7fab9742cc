use std::alloc::AllocError;
use xw_words::Memory as WantOfMemory;

/// Why reading a symbol stopped, and at which token.
#[derive(Clone, Copy, Drop)]
pub enum Stop {
    /// No reading goes on with this token, or with the end of the tokens.
    Wrong(usize),
    /// Only readings that put a node too deep go on with this token.
    Deep(usize),
    /// Memory could not be had.
    Memory,
}

impl From<AllocError> for Stop {
    ghost use Rattle.std.specs.Prelude.{◌≡◌};
    ghost use Rattle.xc_nonterminals.specs.declared.stop.Stop.TheVariants as stop;

    ghost from_gives = { λ _ e. e ≡ stop.Memory };

    fn from(_: AllocError) -> Stop {
        Stop::Memory
    }
}

impl From<WantOfMemory> for Stop {
    ghost use Rattle.std.specs.Prelude.{◌≡◌};
    ghost use Rattle.xc_nonterminals.specs.declared.stop.Stop.TheVariants as stop;

    ghost from_gives = { λ _ e. e ≡ stop.Memory };

    fn from(_: WantOfMemory) -> Stop {
        Stop::Memory
    }
}
