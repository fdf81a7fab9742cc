//! What a case begins with.

use crate::images::image_of;
use crate::trouble::Trouble;
use crate::turns::core_with;
use std::alloc::Global;
use xr_stim::read_stim;
use xs_core::Core;
use xs_instr::{Instr, Token};
use xw_words::List;

/// How many cores there are.
const CORES: u8 = 4;

/// What a case begins with.
#[derive(Drop)]
pub struct Setup {
    pub instrs: List<Instr>,
    pub roots: List<u32>,
    /// The stimulus, as text.
    pub stimulus: String,
    /// The core that is tried.
    pub core: u8,
    /// What comes from core 1 before all else.
    pub token: Option<Token>,
}

impl Setup {
    /// Core 0, without code so far.
    pub fn new(alloc: Global) -> Setup {
        Setup {
            instrs: List::new(alloc),
            roots: List::new(alloc),
            stimulus: String::new(alloc),
            core: 0,
            token: None,
        }
    }

    /// Adds a line of the stimulus.
    pub fn add_stimulus(&mut self, line: &str) -> Result<(), Trouble> {
        self.stimulus.push_str(line)?;
        self.stimulus.push('\n')?;
        Ok(())
    }

    /// The core as it starts.
    pub fn start(self, alloc: Global) -> Result<Core, Trouble> {
        let Setup {
            instrs,
            roots,
            stimulus,
            core,
            token,
        } = self;
        if core >= CORES {
            return Err(Trouble::Line);
        }
        let stim = read_stim(alloc, stimulus.as_bytes())?;
        let image = image_of(alloc, instrs, roots)?;
        Ok(core_with(alloc, &image, core, &stim, token)?)
    }
}
