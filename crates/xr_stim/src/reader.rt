// The reader.
ghost use Rattle.std.specs.Prelude.{ℕ, IfErr, IfOk};
ghost use Rattle.xs_instr.specs.Valid.{IsGoodStim};
ghost use Rattle.xs_instr.specs.declared.image.Stim.{Stim};
ghost use Rattle.xr_stim.specs.Errors.{IfLine};
ghost use Rattle.xr_stim.specs.Stimulus.{IsFirstBroken, Means};

use crate::form::form_of;
use crate::lines::first_line;
use crate::rules::check;
use std::alloc::Global;
use thiserror::Error;
use xs_instr::Stim;
use xw_words::{List, Memory};

/// Why a text is no stimulus.
#[derive(Debug, Drop, Error)]
pub enum StimErr {
    /// A line breaks a rule, and none before it does. Lines are counted from 1, and the rule is the least that it breaks.
    #[error("{line}: rule {rule} is broken")]
    Line { line: u32, rule: u16 },
    /// Memory could not be had.
    #[error("out of memory")]
    Memory,
}

impl From<Memory> for StimErr {
    ghost use Rattle.std.specs.Prelude.{◌≡◌};
    ghost use Rattle.xr_stim.specs.declared.reader.StimErr.TheVariants as err;

    ghost from_gives = { λ _ e. e ≡ err.Memory };

    fn from(_: Memory) -> StimErr {
        StimErr::Memory
    }
}

/// The stimulus that a text means. Of each line of the form `TICK CORE PORT VALUE` it has one: from that tick of the core's
/// clock on the port's pins have that value. Lines that are blank, and those that begin with `#`, say nothing.
///
/// Else the error tells the first line that breaks a rule, and the least that it breaks: 801 another form, or a number of
/// 2^32 or more; 802 a tick below that of the stimulus line before; 803 no such core or port; 804 a value that the port
/// can't have; 805 line 100,001. The other error is that memory could not be had.
pub fn read_stim(alloc: Global, text: &[u8]) -> Result<Stim, StimErr>
    ensures means { IfOk result (λ stim. Means text.now stim) }
    ensures good { IfOk result IsGoodStim }
    ensures unbroken { IfOk result (λ stim. (n r : ℕ) → IsFirstBroken text.now n r → ⊥) }
    ensures broken { IfErr result (λ e. IfLine e (λ line rule. IsFirstBroken text.now line rule)) }
    ensures none { IfErr result (λ e. IfLine e (λ line rule. (s : Stim) → Means text.now s → ⊥)) }
{
    let mut lines = List::new(alloc);
    let mut rest = text;
    let mut number = 0;
    let mut last = 0;
    'lines: while let Some((line, behind)) = first_line(rest) {
        number += 1;
        match check(form_of(line), last, number) {
            Ok(Some(line)) => {
                last = line.tick;
                lines.push(line)?;
            }
            Ok(None) => {}
            Err(rule) => return Err(StimErr::Line { line: number, rule }),
        }
        rest = behind;
    }
    Ok(Stim { lines })
}
