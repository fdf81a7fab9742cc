// The rules of a line.
ghost use Rattle.std.specs.Prelude.{◌≡◌, None, Some, IfErr, IfOk, OnOk};
ghost use Rattle.xr_stim.specs.Stimulus.{broken_rule, line_of};

use crate::form::Form;
use xs_instr::StimLine;
use xw_words::port_width;

/// The most lines that a stimulus may have.
const MOST_LINES: u32 = 100_000;

/// The line of the stimulus that a line of the text says, if it says one, or else the least rule that it breaks: line
/// `number`, where `last` is the tick of the stimulus line before.
pub fn check(form: Form, last: u32, number: u32) -> Result<Option<StimLine>, u16>
    ensures unbroken { OnOk result (broken_rule last number form ≡ None) }
    ensures line { IfOk result (λ line. line ≡ line_of form) }
    ensures broken { IfErr result (λ rule. broken_rule last number form ≡ Some rule) }
{
    let line = match form {
        Form::Skipped => None,
        Form::Other => return Err(801),
        Form::Stimulus(parts) => {
            if parts.tick < last {
                return Err(802);
            }
            let Some(port) = parts.port else {
                return Err(803);
            };
            if parts.core > 3 {
                return Err(803);
            }
            if parts.value as u64 >= 1 << port_width(port) {
                return Err(804);
            }
            Some(StimLine {
                tick: parts.tick,
                core: parts.core as u8,
                port,
                value: parts.value,
            })
        }
    };
    if number > MOST_LINES {
        return Err(805);
    }
    Ok(line)
}
