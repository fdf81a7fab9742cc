// The reader of a listing's lines.
ghost use Rattle.std.specs.Prelude.{◌≡◌, ◌+◌, ◌<◌, ◌^◌, None, Some, true, length, IfErr, IfOk, OnOk};
ghost use Rattle.xr_assembly.specs.Cuts.{parts};
ghost use Rattle.xr_assembly.specs.Errors.{IfAsmLine};
ghost use Rattle.xr_assembly.specs.Reading.{broken_listing_rule, first_broken, in_range, listing_lines};
ghost use Rattle.xr_assembly.specs.Reading as spec;

use crate::cuts::split;
use crate::lines::{Form, Line, form_of};
use crate::order::{Here, behind_line, is_in_range, kind_of, may_end, may_follow, start};
use std::alloc::Global;
use thiserror::Error;
use xw_words::{List, Memory};

/// Why a text is no listing.
#[derive(Debug, Drop, Error)]
pub enum AsmErr {
    /// A line breaks a rule. Lines are counted from 1.
    #[error("{line}: rule {rule} is broken")]
    Line { line: u32, rule: u16 },
    /// Memory could not be had.
    #[error("out of memory")]
    Memory,
}

impl From<Memory> for AsmErr {
    ghost use Rattle.std.specs.Prelude.{◌≡◌};
    ghost use Rattle.xr_assembly.specs.declared.reader.AsmErr.TheVariants as err;

    ghost from_gives = { λ _ e. e ≡ err.Memory };

    fn from(_: Memory) -> AsmErr {
        AsmErr::Memory
    }
}

/// The lines of a listing, as far as `trace` or the end of the text.
///
/// Else the error tells the first line that breaks a rule of lines, with the least: 1101 no form of a line, or one that may not stand
/// there; 1102 a number out of its range. Where the text ends too early, that is the line behind the last. In what stands behind `trace`
/// nothing is looked at. The other error is want of memory.
pub fn read_lines(alloc: Global, text: &[u8]) -> Result<List<Line>, AsmErr>
    requires short { length text.now + 1 < 2 ^ 32 }
    ensures lines { IfOk result (λ lines. lines ≡ listing_lines (parts 10 text.now)) }
    ensures few { IfOk result (λ lines. length lines < 2 ^ 32) }
    ensures unbroken { OnOk result (first_broken spec.start 1 (parts 10 text.now) ≡ None) }
    ensures broken { IfErr result
        (λ e. IfAsmLine e (λ line rule. first_broken spec.start 1 (parts 10 text.now) ≡ Some (line, rule))) }
{
    let mut lines = List::new(alloc);
    let mut here = start();
    let mut rest = text;
    let mut number = 0;
    'lines: while let Some((bytes, behind)) = split(rest, b'\n') {
        number += 1;
        let form = match check(here, form_of(bytes)) {
            Ok(form) => form,
            Err(rule) => return Err(AsmErr::Line { line: number, rule }),
        };
        if is_trace(form.line) {
            return Ok(lines);
        }
        here = behind_line(here, form.line);
        lines.push(form.line)?;
        rest = behind;
    }
    if rest.is_empty() && may_end(here.kind) {
        return Ok(lines);
    }
    Err(AsmErr::Line {
        line: number + 1,
        rule: 1101,
    })
}

/// The form of a line, or the least rule that it breaks.
fn check(here: Here, form: Option<Form>) -> Result<Form, u16>
    ensures form { IfOk result (λ f. form ≡ Some f) }
    ensures in_range { IfOk result (λ f. in_range here f.line ≡ true) }
    ensures unbroken { OnOk result (broken_listing_rule here form ≡ None) }
    ensures broken { IfErr result (λ rule. broken_listing_rule here form ≡ Some rule) }
{
    let Some(form) = form else {
        return Err(1101);
    };
    if !may_follow(here.kind, kind_of(form.line)) {
        return Err(1101);
    }
    if form.fits && is_in_range(here, form.line) {
        Ok(form)
    } else {
        Err(1102)
    }
}

fn is_trace(line: Line) -> bool
    ensures { result ≡ spec.is_trace line }
{
    matches!(line, Line::Trace)
}
