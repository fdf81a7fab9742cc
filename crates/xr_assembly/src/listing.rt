// The reader of listings.
ghost use Rattle.std.specs.Prelude.{◌+◌, ◌<◌, ◌^◌, ℕ, length, IfErr, IfOk};
ghost use Rattle.xr_assembly.specs.Errors.{IfAsmLine};
ghost use Rattle.xr_assembly.specs.Listings.{IsFirstBrokenLine, Tells};
ghost use Rattle.xs_instr.specs.declared.image.Image.{Image};

use crate::image::image_of;
use crate::reader::{AsmErr, read_lines};
use crate::references::first_broken_reference;
use std::alloc::Global;
use xs_instr::Image;

/// The image that a text tells: the line `code`, the listing, and then nothing or the line `trace` with anything behind it. The text is
/// so short that the number of each of its lines, and of the one behind the last, is below 2^32.
///
/// Else the error tells a line, counted from 1, and its rule. It is the first line that breaks 1101 or 1102, with the least. 1101: it has
/// no form of a line, or one that may not stand there; the text ends too early, at the line behind the last. 1102: a number is out of its
/// range. Where there is none, it is the first that breaks one of these. 1103: a channel's end isn't there, or is named before. 1104: a
/// root or a target is no index, or on the wrong side. 1105: an end that no channel names. The other error is want of memory.
pub fn read_listing(alloc: Global, text: &[u8]) -> Result<Image, AsmErr>
    requires short { length text.now + 1 < 2 ^ 32 }
    ensures tells { IfOk result (λ image. Tells text.now image) }
    ensures unbroken { IfOk result (λ image. (n r : ℕ) → IsFirstBrokenLine text.now n r → ⊥) }
    ensures broken { IfErr result (λ e. IfAsmLine e (λ line rule. IsFirstBrokenLine text.now line rule)) }
    ensures none { IfErr result
        (λ e. IfAsmLine e (λ line rule. (L : Image) → Tells text.now L → ⊥)) }
{
    let lines = match read_lines(alloc, text) {
        Ok(lines) => lines,
        Err(e) => return Err(e),
    };
    let image = image_of(alloc, lines.as_slice())?;
    match first_broken_reference(alloc, &image, lines.as_slice())? {
        Some((line, rule)) => Err(AsmErr::Line { line, rule }),
        None => Ok(image),
    }
}
