//! The image of a text.

ghost use Rattle.std.specs.Prelude.{IfOk};
ghost use Rattle.xs_instr.specs.Valid.{Valid};

use crate::built::are_roots_built;
use crate::cases::Trouble;
use crate::texts::checked;
use std::alloc::Global;
use xl_image::image;
use xs_instr::Image;

/// The most bytes that a text has.
const LONGEST_TEXT: usize = 4_194_304;

/// The image of a text, by all calls of the compiler from the bytes on.
pub fn image_of(alloc: Global, text: &[u8]) -> Result<Image, Trouble>
    ensures valid { IfOk result (λ image. Valid image) }
{
    if text.len() > LONGEST_TEXT {
        return Err(Trouble::Text);
    }
    let checked = checked(alloc, text).ok_or(Trouble::Text)?;
    if !are_roots_built(checked.kernel().roots.as_slice()) {
        return Err(Trouble::Statement);
    }
    Ok(image(alloc, &checked)?)
}
