//! The listing of a text.

use crate::cases::Trouble;
use crate::images::image_of;
use std::alloc::Global;
use xr_text::write_code;
use xw_io::{Out, Sink};

/// Writes the listing of a text's image.
pub fn write_listing<O: Sink>(alloc: Global, text: &[u8], sink: &mut O) -> Result<(), Trouble> {
    let image = image_of(alloc, text)?;
    let mut out = Out::new(sink);
    write_code(&mut out, &image)?;
    out.flush()?;
    Ok(())
}
