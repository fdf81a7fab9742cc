// The image that a listing's text has.

ghost use Rattle.std.specs.Bool.{OnTrue};
ghost use Rattle.std.specs.Prelude.{IfOk};
ghost use Rattle.xs_instr.specs.Valid.{Valid};

use crate::channels::{are_all_once, are_good_pairs};
use crate::cores::are_good_cores;
use crate::lines::core_of;
use std::alloc::Global;
use xs_instr::Image;
use xw_words::{List, Memory};

/// Why a text is no listing that can be run.
#[derive(Clone, Copy, PartialEq, Eq, Debug)]
pub enum ListingErr {
    /// A line has no form that a line of a listing can have.
    Line,
    /// No machine can be made of the image.
    Image,
    Memory,
}

impl From<Memory> for ListingErr {
    fn from(_: Memory) -> ListingErr {
        ListingErr::Memory
    }
}

/// The image of a listing: what stands in front of the first `.core` isn't looked at, numbers of words, timers and ends that aren't
/// told are 0, and an instruction may lack its place. The image can be run.
pub fn read_image(alloc: Global, text: &str) -> Result<Image, ListingErr>
    ensures { IfOk result (λ image. Valid image) }
{
    let image = image_of(alloc, text)?;
    if !is_valid(&image) {
        return Err(ListingErr::Image);
    }
    Ok(image)
}

/// The image of a listing, whether it can be run or not.
fn image_of(alloc: Global, text: &str) -> Result<Image, ListingErr> {
    let mut cores = List::new(alloc);
    let mut chans = List::new(alloc);
    for lines in text.split(".core ").skip(1) {
        let core = core_of(alloc, lines, &mut chans)?;
        cores.push(core)?;
    }
    Ok(Image { cores, chans })
}

/// Whether an image can be run: where the answer is true, it can.
pub fn is_valid(image: &Image) -> bool
    ensures { OnTrue result (Valid image.now) }
{
    let cores = image.cores.as_slice();
    let chans = image.chans.as_slice();
    if cores.is_empty() || !are_good_cores(cores) {
        return false;
    }
    are_good_pairs(cores, chans) && are_all_once(cores, chans)
}
