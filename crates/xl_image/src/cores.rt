// The parts of an image, core by core.

ghost use Rattle.std.specs.Prelude.{◌≡◌, ◌≤◌, true, length, map, IfOk};
ghost use Rattle.std.specs.List.{All};
ghost use Rattle.xc_disjoint.specs.Cores.{last_core};
ghost use Rattle.xc_kernel.specs.Kernels.{kernel_of};
ghost use Rattle.xs_instr.specs.Valid.{Valid};
ghost use Rattle.xl_image.specs.Images.{IsImage, pairs_below};
ghost use Rattle.xl_image.specs.Parts.{IsPartOf, cores_of, has_root as is_rooted, number_of};
ghost use Rattle.xl_image.specs.Roots.{RootsAreBuilt};

use crate::channels::channel_pairs;
use crate::needs::{declarations, has_root, timer_count};
use crate::roots::emit_roots;
use std::alloc::Global;
use xc_disjoint::Checked;
use xl_plan::{plan, word_count};
use xs_instr::{CoreImage, Emitter, Image};
use xw_words::{List, Memory};

/// How many cores there are.
const CORES: u8 = 4;

/// The image of a checked kernel whose roots' code is built: a part for each core that has a root, in the order of the cores, and the two ends
/// of each channel that a root uses.
///
/// It takes time and memory for each of the kernel's statements, nodes of expressions, words that are set to 0, and resources, and its stack
/// grows with the depth of the kernel. The one error is want of memory.
pub fn image(alloc: Global, checked: &Checked) -> Result<Image, Memory>
    requires built { RootsAreBuilt (kernel_of checked.now).roots }
    ensures cores { IfOk result
        (λ image. map number_of image.cores ≡ cores_of (kernel_of checked.now)) }
    ensures parts { IfOk result (λ image. All
        (λ part. IsPartOf (kernel_of checked.now) part.number part) image.cores) }
    ensures chans { IfOk result (λ image. image.chans
        ≡ pairs_below (kernel_of checked.now) (length (kernel_of checked.now).channels)) }
    ensures pieces { IfOk result (IsImage (kernel_of checked.now)) }
    ensures valid { IfOk result (λ image. Valid image) }
{
    let roots = checked.kernel().roots.as_slice();
    let mut cores = List::new(alloc);
    for core in 0..CORES {
        if has_root(roots, core) {
            let part = core_part(alloc, checked, core)?;
            cores.push(part)?;
        }
    }
    let chans = channel_pairs(alloc, checked)?;
    Ok(Image { cores, chans })
}

/// The part of a core that has a root.
fn core_part(alloc: Global, checked: &Checked, core: u8) -> Result<CoreImage, Memory>
    requires is_core { core ≤ last_core }
    requires built { RootsAreBuilt (kernel_of checked.now).roots }
    requires rooted { is_rooted (kernel_of checked.now) core ≡ true }
    ensures part { IfOk result (IsPartOf (kernel_of checked.now) core) }
{
    let kernel = checked.kernel();
    let ports = declarations(alloc, kernel.ports.as_slice(), core)?;
    let places = plan(alloc, checked, core)?;
    let mut e = Emitter::new(alloc);
    let roots = emit_roots(alloc, &mut e, checked, core, &places)?;
    Ok(CoreImage {
        number: core,
        words: word_count(checked, core),
        timers: timer_count(kernel.timers.as_slice(), core),
        ends: places.ends.len() as u32,
        ports,
        roots,
        code: e.finish(),
    })
}
