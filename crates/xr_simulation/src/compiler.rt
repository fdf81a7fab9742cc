//! The compiler.

ghost use Rattle.std.specs.Prelude.{IfOk};
ghost use Rattle.xc_kernel.specs.Kernels.{kernel_of};
ghost use Rattle.xl_image.specs.Roots.{KernelIsBuilt};
ghost use Rattle.xr_match.specs.Implements.{Implements, ImplementsWholly};
ghost use Rattle.xr_match.specs.Meanings.{ImplementsTextsOf, of_kernel};
ghost use Rattle.xs_instr.specs.Valid.{Valid};
ghost use Rattle.xs_instr.specs.Words.{HasWords};

use crate::words::keep_words;
use std::alloc::Global;
use xc_disjoint::Checked;
use xl_image::image;
use xs_instr::Image;
use xw_words::Memory;

/// The image of a checked kernel that is built so far: the code of its roots is, on whatever cores they are. It can be
/// loaded, and it implements the kernel: what a machine with it does under a stimulus, whatever the order of its events, is what the kernel may do.
/// It waits only where the kernel does, and doesn't go on and on without it; and all that is so of the text of which this is the kernel.
///
/// It takes time and memory for each of the kernel's statements, nodes of expressions, words that are set to 0, and resources, and its
/// stack grows with the depth of the kernel. The one error is want of memory.
pub fn compile(alloc: Global, checked: &Checked) -> Result<Image, Memory>
    requires built { KernelIsBuilt (kernel_of checked.now) }
    ensures implements { IfOk result
        (λ image. Implements image (of_kernel (kernel_of checked.now))) }
    ensures wholly { IfOk result
        (λ image. ImplementsWholly image (of_kernel (kernel_of checked.now))) }
    ensures of_text { IfOk result
        (λ image. ImplementsTextsOf image (kernel_of checked.now)) }
    ensures valid { IfOk result (λ image. Valid image) }
    ensures words { IfOk result (λ image. HasWords image) }
{
    let image = image(alloc, checked)?;
    // That the kernel is checked and the image's numbers are words is known of their types, and told here.
    checked.kernel();
    keep_words(&image);
    Ok(image)
}
