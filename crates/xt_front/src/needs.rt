//! What the kernel of a text needs.

ghost use Rattle.std.specs.Prelude.{◌≤◌, length};
ghost use Rattle.xc_kernel.specs.Kernels.{kernel_of};
ghost use Rattle.xc_kernel.specs.Sound.{IsOfProgram};
ghost use Rattle.xw_words.specs.Limits.{longest_text};

use crate::kernels::kernel_of_text;
use crate::shown::Page;
use crate::texts::put_broken;
use std::alloc::Global;
use xc_disjoint::{DisErr, disjoint};
use xc_kernel::Kernel;

/// The rule that a text breaks and its place; or that it is accepted, and how many roots and instances of functions its kernel
/// has.
pub fn put_needs(page: &mut Page, alloc: Global, text: &[u8])
    requires { length text.now ≤ longest_text }
{
    if let Some(kernel) = kernel_of_text(page, alloc, text) {
        put_judged(page, alloc, kernel);
    }
}

fn put_judged(page: &mut Page, alloc: Global, kernel: Kernel)
    requires { IsOfProgram (kernel_of kernel) }
{
    match disjoint(alloc, kernel) {
        Ok(checked) => put_accepted(page, checked.kernel()),
        Err(DisErr::Broken(b)) => put_broken(page, b),
        Err(DisErr::Memory) => page.put("out of memory"),
    }
}

fn put_accepted(page: &mut Page, kernel: &Kernel) {
    page.put("accepted: ");
    page.show(&kernel.roots.len());
    page.put(" roots, ");
    page.show(&kernel.insts.len());
    page.put(" instances");
}
