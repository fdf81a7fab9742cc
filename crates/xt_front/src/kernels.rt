//! The kernel of a text.

ghost use Rattle.std.specs.Prelude.{◌≤◌, length, IfSome};
ghost use Rattle.xc_kernel.specs.Kernels.{kernel_of};
ghost use Rattle.xc_kernel.specs.Sound.{IsOfProgram};
ghost use Rattle.xw_words.specs.Limits.{longest_text};

use crate::shown::{Page, put_kernel};
use crate::texts::{put_broken, typed};
use std::alloc::Global;
use xc_flat::{FlatErr, flatten};
use xc_kernel::Kernel;

/// The kernel of a text. Where it has none, it is put why: it has no types, or breaks rule 509.
pub fn kernel_of_text(page: &mut Page, alloc: Global, text: &[u8]) -> Option<Kernel>
    requires { length text.now ≤ longest_text }
    ensures { IfSome result (λ kernel. IsOfProgram (kernel_of kernel)) }
{
    let Some(typed) = typed(alloc, text) else {
        page.put("no types");
        return None;
    };
    match flatten(alloc, &typed) {
        Ok(kernel) => return Some(kernel),
        Err(FlatErr::Broken(b)) => put_broken(page, b),
        Err(FlatErr::Memory) => page.put("out of memory"),
    }
    None
}

/// A text's kernel.
pub fn put_flattened(page: &mut Page, alloc: Global, text: &[u8])
    requires { length text.now ≤ longest_text }
{
    if let Some(kernel) = kernel_of_text(page, alloc, text) {
        put_kernel(page, &kernel);
    }
}

/// Where a text breaks rule 509, or how many instances of functions and how many counted words its kernel has.
pub fn put_size(page: &mut Page, alloc: Global, text: &[u8])
    requires { length text.now ≤ longest_text }
{
    if let Some(kernel) = kernel_of_text(page, alloc, text) {
        put_size_of(page, &kernel);
    }
}

fn put_size_of(page: &mut Page, kernel: &Kernel) {
    let mut words = 0u64;
    for v in kernel.vars.as_slice() {
        if v.counted {
            words = words.saturating_add(u64::from(v.words));
        }
    }
    page.show(&kernel.insts.len());
    page.put(" instances, ");
    page.show(&words);
    page.put(" words");
}
