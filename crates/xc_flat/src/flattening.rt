ghost use Rattle.std.specs.Prelude.{◌≤◌, IfErr, IfOk};
ghost use Rattle.xc_kernel.specs.Copies.{Copies};
ghost use Rattle.xc_kernel.specs.Kernels.{kernel_of};
ghost use Rattle.xc_kernel.specs.Size.{Breaks509, IsTooLarge};
ghost use Rattle.xc_kernel.specs.Sound.{IsOfProgram, IsTyped};
ghost use Rattle.xc_tree.specs.Depth as depth;
ghost use Rattle.xc_tree.specs.Derives.{deepest};
ghost use Rattle.xc_tree.specs.Refusals.{IfBroken};
ghost use Rattle.xc_tree.specs.Trees.{program_of};
ghost use Rattle.xc_tree.specs.Types.Named.{named_of};

use crate::program::copy;
use std::alloc::Global;
use xc_kernel::Kernel;
use xc_size::broken_size;
use xc_tree::{Refusal, Typed};

/// Why a program has no kernel: it is too large, or memory could not be had.
pub type FlatErr = Refusal;

/// The kernel of a program that breaks no rule of names, types and shapes, and whose tree no node is too deep in: each call is
/// replaced by the called function's body over instances of its own. Such a kernel may be handed to the rules of needs.
///
/// A program with all its copies that has more than 100,000 statements, more than 1,000,000 nodes of expressions or a depth
/// above 1,000 breaks rule 509 at main's name. That is seen before anything is copied. The other error is that memory could
/// not be had. The stack that it needs grows with the depth of the kernel.
#[tactic(auto, using(crate::proofs::Handed::handed_on, crate::proofs::Handed::few_statements))]
pub fn flatten(alloc: Global, typed: &Typed) -> Result<Kernel, FlatErr>
    requires typed { IsTyped (program_of typed.now.named.tree)
        (named_of typed.now.named) typed.now.unsigned_at }
    requires shallow { depth.of_program (program_of typed.now.named.tree) ≤ deepest }
    ensures of_program { IfOk result (λ k. IsOfProgram (kernel_of k)) }
    ensures copies { IfOk result (λ k. Copies (program_of typed.now.named.tree) (kernel_of k)) }
    ensures small { IfOk result (λ k. IsTooLarge (program_of typed.now.named.tree) → ⊥) }
    ensures broken { IfErr result (λ e. IfBroken e (Breaks509 (program_of typed.now.named.tree))) }
{
    match broken_size(alloc, &typed.named.tree)? {
        Some(broken) => Err(FlatErr::Broken(broken)),
        None => Ok(copy(alloc, &typed.named.tree)?),
    }
}
