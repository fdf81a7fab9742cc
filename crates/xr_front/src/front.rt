//! From a text to the kernel of the program that it means, or the first rule that it breaks.

ghost use Rattle.std.specs.Prelude.{◌≤◌, ℕ, List, length, IfOk, IfErr};
ghost use Rattle.xc_kernel.specs.Copies.{Copies};
ghost use Rattle.xc_kernel.specs.Kernels.{kernel_of};
ghost use Rattle.xc_kernel.specs.Size.{Breaks509, IsTooLarge};
ghost use Rattle.xc_kernel.specs.Sound.{IsOfProgram, IsTyped};
ghost use Rattle.xc_tree.specs.Depth.{of_program};
ghost use Rattle.xc_tree.specs.Derives.{deepest};
ghost use Rattle.xc_tree.specs.Refusals.{IfBroken};
ghost use Rattle.xc_tree.specs.Trees.{program_of};
ghost use Rattle.xc_tree.specs.Types.Named.{named_of};
ghost use Rattle.xl_image.specs.Roots.{KernelIsBuilt};
ghost use Rattle.xr_front.specs.Reads.{IsReadAs};
ghost use Rattle.xr_front.specs.Rules.{First, IsKernelOf};
ghost use Rattle.xw_words.specs.Limits.{longest_text};

use std::alloc::Global;
use xc_disjoint::{Checked, disjoint};
use xc_flat::flatten;
use xc_kernel::Kernel;
use xc_lexer::lex;
use xc_names::resolve;
use xc_parser::{end_pos, parse};
use xc_today::is_supported;
use xc_tree::{Refusal, Tree, Typed};
use xc_types::check;
use xw_words::{Broken, Pos};

/// The text isn't of the forms that are built today.
const NOT_BUILT: Broken = Broken {
    rule: 299,
    pos: Pos { line: 1, col: 1 },
};

/// The kernel of the program that a text means, or the first rule that the text breaks.
pub fn read_text(alloc: Global, text: &[u8]) -> Result<Checked, Refusal>
    requires { length text.now ≤ longest_text }
    ensures accepted { IfOk result (λ checked. IsKernelOf text.now (kernel_of checked)) }
    ensures built { IfOk result (λ checked. KernelIsBuilt (kernel_of checked)) }
    ensures first { IfErr result (λ refusal. IfBroken refusal (λ broken. First text.now broken)) }
{
    let toks = lex(alloc, text)?;
    let tree = parse(alloc, &toks, end_pos(text))?;
    if !is_supported(toks.as_slice()) {
        drop(tree);
        return Err(Refusal::Broken(NOT_BUILT));
    }
    check_tree(alloc, tree)
}

/// The kernel of a tree, or the first rule that its names, types, size and needs break.
fn check_tree(alloc: Global, tree: Tree) -> Result<Checked, Refusal>
    requires read { (text : List ℕ) × IsReadAs text (program_of tree) }
    ensures accepted { (text : List ℕ) → IsReadAs text (program_of tree) →
        IfOk result (λ checked. IsKernelOf text (kernel_of checked)) }
    ensures built { IfOk result (λ checked. KernelIsBuilt (kernel_of checked)) }
    ensures first { (text : List ℕ) → IsReadAs text (program_of tree) →
        IfErr result (λ refusal. IfBroken refusal (λ broken. First text broken)) }
{
    let named = resolve(alloc, tree)?;
    let typed = check(alloc, named)?;
    let kernel = copy_of(alloc, typed)?;
    disjoint(alloc, kernel)
}

/// The kernel of a program, which is dropped then, or the rule of size that it breaks.
fn copy_of(alloc: Global, typed: Typed) -> Result<Kernel, Refusal>
    requires typed { IsTyped (program_of typed.named.tree)
        (named_of typed.named) typed.unsigned_at }
    requires shallow { of_program (program_of typed.named.tree) ≤ deepest }
    ensures of_program { IfOk result (λ k. IsOfProgram (kernel_of k)) }
    ensures copies { IfOk result (λ k. Copies (program_of typed.named.tree) (kernel_of k)) }
    ensures small { IfOk result (λ k. IsTooLarge (program_of typed.named.tree) → ⊥) }
    ensures broken { IfErr result (λ e. IfBroken e (Breaks509 (program_of typed.named.tree))) }
{
    let kernel = flatten(alloc, &typed);
    drop(typed);
    kernel
}
