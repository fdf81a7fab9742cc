// The code of the roots of a core.

ghost use Rattle.std.specs.Prelude.{◌≡◌, ◌+◌, ◌<◌, ◌≤◌, ◌^◌, [], length, IfOk, OnOk};
ghost use Rattle.xc_disjoint.specs.Cores.{last_core};
ghost use Rattle.xc_disjoint.specs.Rules.{most_words};
ghost use Rattle.xc_kernel.specs.Kernels.{kernel_of, root_of};
ghost use Rattle.xs_instr.specs.Adds.{Adds};
ghost use Rattle.xl_image.specs.Images.{IsPlan, sided_on, sided_roots};
ghost use Rattle.xl_image.specs.Roots.{AreRoots, IsReady, IsRootCode, RootsAreBuilt, most_of_root};
ghost use Rattle.xl_ends.specs.Sides.{sides_of};
ghost use Rattle.xl_statements.specs.Inside.{StandAlone};

use std::alloc::Global;
use xc_disjoint::Checked;
use xc_kernel::Root;
use xl_ends::{Side, sides_of_roots};
use xl_expr::Plan;
use xl_plan::temporary_words;
use xl_statements::emit_root;
use xs_instr::{Emitter, Instr, Reg};
use xw_words::{List, Memory};

/// How many addresses a word has.
const BYTES_OF_WORD: u32 = 4;

/// The code of the roots of a core, one behind the other, and the indices where they begin.
pub fn emit_roots(
    alloc: Global,
    e: &mut Emitter,
    checked: &Checked,
    core: u8,
    plan: &Plan,
) -> Result<List<u32>, Memory>
    requires is_core { core ≤ last_core }
    requires built { RootsAreBuilt (kernel_of checked.now).roots }
    requires planned { IsPlan (kernel_of checked.now) core plan.now }
    requires empty { e.old ≡ [] }
    ensures code { IfOk result (λ entries. AreRoots (kernel_of checked.now) core plan.now
        (sided_on core (sided_roots (kernel_of checked.now))) 0 0 e.new entries) }
    ensures alone { OnOk result (StandAlone 0 e.new) }
    ensures few { OnOk result (length e.new < 2 ^ 32) }
{
    let kernel = checked.kernel();
    let roots = kernel.roots.as_slice();
    let sides = sides_of_roots(alloc, kernel.chans.len(), roots)?;
    let sides = sides.as_slice();
    let mut entries = List::new(alloc);
    for (number, root) in roots.iter().enumerate() {
        if root.core == core {
            let thread = entries.len() as u32;
            let word = temporary_words(checked, core, thread);
            entries.push(e.here())?;
            emit_thread(alloc, e, plan, sides[number].as_slice(), word, root)?;
        }
    }
    Ok(entries)
}

/// The code of a root that stands in these sides of channels, and whose temporary words begin at a word.
fn emit_thread(
    alloc: Global,
    e: &mut Emitter,
    plan: &Plan,
    sides: &[Option<Side>],
    word: u32,
    root: &Root,
) -> Result<(), Memory>
    requires word { word ≤ most_words }
    requires stack { plan.now.first_stack ≤ most_words }
    requires ready { IsReady (root_of root.now) }
    requires room { length e.old + most_of_root plan.now.vars (root_of root.now) < 2 ^ 32 }
    ensures code { OnOk result (Adds e.old e.new
        (IsRootCode plan.now (sides_of sides.now) word (root_of root.now) (length e.old))) }
    ensures alone { OnOk result (Adds e.old e.new (StandAlone (length e.old))) }
    ensures size { OnOk result
        (length e.new ≤ length e.old + most_of_root plan.now.vars (root_of root.now)) }
{
    let stack = [
        Instr::Ldc(Reg::R0, BYTES_OF_WORD * word),
        Instr::Setsp(Reg::R0),
    ];
    e.put_all(&stack, root.pos)?;
    emit_root(alloc, e, plan, sides, root.body.as_slice(), root.pos)
}
