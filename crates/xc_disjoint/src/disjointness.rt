ghost use Rattle.std.specs.Prelude.{◌≡◌, map, Some, IfErr, IfOk, OnOk};
ghost use Rattle.xw_words.specs.declared.pos.Broken.{Broken as Wrong};
ghost use Rattle.xc_kernel.specs.Sound.{IsOfProgram};
ghost use Rattle.xc_disjoint.specs.Disjoint.{NotApart};
ghost use Rattle.xc_disjoint.specs.RootUses.{seen_in, seen_of};
ghost use Rattle.xc_disjoint.specs.Rules.{Breaks, NeedsMore};
ghost use Rattle.xc_disjoint.specs.UseTables.{shares_in};
ghost use Rattle.xc_disjoint.specs.Uses.{no_shares, with_branches};
ghost use Rattle.xc_kernel.specs.Branches.{branches_of};
ghost use Rattle.xc_kernel.specs.Kernels.{kernel_of};
ghost use Rattle.xc_tree.specs.Least.{IsFirst, IsLeastOf};
ghost use Rattle.xc_tree.specs.Refusals.{IfBroken};

use crate::channels::{Channels, channels_of};
use crate::checked::Checked;
use crate::clashes::first_clash;
use crate::judge::first_without_sides;
use crate::needs::{too_many_ends, too_many_threads, too_many_timers, too_many_words};
use crate::places::{first_of_ports, first_of_roots};
use crate::ports::first_elsewhere;
use std::alloc::Global;
use xc_kernel::Kernel;
use xc_tree::{Refusal, earlier};
use xw_words::{Broken, Memory};

/// Why a kernel isn't accepted.
pub type DisErr = Refusal;

/// The kernel as one that is checked, where it is that of a program that breaks no rule of the phases before and whose tree is
/// no deeper than 200. The stack that it needs grows with the depth of the kernel.
///
/// A kernel that breaks a rule is dropped, and of all rules that it breaks the error is the one of the least place, and there
/// of the least number: 601 a variable that a branch of a `par` changes is used in another; 602 a port is used in two; 603 three
/// branches or more of the innermost `par` that holds all uses of a channel use it; 604 a channel is used, and one of these
/// branches alone uses it, or there is no such `par`; 605 one of two holds a `par` with two that use it; 606 a timer is used in
/// two; 701 more than 8 threads are needed on a core; 702 more than 32 channel ends; 703 more than 10 timers; 704 more than
/// 16,384 words; 705 a place gives no core; 706 a port is used on a core other than its own. The other error is that memory
/// could not be had; it drops the kernel too.
pub fn disjoint(alloc: Global, kernel: Kernel) -> Result<Checked, DisErr>
    requires { IsOfProgram (kernel_of kernel) }
    ensures kernel { IfOk result (λ checked. checked ≡ kernel) }
    ensures unbroken { IfOk result (λ checked. (b : Wrong) → Breaks (kernel_of kernel) b → ⊥) }
    ensures broken { IfErr result (λ e. IfBroken e (λ b. IsFirst (Breaks (kernel_of kernel)) b)) }
{
    match unbroken(alloc, &kernel) {
        Ok(()) => Ok(Checked::new(kernel)),
        Err(refusal) => {
            drop(kernel);
            Err(refusal)
        }
    }
}

/// Whether a kernel breaks no rule; else the first that it breaks.
fn unbroken(alloc: Global, kernel: &Kernel) -> Result<(), DisErr>
    ensures unbroken { OnOk result ((b : Wrong) → Breaks (kernel_of kernel.now) b → ⊥) }
    ensures broken { IfErr result
        (λ e. IfBroken e (λ b. IsFirst (Breaks (kernel_of kernel.now)) b)) }
{
    match first_broken(alloc, kernel)? {
        Some(broken) => Err(DisErr::Broken(broken)),
        None => Ok(()),
    }
}

/// The first rule that a kernel breaks.
fn first_broken(alloc: Global, kernel: &Kernel) -> Result<Option<Broken>, Memory>
    ensures { IfOk result (λ best. IsLeastOf (Breaks (kernel_of kernel.now)) best) }
{
    let mut channels = channels_of(alloc, kernel.roots.as_slice())?;
    let needs = broken_need(&channels, kernel);
    let apart = first_not_apart(alloc, &mut channels, kernel)?;
    let roots = first_of_roots(kernel.roots.as_slice(), earlier(apart, needs));
    let places = first_of_ports(kernel.ports.as_slice(), roots);
    Ok(first_elsewhere(kernel.ports.as_slice(), kernel.roots.as_slice(), places))
}

/// The first of the rules by which branches don't keep apart, by how the roots use channels.
fn first_not_apart(
    alloc: Global,
    channels: &mut Channels,
    kernel: &Kernel,
) -> Result<Option<Broken>, Memory>
    requires { shares_in channels.now.among_roots
        ≡ with_branches no_shares (branches_of (kernel_of kernel.now).roots) }
    ensures { IfOk result (λ best. IsLeastOf (NotApart (kernel_of kernel.now)) best) }
{
    let clash = first_clash(alloc, kernel.roots.as_slice())?;
    let sides = first_without_sides(channels, kernel)?;
    Ok(earlier(clash, sides))
}

/// The least of the rules by which a core needs more than it has, which all stand at main.
fn broken_need(channels: &Channels, kernel: &Kernel) -> Option<Broken>
    requires in_roots { map seen_in channels.now.in_roots
        ≡ map seen_of (kernel_of kernel.now).roots }
    requires among_roots { shares_in channels.now.among_roots
        ≡ with_branches no_shares (branches_of (kernel_of kernel.now).roots) }
    ensures { IsLeastOf (NeedsMore (kernel_of kernel.now)) result }
{
    if too_many_threads(kernel) {
        return at_main(kernel, 701);
    }
    if too_many_ends(channels, kernel) {
        return at_main(kernel, 702);
    }
    if too_many_timers(kernel) {
        return at_main(kernel, 703);
    }
    if too_many_words(kernel) {
        return at_main(kernel, 704);
    }
    None
}

fn at_main(kernel: &Kernel, rule: u16) -> Option<Broken>
    ensures { result ≡ Some (record { rule = rule; pos = kernel.now.main }) }
{
    Some(Broken {
        rule,
        pos: kernel.main,
    })
}
