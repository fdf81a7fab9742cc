ghost use Rattle.std.specs.Option.{option_copied};
ghost use Rattle.std.specs.Prelude.{◌≡◌, IfOk};
ghost use Rattle.xc_kernel.specs.Branches.{branches_of};
ghost use Rattle.xc_kernel.specs.Kernels.{kernel_of};
ghost use Rattle.xc_disjoint.specs.Judged.{rule_by as by_held, rule_of as rule_at};
ghost use Rattle.xc_disjoint.specs.SideRules.{WithoutSides};
ghost use Rattle.xc_disjoint.specs.UseTables.{shares_in, uses_in};
ghost use Rattle.xc_disjoint.specs.Uses.{no_shares, uses_of, with_branches};
ghost use Rattle.xc_tree.specs.Least.{IsLeastOf};

use crate::channels::Channels;
use crate::use_tables::{UseTable, entry_at};
use crate::uses::{Held, Use};
use xc_kernel::{Chan, Kernel};
use xc_tree::earlier;
use xw_words::{Broken, Memory};

/// The first of the rules 603 to 605 that the channels of a kernel break: in the innermost `par` that holds all uses of one,
/// which may be that of the roots, three branches or more use it, or one alone, or one of two holds a `par` with two branches
/// that use it. The table of the roots is of no use then.
pub fn first_without_sides(
    channels: &mut Channels,
    kernel: &Kernel,
) -> Result<Option<Broken>, Memory>
    requires { shares_in channels.now.among_roots
        ≡ with_branches no_shares (branches_of (kernel_of kernel.now).roots) }
    ensures { IfOk result (λ first. IsLeastOf (WithoutSides (kernel_of kernel.now)) first) }
{
    channels.among_roots.settle()?;
    Ok(first_of(kernel, &channels.among_roots.largest))
}

/// The first rule that a channel breaks, by how the roots use channels.
fn first_of(kernel: &Kernel, table: &UseTable) -> Option<Broken>
    requires { uses_in table.now
        ≡ uses_of (with_branches no_shares (branches_of (kernel_of kernel.now).roots)) }
    ensures { IsLeastOf (WithoutSides (kernel_of kernel.now)) result }
{
    let channels = kernel.chans.as_slice();
    let mut best = None;
    for at in 0..table.entries.len() {
        let (channel, u) = entry_at(&table.entries, at);
        best = earlier(best, rule_of(channels, channel, u));
    }
    best
}

/// The rule that is broken by a channel that is used like this.
fn rule_of(channels: &[Chan], channel: usize, u: Use) -> Option<Broken>
    ensures { result ≡ rule_at channels.now channel u }
{
    rule_by(channels.get(channel), u)
}

/// The same for one that is declared so.
fn rule_by(declared: Option<&Chan>, u: Use) -> Option<Broken>
    ensures { result ≡ by_held (option_copied declared.entry) u.held }
{
    match u.held {
        Held::Apart => match declared {
            None => None,
            Some(channel) => Some(Broken {
                rule: 604,
                pos: channel.pos,
            }),
        },
        Held::Two(inside) => inside,
        Held::Many(third) => Some(third),
    }
}
