// The channels of an image.

ghost use Rattle.std.specs.Prelude.{◌≡◌, ◌+◌, ◌<◌, ◌^◌, length, sum_by, IfOk};
ghost use Rattle.xc_disjoint.specs.Checked.{IsChecked};
ghost use Rattle.xc_kernel.specs.Kernels.{kernel_of};
ghost use Rattle.xl_image.specs.Images.{pairs_below};
ghost use Rattle.xl_image.specs.Parts.{pair_behind};
ghost use Rattle.xl_plan.specs.Layout.{ends_there};

use std::alloc::Global;
use xc_disjoint::Checked;
use xl_plan::{SideCores, channel_cores, end_count, first_there};
use xs_instr::Pair;
use xw_words::{List, Memory};

/// The two ends of each channel that a root uses, in the kernel's order. The one error is want of memory.
///
/// It takes time for each channel, and for each pair of a channel that is used and one before it: a core has at most 32 ends.
pub fn channel_pairs(alloc: Global, checked: &Checked) -> Result<List<Pair>, Memory>
    requires accepted { IsChecked (kernel_of checked.now) }
    ensures { IfOk result (λ pairs. pairs
        ≡ pairs_below (kernel_of checked.now) (length (kernel_of checked.now).channels)) }
{
    let channels = channel_cores(alloc, checked)?;
    let channels = channels.as_slice();
    let mut pairs = List::new(alloc);
    for (channel, cores) in channels.iter().enumerate() {
        if let Some(cores) = cores {
            pairs.push(pair(&channels[..channel], *cores))?;
        }
    }
    Ok(pairs)
}

/// The ends of a channel whose sides are on these cores, by the cores of the channels before it.
fn pair(before: &[Option<SideCores>], cores: SideCores) -> Pair
    requires first { sum_by (ends_there cores.first) before.now < 2 ^ 32 }
    requires second { sum_by (ends_there cores.second) before.now + 1 < 2 ^ 32 }
    ensures { result ≡ pair_behind before.now cores }
{
    Pair {
        core: cores.first,
        end: end_count(before, cores.first),
        peer_core: cores.second,
        peer_end: end_count(before, cores.second) + first_there(Some(cores), cores.second),
    }
}
