// The cores of channels' sides, and the numbers of a core's channel ends.

ghost use Rattle.std.specs.Prelude.{◌≡◌, ◌<◌, ◌^◌, false, map, slice_index_or, sum_by, IfOk};
ghost use Rattle.xc_disjoint.specs.Cores.{if_so};
ghost use Rattle.xc_kernel.specs.Kernels.{kernel_of, root_of};
ghost use Rattle.xl_plan.specs.Layout.{cores_of_channels, end_places_from};
ghost use Rattle.xl_plan.specs.Layout as layout;
ghost use Rattle.xl_plan.specs.Users.{cores_among, first_or, uses_of_root};

use std::alloc::Global;
use xc_disjoint::Checked;
use xc_kernel::Root;
use xl_ends::used_channels;
use xl_expr::EndPlaces;
use xw_words::{List, Memory};

/// The cores of a channel's two sides, which are the same where all that use it are on one core.
#[derive(Clone, Copy, PartialEq, Eq)]
pub struct SideCores {
    pub first: u8,
    pub second: u8,
}

/// A root's core, and whether the root uses each channel.
#[derive(Drop)]
struct RootUses {
    core: u8,
    used: List<bool>,
}

/// Of each channel the cores of its sides, if it is used: those of the first root and of the last one that use it. The one error is want of
/// memory.
///
/// It goes over each root once, and takes memory for each root and each channel.
pub fn channel_cores(alloc: Global, checked: &Checked) -> Result<List<Option<SideCores>>, Memory>
    ensures { IfOk result (λ cores. cores ≡ cores_of_channels (kernel_of checked.now)) }
{
    let kernel = checked.kernel();
    let channels = kernel.chans.len();
    let uses = uses_of_roots(alloc, kernel.roots.as_slice(), channels)?;
    let mut cores = List::new(alloc);
    for channel in 0..channels {
        cores.push(cores_of_sides(uses.as_slice(), channel))?;
    }
    Ok(cores)
}

fn uses_of_roots(alloc: Global, roots: &[Root], channels: usize) -> Result<List<RootUses>, Memory>
    ensures { IfOk result
        (λ uses. uses ≡ map (uses_of_root channels) (map root_of roots.now)) }
{
    let mut uses = List::new(alloc);
    for root in roots {
        let used = used_channels(alloc, channels, root.body.as_slice())?;
        uses.push(RootUses {
            core: root.core,
            used,
        })?;
    }
    Ok(uses)
}

/// The cores of the first root and of the last one that use a channel.
fn cores_of_sides(uses: &[RootUses], channel: usize) -> Option<SideCores>
    ensures { result ≡ cores_among channel uses.now }
{
    let mut cores = None;
    for root in uses {
        if is_used(root.used.as_slice(), channel) {
            cores = Some(with_last(cores, root.core));
        }
    }
    cores
}

/// The cores of a channel's sides with one more root that uses it, on this core.
fn with_last(cores: Option<SideCores>, core: u8) -> SideCores
    ensures first { result.first ≡ first_or core cores }
    ensures second { result.second ≡ core }
{
    let first = match cores {
        Some(SideCores { first, .. }) => first,
        None => core,
    };
    SideCores {
        first,
        second: core,
    }
}

fn is_used(used: &[bool], channel: usize) -> bool
    ensures { result ≡ slice_index_or used.now channel false }
{
    match used.get(channel) {
        Some(is_used) => *is_used,
        None => false,
    }
}

/// How many ends a core has for channels, by the cores of their sides: one for each side that is there.
pub fn end_count(channels: &[Option<SideCores>], core: u8) -> u32
    requires { sum_by (layout.ends_there core) channels.now < 2 ^ 32 }
    ensures { result ≡ sum_by (layout.ends_there core) channels.now }
{
    let mut count: u32 = 0;
    for cores in channels {
        count += ends_there(*cores, core);
    }
    count
}

/// Of each channel the numbers of its sides' ends on a core, by the cores of the channels' sides.
pub fn end_places(
    alloc: Global,
    channels: &[Option<SideCores>],
    core: u8,
) -> Result<List<EndPlaces>, Memory>
    requires { sum_by (layout.ends_there core) channels.now < 2 ^ 32 }
    ensures { IfOk result (λ places. places ≡ end_places_from core 0 channels.now) }
{
    let mut places = List::new(alloc);
    let mut next: u32 = 0;
    for cores in channels {
        places.push(EndPlaces {
            first: next,
            second: next + first_there(*cores, core),
        })?;
        next += ends_there(*cores, core);
    }
    Ok(places)
}

fn ends_there(cores: Option<SideCores>, core: u8) -> u32
    ensures { result ≡ layout.ends_there core cores }
{
    first_there(cores, core) + second_there(cores, core)
}

/// 1 where the first side of a channel is on a core, else 0.
pub fn first_there(cores: Option<SideCores>, core: u8) -> u32
    ensures { result ≡ layout.first_there core cores }
{
    match cores {
        Some(cores) => one_if(cores.first == core),
        None => 0,
    }
}

fn second_there(cores: Option<SideCores>, core: u8) -> u32
    ensures { result ≡ layout.second_there core cores }
{
    match cores {
        Some(cores) => one_if(cores.second == core),
        None => 0,
    }
}

fn one_if(is_so: bool) -> u32
    ensures { result ≡ if_so is_so 1 }
{
    if is_so { 1 } else { 0 }
}
