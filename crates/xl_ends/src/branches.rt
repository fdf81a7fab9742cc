ghost use Rattle.std.specs.Prelude.{◌≡◌, [], None, map, option_map, replicate, IfOk};
ghost use Rattle.xc_kernel.specs.Branches.{branches_of};
ghost use Rattle.xc_kernel.specs.Kernels.{branch_of, root_of};
ghost use Rattle.xc_kernel.specs.Plain as kernel;
ghost use Rattle.xc_meaning.specs.Settings.Sides.{side_by};
ghost use Rattle.xl_ends.specs.Branches.{one_uses_at, sides_by, sides_by_each, sides_of_each, uses_at, uses_of_branch};
ghost use Rattle.xl_ends.specs.Sides.{side_of, sides_of};
ghost use Rattle.xl_ends.specs.Uses.{uses_among};

use crate::sides::{Side, no_sides};
use crate::used::used_channels;
use std::alloc::Global;
use xc_kernel::{KBranch, Root};
use xw_words::{List, Memory};

/// The sides in which each branch of a `par` stands, by those in which the `par` stands. The one error is want of memory.
pub fn sides_of_branches(
    alloc: Global,
    sides: &[Option<Side>],
    branches: &[KBranch],
) -> Result<List<List<Option<Side>>>, Memory>
    ensures { IfOk result (λ each. map sides_of each
        ≡ sides_of_each (sides_of sides.now) [] (kernel.branches (map branch_of branches.now))) }
{
    let used = used_in_branches(alloc, sides.len(), branches)?;
    sides_by_use(alloc, sides, used.as_slice())
}

/// The sides in which the code of each root stands: the roots are the branches of one `par`, which stands in no side of any of so many
/// channels. The one error is want of memory.
pub fn sides_of_roots(
    alloc: Global,
    channels: usize,
    roots: &[Root],
) -> Result<List<List<Option<Side>>>, Memory>
    ensures { IfOk result (λ each. map sides_of each
        ≡ sides_of_each (replicate channels None) [] (branches_of (map root_of roots.now))) }
{
    let sides = no_sides(alloc, channels)?;
    let used = used_in_roots(alloc, channels, roots)?;
    sides_by_use(alloc, sides.as_slice(), used.as_slice())
}

/// Whether each branch uses each of so many channels.
fn used_in_branches(
    alloc: Global,
    channels: usize,
    branches: &[KBranch],
) -> Result<List<List<bool>>, Memory>
    ensures { IfOk result
        (λ used. used ≡ map (λ b. uses_of_branch channels (branch_of b)) branches.now) }
{
    let mut used = List::new(alloc);
    for branch in branches {
        let own = used_channels(alloc, channels, branch.body.as_slice())?;
        used.push(own)?;
    }
    Ok(used)
}

/// Whether each root uses each of so many channels.
fn used_in_roots(alloc: Global, channels: usize, roots: &[Root]) -> Result<List<List<bool>>, Memory>
    ensures { IfOk result (λ used. used
        ≡ map (λ r. uses_among channels (root_of r).body) roots.now) }
{
    let mut used = List::new(alloc);
    for root in roots {
        let own = used_channels(alloc, channels, root.body.as_slice())?;
        used.push(own)?;
    }
    Ok(used)
}

/// The sides in which each branch stands, by the channels that each uses.
fn sides_by_use(
    alloc: Global,
    sides: &[Option<Side>],
    used: &[List<bool>],
) -> Result<List<List<Option<Side>>>, Memory>
    ensures { IfOk result (λ each. map sides_of each
        ≡ sides_by_each (sides_of sides.now) [] used.now) }
{
    let mut each = List::new(alloc);
    for (index, here) in used.iter().enumerate() {
        let behind = &used[index + 1..];
        let own = sides_of_branch(alloc, sides, &used[..index], here.as_slice(), behind)?;
        each.push(own)?;
    }
    Ok(each)
}

/// The sides in which a branch stands, by the channels that those before it, it itself and those behind it use.
fn sides_of_branch(
    alloc: Global,
    sides: &[Option<Side>],
    before: &[List<bool>],
    here: &[bool],
    behind: &[List<bool>],
) -> Result<List<Option<Side>>, Memory>
    ensures { IfOk result (λ own. sides_of own
        ≡ sides_by 0 before.now here.now behind.now (sides_of sides.now)) }
{
    let mut own = List::new(alloc);
    for (channel, side) in sides.iter().enumerate() {
        let stands_in = match side {
            Some(side) => Some(*side),
            None => made_side(before, here, behind, channel),
        };
        own.push(stands_in)?;
    }
    Ok(own)
}

/// The side of a channel that a `par` makes a branch.
fn made_side(
    before: &[List<bool>],
    here: &[bool],
    behind: &[List<bool>],
    channel: usize,
) -> Option<Side>
    ensures { option_map side_of result ≡ side_by (uses_at channel here.now)
        (one_uses_at channel before.now) (one_uses_at channel behind.now) }
{
    if !is_used(here, channel) {
        None
    } else if one_uses(before, channel) {
        Some(Side::Second)
    } else if one_uses(behind, channel) {
        Some(Side::First)
    } else {
        None
    }
}

/// Whether one of some branches uses a channel.
fn one_uses(used: &[List<bool>], channel: usize) -> bool
    ensures { result ≡ one_uses_at channel used.now }
{
    used.iter().any(|own| is_used(own.as_slice(), channel))
}

fn is_used(used: &[bool], channel: usize) -> bool
    ensures { result ≡ uses_at channel used.now }
{
    match used.get(channel) {
        Some(is_used) => *is_used,
        None => false,
    }
}
