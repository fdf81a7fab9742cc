//! The channel ends that a core needs, by how the roots use channels.

ghost use Rattle.std.specs.Prelude.{◌≡◌, map, sum_by};
ghost use Rattle.xc_disjoint.specs.RootUses.{ends_at, ends_below, ends_by, ends_held, seen_in};
ghost use Rattle.xc_disjoint.specs.Sums.{capped};
ghost use Rattle.xc_disjoint.specs.UseTables.{shares_in, uses_in};

use crate::channels::{Channels, RootTable};
use crate::use_tables::{ParTable, UseTable};
use crate::uses::{Held, Share, Use};

/// The ends that the roots on a core need for so many channels.
#[tactic(auto, unfolding(crate::specs::Sums::capped))]
pub fn ends_on(all: &Channels, core: u8, channels: usize) -> u64
    ensures { result ≡ capped (sum_by (ends_at (shares_in all.now.among_roots) channels core)
        (map seen_in all.now.in_roots)) }
{
    let mut ends: u64 = 0;
    for root in all.in_roots.as_slice() {
        ends = ends.saturating_add(root_ends(root, &all.among_roots, core, channels));
    }
    ends
}

/// The ends that a root needs on a core.
#[tactic(auto, unfolding(crate::specs::Sums::capped))]
fn root_ends(root: &RootTable, among_roots: &ParTable, core: u8, channels: usize) -> u64
    ensures { result
        ≡ capped (ends_at (shares_in among_roots.now) channels core (seen_in root.now)) }
{
    if root.core == core {
        ends_for(&root.uses, among_roots, channels)
    } else {
        0
    }
}

/// The ends that a root needs for so many channels.
#[tactic(auto, unfolding(crate::specs::Sums::capped))]
fn ends_for(uses: &UseTable, among_roots: &ParTable, channels: usize) -> u64
    ensures { result
        ≡ capped (ends_below (shares_in among_roots.now) (uses_in uses.now) channels) }
{
    let mut ends: u64 = 0;
    for channel in 0..channels {
        ends = ends.saturating_add(channel_ends(
            among_roots.share(channel),
            uses.channel_use(channel),
        ));
    }
    ends
}

/// The ends that a root needs for a channel, by how the roots use it and how this root does.
fn channel_ends(share: Option<Share>, own: Option<Use>) -> u64
    ensures { result ≡ ends_by share own }
{
    match (share, own) {
        (Some(Share::Two(_, _)), Some(_)) => 1,
        (Some(Share::One(_)), Some(u)) => held_ends(u.held),
        (_, _) => 0,
    }
}

/// Where one root alone uses it: both sides, if they are the two branches of a `par` in the root.
fn held_ends(held: Held) -> u64
    ensures { result ≡ ends_held held }
{
    match held {
        Held::Apart => 0,
        Held::Two(_) => 2,
        Held::Many(_) => 0,
    }
}
