ghost use Rattle.std.specs.Prelude.{◌≡◌, None, replicate, option_map, slice_index_or, IfOk};
ghost use Rattle.xl_ends.specs.Ends as ends;
ghost use Rattle.xl_ends.specs.Sides.{side_of, sides_of};

use std::alloc::Global;
use xl_expr::EndPlaces;
use xw_words::{List, Memory};

/// The two sides of a channel, in the order of their branches.
#[derive(Clone, Copy)]
pub enum Side {
    First,
    Second,
}

/// Of each of so many channels, that some code stands in no side of it. The one error is want of memory.
pub fn no_sides(alloc: Global, channels: usize) -> Result<List<Option<Side>>, Memory>
    ensures { IfOk result (λ sides. sides_of sides ≡ replicate channels None) }
{
    let sides = vec![in alloc; None; channels]?;
    Ok(List::from_vec(sides))
}

/// The place of the end that code uses of a channel, by the places of all channels' ends and by the sides in which the code stands.
pub fn end_at(channels: &[EndPlaces], sides: &[Option<Side>], channel: u32) -> Option<u32>
    ensures { result ≡ ends.end_at channels.now (sides_of sides.now) channel }
{
    match (channels.get(channel as usize), side_at(sides, channel)) {
        (Some(places), Some(Side::First)) => Some(places.first),
        (Some(places), Some(Side::Second)) => Some(places.second),
        _ => None,
    }
}

/// The side of a channel in which code stands.
fn side_at(sides: &[Option<Side>], channel: u32) -> Option<Side>
    ensures { option_map side_of result ≡ slice_index_or (sides_of sides.now) channel None }
{
    match sides.get(channel as usize) {
        Some(side) => *side,
        None => None,
    }
}
