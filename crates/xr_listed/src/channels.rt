// Whether channels are what an image may have.

ghost use Rattle.std.specs.Bool.{OnTrue};
ghost use Rattle.std.specs.Prelude.{◌≡◌, ◌<◌, ◌≤◌, ◌∷◌, [], ℕ};
ghost use Rattle.xs_instr.specs.Machine.{parts_in};
ghost use Rattle.xs_instr.specs.Valid.{AreGoodPairs, times_named};

use crate::cores::{CORES, ends_of};
use xs_instr::{CoreImage, Pair};

/// Whether both ends of each channel are there.
pub fn are_good_pairs(cores: &[CoreImage], chans: &[Pair]) -> bool
    ensures { OnTrue result (AreGoodPairs cores.now chans.now) }
{
    let mut rest = chans;
    'each: while let [first, behind @ ..] = rest {
        if first.end >= ends_of(cores, first.core)
            || first.peer_end >= ends_of(cores, first.peer_core)
        {
            return false;
        }
        rest = behind;
    }
    true
}

/// Whether the channels name each end of the four cores once.
pub fn are_all_once(cores: &[CoreImage], chans: &[Pair]) -> bool
    ensures { OnTrue result ((c e : ℕ) → c < 4 → e < (parts_in cores.now c).ends →
        times_named chans.now c e ≡ 1) }
{
    for number in 0..CORES {
        if !are_once(cores, chans, number) {
            return false;
        }
    }
    true
}

/// Whether the channels name each end of a core once.
fn are_once(cores: &[CoreImage], chans: &[Pair], number: u8) -> bool
    ensures { OnTrue result ((e : ℕ) → e < (parts_in cores.now number).ends →
        times_named chans.now number e ≡ 1) }
{
    are_once_below(chans, number, ends_of(cores, number))
}

/// Whether the channels name each end of core `number` once that is below `ends`.
fn are_once_below(chans: &[Pair], number: u8, ends: u32) -> bool
    ensures { OnTrue result ((e : ℕ) → e < ends → times_named chans.now number e ≡ 1) }
{
    for end in 0..ends {
        if !is_once(chans, number, end) {
            return false;
        }
    }
    true
}

/// Whether the channels name an end once.
fn is_once(chans: &[Pair], number: u8, end: u32) -> bool
    ensures { OnTrue result (times_named chans.now number end ≡ 1) }
{
    let mut rest = chans;
    let mut found = 0u32;
    'each: while let [first, behind @ ..] = rest {
        found += times_in(*first, number, end);
        if found > 1 {
            return false;
        }
        rest = behind;
    }
    found == 1
}

/// How often a channel names an end.
fn times_in(pair: Pair, number: u8, end: u32) -> u32
    ensures is { result ≡ times_named (pair ∷ []) number end }
    ensures few { result ≤ 2 }
{
    let first = pair.core == number && pair.end == end;
    let second = pair.peer_core == number && pair.peer_end == end;
    first as u32 + second as u32
}
