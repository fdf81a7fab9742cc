//! What bodies use, and the sides of their branches, worked out by hand.

use crate::{Side, sides_of_branches, used_channels};
use std::alloc::Global;
use xc_kernel::{KBranch, KOut, KRes, Kst, Kx};
use xw_words::{List, Memory, Pos};

const POS: Pos = Pos { line: 1, col: 1 };

/// The sides around a `par`, by the channels.
const AROUND: [Option<Side>; 4] = [None, None, Some(Side::Second), None];

/// The branches of that `par`: the channel that both branches of a first `par` in it put out to, if it has one, the channels that are
/// put out to behind, and the sides. These are a letter a channel: `f` for the first side, `s` for the second, and `-` for none.
const BRANCHES: [(Option<u32>, &[u32], &[u8]); 4] = [
    (None, &[0], b"f-s-"),
    (None, &[0, 3], b"s-sf"),
    (Some(1), &[], b"--s-"),
    (None, &[2, 3], b"--ss"),
];

fn push_outputs(code: &mut List<Kst>, channels: &[u32]) -> Result<(), Memory> {
    for channel in channels {
        code.push(Kst::Out(KOut {
            res: KRes::Chan(*channel),
            time: None,
            value: Kx::Num(0),
            stamp: None,
            pos: POS,
        }))?;
    }
    Ok(())
}

/// A branch of outputs.
fn outputs(alloc: Global, channels: &[u32]) -> Result<KBranch, Memory> {
    let mut body = List::new(alloc);
    push_outputs(&mut body, channels)?;
    Ok(KBranch { body, pos: POS })
}

/// A `par` of two branches with an output each.
fn both_sides(alloc: Global, channel: u32) -> Result<Kst, Memory> {
    let mut branches = List::new(alloc);
    for _ in 0..2 {
        branches.push(outputs(alloc, &[channel])?)?;
    }
    Ok(Kst::Par(branches))
}

/// Such a `par`, if a channel is given for it, and outputs behind it.
fn code(alloc: Global, both: Option<u32>, behind: &[u32]) -> Result<List<Kst>, Memory> {
    let mut code = List::new(alloc);
    if let Some(channel) = both {
        code.push(both_sides(alloc, channel)?)?;
    }
    push_outputs(&mut code, behind)?;
    Ok(code)
}

/// Which of five channels a `par` and two outputs behind it use.
fn is_use_told(alloc: Global) -> Result<bool, Memory> {
    let body = code(alloc, Some(1), &[3, 6])?;
    let used = used_channels(alloc, 5, body.as_slice())?;
    Ok(used.as_slice() == [false, true, false, true, false].as_slice())
}

fn branches(alloc: Global) -> Result<List<KBranch>, Memory> {
    let mut branches = List::new(alloc);
    for (both, behind, _) in &BRANCHES {
        let body = code(alloc, *both, behind)?;
        branches.push(KBranch { body, pos: POS })?;
    }
    Ok(branches)
}

/// The place of the first branch that isn't given its sides.
fn wrong_branch(alloc: Global) -> Result<Option<usize>, Memory> {
    let branches = branches(alloc)?;
    let each = sides_of_branches(alloc, &AROUND, branches.as_slice())?;
    Ok(wrong_of(each.as_slice()))
}

fn wrong_of(each: &[List<Option<Side>>]) -> Option<usize> {
    for (place, (_, _, letters)) in BRANCHES.iter().enumerate() {
        match each.get(place) {
            Some(own) if are_lettered(own.as_slice(), letters) => {}
            _ => return Some(place),
        }
    }
    if each.len() == 4 { None } else { Some(4) }
}

fn are_lettered(sides: &[Option<Side>], letters: &[u8]) -> bool {
    for (side, letter) in sides.iter().zip(letters) {
        let own = match side {
            Some(Side::First) => b'f',
            Some(Side::Second) => b's',
            None => b'-',
        };
        if own != *letter {
            return false;
        }
    }
    sides.len() == letters.len()
}

/// What a body uses is told, and branches are given their sides.
#[test]
fn uses_and_sides_are_told(rt: HostRuntime) {
    let results = (is_use_told(rt.alloc()), wrong_branch(rt.alloc()));
    assert_eq!(rt; results, (Ok(true), Ok(None)));
}
