// The longest way of a route.
ghost use Rattle.std.specs.Prelude.{◌≡◌, ◌<◌, ◌^◌, IfOk, MatchOption};
ghost use Rattle.xf_time.specs.Routes.{HoldsUp, IsGoodCode, IsLongest};
ghost use Rattle.xf_time.specs.Rows as rows;
ghost use Rattle.xf_time.specs.Rows.{onward_of};

use crate::behind::{Behind, behind_of};
use crate::rows::{is_at, longer, number_in, row_of};
use std::alloc::Global;
use xs_instr::Code;
use xw_words::{Memory, Pos};

/// The greatest number of steps on a route: the indices of the longest way that begins at an exit of `from`, comes to no index at `to`,
/// and takes so many backward branches at most. It is 0 where there is no such way.
///
/// `None` where an index of such a way may hold up its thread, or an instruction at `from` is a call, a return, SSYNC, SETSR or WAITEU.
/// The one error is want of memory.
pub fn longest(
    alloc: Global,
    code: &Code,
    from: Pos,
    to: Pos,
    backward: u32,
) -> Result<Option<u64>, Memory>
    requires { IsGoodCode code.now }
    ensures { IfOk result
        (λ r. MatchOption r (HoldsUp code.now from to backward)
        (λ long. IsLongest code.now from to backward long)) }
{
    let row = row_of(alloc, code, to, backward)?;
    let mut most = Some(0);
    for i in 0..code.instrs.len() {
        most = longer(most, exits_at(code, from, i, row.as_slice()));
    }
    Ok(most)
}

/// The longer of the ways from the exits behind an index, where that is at `from`.
fn exits_at(code: &Code, from: Pos, i: usize, row: &[Option<u64>]) -> Option<u64>
    requires { i < 2 ^ 32 }
    ensures { result ≡ rows.exits_at code.now from row.now i }
{
    if !is_at(code, from, i) {
        return Some(0);
    }
    match code.instrs.get(i) {
        Some(instr) => exits_by(behind_of(*instr), code, from, i, row),
        None => Some(0),
    }
}

fn exits_by(way: Behind, code: &Code, from: Pos, i: usize, row: &[Option<u64>]) -> Option<u64>
    requires { i < 2 ^ 32 }
    ensures { result ≡ rows.exits_by (onward_of way) i (rows.exit_number code.now from row.now) }
{
    match way {
        Behind::GoesOn => exit_number(code, from, row, i + 1),
        Behind::Waits => exit_number(code, from, row, i + 1),
        Behind::MayBranch(k) => longer_exit(code, from, row, i + 1, k as usize),
        Behind::Branches(k) => exit_number(code, from, row, k as usize),
        Behind::MayBranchBack(k) => longer_exit(code, from, row, i + 1, k as usize),
        Behind::BranchesBack(k) => exit_number(code, from, row, k as usize),
        Behind::EndsThread => Some(0),
        Behind::AwaitsEvent => None,
        Behind::LeadsElsewhere => None,
    }
}

fn longer_exit(
    code: &Code,
    from: Pos,
    row: &[Option<u64>],
    next: usize,
    target: usize,
) -> Option<u64>
    ensures { result ≡ rows.longer
        (rows.exit_number code.now from row.now next)
        (rows.exit_number code.now from row.now target) }
{
    longer(
        exit_number(code, from, row, next),
        exit_number(code, from, row, target),
    )
}

/// The number of an index as an exit; 0 where it is none.
fn exit_number(code: &Code, from: Pos, row: &[Option<u64>], j: usize) -> Option<u64>
    ensures { result ≡ rows.exit_number code.now from row.now j }
{
    if is_at(code, from, j) {
        Some(0)
    } else {
        number_in(row, j)
    }
}
