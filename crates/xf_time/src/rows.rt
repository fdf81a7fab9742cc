// The row of numbers over a core's code: for each index the length of the longest way from there.
ghost use Rattle.std.specs.Prelude.{◌≡◌, ◌+◌, ◌<◌, ◌^◌, length, IfOk};
ghost use Rattle.xf_time.specs.Routes as routes;
ghost use Rattle.xf_time.specs.Routes.{IsGoodCode};
ghost use Rattle.xf_time.specs.Rows as rows;
ghost use Rattle.xf_time.specs.Rows.{IsFilledFrom, onward_of};

use crate::behind::{Behind, behind_of};
use std::alloc::Global;
use xs_instr::Code;
use xw_words::{List, Memory, Pos};

/// The row for so many backward branches, of ways that end at a place. The one error is want of memory.
pub fn row_of(
    alloc: Global,
    code: &Code,
    to: Pos,
    backward: u32,
) -> Result<List<Option<u64>>, Memory>
    requires { IsGoodCode code.now }
    ensures { IfOk result (λ row. IsFilledFrom code.now to backward 0 row) }
{
    let numbers = vec![in alloc; Some(0); code.instrs.len()]?;
    let mut row = List::from_vec(numbers);
    fill(&mut row, code, to, 0);
    for left in 0..backward {
        fill(&mut row, code, to, left + 1);
    }
    Ok(row)
}

/// Fills the row from the last index, so that at each index those ahead have their new numbers, and those back their old ones.
fn fill(row: &mut List<Option<u64>>, code: &Code, to: Pos, left: u32)
    requires good { IsGoodCode code.now }
    requires old { IsFilledFrom code.now to left (length code.now.instrs) row.old }
    ensures { IsFilledFrom code.now to left 0 row.new }
{
    let size = code.instrs.len();
    for filled in 0..size {
        let i = size - 1 - filled;
        let number = number_at(code, to, i, left > 0, row.as_slice());
        row.set(i, number);
    }
}

/// The number of an index by those of its successors; whether a backward branch is left.
fn number_at(code: &Code, to: Pos, i: usize, is_left: bool, row: &[Option<u64>]) -> Option<u64>
    requires { i < 2 ^ 32 }
    ensures { result ≡ rows.number_at code.now to i is_left (rows.number_in row.now) }
{
    if is_at(code, to, i) {
        return Some(0);
    }
    match code.instrs.get(i) {
        Some(instr) => number_by(behind_of(*instr), i, is_left, row),
        None => Some(0),
    }
}

fn number_by(way: Behind, i: usize, is_left: bool, row: &[Option<u64>]) -> Option<u64>
    requires { i < 2 ^ 32 }
    ensures { result ≡ rows.number_by (onward_of way) i is_left (rows.number_in row.now) }
{
    match way {
        Behind::GoesOn => one_more(number_in(row, i + 1)),
        Behind::MayBranch(k) => one_more(longer_of(row, i + 1, k as usize)),
        Behind::Branches(k) => one_more(number_in(row, k as usize)),
        Behind::MayBranchBack(k) if is_left => one_more(longer_of(row, i + 1, k as usize)),
        Behind::MayBranchBack(_) => one_more(number_in(row, i + 1)),
        Behind::BranchesBack(k) if is_left => one_more(number_in(row, k as usize)),
        Behind::BranchesBack(_) => Some(0),
        Behind::EndsThread => Some(1),
        Behind::Waits => None,
        Behind::AwaitsEvent => None,
        Behind::LeadsElsewhere => None,
    }
}

fn longer_of(row: &[Option<u64>], next: usize, target: usize) -> Option<u64>
    ensures { result ≡ rows.longer (rows.number_in row.now next) (rows.number_in row.now target) }
{
    longer(number_in(row, next), number_in(row, target))
}

/// The number of an index by the row; behind the code it is 0.
pub fn number_in(row: &[Option<u64>], i: usize) -> Option<u64>
    ensures { result ≡ rows.number_in row.now i }
{
    match row.get(i) {
        Some(number) => *number,
        None => Some(0),
    }
}

/// One step more.
fn one_more(number: Option<u64>) -> Option<u64>
    ensures { result ≡ rows.one_more number }
{
    match number {
        Some(n) => Some(n.saturating_add(1)),
        None => None,
    }
}

/// The longer of two ways.
pub fn longer(first: Option<u64>, second: Option<u64>) -> Option<u64>
    ensures { result ≡ rows.longer first second }
{
    match (first, second) {
        (Some(n), Some(m)) => Some(n.max(m)),
        (Some(_), None) => None,
        (None, _) => None,
    }
}

/// Whether the instruction at an index stands at a place of the text.
pub fn is_at(code: &Code, place: Pos, i: usize) -> bool
    ensures { result ≡ routes.is_at code.now place i }
{
    match code.at.get(i) {
        Some(pos) => pos.line == place.line && pos.col == place.col,
        None => false,
    }
}
