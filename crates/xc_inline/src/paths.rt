ghost use Rattle.std.specs.Prelude.{◌≡◌, ◌++◌, IfOk};
ghost use Rattle.xc_kernel.specs.Paths as spec;

use std::alloc::Global;
use xw_words::{List, Memory, Pos};

/// How many words there are.
const WORDS: usize = 1 << 32;

/// The path from an instance to what is called or declared in it at a place. The one error is want of memory.
pub fn path_at(alloc: Global, path: &[u32], pos: Pos) -> Result<List<u32>, Memory>
    ensures { IfOk result (λ longer. longer ≡ spec.path_at path.now pos) }
{
    extended(alloc, path, &[pos.line, pos.col])
}

/// The path from an instance to a branch of a `par` in it, by the branch's index. The one error is want of memory.
pub fn path_of_branch(alloc: Global, path: &[u32], index: usize) -> Result<List<u32>, Memory>
    ensures { IfOk result (λ longer. longer ≡ spec.path_of_branch path.now index) }
{
    let low = (index % WORDS) as u32;
    let high = (index / WORDS) as u32;
    extended(alloc, path, &[0, low, 0, high])
}

/// The path from the block that `break` leaves to the one in it that `continue` leaves. The one error is want of memory.
pub fn path_of_turn(alloc: Global, path: &[u32]) -> Result<List<u32>, Memory>
    ensures { IfOk result (λ longer. longer ≡ spec.path_of_turn path.now) }
{
    extended(alloc, path, &[0])
}

/// A path in memory of its own. The one error is want of memory.
pub fn same_path(alloc: Global, path: &[u32]) -> Result<List<u32>, Memory>
    ensures { IfOk result (λ same. same ≡ path.now) }
{
    Ok(List::from_vec(Vec::from_slice(alloc, path)?))
}

/// A path with more numbers behind.
fn extended(alloc: Global, path: &[u32], more: &[u32]) -> Result<List<u32>, Memory>
    ensures { IfOk result (λ longer. longer ≡ path.now ++ more.now) }
{
    let mut numbers = Vec::from_slice(alloc, path)?;
    numbers.extend_from_slice(more)?;
    Ok(List::from_vec(numbers))
}
