ghost use Rattle.std.specs.Prelude.{◌≡◌, ◌<◌, length, IfOk, OnOk, map, get_or};
ghost use Rattle.xc_names.specs.Ends.{AreEnds, last_or, open_before};

use smallvec::SmallVec;
use std::alloc::Global;
use xc_tree::Mark;
use xw_words::{List, Memory};

/// For each place of the marks, the place at which the innermost scope around it ends.
pub fn scope_ends(alloc: Global, marks: &[Mark]) -> Result<List<usize>, Memory>
    ensures { IfOk result (λ ends. AreEnds marks.now ends) }
{
    let mut ends = zeros(alloc, marks.len())?;
    let mut closing: SmallVec<usize, 16> = SmallVec::new(alloc);
    let mut at = marks.len();
    'back: while 0 < at {
        at -= 1;
        step_back(&mut closing, &marks[at], at)?;
        ends.set(at, last_of(closing.as_slice(), marks.len()));
    }
    Ok(ends)
}

/// So many zeros.
pub fn zeros(alloc: Global, n: usize) -> Result<List<usize>, Memory>
    ensures { IfOk result (λ xs. length xs ≡ n) }
{
    let mut xs = List::new(alloc);
    'zeros: while xs.len() < n {
        xs.push(0)?;
    }
    Ok(xs)
}

/// Goes back over one mark, with the ends of the scopes that are open.
fn step_back(closing: &mut SmallVec<usize, 16>, mark: &Mark, at: usize) -> Result<(), Memory>
    ensures { OnOk result (closing.new.items ≡ open_before mark.now at closing.old.items) }
{
    match mark {
        Mark::Opens => {
            closing.pop();
            Ok(())
        }
        Mark::Closes => match closing.push(at) {
            Ok(()) => Ok(()),
            Err(_) => Err(Memory),
        },
        Mark::Declares(_) => Ok(()),
        Mark::Uses(_) => Ok(()),
        Mark::Calls(_) => Ok(()),
    }
}

/// The last of some numbers, or this one.
fn last_of(xs: &[usize], n: usize) -> usize
    ensures { result ≡ last_or n xs.now }
{
    if xs.is_empty() { n } else { xs[xs.len() - 1] }
}
