// The places of a cell for what comes from one other core.

ghost use Rattle.std.specs.Prelude.{◌≡◌, None};
ghost use Rattle.xr_board.specs.Inbox.{IsPlaced, lacking_of, placed};

use std::mem;
use xr_windows::{Batch, Needs, RunName};

/// Puts a batch into its place, for a cell that has run so many windows, or gives it back. The two places are for a core's batch of the
/// window before the one that the cell runs next, and for its batch of that one.
pub fn place<U: RunName>(
    earlier: &mut Option<Batch<U>>,
    later: &mut Option<Batch<U>>,
    ran: u32,
    batch: Batch<U>,
) -> Option<Batch<U>>
    ensures { IsPlaced
        (placed (record { earlier = earlier.old; later = later.old }) ran batch)
        (record { earlier = earlier.old; later = later.old }) batch result
        (record { earlier = earlier.new; later = later.new }) }
{
    if batch.window == ran {
        if later.is_none() {
            *later = Some(batch);
            return None;
        }
        return Some(batch);
    }
    if ran > 0 && batch.window == ran - 1 && earlier.is_none() {
        *earlier = Some(batch);
        return None;
    }
    Some(batch)
}

/// One window further: the later batches are the earlier ones.
pub fn move_up<U: RunName>(earlier: &mut Needs<U>, later: &mut Needs<U>)
    ensures from0 { (earlier.new.from0 ≡ later.old.from0) × (later.new.from0 ≡ None) }
    ensures from1 { (earlier.new.from1 ≡ later.old.from1) × (later.new.from1 ≡ None) }
    ensures from2 { (earlier.new.from2 ≡ later.old.from2) × (later.new.from2 ≡ None) }
    ensures from3 { (earlier.new.from3 ≡ later.old.from3) × (later.new.from3 ≡ None) }
{
    *earlier = mem::replace(later, Needs::nothing());
}

/// The least core other than core `number` whose batch isn't there.
pub fn first_lacking<U: RunName>(number: u8, needs: &Needs<U>) -> Option<u8>
    ensures { result ≡ lacking_of number needs.now.from0 needs.now.from1 needs.now.from2
        needs.now.from3 }
{
    if number != 0 && needs.from0.is_none() {
        return Some(0);
    }
    if number != 1 && needs.from1.is_none() {
        return Some(1);
    }
    if number != 2 && needs.from2.is_none() {
        return Some(2);
    }
    if number != 3 && needs.from3.is_none() {
        return Some(3);
    }
    None
}
