ghost use Rattle.std.specs.Prelude.{◌≡◌, ◌&&◌, map, bytes_eq, OnOk};
ghost use Rattle.xc_tree.specs.Plain as plain;
ghost use Rattle.xc_tree.specs.Shapes.Rules.{are_all as all, are_one as one};
ghost use Rattle.xc_tree.specs.Trees.{case_of};
ghost use Rattle.xc_types.specs.Enclosing.{around_of};
ghost use Rattle.xc_types.specs.Checker.{after_break, after_continue, after_replicator, after_return, after_select, not_inside, with_defaults};

use crate::checker::Checker;
use crate::enclosing::{
    Enclosing, function_around, has_next_turn, has_way_out, in_par_or_transaction, in_transaction,
};
use xc_tree::{Case, Id};
use xw_words::{Memory, Pos};

/// Checks a `return`, whose word stands at this place: rules 408 and 502.
pub fn returns(found: &mut Checker, around: &Enclosing, has_value: bool, pos: Pos)
    ensures { found.new ≡ after_return (around_of around.now) has_value pos found.old }
{
    let gives_word = function_around(around).result.is_some();
    found.breaks_where(has_value != gives_word, 408, pos);
    found.breaks_where(in_par_or_transaction(around), 502, pos);
}

/// Checks a `break`, whose word stands at this place: rule 501.
pub fn breaks(found: &mut Checker, around: &Enclosing, pos: Pos)
    ensures { found.new ≡ after_break (around_of around.now) pos found.old }
{
    found.breaks_where(!has_way_out(around), 501, pos);
}

/// Checks a `continue`, whose word stands at this place: rule 501.
pub fn continues(found: &mut Checker, around: &Enclosing, pos: Pos)
    ensures { found.new ≡ after_continue (around_of around.now) pos found.old }
{
    found.breaks_where(!has_next_turn(around), 501, pos);
}

/// Checks that a `par`, a select or a transaction, whose word stands at this place, isn't in a transaction: rule 506.
pub fn not_in_transaction(found: &mut Checker, around: &Enclosing, pos: Pos)
    ensures { found.new ≡ not_inside (around_of around.now) pos found.old }
{
    found.breaks_where(in_transaction(around), 506, pos);
}

/// Checks what stands before the body of a replicated `par`, whose word stands at this place: rules 415 and 506.
#[tactic(auto, using(crate::proofs::Shaping::replicating))]
pub fn begin_replicated(
    found: &mut Checker,
    around: &Enclosing,
    first: &Id,
    second: &Id,
    third: &Id,
    pos: Pos,
) -> Result<(), Memory>
    ensures { OnOk result (found.new ≡ after_replicator (around_of around.now)
        first.now second.now third.now pos found.old) }
{
    not_in_transaction(found, around, pos);
    let second_is_same = is_same(first, second);
    let third_differs = !is_same(first, third);
    found.breaks_where(!second_is_same, 415, second.pos);
    found.breaks_where(both(second_is_same, third_differs), 415, third.pos);
    found.pass()?;
    found.pass()?;
    found.pass()
}

/// Whether two names are spelled in one way.
fn is_same(a: &Id, b: &Id) -> bool
    ensures { result ≡ bytes_eq a.now.text b.now.text }
{
    a.text.as_slice() == b.text.as_slice()
}

/// Both of two facts.
pub fn both(a: bool, b: bool) -> bool
    ensures { result ≡ (a && b) }
{
    a && b
}

/// Checks what is around a select, whose word stands at this place, and its cases together: rules 506 and 507.
pub fn begin_select(found: &mut Checker, around: &Enclosing, cs: &[Case], pos: Pos)
    ensures { found.new ≡ after_select (around_of around.now)
        (plain.cases (map case_of cs.now)) pos found.old }
{
    not_in_transaction(found, around, pos);
    defaults(found, cs);
}

/// Checks that a select has at most one `default`: rule 507.
#[tactic(auto, using(crate::proofs::Defaults::one_by_one))]
fn defaults(found: &mut Checker, cs: &[Case])
    ensures { found.new ≡ with_defaults (plain.cases (map case_of cs.now)) found.old }
{
    let mut has_default = false;
    for c in cs {
        match &c.head {
            None => {
                found.breaks_where(has_default, 507, c.pos);
                has_default = true;
            }
            Some(_) => {}
        }
    }
}

/// Whether these are one channel, however often.
pub fn are_one(channels: &[u32]) -> bool
    ensures { result ≡ one channels.now }
{
    match channels.get(0) {
        None => false,
        Some(first) => are_all(*first, channels),
    }
}

/// Whether these are all this one.
fn are_all(first: u32, channels: &[u32]) -> bool
    ensures { result ≡ all first channels.now }
{
    for channel in channels {
        if first != *channel {
            return false;
        }
    }
    true
}
