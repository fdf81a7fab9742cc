ghost use Rattle.std.specs.Prelude.{◌≡◌, ◌+◌, ◌<◌, ◌^◌, [], length, nat_eq, IfSome, IfOk, OnOk};
ghost use Rattle.xc_names.specs.Callees.{called_at, declared_function as declared_function_of, FoundCall, function_of};
ghost use Rattle.indexmap.specs.IndexSet.{insert_key};
ghost use Rattle.xc_tree.specs.Least.{IsLeastOf};
ghost use Rattle.xc_names.specs.Meanings.{AreMeanings};
ghost use Rattle.xc_names.specs.Searches.{Adds, AddsNext, AreBounds, AreWithin, back_of, IsBackBefore, IsBackIn, IsBackTo};

use indexmap::IndexSet;
use std::alloc::Global;
use xc_tree::{Mark, What, earlier};
use xw_words::{Broken, Memory, Pos};

/// A call: the function that is called, by its place among the items, and the place of its name.
#[derive(Clone, Copy)]
pub struct Call {
    pub callee: usize,
    pub pos: Pos,
}

/// The function that the name at a place calls, if it calls one.
pub fn call_at(marks: &[Mark], meant: &[Option<usize>], at: usize) -> Option<Call>
    requires within { at < length marks.now }
    requires meant { AreMeanings marks.now meant.now }
    ensures found { FoundCall marks.now meant.now at result }
    ensures small { IfSome result (λ call. call.callee < 2 ^ 32) }
{
    let Some(pos) = called(&marks[at]) else {
        return None;
    };
    let Some(d) = meant[at] else {
        return None;
    };
    prove!(d < marks.len());
    match declared_function(&marks[d]) {
        None => None,
        Some(callee) => Some(Call { callee, pos }),
    }
}

/// The place of the name that a mark calls.
fn called(mark: &Mark) -> Option<Pos>
    ensures { result ≡ called_at mark.now }
{
    match mark {
        Mark::Opens => None,
        Mark::Closes => None,
        Mark::Declares(_) => None,
        Mark::Uses(_) => None,
        Mark::Calls(name) => Some(name.pos),
    }
}

/// The function that a mark declares, by its place among the items.
fn declared_function(mark: &Mark) -> Option<usize>
    ensures function { result ≡ declared_function_of mark.now }
    ensures small { IfSome result (λ k. k < 2 ^ 32) }
{
    match mark {
        Mark::Opens => None,
        Mark::Closes => None,
        Mark::Declares(decl) => function(&decl.what),
        Mark::Uses(_) => None,
        Mark::Calls(_) => None,
    }
}

fn function(what: &What) -> Option<usize>
    ensures function { result ≡ function_of what.now }
    ensures small { IfSome result (λ k. k < 2 ^ 32) }
{
    match what {
        What::Word(_) => None,
        What::Array(_, _) => None,
        What::Ref(_) => None,
        What::ArrayParam(_, _) => None,
        What::Chan(_) => None,
        What::End(_) => None,
        What::Timer => None,
        What::Port(_) => None,
        What::PortParam(_) => None,
        What::Func(k) => Some(*k as usize),
        What::Index => None,
    }
}

/// The first call of a function that stands on a cycle, as rule 304.
pub fn broken_into(
    alloc: Global,
    marks: &[Mark],
    meant: &[Option<usize>],
    starts: &[usize],
    goal: usize,
) -> Result<Option<Broken>, Memory>
    requires small { goal < 2 ^ 32 }
    requires meant { AreMeanings marks.now meant.now }
    requires starts { AreWithin starts.now (length marks.now) }
    ensures { IfOk result (λ b. IsLeastOf (IsBackTo marks.now meant.now starts.now goal) b) }
{
    let mut reached = IndexSet::new(alloc);
    let broken = search_calls(&mut reached, marks, meant, starts, goal);
    drop(reached);
    broken
}

/// The same with the functions that are reached from it, of which none is known yet.
fn search_calls(
    reached: &mut IndexSet<usize>,
    marks: &[Mark],
    meant: &[Option<usize>],
    starts: &[usize],
    goal: usize,
) -> Result<Option<Broken>, Memory>
    requires empty { reached.old.keys ≡ [] }
    requires small { goal < 2 ^ 32 }
    requires meant { AreMeanings marks.now meant.now }
    requires starts { AreWithin starts.now (length marks.now) }
    ensures { IfOk result (λ b. IsLeastOf (IsBackTo marks.now meant.now starts.now goal) b) }
{
    add(reached, goal)?;
    let mut best = None;
    let mut next = 0;
    'search: while next < reached.len() {
        let f = reached.as_slice()[next];
        best = earlier(best, pass(reached, marks, meant, starts, f, goal)?);
        next += 1;
    }
    Ok(best)
}

/// Adds the functions that an item calls, and gives the first call of the one looked for.
fn pass(
    reached: &mut IndexSet<usize>,
    marks: &[Mark],
    meant: &[Option<usize>],
    starts: &[usize],
    f: usize,
    goal: usize,
) -> Result<Option<Broken>, Memory>
    requires small { f < 2 ^ 32 }
    requires meant { AreMeanings marks.now meant.now }
    requires starts { AreWithin starts.now (length marks.now) }
    ensures adds { OnOk result
        (AddsNext marks.now meant.now starts.now f reached.old.keys reached.new.keys) }
    ensures back { IfOk result (λ b. IsLeastOf (IsBackIn marks.now meant.now starts.now goal f) b) }
{
    let (first, end) = body(starts, f, marks.len());
    let mut best = None;
    for at in first..end {
        best = earlier(best, follow(reached, marks, meant, at, goal)?);
    }
    Ok(best)
}

/// From where up to where the marks of an item stand.
pub fn body(starts: &[usize], f: usize, n: usize) -> (usize, usize)
    requires small { f < 2 ^ 32 }
    requires within { AreWithin starts.now n }
    ensures { AreBounds starts.now n f result.0 result.1 }
{
    if f + 1 < starts.len() && starts[f] <= starts[f + 1] {
        (starts[f], starts[f + 1])
    } else {
        (0, 0)
    }
}

/// Adds the function that the name at a place calls, and gives rule 304 where that is the one looked for.
fn follow(
    reached: &mut IndexSet<usize>,
    marks: &[Mark],
    meant: &[Option<usize>],
    at: usize,
    goal: usize,
) -> Result<Option<Broken>, Memory>
    requires within { at < length marks.now }
    requires meant { AreMeanings marks.now meant.now }
    ensures adds { OnOk result
        (Adds marks.now meant.now at (at + 1) reached.old.keys reached.new.keys) }
    ensures back { IfOk result (IsLeastOf (IsBackBefore marks.now meant.now at (at + 1) goal)) }
{
    match call_at(marks, meant, at) {
        None => Ok(None),
        Some(call) => {
            add(reached, call.callee)?;
            Ok(back_at(call, goal))
        }
    }
}

fn back_at(call: Call, goal: usize) -> Option<Broken>
    ensures { result ≡ back_of call goal }
{
    if call.callee == goal {
        Some(Broken {
            rule: 304,
            pos: call.pos,
        })
    } else {
        None
    }
}

fn add(reached: &mut IndexSet<usize>, function: usize) -> Result<(), Memory>
    ensures { OnOk result (reached.new.keys ≡ insert_key nat_eq reached.old.keys function) }
{
    match reached.insert_full(function) {
        Ok(_) => Ok(()),
        Err(_) => Err(Memory),
    }
}
