ghost use Rattle.std.specs.Prelude.{◌≡◌, ◌<◌, ◌≤◌, ◌^◌, true, length, IfOk};
ghost use Rattle.xc_names.specs.Graphs.{HasAllCalls, IsFirstLevel, level_edge, NeverRises, no_later, number_in, rule_at};
ghost use Rattle.xc_tree.specs.Least.{IsLeastOf};
ghost use Rattle.xc_names.specs.Meanings.{AreMeanings};
ghost use Rattle.xc_names.specs.Searches.{AreWithin, IsBackToAny};

use crate::call_graph::graph_of;
use crate::calls::broken_into;
use crate::components::components_of;
use crate::graph::{Edge, Graph};
use std::alloc::Global;
use xc_tree::{Mark, comes_before, earlier};
use xw_words::{Broken, Memory, Pos};

/// The first call that stands on a cycle of calls, as rule 304, by what names mean and where the items begin.
///
/// Where numbers of functions never rise along a call, one on a cycle joins functions of the same number. By those of
/// components the first such call is on a cycle, so that one search confirms it. This is seen from the search and not
/// proved of the numbers: were it otherwise, each function would be searched from.
pub fn broken_call(
    alloc: Global,
    marks: &[Mark],
    meant: &[Option<usize>],
    starts: &[usize],
) -> Result<Option<Broken>, Memory>
    requires few { length starts.now ≤ 2 ^ 32 }
    requires meant { AreMeanings marks.now meant.now }
    requires starts { AreWithin starts.now (length marks.now) }
    ensures { IfOk result (λ b. IsLeastOf (IsBackToAny marks.now meant.now starts.now) b) }
{
    let graph = graph_of(alloc, marks, meant, starts)?;
    let broken = broken_in_graph(alloc, marks, meant, starts, &graph);
    drop(graph);
    broken
}

/// The same by the calls of all functions.
fn broken_in_graph(
    alloc: Global,
    marks: &[Mark],
    meant: &[Option<usize>],
    starts: &[usize],
    graph: &Graph,
) -> Result<Option<Broken>, Memory>
    requires few { length starts.now ≤ 2 ^ 32 }
    requires meant { AreMeanings marks.now meant.now }
    requires starts { AreWithin starts.now (length marks.now) }
    requires calls { HasAllCalls marks.now meant.now starts.now graph.now.edges }
    ensures { IfOk result (λ b. IsLeastOf (IsBackToAny marks.now meant.now starts.now) b) }
{
    let components = components_of(alloc, graph)?;
    let numbers = components.numbers.as_slice();
    let broken = broken_by_numbers(alloc, marks, meant, starts, graph.edges.as_slice(), numbers);
    drop(components);
    broken
}

/// The same by the calls of all functions and by numbers of the functions.
fn broken_by_numbers(
    alloc: Global,
    marks: &[Mark],
    meant: &[Option<usize>],
    starts: &[usize],
    edges: &[Edge],
    numbers: &[usize],
) -> Result<Option<Broken>, Memory>
    requires few { length starts.now ≤ 2 ^ 32 }
    requires meant { AreMeanings marks.now meant.now }
    requires starts { AreWithin starts.now (length marks.now) }
    requires calls { HasAllCalls marks.now meant.now starts.now edges.now }
    ensures { IfOk result (λ b. IsLeastOf (IsBackToAny marks.now meant.now starts.now) b) }
{
    if !never_rises(edges, numbers) {
        return broken_by_search(alloc, marks, meant, starts);
    }
    let Some(first) = first_level(edges, numbers) else {
        return Ok(None);
    };
    if first.callee < starts.len() {
        let found = broken_into(alloc, marks, meant, starts, first.callee)?;
        if is_no_later(found, first.pos) {
            return Ok(found);
        }
    }
    broken_by_search(alloc, marks, meant, starts)
}

/// The same by a search from each function.
fn broken_by_search(
    alloc: Global,
    marks: &[Mark],
    meant: &[Option<usize>],
    starts: &[usize],
) -> Result<Option<Broken>, Memory>
    requires few { length starts.now ≤ 2 ^ 32 }
    requires meant { AreMeanings marks.now meant.now }
    requires starts { AreWithin starts.now (length marks.now) }
    ensures { IfOk result (λ b. IsLeastOf (IsBackToAny marks.now meant.now starts.now) b) }
{
    let mut best = None;
    for goal in 0..starts.len() {
        best = earlier(best, broken_into(alloc, marks, meant, starts, goal)?);
    }
    Ok(best)
}

/// Whether no call leads to a function of a greater number.
fn never_rises(edges: &[Edge], numbers: &[usize]) -> bool
    ensures { result ≡ true → NeverRises edges.now numbers.now (length edges.now) }
{
    for at in 0..edges.len() {
        let edge = edges[at];
        if number(numbers, edge.caller) < number(numbers, edge.callee) {
            return false;
        }
    }
    true
}

/// The first of the calls that lead to a function of the same number.
fn first_level(edges: &[Edge], numbers: &[usize]) -> Option<Edge>
    ensures { IsFirstLevel edges.now numbers.now (length edges.now) result }
{
    let mut best = None;
    for at in 0..edges.len() {
        best = first_of_level(best, edges[at], numbers);
    }
    best
}

/// Of two calls the first, where the second one leads to a function of the same number.
fn first_of_level(best: Option<Edge>, edge: Edge, numbers: &[usize]) -> Option<Edge>
    ensures { result ≡ level_edge numbers.now best edge }
{
    if number(numbers, edge.caller) != number(numbers, edge.callee) {
        return best;
    }
    match best {
        None => Some(edge),
        Some(first) => {
            if comes_before(broken_at(edge.pos), broken_at(first.pos)) {
                Some(edge)
            } else {
                Some(first)
            }
        }
    }
}

/// The number of a function.
fn number(numbers: &[usize], f: usize) -> usize
    ensures { result ≡ number_in numbers.now f }
{
    if f < numbers.len() { numbers[f] } else { 0 }
}

/// Whether there is a broken rule that doesn't stand behind rule 304 at a place.
fn is_no_later(found: Option<Broken>, pos: Pos) -> bool
    ensures { result ≡ no_later found pos }
{
    match found {
        None => false,
        Some(broken) => !comes_before(broken_at(pos), broken),
    }
}

fn broken_at(pos: Pos) -> Broken
    ensures { result ≡ rule_at pos }
{
    Broken { rule: 304, pos }
}
