ghost use Rattle.std.specs.Prelude.{◌≡◌, ◌+◌, ◌<◌, ◌≤◌, ◌^◌, length, IfOk, OnOk};
ghost use Rattle.xc_names.specs.Meanings.{AreMeanings};
ghost use Rattle.xc_names.specs.Searches.{AreWithin};
ghost use Rattle.xc_names.specs.Graphs.{HasAllCalls, HasCall, HasCalls, IsLonger};

use crate::calls::{body, call_at};
use crate::graph::{Edge, Graph};
use std::alloc::Global;
use xc_tree::Mark;
use xw_words::{List, Memory};

/// The calls of a program, by what names mean and where the items begin.
pub fn graph_of(
    alloc: Global,
    marks: &[Mark],
    meant: &[Option<usize>],
    starts: &[usize],
) -> Result<Graph, Memory>
    requires few { length starts.now ≤ 2 ^ 32 }
    requires meant { AreMeanings marks.now meant.now }
    requires starts { AreWithin starts.now (length marks.now) }
    ensures { IfOk result (λ graph. HasAllCalls marks.now meant.now starts.now graph.edges) }
{
    let Graph {
        mut edges,
        mut firsts,
    } = Graph::new(alloc);
    for f in 0..starts.len() {
        firsts.push(edges.len())?;
        add_calls(&mut edges, marks, meant, starts, f)?;
    }
    Ok(Graph { edges, firsts })
}

/// Adds the calls of an item.
fn add_calls(
    edges: &mut List<Edge>,
    marks: &[Mark],
    meant: &[Option<usize>],
    starts: &[usize],
    f: usize,
) -> Result<(), Memory>
    requires small { f < 2 ^ 32 }
    requires meant { AreMeanings marks.now meant.now }
    requires starts { AreWithin starts.now (length marks.now) }
    requires before { HasCalls marks.now meant.now starts.now f edges.old }
    ensures { OnOk result (HasCalls marks.now meant.now starts.now (f + 1) edges.new) }
{
    let (first, end) = body(starts, f, marks.len());
    for at in first..end {
        add_call(edges, marks, meant, f, at)?;
    }
    Ok(())
}

/// Adds the call at a place, if there is one.
fn add_call(
    edges: &mut List<Edge>,
    marks: &[Mark],
    meant: &[Option<usize>],
    f: usize,
    at: usize,
) -> Result<(), Memory>
    requires within { at < length marks.now }
    requires meant { AreMeanings marks.now meant.now }
    ensures kept { OnOk result (IsLonger edges.old edges.new) }
    ensures added { OnOk result (HasCall marks.now meant.now f at edges.new) }
{
    match call_at(marks, meant, at) {
        None => Ok(()),
        Some(call) => {
            edges.push(Edge {
                caller: f,
                callee: call.callee,
                pos: call.pos,
            })?;
            Ok(())
        }
    }
}
