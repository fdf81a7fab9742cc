ghost use Rattle.std.specs.Prelude.{◌<◌};

use crate::graph::Graph;
use std::alloc::Global;
use xw_words::allocation::push;
use xw_words::{List, Memory};

/// An item on the way from a root.
#[derive(Clone, Copy)]
struct Visit {
    item: usize,
    /// When it was entered.
    entered: usize,
    /// The next of its calls, and where they end.
    next: usize,
    end: usize,
}

/// The functions by their calls.
#[derive(Drop)]
pub struct Components {
    /// By their places numbers: one for those that call each other around a cycle, and a lesser one for what they call
    /// besides.
    pub numbers: List<usize>,
    /// Their places, in the order of these numbers: each behind what it calls, where no call stands on a cycle.
    pub order: List<usize>,
}

/// What a walk along the calls has found.
#[derive(Drop)]
struct Walk {
    /// The next item to begin at.
    root: usize,
    /// The items on the way from the root at which it began.
    path: Vec<Visit>,
    /// The items that are entered and have no number, in the order in which they were entered.
    open: Vec<usize>,
    /// For each item that is entered the earliest entry of an open item that it is known to lead to, and 0 for the others.
    low: List<usize>,
    /// The numbers, and 0 where there is none yet.
    numbers: List<usize>,
    /// The items that have a number, in the order in which they got it.
    order: List<usize>,
}

/// The strongly connected components of a graph of calls, found by one walk in depth first order that keeps its own stack. The
/// one error is want of memory.
///
/// Nothing is promised of the numbers and of the order: they are checked where they are used.
pub fn components_of(alloc: Global, graph: &Graph) -> Result<Components, Memory> {
    let items = graph.firsts.len();
    let mut walk = Walk {
        root: 0,
        path: Vec::new(alloc),
        open: Vec::new(alloc),
        low: zeros(alloc, items)?,
        numbers: zeros(alloc, items)?,
        order: List::new(alloc),
    };
    // Each item is begun at once, each call is followed once, and each item is left once.
    let turns = items
        .saturating_add(items)
        .saturating_add(graph.edges.len());
    for turn in 0..turns {
        advance(&mut walk, graph, turn + 1)?;
    }
    Ok(Components {
        numbers: walk.numbers,
        order: walk.order,
    })
}

fn zeros(alloc: Global, count: usize) -> Result<List<usize>, Memory> {
    match vec![in alloc; 0; count] {
        Ok(zeros) => Ok(List::from_vec(zeros)),
        Err(_) => Err(Memory),
    }
}

/// Takes one turn: it begins at an item, follows a call or leaves an item.
fn advance(walk: &mut Walk, graph: &Graph, turn: usize) -> Result<(), Memory> {
    let Some(visit) = walk.path.pop() else {
        return begin(walk, graph, turn);
    };
    if visit.next < visit.end {
        follow(walk, graph, visit, turn)
    } else {
        leave(walk, visit, turn)
    }
}

/// Begins at the next item, where it isn't entered yet.
fn begin(walk: &mut Walk, graph: &Graph, turn: usize) -> Result<(), Memory> {
    let item = walk.root;
    if item < graph.firsts.len() {
        walk.root = item + 1;
        if at(&walk.low, item) == 0 {
            return enter(walk, graph, item, turn);
        }
    }
    Ok(())
}

fn enter(walk: &mut Walk, graph: &Graph, item: usize, turn: usize) -> Result<(), Memory> {
    if item < graph.firsts.len() {
        put(&mut walk.low, item, turn);
        push(&mut walk.open, item)?;
        push(
            &mut walk.path,
            Visit {
                item,
                entered: turn,
                next: at(&graph.firsts, item),
                end: at(&graph.firsts, item + 1),
            },
        )?;
    }
    Ok(())
}

/// Follows the next call of an item.
fn follow(walk: &mut Walk, graph: &Graph, visit: Visit, turn: usize) -> Result<(), Memory>
    requires { visit.next < visit.end }
{
    push(
        &mut walk.path,
        Visit {
            next: visit.next + 1,
            ..visit
        },
    )?;
    let Some(edge) = graph.edges.get(visit.next) else {
        return Ok(());
    };
    let low = at(&walk.low, edge.callee);
    if low == 0 {
        return enter(walk, graph, edge.callee, turn);
    }
    if at(&walk.numbers, edge.callee) == 0 {
        lower(&mut walk.low, visit.item, low);
    }
    Ok(())
}

/// Leaves an item. All open ones entered since it was get one number, where none of them leads to an earlier one.
fn leave(walk: &mut Walk, visit: Visit, turn: usize) -> Result<(), Memory> {
    let low = at(&walk.low, visit.item);
    if low == visit.entered {
        close(walk, visit.item, turn)?;
    }
    if let Some(caller) = walk.path.last() {
        lower(&mut walk.low, caller.item, low);
    }
    Ok(())
}

/// Numbers the open items down to this one.
fn close(walk: &mut Walk, item: usize, number: usize) -> Result<(), Memory> {
    'close: while let Some(open) = walk.open.pop() {
        put(&mut walk.numbers, open, number);
        walk.order.push(open)?;
        if open == item {
            break;
        }
    }
    Ok(())
}

fn at(numbers: &List<usize>, place: usize) -> usize {
    match numbers.get(place) {
        Some(number) => *number,
        None => 0,
    }
}

fn put(numbers: &mut List<usize>, place: usize, number: usize) {
    if place < numbers.len() {
        numbers.set(place, number);
    }
}

fn lower(numbers: &mut List<usize>, place: usize, number: usize) {
    if number < at(numbers, place) {
        put(numbers, place, number);
    }
}
