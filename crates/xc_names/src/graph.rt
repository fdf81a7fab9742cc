ghost use Rattle.std.specs.Prelude.{◌≡◌, []};

use std::alloc::Global;
use xw_words::{List, Pos};

/// A call: the function in which it stands and the one that is called, by their places among the items or the functions, and
/// the place of the name.
#[derive(Clone, Copy)]
pub struct Edge {
    pub caller: usize,
    pub callee: usize,
    pub pos: Pos,
}

/// All calls in the order of the text, and where those of each function begin, with their end for the last.
#[derive(Drop)]
pub struct Graph {
    pub edges: List<Edge>,
    pub firsts: List<usize>,
}

impl Graph {
    /// Of no function.
    pub fn new(alloc: Global) -> Graph
        ensures { result.edges ≡ [] }
    {
        Graph {
            edges: List::new(alloc),
            firsts: List::new(alloc),
        }
    }
}
