use crate::names::Names;
use crate::sizes::Sizes;
use std::alloc::Global;
use xc_names::{Components, Edge, Graph, components_of, marks_of_statement};
use xc_tree::{Mark, Stmt};
use xw_words::{List, Memory};

/// The functions by their numbers, each behind those that it calls, where none of them calls itself by way of others.
///
/// Nothing is promised of the order: what it is used for is checked there.
pub fn order_of<'a>(alloc: Global, sizes: &Sizes<'a>) -> Result<List<usize>, Memory> {
    let graph = calls_of(alloc, sizes)?;
    let components = components_of(alloc, &graph);
    drop(graph);
    let Components { numbers: _, order } = components?;
    Ok(order)
}

/// The calls of all functions, but those of names that no function has.
fn calls_of<'a>(alloc: Global, sizes: &Sizes<'a>) -> Result<Graph, Memory> {
    let mut graph = Graph::new(alloc);
    add_functions(alloc, &mut graph, sizes)?;
    Ok(graph)
}

/// Adds the calls of all functions, in the order of the text.
fn add_functions<'a>(alloc: Global, graph: &mut Graph, sizes: &Sizes<'a>) -> Result<(), Memory> {
    for (caller, f) in sizes.all.as_slice().iter().enumerate() {
        graph.firsts.push(graph.edges.len())?;
        add_calls(alloc, &mut graph.edges, &sizes.names, caller, &f.body)?;
    }
    graph.firsts.push(graph.edges.len())?;
    Ok(())
}

/// Adds the calls of a function.
fn add_calls<'a>(
    alloc: Global,
    edges: &mut List<Edge>,
    names: &Names<'a>,
    caller: usize,
    body: &Stmt,
) -> Result<(), Memory> {
    let marks = marks_of_statement(alloc, body)?;
    for mark in marks.as_slice() {
        add_call(edges, names, caller, mark)?;
    }
    Ok(())
}

/// Adds the call at one place, if there is one.
fn add_call<'a>(
    edges: &mut List<Edge>,
    names: &Names<'a>,
    caller: usize,
    mark: &Mark,
) -> Result<(), Memory> {
    let Mark::Calls(name) = mark else {
        return Ok(());
    };
    match names.number(name.text.as_slice()) {
        None => Ok(()),
        Some(callee) => edges.push(Edge {
            caller,
            callee,
            pos: name.pos,
        }),
    }
}
