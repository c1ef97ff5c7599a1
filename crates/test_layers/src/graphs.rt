//! A small graph: it is built and copied, takes a node and an edge, tells its edges and what is reached, and is rebuilt.
ghost use Rattle.std.specs.Prelude.{◌<◌, All, IsTrue};

use super::tables::all_so;
use operation_graph::{EdgeFault, Graph};
use std::alloc::Global;

// The edges of a diamond with a tail.
const DIAMOND: &[(usize, usize)] = &[(0, 1), (0, 2), (1, 3), (2, 3), (3, 4)];

// Whether the ends of edges are below the number of nodes.
fn are_joined(nodes: usize, edges: &[(usize, usize)]) -> bool
    ensures { IsTrue result → All (λ e. (e.0 < nodes) × (e.1 < nodes)) edges.now }
{
    edges.iter().all(|edge| edge.0 < nodes && edge.1 < nodes)
}

/// The graph of so many nodes with these edges.
pub fn graph_of(alloc: Global, nodes: usize, edges: &[(usize, usize)]) -> Option<Graph> {
    if are_joined(nodes, edges) {
        Graph::build(alloc, nodes, edges).ok()
    } else {
        None
    }
}

// Whether a node has just these before it and these after it.
fn stands(graph: &Graph, node: usize, before: &[usize], after: &[usize]) -> bool {
    node < graph.nodes() && graph.preds(node) == before && graph.succs(node) == after
}

// Whether the first node reaches just these where these nodes are live.
fn reaches(graph: &Graph, live: &[bool], nodes: &[usize]) -> bool {
    if graph.nodes() == 0 || live.len() != graph.nodes() {
        return false;
    }
    match graph.reach(0, live) {
        Ok(found) => found.as_slice() == nodes,
        Err(_) => false,
    }
}

// Whether the edges come in turn, the one to the tail last.
fn has_edges_in_turn(graph: &Graph) -> bool {
    match graph.edges_in_turn() {
        Ok(edges) => edges.len() == 5
            && edges.first() == Some(&(0, 1))
            && edges.last() == Some(&(3, 4)),
        Err(_) => false,
    }
}

// Whether a copy has the diamond's end too.
fn has_a_copy(graph: &Graph) -> bool {
    match graph.try_clone() {
        Ok(copy) => stands(&copy, 3, &[1, 2], &[4]),
        Err(_) => false,
    }
}

// Whether without one of its sides the diamond is a chain.
fn is_a_chain_without_a_side(graph: &Graph) -> bool {
    if graph.nodes() != 5 {
        return false;
    }
    match graph.rebuilt(&[true, false, true, true, true]) {
        Ok((chain, numbers)) => {
            numbers.as_slice() == [Some(0), None, Some(1), Some(2), Some(3)].as_slice()
                && stands(&chain, 2, &[1], &[3])
        }
        Err(_) => false,
    }
}

// Whether an edge is answered so.
fn adds(graph: &mut Graph, before: usize, after: usize, answer: Result<(), EdgeFault>) -> bool {
    before < graph.nodes() && after < graph.nodes() && graph.add_edge(before, after) == answer
}

// Whether the tail gets a node behind it, and no edge from there back.
fn is_lengthened(graph: &mut Graph) -> bool {
    graph.add_node() == Ok(5)
        && adds(graph, 4, 5, Ok(()))
        && adds(graph, 5, 0, Err(EdgeFault::Cycle))
        && stands(graph, 4, &[3], &[5])
}

// What is asked of the diamond, and what is added to it then.
fn are_answered(graph: &mut Graph) -> Result<(), &'static str> {
    all_so(&[
        (stands(graph, 3, &[1, 2], &[4]), "the diamond's end"),
        (
            reaches(graph, &[false, true, false, true, true], &[0, 1, 3, 4]),
            "what is reached",
        ),
        (has_edges_in_turn(graph), "edges in turn"),
        (has_a_copy(graph), "a copy"),
        (is_a_chain_without_a_side(graph), "without a side"),
        (is_lengthened(graph), "a node and an edge more"),
    ])
}

/// Each call of a graph, where there is memory.
pub fn calls_of_a_graph(alloc: Global) -> Result<(), &'static str> {
    match graph_of(alloc, 5, DIAMOND) {
        Some(mut graph) => are_answered(&mut graph),
        None => Err("the diamond"),
    }
}
