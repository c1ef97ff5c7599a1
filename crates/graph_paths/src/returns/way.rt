// A way back from a node to one from which a path leads there.
ghost use Rattle.std.specs.Prelude.{◌≡◌, ◌≢◌, ◌<◌, ℕ, All, Contains, length, IfOk};
ghost use Rattle.operation_graph.specs.Graphs.{HasEdge, IsGraph, IsSet};
ghost use Rattle.graph_paths.specs.Returns.{LeadsBackTo};
ghost use Rattle.graph_paths.specs.Reached.{IsReached, AreFlagsOf};

use operation_graph::Graph;
use std::alloc::{AllocError, Global};

/// So many flags, of which those of these nodes are set.
fn flags_of(alloc: Global, count: usize, nodes: &[usize]) -> Result<Vec<bool>, AllocError>
    requires { All (λ n. n < count) nodes.now }
    ensures { IfOk result (λ flags. AreFlagsOf count (Contains nodes.now) flags.items) }
{
    let mut flags = vec![in alloc; false; count]?;
    for node in nodes {
        flags[*node] = true;
    }
    Ok(flags)
}

/// A flag of each node: whether a path leads there.
fn reached_from(alloc: Global, graph: &Graph, from: usize) -> Result<Vec<bool>, AllocError>
    requires graph { IsGraph graph.now }
    requires from { from < graph.now.nodes }
    ensures { IfOk result (λ flags. AreFlagsOf graph.now.nodes (IsReached graph.now from) flags.items) }
{
    let live = vec![in alloc; true; graph.nodes()]?;
    match graph.reach(from, &live) {
        Ok(nodes) => flags_of(alloc, graph.nodes(), &nodes),
        Err(_) => Err(AllocError),
    }
}

/// A predecessor of a node whose flag is set, where there is one.
fn flagged_before(graph: &Graph, flags: &[bool], node: usize) -> usize
    requires node { node < graph.now.nodes }
    requires flags { length flags.now ≡ graph.now.nodes }
    requires some { (p : ℕ) × HasEdge graph.now p node × IsSet flags.now p }
    ensures edge { HasEdge graph.now result node }
    ensures flag { IsSet flags.now result }
{
    for before in graph.preds(node) {
        if flags[*before] {
            return *before;
        }
    }
    unreachable!("a predecessor has its flag set")
}

/// A way back from a node to one from which a path leads there, each step to a predecessor.
pub fn way_back(
    alloc: Global,
    graph: &Graph,
    from: usize,
    to: usize,
) -> Result<Vec<usize>, AllocError>
    requires graph { IsGraph graph.now }
    requires from { from < graph.now.nodes }
    requires to { to < graph.now.nodes }
    requires leads { IsReached graph.now from to }
    ensures { IfOk result (λ way. LeadsBackTo (HasEdge graph.now) to way.items from) }
{
    let reached = reached_from(alloc, graph, from)?;
    let mut way = Vec::new(alloc);
    let mut node = to;
    while node != from {
        node = flagged_before(graph, &reached, node);
        way.push(node)?;
    }
    Ok(way)
}
