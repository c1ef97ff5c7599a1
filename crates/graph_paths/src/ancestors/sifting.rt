// Nodes in order, and those of them that are kept.
ghost use Rattle.std.specs.Prelude.{◌≡◌, ◌↔◌, ◌⊎◌, ◌<◌, ℕ, Contains, length, IfOk, IsTrue, true, false};
ghost use Rattle.operation_graph.specs.Graphs.{AreDifferent};
ghost use Rattle.graph_paths.specs.Upstream.{AreAscending, IsFed};

use operation_graph::Graph;
use std::alloc::{AllocError, Global};

/// These nodes, no two of which are the same, from the least up.
pub fn ascending(alloc: Global, nodes: &[usize]) -> Result<Vec<usize>, AllocError>
    requires { AreDifferent nodes.now }
    ensures in_order { IfOk result (λ v. AreAscending v.items) }
    ensures nodes { IfOk result (λ v. (n : ℕ) → Contains v.items n ↔ Contains nodes.now n) }
{
    let mut nodes = Vec::from_slice(alloc, nodes)?;
    nodes.sort_unstable();
    Ok(nodes)
}

/// Whether a predecessor of a node has its flag set.
pub fn is_fed(graph: &Graph, flags: &[bool], node: usize) -> bool
    requires node { node < graph.now.nodes }
    requires flags { length flags.now ≡ graph.now.nodes }
    ensures { IsTrue result ↔ IsFed graph.now flags.now node }
{
    for pred in graph.preds(node) {
        if flags[*pred] {
            return true;
        }
    }
    false
}

/// Those of these nodes that are to be kept, in their order.
pub fn sift<F: Fn(usize) -> bool>(
    alloc: Global,
    nodes: &[usize],
    keep: F,
) -> Result<Vec<usize>, AllocError>
    requires asked { (n : ℕ) → Contains nodes.now n → F.pre keep n }
    requires in_order { AreAscending nodes.now }
    ensures in_order { IfOk result (λ v. AreAscending v.items) }
    ensures kept { IfOk result (λ v. (n : ℕ) → Contains v.items n → Contains nodes.now n × F.post keep n true) }
    ensures left { IfOk result (λ v. (n : ℕ) → Contains nodes.now n → Contains v.items n ⊎ F.post keep n false) }
{
    let mut kept = Vec::new(alloc);
    for node in nodes {
        if keep(*node) {
            kept.push(*node)?;
        }
    }
    Ok(kept)
}
