// What lies upstream of a node: all that is reached backwards along edges, and where it begins.

ghost use Rattle.std.specs.Prelude.{◌≡◌, ◌↔◌, ◌<◌, ℕ, Contains, length, IfOk, IfErr};
ghost use Rattle.plan_basics.specs.declared.Refusal.{Refusal};
ghost use Rattle.operation_graph.specs.Graphs.{AreExactly, HasEdge, IsGraph, IsSet};
ghost use Rattle.graph_paths.specs.Upstream.{AreAscending, IsSource, IsUpstream};

mod sifting;
mod walk;

use operation_graph::Graph;
use plan_basics::Refusal;
use sifting::{ascending, is_fed, sift};
use std::alloc::Global;
use walk::Walk;

/// A node itself, and what is reached backwards from it, each once, in any order: from node to predecessor, through
/// predecessors whose flags are set.
///
/// Refused as `Memory` where a growth was refused. Beside clearing a flag of each node it takes time linear in what is
/// reached and the edges that lead there.
pub fn upstream(
    alloc: Global,
    graph: &Graph,
    flags: &[bool],
    from: usize,
) -> Result<Vec<usize>, Refusal>
    requires from { from < graph.now.nodes }
    requires flags { length flags.now ≡ graph.now.nodes }
    ensures reached { IfOk result (λ found. AreExactly (IsUpstream graph.now flags.now from) found.items) }
    ensures graph { IsGraph graph.now }
    ensures refused { IfErr result (λ r. r ≡ Refusal.Memory) }
{
    let mut walk = Walk::begun(alloc, graph, flags, from)?;
    let mut place = 0;
    while place < walk.found.len() {
        walk.visit(graph, flags, place)?;
        place += 1;
    }
    Ok(walk.found)
}

/// The predecessors of a node whose flags are set, from the least up.
///
/// Refused as `Memory` where a growth was refused.
pub fn flagged_preds(
    alloc: Global,
    graph: &Graph,
    flags: &[bool],
    node: usize,
) -> Result<Vec<usize>, Refusal>
    requires node { node < graph.now.nodes }
    requires flags { length flags.now ≡ graph.now.nodes }
    ensures in_order { IfOk result (λ v. AreAscending v.items) }
    ensures nodes { IfOk result (λ v. (p : ℕ) → Contains v.items p ↔ (HasEdge graph.now p node × IsSet flags.now p)) }
    ensures refused { IfErr result (λ r. r ≡ Refusal.Memory) }
{
    let preds = ascending(alloc, graph.preds(node))?;
    Ok(sift(alloc, &preds, |pred| flags[pred])?)
}

/// Where what is upstream of a node begins: those of it of whose predecessors none has its flag set, from the least up.
///
/// Refused as `Memory` where a growth was refused. Beside clearing a flag of each node it takes the time to sort what is
/// upstream, and time linear in the edges that lead there.
pub fn sources(
    alloc: Global,
    graph: &Graph,
    flags: &[bool],
    from: usize,
) -> Result<Vec<usize>, Refusal>
    requires from { from < graph.now.nodes }
    requires flags { length flags.now ≡ graph.now.nodes }
    ensures in_order { IfOk result (λ v. AreAscending v.items) }
    ensures nodes { IfOk result (λ v. (n : ℕ) → Contains v.items n ↔ IsSource graph.now flags.now from n) }
    ensures refused { IfErr result (λ r. r ≡ Refusal.Memory) }
{
    let found = upstream(alloc, graph, flags, from)?;
    let found = ascending(alloc, &found)?;
    Ok(sift(alloc, &found, |node| !is_fed(graph, flags, node))?)
}
