// What stands in the way of a dependency that is to be added.
ghost use Rattle.std.specs.Prelude.{◌≡◌, ◌≢◌, ◌<◌, ◌↔◌, ◌⊎◌, true, false, IsTrue, IfOk, IfErr, OnOk};
ghost use Rattle.operation_graph.specs.Graphs.{Closes, IsGraph, MayTakeEdge};
ghost use Rattle.plan_basics.specs.declared.Refusal.{Refusal};
ghost use Rattle.plan_basics.specs.Refusals.{IsLeastRefusal, NoneRefuses};
ghost use Rattle.plan_records.specs.Acceptance.{MayBePaired};
ghost use Rattle.status_rules.specs.Classes.{is_waiting_or_ready};
ghost use Rattle.status_rules.specs.declared.Status.{Status};
ghost use Rattle.plan_checks.specs.Dependencies.{IsFaultAs};

use derived_figures::Outline;
use operation_graph::Graph;
use plan_basics::limits::MOST_PAIRS;
use plan_basics::{OpKey, Refusal};
use status_rules::Status;
use std::alloc::Global;

// What a dependency asks of the statuses of its two operations: the first isn't deleted, the second waits or is ready.
fn check_ends(predecessor: Status, successor: Status) -> Result<(), Refusal>
    ensures ok { OnOk result ((predecessor ≢ Status.Deleted) × (is_waiting_or_ready successor ≡ true)) }
    ensures refused { IfErr result (λ r. (r ≡ Refusal.WrongStatus) × ((predecessor ≡ Status.Deleted) ⊎ (is_waiting_or_ready successor ≡ false))) }
{
    if predecessor == Status::Deleted || !successor.is_waiting_or_ready() {
        Err(Refusal::WrongStatus)
    } else {
        Ok(())
    }
}

// Whether an edge between two nodes of a graph, which has so many, would close a path: whether the second is the first, or reaches
// it.
fn closes(
    alloc: Global,
    graph: &Graph,
    nodes: usize,
    before: usize,
    after: usize,
) -> Result<bool, Refusal>
    requires graph { IsGraph graph.now }
    requires nodes { nodes ≡ graph.now.nodes }
    requires after { after < graph.now.nodes }
    ensures closes { IfOk result (λ closes. IsTrue closes ↔ Closes graph.now before after) }
    ensures refused { IfErr result (λ r. r ≡ Refusal.Memory) }
{
    let all = vec![in alloc; true; nodes]?;
    Ok(graph.reach(after, &all)?.contains(&before))
}

// What the graph, which has so many nodes, says of an edge between two of them.
fn check_edge(
    alloc: Global,
    graph: &Graph,
    nodes: usize,
    before: usize,
    after: usize,
) -> Result<(), Refusal>
    requires nodes { nodes ≡ graph.now.nodes }
    requires before { before < graph.now.nodes }
    requires after { after < graph.now.nodes }
    ensures ok { OnOk result (MayTakeEdge graph.now before after) }
    ensures refused { IfErr result (IsFaultAs graph.now before after) }
{
    if graph.succs(before).contains(&after) {
        return Err(Refusal::Duplicate);
    }
    if closes(alloc, graph, nodes, before, after)? {
        Err(Refusal::Cycle)
    } else {
        Ok(())
    }
}

/// A dependency may be added between two operations of the plan, of which the first isn't deleted and the second waits
/// or is ready, where it isn't there, closes no path, and there is room.
pub fn check_paired(
    alloc: Global,
    outline: &Outline<'_>,
    predecessor: &OpKey,
    successor: &OpKey,
) -> Result<(), Refusal>
    ensures ok { OnOk result (NoneRefuses (MayBePaired outline.now predecessor.now successor.now)) }
    ensures refused { IfErr result (λ r. (r ≡ Refusal.Memory) ⊎ IsLeastRefusal (MayBePaired outline.now predecessor.now successor.now) r) }
{
    let pairs = outline.uncounted().pairs();
    let graph = outline.graph();
    let before = outline
        .place_of(predecessor)
        .ok_or(Refusal::UnknownOperation)?;
    let after = outline
        .place_of(successor)
        .ok_or(Refusal::UnknownOperation)?;
    check_ends(outline.status_at(before), outline.status_at(after))?;
    check_edge(alloc, graph, outline.statuses().len(), before, after)?;
    if pairs.len() < MOST_PAIRS {
        Ok(())
    } else {
        Err(Refusal::Limit)
    }
}
