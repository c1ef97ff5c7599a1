// The graph of what a request makes of a plan, by that of the plan.
ghost use Rattle.std.specs.Prelude.{◌≡◌, ℕ, true, IfErr, IfOk};
ghost use Rattle.std.specs.FinMap.{contains_key};
ghost use Rattle.plan_basics.specs.Refusals.{NoneRefuses};
ghost use Rattle.plan_basics.specs.declared.Refusal.{Refusal};
ghost use Rattle.request_outcomes.specs.Requested.{AreMadeBy};
ghost use Rattle.plan_records.specs.Acceptance.{MayBeDone};
ghost use Rattle.plan_records.specs.Changes.{with_pair};
ghost use Rattle.plan_drafts.specs.PlanGraphs.{IsGraphFor};

use operation_graph::Graph;
use plan_basics::{OpKey, Refusal};
use plan_records::What;
use small_requests::UncountedContents;
use std::alloc::Global;

// The graph of a plan, with the edge of one more pair. The error is always `Memory`.
fn graph_with(
    uncounted: &UncountedContents<'_>,
    graph: &Graph,
    predecessor: &OpKey,
    successor: &OpKey,
) -> Result<Graph, Refusal>
    requires graph { IsGraphFor uncounted.now.contents.now graph.now }
    requires first { contains_key uncounted.now.contents.now.operations predecessor.now ≡ true }
    requires second { contains_key uncounted.now.contents.now.operations successor.now ≡ true }
    ensures graph { IfOk result (IsGraphFor (with_pair uncounted.now.contents.now predecessor.now successor.now)) }
    ensures refused { IfErr result (λ r. r ≡ Refusal.Memory) }
{
    let before = uncounted.known_operation_place(predecessor);
    let after = uncounted.known_operation_place(successor);
    let mut copy = graph.try_clone()?;
    match copy.add_edge(before, after) {
        Ok(()) => Ok(copy),
        Err(_) => Err(Refusal::Memory),
    }
}

/// The graph of what a request that isn't small, and in whose way nothing stands, makes of a plan, of which this is the graph: for a
/// deletion a copy of it, for a dependency that copy with one edge more. The error is always `Memory`.
pub fn graph_after(
    alloc: Global,
    uncounted: &UncountedContents<'_>,
    graph: &Graph,
    what: &What,
    new: &UncountedContents<'_>,
) -> Result<Graph, Refusal>
    requires graph { IsGraphFor uncounted.now.contents.now graph.now }
    requires clear { (at : ℕ) × NoneRefuses (MayBeDone uncounted.now.contents.now at what.now) }
    requires made { AreMadeBy uncounted.now.contents.now what.now new.now.contents.now }
    ensures graph { IfOk result (IsGraphFor new.now.contents.now) }
    ensures refused { IfErr result (λ r. r ≡ Refusal.Memory) }
{
    match what {
        What::DeleteOccurrence(_) => graph.try_clone(),
        What::AddDependency(predecessor, successor) => {
            graph_with(uncounted, graph, predecessor, successor)
        }
        _ => Ok(new.graph(alloc)?),
    }
}
