// The graph of what a plan holds.
ghost use Rattle.std.specs.Prelude.{IfOk};
ghost use Rattle.plan_laws.specs.plan_drafts.specs.PlanGraphs.{IsGraphFor};

use super::valid::ValidContents;
use plan_laws::{Graph, graph_of, keys};
use std::alloc::{AllocError, Global};

/// The graph of the operations and pairs of a plan: a node is the index of an operation.
pub fn graph_for(alloc: Global, contents: &ValidContents) -> Result<Graph, AllocError>
    ensures { IfOk result (IsGraphFor contents.now) }
{
    let keys = keys(alloc, contents.operations())?;
    let graph = graph_of(alloc, &keys, contents.pairs())?;
    Ok(graph.unwrap())
}
