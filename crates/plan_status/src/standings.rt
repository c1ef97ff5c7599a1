// What is known of operations' predecessors.
ghost use Rattle.std.specs.Prelude.{◌≡◌, ◌+◌, ◌<◌, ◌≤◌, ◌&&◌, ◌||◌, true, cond, List, Some, IfOk, IfErr, Decides};
ghost use Rattle.std.specs.FinMap.{get};
ghost use Rattle.plan_basics.specs.declared.Refusal.{Refusal};
ghost use Rattle.plan_basics.specs.declared.keys.OpKey.{OpKey};
ghost use Rattle.plan_model.specs.Contents.{Contents, HasAttribute};
ghost use Rattle.plan_model.specs.Status.{IsSatisfied};
ghost use Rattle.plan_status.specs.Summaries.{HasSummary, IsSummarizedBy};
ghost use Rattle.plan_status.specs.Incoming.{IsNextStanding};
ghost use Rattle.plan_status.specs.Standings.{IsStanding, AreStandings};

use super::summaries::OperationSummary;
use super::valid::ValidContents;
use plan_basics::{Attr, Refusal};
use plan_laws::Graph;
use plan_model::OperationRecord;
use status_rules::Preds;
use std::alloc::Global;

/// What is known of an operation's live predecessors.
#[derive(Clone, Copy)]
pub struct Standing {
    pub preds: Preds,
    /// How many of its live predecessors aren't satisfied.
    pub waiting: u32,
}

// The standing of an operation that comes after no other.
const FIRST: Standing = Standing {
    preds: Preds {
        live: false,
        satisfied: true,
        nonreporting: false,
    },
    waiting: 0,
};

/// How the workstation of an operation of the plan reports.
pub fn attribute_of(contents: &ValidContents, operation: &OperationRecord) -> Attr
    requires { (o : OpKey) × (get contents.now.operations o ≡ Some operation.now) }
    ensures { HasAttribute contents.now operation.now.workstation result }
{
    contents
        .workstation(&operation.workstation)
        .unwrap()
        .attribute()
}

/// How the workstation of an operation of the plan reports. Where that operation stands at this place, no search is made.
pub fn attribute_near(contents: &ValidContents, operation: &OperationRecord, place: usize) -> Attr
    requires { (o : OpKey) × (get contents.now.operations o ≡ Some operation.now) }
    ensures { HasAttribute contents.now operation.now.workstation result }
{
    contents
        .workstation_near(&operation.workstation, place)
        .unwrap()
        .attribute()
}

// Whether an operation is satisfied, by its standing: its status is complete or deleted.
fn is_satisfied(summary: &OperationSummary, standing: &Standing) -> bool
    ensures { (P : Contents) (o : OpKey) → HasSummary P o summary.now → IsStanding P o standing.now → Decides result (IsSatisfied P o) }
{
    summary.status(standing).is_satisfied()
}

// The standing with one more live predecessor.
fn with_one_more(standing: &Standing, satisfied: bool, nonreporting: bool) -> Standing
    requires { standing.now.waiting < 4294967295 }
    ensures live { result.preds.live ≡ true }
    ensures satisfied { result.preds.satisfied ≡ (standing.now.preds.satisfied && satisfied) }
    ensures nonreporting { result.preds.nonreporting ≡ (standing.now.preds.nonreporting || nonreporting) }
    ensures waiting { result.waiting ≡ cond satisfied standing.now.waiting (standing.now.waiting + 1) }
{
    let preds = standing.preds;
    Standing {
        preds: Preds {
            live: true,
            satisfied: preds.satisfied && satisfied,
            nonreporting: preds.nonreporting || nonreporting,
        },
        waiting: if satisfied {
            standing.waiting
        } else {
            standing.waiting + 1
        },
    }
}

// The standing of an operation, once it comes after this predecessor too.
fn standing_after(standing: &Standing, predecessor: &OperationSummary, its: &Standing) -> Standing
    requires { standing.now.waiting < 4294967295 }
    ensures standing { (P : Contents) (pairs : List (OpKey × OpKey)) (pair : OpKey × OpKey) → HasSummary P pair.0 predecessor.now → IsNextStanding P pairs pair its.now standing.now result }
    ensures waiting { result.waiting ≤ standing.now.waiting + 1 }
{
    if !predecessor.mark.is_live() {
        return *standing;
    }
    let satisfied = is_satisfied(predecessor, its);
    let nonreporting = matches!(predecessor.attribute, Attr::Nonreporting);
    with_one_more(standing, satisfied, nonreporting)
}

/// The standing of each operation, in key order, by their summaries and the graph of their plan. The error is always `Memory`.
pub fn standings_of(
    alloc: Global,
    summaries: &[OperationSummary],
    graph: &Graph,
) -> Result<Vec<Standing>, Refusal>
    requires { (P : Contents) × IsSummarizedBy P graph.now summaries.now }
    ensures standings { IfOk result (λ found. (P : Contents) → IsSummarizedBy P graph.now summaries.now → AreStandings P found.items) }
    ensures refused { IfErr result (λ r. r ≡ Refusal.Memory) }
{
    let mut standings = vec![in alloc; FIRST; summaries.len()]?;
    for (before, after) in &graph.edges_in_turn()? {
        standings[*after] = standing_after(
            &standings[*after],
            &summaries[*before],
            &standings[*before],
        );
    }
    Ok(standings)
}
