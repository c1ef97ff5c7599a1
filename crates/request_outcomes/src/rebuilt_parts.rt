// What is named once a request has changed what the plan holds.
ghost use Rattle.std.specs.Prelude.{◌≡◌, ◌+◌, ◌*◌, ◌≤◌, IfOk, IfErr, length};
ghost use Rattle.std.specs.FinMap.{entries};
ghost use Rattle.plan_basics.specs.declared.Refusal.{Refusal};
ghost use Rattle.request_outcomes.specs.Rebuilds.{ArePartsOf};
ghost use Rattle.small_requests.specs.derived_figures.specs.Afresh.{IsDerivedAfresh};
ghost use Rattle.plan_drafts.specs.PlanGraphs.{IsGraphFor};
ghost use Rattle.plan_model.specs.Ready.{IsChosen, named};

use operation_graph::Graph;
use plan_basics::{Moment, OpKey, Refusal};
use plan_model::Latest;
use small_requests::{CountedRecords, DerivedAfresh, Figures, StepContext, derived_afresh};
use std::alloc::Global;

/// What is named, and what is kept of a plan in which it is marked so, beside what that holds.
#[derive(Drop)]
pub struct RebuiltParts {
    /// The operations that are named, in order.
    pub named: Vec<OpKey>,
    pub graph: Graph,
    pub latest: Latest,
    pub figures: Figures,
}

// The records, with what is named marked so, where this was worked out of them. The error is always `Memory`.
fn rebuilt_by(
    alloc: Global,
    records: CountedRecords,
    graph: Graph,
    derived_afresh: DerivedAfresh,
    at: Moment,
) -> (CountedRecords, Result<RebuiltParts, Refusal>)
    requires graph { IsGraphFor records.contents graph }
    requires derived_afresh { IsDerivedAfresh records.contents derived_afresh }
    ensures chosen { IfOk result.1 (λ s. IsChosen records.contents at s.named.items) }
    ensures contents { IfOk result.1 (λ s. result.0.contents ≡ named s.named.items records.contents) }
    ensures kept { IfOk result.1 (ArePartsOf result.0.contents) }
    ensures most { IfOk result.1 (λ s. result.0.looks ≤ records.looks + length derived_afresh.figures.ready.entries) }
    ensures refused { IfErr result.1 (λ r. r ≡ Refusal.Memory) }
{
    let DerivedAfresh {
        summaries,
        latest,
        figures,
    } = derived_afresh;
    let context = StepContext {
        alloc,
        graph: &graph,
        latest: &latest,
        at,
    };
    let (records, rebuilt_parts) = small_requests::name_afresh(
        &context, records, figures, &summaries,
    );
    match rebuilt_parts {
        Ok(rebuilt_parts) => {
            let rebuilt_parts = RebuiltParts {
                named: rebuilt_parts.named,
                graph,
                latest,
                figures: rebuilt_parts.figures,
            };
            (records, Ok(rebuilt_parts))
        }
        Err(refusal) => (records, Err(refusal)),
    }
}

/// What comes at a moment of these records, which were made anew, with this graph: all that is kept is worked out once, and the
/// operations that are named then are marked so. It takes two looks at each operation at most. The error is always `Memory`.
pub fn rebuild_parts(
    alloc: Global,
    records: CountedRecords,
    graph: Graph,
    at: Moment,
) -> (CountedRecords, Result<RebuiltParts, Refusal>)
    requires { IsGraphFor records.contents graph }
    ensures chosen { IfOk result.1 (λ s. IsChosen records.contents at s.named.items) }
    ensures contents { IfOk result.1 (λ s. result.0.contents ≡ named s.named.items records.contents) }
    ensures kept { IfOk result.1 (ArePartsOf result.0.contents) }
    ensures most { IfOk result.1 (λ s. result.0.looks ≤ records.looks + 2 * length (entries records.contents.operations)) }
    ensures refused { IfErr result.1 (λ r. r ≡ Refusal.Memory) }
{
    let mut records = records;
    match derived_afresh(alloc, &mut records, &graph) {
        Ok(derived_afresh) => rebuilt_by(alloc, records, graph, derived_afresh, at),
        Err(refusal) => (records, Err(refusal)),
    }
}
