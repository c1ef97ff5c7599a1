// What a request leads to in the records of a loaded plan.
ghost use Rattle.std.specs.Prelude.{◌≡◌, ◌⊎◌, ◌+◌, ◌≤◌, ◌≤ℤ◌, ℕ, pos, Some, IfErr, IfOk, OnOk};
ghost use Rattle.plan_basics.specs.Minutes.{IsMoment};
ghost use Rattle.plan_basics.specs.Refusals.{IsLeastRefusal, NoneRefuses};
ghost use Rattle.plan_basics.specs.declared.Refusal.{Refusal};
ghost use Rattle.request_outcomes.specs.DatedRequests.{IsAcceptable, plan_asked};
ghost use Rattle.request_outcomes.specs.RequestOutcomes.{AreRequestOutcomeLooks, IsRequestOutcomeFor};
ghost use Rattle.request_outcomes.specs.Requested.{MayBeMadeAt};
ghost use Rattle.plan_records.specs.Answer.{refused};
ghost use Rattle.plan_records.specs.Step.{Step};
ghost use Rattle.small_requests.specs.RequestEdits.{IsSmall};
ghost use Rattle.small_requests.specs.plan_checks.specs.Commands.{Extends};
ghost use Rattle.small_requests.specs.start_choice.specs.Choices.{AreLatestStarts};
ghost use Rattle.plan_drafts.specs.PlanGraphs.{IsGraphFor};
ghost use Rattle.plan_model.specs.Plan.{plan_held};
ghost use Rattle.small_requests.specs.derived_figures.specs.Figures.{AreFigures};
ghost use Rattle.small_requests.specs.derived_figures.specs.DerivedRefs.{AreDerivedOf};

use super::dated_requests::DatedRequest;
use super::extending::extended_outcome;
use super::request_outcome::RequestOutcome;
use super::telling::told;
use super::whole::whole_outcome;
use operation_graph::Graph;
use plan_basics::{Moment, Refusal};
use plan_model::Latest;
use plan_records::What;
use small_requests::{
    CountedRecords, DerivedRefs, Figures, StepContext, check_load, check_request, is_small,
    small_trial,
};
use std::alloc::Global;

// What stands in the way of a request that extends nothing and is made at a moment where a plan is loaded, but for that moment: by one
// look at most.
fn check_in(
    alloc: Global,
    records: &mut CountedRecords,
    derived: DerivedRefs<'_>,
    what: &What,
    at: Moment,
) -> Result<(), Refusal>
    requires derived { AreDerivedOf records.old.contents derived }
    requires stays { ¬ Extends what.now }
    ensures ok { (clock : ℕ) → OnOk result (NoneRefuses (MayBeMadeAt (plan_held clock (Some records.old.contents)) at what.now)) }
    ensures refused { (clock : ℕ) → IfErr result (λ r. (r ≡ Refusal.Memory) ⊎ IsLeastRefusal (MayBeMadeAt (plan_held clock (Some records.old.contents)) at what.now) r) }
    ensures contents { records.new.contents ≡ records.old.contents }
    ensures most { records.new.looks ≤ records.old.looks + 1 }
{
    if let What::Load(draft) = what {
        check_load(true, draft)
    } else {
        check_request(alloc, records, derived, what, at)
    }
}

// What a small request in whose way nothing stands leads to in a plan, whose records these are: it is tried there, and told by that.
// All comes back as it was. The error is always `Memory`.
fn small_outcome(
    alloc: Global,
    records: CountedRecords,
    graph: &Graph,
    latest: &Latest,
    figures: Figures,
    asked: &DatedRequest<'_>,
) -> (CountedRecords, Figures, Result<RequestOutcome, Refusal>)
    requires graph { IsGraphFor records.contents graph.now }
    requires latest { AreLatestStarts records.contents latest.now.starts }
    requires figures { AreFigures records.contents figures }
    requires acceptable { IsAcceptable records.contents asked.now }
    requires small { IsSmall asked.now.request.now.what }
    requires few { records.looks ≤ 1 }
    ensures contents { result.0.contents ≡ records.contents }
    ensures figures { AreFigures records.contents result.1 }
    ensures outcome { IfOk result.2 (IsRequestOutcomeFor records.contents asked.now) }
    ensures looked { IfOk result.2 (λ l. AreRequestOutcomeLooks records.contents asked.now.request.now.what l result.0.looks) }
    ensures refused { IfErr result.2 (λ r. r ≡ Refusal.Memory) }
{
    let context = StepContext {
        alloc,
        graph,
        latest,
        at: asked.at,
    };
    let (mut records, figures, trial) = small_trial(
        &context,
        records,
        figures,
        &asked.request.what,
    );
    match trial {
        Ok((edit, step)) => {
            let derived = DerivedRefs {
                graph,
                latest,
                figures: &figures,
            };
            match told(alloc, &mut records, derived, asked, edit, step) {
                Ok(outcome) => (records, figures, Ok(RequestOutcome::Small(outcome))),
                Err(refusal) => (records, figures, Err(refusal)),
            }
        }
        Err(refusal) => (records, figures, Err(refusal)),
    }
}

// What a request that extends nothing and in whose way nothing stands leads to in a plan, whose records these are: tried there where it
// is small, or else worked out over a copy. All comes back as it was. The error is always `Memory`.
fn accepted_outcome(
    alloc: Global,
    records: CountedRecords,
    graph: &Graph,
    latest: &Latest,
    figures: Figures,
    asked: &DatedRequest<'_>,
) -> (CountedRecords, Figures, Result<RequestOutcome, Refusal>)
    requires graph { IsGraphFor records.contents graph.now }
    requires latest { AreLatestStarts records.contents latest.now.starts }
    requires figures { AreFigures records.contents figures }
    requires acceptable { IsAcceptable records.contents asked.now }
    requires stays { ¬ Extends asked.now.request.now.what }
    requires few { records.looks ≤ 1 }
    ensures contents { result.0.contents ≡ records.contents }
    ensures figures { AreFigures records.contents result.1 }
    ensures outcome { IfOk result.2 (IsRequestOutcomeFor records.contents asked.now) }
    ensures looked { IfOk result.2 (λ l. AreRequestOutcomeLooks records.contents asked.now.request.now.what l result.0.looks) }
    ensures refused { IfErr result.2 (λ r. r ≡ Refusal.Memory) }
{
    if is_small(&asked.request.what) {
        return small_outcome(alloc, records, graph, latest, figures, asked);
    }
    let mut records = records;
    let derived = DerivedRefs {
        graph,
        latest,
        figures: &figures,
    };
    match whole_outcome(alloc, &mut records, derived, asked) {
        Ok(rebuild) => (records, figures, Ok(RequestOutcome::Whole(rebuild))),
        Err(refusal) => (records, figures, Err(refusal)),
    }
}

// What a request that extends nothing and is made at a moment leads to in a plan at its clock, none of whose records was looked at; or the
// least refusal that applies, or that no memory is found. The records and what is kept come back as they were.
fn checked_outcome(
    alloc: Global,
    records: CountedRecords,
    graph: &Graph,
    latest: &Latest,
    figures: Figures,
    asked: &DatedRequest<'_>,
) -> (CountedRecords, Figures, Result<RequestOutcome, Refusal>)
    requires graph { IsGraphFor records.contents graph.now }
    requires latest { AreLatestStarts records.contents latest.now.starts }
    requires figures { AreFigures records.contents figures }
    requires clock { IsMoment asked.now.clock }
    requires moment { IsMoment asked.now.at }
    requires at { asked.now.request.now.at ≡ pos asked.now.at }
    requires onward { pos asked.now.clock ≤ℤ asked.now.request.now.at }
    requires stays { ¬ Extends asked.now.request.now.what }
    requires none { records.looks ≡ 0 }
    ensures contents { result.0.contents ≡ records.contents }
    ensures figures { AreFigures records.contents result.1 }
    ensures outcome { IfOk result.2 (IsRequestOutcomeFor records.contents asked.now) }
    ensures looked { IfOk result.2 (λ l. AreRequestOutcomeLooks records.contents asked.now.request.now.what l result.0.looks) }
    ensures refused { IfErr result.2 (λ r. (r ≡ Refusal.Memory) ⊎ Step (plan_asked records.contents asked.now) asked.now.request.now (refused r) (plan_asked records.contents asked.now)) }
{
    let mut records = records;
    let derived = DerivedRefs {
        graph,
        latest,
        figures: &figures,
    };
    match check_in(alloc, &mut records, derived, &asked.request.what, asked.at) {
        Ok(()) => accepted_outcome(alloc, records, graph, latest, figures, asked),
        Err(refusal) => (records, figures, Err(refusal)),
    }
}

/// What a request that is made at a moment leads to in a plan at its clock, none of whose records was looked at; or the least refusal
/// that applies, or that no memory is found. The records and what is kept come back as they were. A request by which only marks and
/// flags change, which special resources are available, or when workstations are open, is tried in these records; any other works all
/// out afresh over a copy, of which what is over has left for an extension.
pub fn outcome_of(
    alloc: Global,
    records: CountedRecords,
    graph: &Graph,
    latest: &Latest,
    figures: Figures,
    asked: &DatedRequest<'_>,
) -> (CountedRecords, Figures, Result<RequestOutcome, Refusal>)
    requires graph { IsGraphFor records.contents graph.now }
    requires latest { AreLatestStarts records.contents latest.now.starts }
    requires figures { AreFigures records.contents figures }
    requires clock { IsMoment asked.now.clock }
    requires moment { IsMoment asked.now.at }
    requires at { asked.now.request.now.at ≡ pos asked.now.at }
    requires onward { pos asked.now.clock ≤ℤ asked.now.request.now.at }
    requires none { records.looks ≡ 0 }
    ensures contents { result.0.contents ≡ records.contents }
    ensures figures { AreFigures records.contents result.1 }
    ensures outcome { IfOk result.2 (IsRequestOutcomeFor records.contents asked.now) }
    ensures looked { IfOk result.2 (λ l. AreRequestOutcomeLooks records.contents asked.now.request.now.what l result.0.looks) }
    ensures refused { IfErr result.2 (λ r. (r ≡ Refusal.Memory) ⊎ Step (plan_asked records.contents asked.now) asked.now.request.now (refused r) (plan_asked records.contents asked.now)) }
{
    if let What::Extend(extension) = &asked.request.what {
        let mut records = records;
        let derived = DerivedRefs {
            graph,
            latest,
            figures: &figures,
        };
        match extended_outcome(alloc, &mut records, derived, asked, extension) {
            Ok(rebuild) => (records, figures, Ok(RequestOutcome::Whole(rebuild))),
            Err(refusal) => (records, figures, Err(refusal)),
        }
    } else {
        checked_outcome(alloc, records, graph, latest, figures, asked)
    }
}
