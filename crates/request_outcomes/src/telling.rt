// What a small request leads to, told by what was noted as it was tried in the plan itself.
ghost use Rattle.std.specs.Prelude.{◌≡◌, ◌≤◌, ℕ, IfErr, IfOk};
ghost use Rattle.plan_basics.specs.declared.Refusal.{Refusal};
ghost use Rattle.request_outcomes.specs.DatedRequests.{IsAcceptable, IsAcceptedOutcomeFor};
ghost use Rattle.request_outcomes.specs.AcceptedOutcomes.{AreLooksTo};
ghost use Rattle.small_requests.specs.RequestEdits.{IsSmall};
ghost use Rattle.small_requests.specs.Trials.{IsTrialOf};
ghost use Rattle.small_requests.specs.derived_figures.specs.DerivedRefs.{AreDerivedOf};

use super::accepted::{AcceptedOutcome, NextPlan, Writing};
use super::dated_requests::DatedRequest;
use plan_basics::Refusal;
use small_requests::{
    CountedRecords, DerivedRefs, Edit, SmallStep, columns_of, noted_changes, small_steps_look_few,
};
use std::alloc::Global;

/// What a small request in whose way nothing stands leads to by its trial, before which one record at most was looked at: what it writes,
/// told by a look at each row that was noted. The error is always `Memory`.
pub fn told(
    alloc: Global,
    records: &mut CountedRecords,
    derived: DerivedRefs<'_>,
    asked: &DatedRequest<'_>,
    edit: Edit,
    step: SmallStep,
) -> Result<AcceptedOutcome, Refusal>
    requires derived { AreDerivedOf records.old.contents derived }
    requires acceptable { IsAcceptable records.old.contents asked.now }
    requires small { IsSmall asked.now.request.now.what }
    requires trial { (first : ℕ) × first ≤ 1 × IsTrialOf records.old.contents asked.now.request.now.what asked.now.at first records.old.looks edit step }
    ensures contents { records.new.contents ≡ records.old.contents }
    ensures outcome { IfOk result (IsAcceptedOutcomeFor records.old.contents asked.now) }
    ensures looked { IfOk result (λ x. AreLooksTo records.old.contents asked.now.request.now.what x records.new.looks) }
    ensures refused { IfErr result (λ r. r ≡ Refusal.Memory) }
{
    small_steps_look_few();
    let columns = columns_of(derived);
    let DatedRequest { clock, at, .. } = *asked;
    let changes = noted_changes(alloc, records, columns, clock, at, &step.notes)?;
    let Edit { keys, revision, .. } = edit;
    let SmallStep {
        named,
        figure_change,
        ..
    } = step;
    let writing = Writing {
        keys,
        revision,
        figure_change,
    };
    Ok(AcceptedOutcome {
        next: NextPlan::Small(writing),
        named,
        changes,
    })
}
