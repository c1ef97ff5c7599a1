// What a small request writes and what that leads to, tried in the plan itself.
ghost use Rattle.std.specs.Prelude.{◌≡◌, ℕ, IfErr, IfOk};
ghost use Rattle.plan_basics.specs.Minutes.{IsMoment};
ghost use Rattle.plan_basics.specs.Refusals.{NoneRefuses};
ghost use Rattle.plan_basics.specs.declared.Refusal.{Refusal};
ghost use Rattle.plan_checks.specs.derived_figures.specs.Figures.{AreFigures};
ghost use Rattle.plan_checks.specs.start_choice.specs.Choices.{AreLatestStarts};
ghost use Rattle.plan_records.specs.Acceptance.{MayBeDone};
ghost use Rattle.plan_drafts.specs.PlanGraphs.{IsGraphFor};
ghost use Rattle.small_requests.specs.RequestEdits.{IsSmall};
ghost use Rattle.small_requests.specs.Trials.{IsTrialOf};

use super::edits::{Edit, edit_of};
use super::named_steps::SmallStep;
use super::step_context::StepContext;
use super::steps::small_step;
use plan_basics::Refusal;
use plan_checks::{CountedRecords, Figures};
use plan_records::What;
use plan_rows::DerivedRefs;

/// What a small request in whose way nothing stands writes into a plan, whose records these are, with these figures; and what that leads
/// to, tried there. It gives the same contents back, and figures of them, whether or not there was memory. The error is always `Memory`.
pub fn small_trial(
    context: &StepContext<'_>,
    records: CountedRecords,
    figures: Figures,
    what: &What,
) -> (CountedRecords, Figures, Result<(Edit, SmallStep), Refusal>)
    requires graph { IsGraphFor records.contents context.now.graph.now }
    requires latest { AreLatestStarts records.contents context.now.latest.now.starts }
    requires figures { AreFigures records.contents figures }
    requires small { IsSmall what.now }
    requires clear { (at : ℕ) × IsMoment at × NoneRefuses (MayBeDone records.contents at what.now) }
    ensures contents { result.0.contents ≡ records.contents }
    ensures figures { AreFigures records.contents result.1 }
    ensures trial { IfOk result.2 (λ t. IsTrialOf records.contents what.now context.now.at records.looks result.0.looks t.0 t.1) }
    ensures refused { IfErr result.2 (λ r. r ≡ Refusal.Memory) }
{
    let mut records = records;
    let derived = DerivedRefs {
        graph: context.graph,
        latest: context.latest,
        figures: &figures,
    };
    match edit_of(context.alloc, &mut records, derived, what) {
        Ok(edit) => {
            let (records, figures, step) = small_step(context, records, figures, &edit);
            match step {
                Ok(step) => (records, figures, Ok((edit, step))),
                Err(refusal) => (records, figures, Err(refusal)),
            }
        }
        Err(refusal) => (records, figures, Err(refusal)),
    }
}
