// What an empty plan answers to a load, for whom nothing of the plan is kept: no row of the tables is worked out, and nothing
// is marked.

ghost use Rattle.std.specs.Prelude.{◌≡◌, ◌⊎◌, pos, IfErr, IfOk, OnOk};
ghost use Rattle.plan_basics.specs.Refusals.{NoneRefuses};
ghost use Rattle.plan_basics.specs.declared.Refusal.{Refusal};
ghost use Rattle.plan_model.specs.Plan.{Plan, no_plan};
ghost use Rattle.plan_model.specs.Ready.{IsChosen};
ghost use Rattle.plan_records.specs.Acceptance.{MayBeAccepted};
ghost use Rattle.plan_records.specs.Answer.{accepted, answer_of, refused};
ghost use Rattle.plan_records.specs.Step.{Step};
ghost use Rattle.plan_records.specs.plan_drafts.specs.Drafts.{IsDraft};
ghost use Rattle.plan_records.specs.plan_drafts.specs.PlanGraphs.{IsGraphFor};
ghost use Rattle.plan_opening.specs.derived_figures.specs.Afresh.{IsDerivedAfresh};
ghost use Rattle.plan_core.specs.Trials.{IsAnswerAlone, load_at};

use plan_basics::{Moment, OpKey, Refusal};
use plan_opening::{
    CountedRecords, DerivedAfresh, DraftParts, SoundContents, chosen_with, derived_afresh,
};
use plan_records::{PlanDraft, Reply};
use record_permits::granted;
use request_outcomes::{Graph, check_load};
use std::alloc::Global;

// The moment of a load into an empty plan that may be accepted; else the least refusal that applies.
fn check(at: i64, draft: &Option<PlanDraft>) -> Result<Moment, Refusal>
    ensures at { IfOk result (λ m. at ≡ pos m) }
    ensures ok { OnOk result (NoneRefuses (MayBeAccepted no_plan (load_at at draft.now))) }
    ensures refused { IfErr result (λ r. Step no_plan (load_at at draft.now) (refused r) no_plan) }
{
    if at < 0 {
        return Err(Refusal::Past);
    }
    let moment = Moment::new(at).ok_or(Refusal::MomentRange)?;
    check_load(false, draft)?;
    Ok(moment)
}

// What is named at a moment in the plan of these records, where this was worked out of it; nothing is marked. The error is always `Memory`.
fn named_by(
    alloc: Global,
    records: CountedRecords,
    derived_afresh: DerivedAfresh,
    at: Moment,
) -> (CountedRecords, Result<Vec<OpKey>, Refusal>)
    requires { IsDerivedAfresh records.contents derived_afresh }
    ensures chosen { IfOk result.1 (λ keys. IsChosen records.contents at keys.items) }
    ensures refused { IfErr result.1 (λ r. r ≡ Refusal.Memory) }
{
    let figures = derived_afresh.figures;
    let (given, holdings) = (figures.given, figures.holdings);
    let (records, choice) = chosen_with(alloc, records, &figures.ready, at, given, holdings);
    match choice {
        Ok(choice) => (records, Ok(choice.named)),
        Err(refusal) => (records, Err(refusal)),
    }
}

// What is named at a moment in the plan of these records, with this graph. The error is always `Memory`.
fn named_in(
    alloc: Global,
    records: CountedRecords,
    graph: &Graph,
    at: Moment,
) -> (CountedRecords, Result<Vec<OpKey>, Refusal>)
    requires { IsGraphFor records.contents graph.now }
    ensures chosen { IfOk result.1 (λ keys. IsChosen records.contents at keys.items) }
    ensures refused { IfErr result.1 (λ r. r ≡ Refusal.Memory) }
{
    let mut records = records;
    match derived_afresh(alloc, &mut records, graph) {
        Ok(derived_afresh) => named_by(alloc, records, derived_afresh, at),
        Err(refusal) => (records, Err(refusal)),
    }
}

// What is named at a moment in these contents, with this graph; no look is counted. The error is always `Memory`.
fn named_at(
    alloc: Global,
    contents: SoundContents,
    graph: &Graph,
    at: Moment,
) -> Result<Vec<OpKey>, Refusal>
    requires { IsGraphFor contents graph.now }
    ensures chosen { IfOk result (λ keys. IsChosen contents at keys.items) }
    ensures refused { IfErr result (λ r. r ≡ Refusal.Memory) }
{
    let permit = granted();
    let records = CountedRecords::of(contents, &permit);
    let (records, named) = named_in(alloc, records, graph, at);
    let _ = records.into_contents(&permit);
    named
}

// What a draft holds, which is sound, and its graph.
fn parts_of(draft: PlanDraft) -> (SoundContents, Graph)
    ensures contents { result.0 ≡ draft }
    ensures graph { IsGraphFor draft result.1 }
    ensures draft { IsDraft draft }
{
    let DraftParts { contents, graph } = draft.into_parts();
    (SoundContents::of(contents), graph)
}

// The operations that an empty plan names where a draft is loaded into it at a minute; or why it isn't.
fn named_alone(alloc: Global, at: i64, draft: Option<PlanDraft>) -> Result<Vec<OpKey>, Refusal>
    ensures named { IfOk result (λ keys. (P : Plan) × Step no_plan (load_at at draft) (accepted keys.items) P) }
    ensures refused { IfErr result (λ r. (r ≡ Refusal.Memory) ⊎ Step no_plan (load_at at draft) (refused r) no_plan) }
{
    let moment = check(at, &draft)?;
    let (contents, graph) = parts_of(draft.unwrap());
    named_at(alloc, contents, &graph, moment)
}

/// What an empty plan answers to the load of a draft at a minute, `None` for a text that denotes none: as it does by
/// `Plan::prepare` and `Plan::apply`, and as an empty desk does by `Desk::call`, but no plan is left.
pub fn answer_alone(alloc: Global, at: i64, draft: Option<PlanDraft>) -> Reply
    ensures { IsAnswerAlone at draft (answer_of result) }
{
    match named_alone(alloc, at, draft) {
        Ok(named) => Reply::Accepted { named },
        Err(refusal) => Reply::Refused(refusal),
    }
}
