// A plan that is taken apart while a request is prepared, and put together again.
ghost use Rattle.std.specs.Prelude.{◌≡◌, ◌⊎◌, ◌≤ℤ◌, pos, None, Some, IfErr, IfOk};
ghost use Rattle.plan_basics.specs.declared.Refusal.{Refusal};
ghost use Rattle.request_outcomes.specs.Rebuilds.{AreRebuildLooks, IsRebuildOf};
ghost use Rattle.request_outcomes.specs.RequestOutcomes.{AreRequestOutcomeLooks, IsRequestOutcomeOf};
ghost use Rattle.plan_core.specs.Prepares.{IsPreparedIn};
ghost use Rattle.plan_records.specs.Answer.{refused};
ghost use Rattle.plan_records.specs.Step.{Step};
ghost use Rattle.plan_records.specs.declared.Request.{Request};
ghost use Rattle.plan_model.specs.Plan.{IsSoundPlan, Plan, plan_held};

use super::prepared::Prepared;
use plan_basics::{Moment, Refusal};
use plan_opening::{CountedRecords, LoadedParts, LoadedPlan, SoundContents};
use plan_records::{Request, What};
use record_permits::{Permit, granted};
use request_outcomes::{
    AcceptedOutcome, DatedRequest, NextPlan, Rebuild, Rebuilt, RebuiltParts, RequestOutcome,
    first_outcome, outcome_of,
};
use std::alloc::Global;

// What was prepared with a plan that was made anew, which is put together: its looks count beside those at the plan before. Or what the
// request that led there is refused for.
fn prepared_rebuild(
    at: Moment,
    rebuild: Rebuild,
    looks: u64,
    permit: &Permit,
) -> Result<Prepared, Refusal>
    requires { (P : Plan) × (request : Request) × IsRebuildOf P request at rebuild }
    ensures prepared { (P : Plan) (request : Request) → IsRebuildOf P request at rebuild → AreRebuildLooks P.contents request.what rebuild looks → IfOk result (IsPreparedIn P request) }
    ensures refused { IfErr result (λ r. (P : Plan) (request : Request) → IsRebuildOf P request at rebuild → (r ≡ Refusal.Memory) ⊎ Step P request (refused r) P) }
{
    let Rebuild { records, rebuilt } = rebuild;
    let (contents, more) = records.into_contents(permit);
    let Rebuilt {
        rebuilt_parts,
        changes,
    } = rebuilt?;
    let RebuiltParts {
        named,
        graph,
        latest,
        figures,
    } = rebuilt_parts;
    let plan = LoadedPlan::of(contents, graph, latest, figures);
    let outcome = AcceptedOutcome {
        next: NextPlan::Whole(plan),
        named,
        changes,
    };
    Ok(Prepared::of(at, outcome, looks.saturating_add(more)))
}

// What was prepared by what a request leads to in a plan at which so many looks were taken, or what it is refused for.
fn prepared_by(
    at: Moment,
    outcome: RequestOutcome,
    looks: u64,
    permit: &Permit,
) -> Result<Prepared, Refusal>
    requires { (P : Plan) × (request : Request) × IsRequestOutcomeOf P request at outcome }
    ensures prepared { (P : Plan) (request : Request) → IsRequestOutcomeOf P request at outcome → AreRequestOutcomeLooks P.contents request.what outcome looks → IfOk result (IsPreparedIn P request) }
    ensures refused { IfErr result (λ r. (P : Plan) (request : Request) → IsRequestOutcomeOf P request at outcome → (r ≡ Refusal.Memory) ⊎ Step P request (refused r) P) }
{
    match outcome {
        RequestOutcome::Small(accepted) => Ok(Prepared::of(at, accepted, looks)),
        RequestOutcome::Whole(rebuild) => prepared_rebuild(at, rebuild, looks, permit),
    }
}

// What a request leads to where no plan is loaded: all looks are at the plan that it makes.
fn prepare_first(
    alloc: Global,
    clock: Moment,
    request: &Request,
    at: Moment,
) -> Result<Prepared, Refusal>
    requires sound { IsSoundPlan (plan_held clock None) }
    requires at { request.now.at ≡ pos at }
    requires onward { pos clock ≤ℤ request.now.at }
    ensures prepared { IfOk result (IsPreparedIn (plan_held clock None) request.now) }
    ensures refused { IfErr result (λ r. (r ≡ Refusal.Memory) ⊎ Step (plan_held clock None) request.now (refused r) (plan_held clock None)) }
{
    let rebuild = first_outcome(alloc, clock, request, at)?;
    prepared_rebuild(at, rebuild, 0, &granted())
}

// The same contents, in which the operation that a report or a command is of is found without a search.
fn seeking(contents: SoundContents, what: &What) -> SoundContents
    ensures { result ≡ contents }
{
    match what.operation() {
        Some(key) => contents.seeking(&key),
        None => contents,
    }
}

// What a request leads to in a plan that is loaded, which comes back as it was. All that works it out looks at the records one by
// one, those of a plan that is made anew too; it has no permit to take them apart, and can't let go of them: so each look counts.
fn prepare_loaded(
    alloc: Global,
    loaded: LoadedPlan,
    clock: Moment,
    request: &Request,
    at: Moment,
) -> (LoadedPlan, Result<Prepared, Refusal>)
    requires at { request.now.at ≡ pos at }
    requires onward { pos clock ≤ℤ request.now.at }
    ensures unchanged { result.0 ≡ loaded }
    ensures prepared { IfOk result.1 (IsPreparedIn (plan_held clock (Some loaded)) request.now) }
    ensures refused { IfErr result.1 (λ r. (r ≡ Refusal.Memory) ⊎ Step (plan_held clock (Some loaded)) request.now (refused r) (plan_held clock (Some loaded))) }
{
    let LoadedParts {
        contents,
        graph,
        latest,
        figures,
    } = loaded.into_parts();
    let permit = granted();
    let records = CountedRecords::of(seeking(contents, &request.what), &permit);
    let asked = DatedRequest { clock, request, at };
    let (records, figures, outcome) = outcome_of(alloc, records, &graph, &latest, figures, &asked);
    let (contents, looks) = records.into_contents(&permit);
    let plan = LoadedPlan::of(contents, graph, latest, figures);
    match outcome {
        Ok(outcome) => (plan, prepared_by(at, outcome, looks, &permit)),
        Err(refusal) => (plan, Err(refusal)),
    }
}

/// What a request that is made at a moment leads to in this plan at its clock, if one is loaded, which comes back as it was; or
/// the least refusal that applies, or that no memory is found.
pub fn prepare_in(
    alloc: Global,
    loaded: Option<LoadedPlan>,
    clock: Moment,
    request: &Request,
    at: Moment,
) -> (Option<LoadedPlan>, Result<Prepared, Refusal>)
    requires sound { IsSoundPlan (plan_held clock loaded) }
    requires at { request.now.at ≡ pos at }
    requires onward { pos clock ≤ℤ request.now.at }
    ensures unchanged { result.0 ≡ loaded }
    ensures prepared { IfOk result.1 (IsPreparedIn (plan_held clock loaded) request.now) }
    ensures refused { IfErr result.1 (λ r. (r ≡ Refusal.Memory) ⊎ Step (plan_held clock loaded) request.now (refused r) (plan_held clock loaded)) }
{
    match loaded {
        Some(loaded) => {
            let (loaded, prepared) = prepare_loaded(alloc, loaded, clock, request, at);
            (Some(loaded), prepared)
        }
        None => (None, prepare_first(alloc, clock, request, at)),
    }
}
