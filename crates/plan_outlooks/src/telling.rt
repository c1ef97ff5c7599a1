// All that a forecast tells.
ghost use Rattle.std.specs.Prelude.{◌≡◌, ◌⊎◌, ℕ, is_some, length, List, Option, IfOk, IfErr};
ghost use Rattle.std.specs.FinMap.{entries};
ghost use Rattle.plan_basics.specs.declared.Refusal.{Refusal};
ghost use Rattle.plan_basics.specs.declared.keys.OpKey.{OpKey};
ghost use Rattle.plan_model.specs.Plan.{Plan as PlanValue};
ghost use Rattle.forecasting.specs.Times.{AreTimesOf};
ghost use Rattle.plan_outlooks.specs.Lacks.{AreLacks};
ghost use Rattle.plan_forecast.specs.Ahead.{Ahead, IsForecast, tick};
ghost use Rattle.plan_records.specs.Answer.{refused};
ghost use Rattle.plan_records.specs.Step.{Step};
ghost use Rattle.forecasting.specs.InMemory.{IsInMemory};
ghost use Rattle.forecasting.specs.Known.{since_in};
ghost use Rattle.plan_outlooks.specs.Forecasts.{Forecast, IsForecastOf, limit_of};
ghost use Rattle.plan_outlooks.specs.Lent.{IsLent};
ghost use Rattle.plan_outlooks.specs.Outlooks.{AreOutlooks, IsOutlook};

use super::lacks::{lacks_of, turns_of};
use super::longest::{named_first, over_first};
use super::occurrences::occurrence_outlooks;
use super::operations::operation_outlooks;
use super::overruns::taken_of;
use super::paths::late_paths;
use super::refs::{ForecastRefs, moment_or};
use super::rows::Outlooks;
use super::standstills::standstills;
use forecasting::{Foretold, KnownStarts, forecast};
use plan_basics::{Moment, Refusal};
use plan_reasons::{LoadedPlan, Plan, Reason};
use std::alloc::Global;

// The rows of a forecast. The error is always `Memory`.
fn rows_of(alloc: Global, refs: &ForecastRefs<'_>, is_cut: bool) -> Result<Outlooks, Refusal>
    requires { (F : Forecast) × IsLent F refs.now }
    ensures rows { IfOk result (λ x. (F : Forecast) → IsLent F refs.now → is_cut ≡ is_some F.until → AreOutlooks F x) }
    ensures memory { IfErr result (λ r. r ≡ Refusal.Memory) }
{
    let occurrences = occurrence_outlooks(alloc, refs)?;
    let operations = operation_outlooks(alloc, refs)?;
    let paths = late_paths(alloc, refs, &occurrences)?;
    let never = standstills(alloc, refs)?;
    let named = named_first(alloc, &operations)?;
    let over = over_first(alloc, &operations)?;
    Ok(Outlooks {
        from: refs.from,
        to: refs.to,
        is_cut,
        occurrences,
        operations,
        named,
        over,
        paths,
        standstills: never,
    })
}

// What the operations of a plan lack first as the minute begins at which each begins in its forecast. The error is always `Memory`.
fn lacks_in(
    plan: &Plan,
    loaded: &LoadedPlan,
    foretold: &Foretold,
    from: Moment,
) -> Result<Vec<Option<Reason>>, Refusal>
    requires loaded { loaded.now ≡ plan.now.plan.contents }
    requires foretold { (last : PlanValue) × (t : Ahead) × (known : OpKey → Option ℕ) × (until : Option ℕ) × IsForecast plan.now.plan known from (limit_of until) foretold.now.requests.items t × IsInMemory t last foretold.now.since.items foretold.now.done.items }
    ensures size { IfOk result (λ lacks. length lacks.items ≡ length (entries plan.now.plan.contents.operations)) }
    ensures lacks { IfOk result (λ lacks. (F : Forecast) → IsForecastOf F → F.plan ≡ plan.now.plan → F.from ≡ from → F.requests ≡ foretold.now.requests.items → AreTimesOf F.last.since (entries F.plan.contents.operations) foretold.now.since.items → AreTimesOf F.last.done (entries F.plan.contents.operations) foretold.now.done.items → AreLacks F lacks.items) }
    ensures memory { IfErr result (λ r. r ≡ Refusal.Memory) }
{
    let alloc = plan.alloc();
    let turns = turns_of(alloc, loaded, &foretold.since, &foretold.done, from)?;
    let count = loaded.contents().operations().len();
    lacks_of(plan, &foretold.requests, &turns, count)
}

// What is read off a forecast of a plan, and the plan to which it leads. The error is always `Memory`.
fn told_of(
    plan: &Plan,
    last: &Plan,
    foretold: &Foretold,
    known: &KnownStarts,
    from: Moment,
    until: &Option<Moment>,
) -> Result<Outlooks, Refusal>
    requires { (t : Ahead) × IsForecast plan.now.plan (since_in known.now) from (limit_of until.now) foretold.now.requests.items t × IsInMemory t last.now.plan foretold.now.since.items foretold.now.done.items }
    ensures told { IfOk result (IsOutlook plan.now.plan (since_in known.now) from until.now) }
    ensures memory { IfErr result (λ r. r ≡ Refusal.Memory) }
{
    // (a plan is loaded wherever a forecast leads on, so neither is reached; `loaded` doesn't promise that it is there then)
    let Some(loaded) = plan.loaded() else {
        return Err(Refusal::Memory);
    };
    let Some(end) = last.loaded() else {
        return Err(Refusal::Memory);
    };
    let to = moment_or(last.clock(), until);
    let taken = taken_of(plan.alloc(), loaded, known, from)?;
    let lacks = lacks_in(plan, loaded, foretold, from)?;
    let refs = ForecastRefs {
        plan: loaded,
        last: end,
        since: &foretold.since,
        done: &foretold.done,
        known,
        taken: &taken,
        lacks: &lacks,
        from,
        to,
    };
    rows_of(plan.alloc(), &refs, until.is_some())
}

// The moment up to which a forecast goes: where none is asked for, the last that a plan can name.
fn limit_of(until: &Option<Moment>) -> Moment
    ensures { result ≡ limit_of until.now }
{
    match until {
        Some(moment) => *moment,
        None => Moment::new(52_595_999).unwrap(),
    }
}

/// What a forecast of a plan tells, by what is known of starts, from a moment on; up to another one, or where none is asked for as
/// long as anything is due or may begin. The plan stays as it is. Refused as a tick at the first moment is, else as `Memory`.
pub fn outlooks(
    plan: &Plan,
    known: &KnownStarts,
    from: Moment,
    until: Option<Moment>,
) -> Result<Outlooks, Refusal>
    ensures outlook { IfOk result (IsOutlook plan.now.plan (since_in known.now) from until) }
    ensures refused { IfErr result (λ r. (r ≡ Refusal.Memory) ⊎ Step plan.now.plan (tick from) (refused r) plan.now.plan) }
{
    let mut last = plan.try_clone()?;
    let limit = limit_of(&until);
    let foretold = forecast(&mut last, known, from, limit)?;
    told_of(plan, &last, &foretold, known, from, &until)
}
