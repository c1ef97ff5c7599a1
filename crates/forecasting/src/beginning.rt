// The first request of a forecast, and what is kept from then on.
ghost use Rattle.std.specs.Prelude.{◌≡◌, ◌⊎◌, pos, length, List, IfOk, OnOk, IfErr};
ghost use Rattle.std.specs.FinMap.{entries};
ghost use Rattle.plan_basics.specs.declared.Refusal.{Refusal};
ghost use Rattle.plan_basics.specs.declared.keys.OpKey.{OpKey};
ghost use Rattle.plan_forecast.specs.Ahead.{tick};
ghost use Rattle.plan_records.specs.Answer.{accepted, refused};
ghost use Rattle.plan_records.specs.Step.{Step};
ghost use Rattle.forecasting.specs.Known.{since_in};
ghost use Rattle.std.specs.List.Sorted.{IsNonDecreasingBy};
ghost use Rattle.forecasting.specs.Adds.{AreLasting};
ghost use Rattle.forecasting.specs.Turns.{IsHorizon};
ghost use Rattle.forecasting.specs.InMemory.{NoTimes, times_by};

use super::known::KnownStarts;
use super::timing::counted_start;
use super::turns::{Horizon, lasting_turns};
use derived_figures::LoadedPlan;
use plan_basics::{Moment, Refusal};
use plan_core::Plan;
use plan_records::{Request, What};
use std::alloc::{AllocError, Global};

// A tick at a moment.
fn tick_at(at: Moment) -> Request
    ensures at { result.at ≡ pos at }
    ensures what { result.what ≡ (tick at).what }
{
    Request {
        at: at.minute(),
        what: What::Tick,
    }
}

// Carries out a request, or says what it is refused for.
fn carry(plan: &mut Plan, request: &Request) -> Result<(), Refusal>
    ensures step { OnOk result ((chosen : List OpKey) × Step plan.old.plan request.now (accepted chosen) plan.new.plan) }
    ensures refused { IfErr result (λ r. (r ≡ Refusal.Memory) ⊎ Step plan.old.plan request.now (refused r) plan.old.plan) }
{
    let _ = plan.clock();
    match plan.prepare(request) {
        Ok(prepared) => {
            plan.apply(prepared);
            Ok(())
        }
        Err(refusal) => Err(refusal),
    }
}

/// Lets the clock tick at a moment, and gives that request; or says what it is refused for.
pub(crate) fn begin(plan: &mut Plan, at: Moment) -> Result<Request, Refusal>
    ensures request { IfOk result (λ q. q ≡ tick at) }
    ensures step { OnOk result ((chosen : List OpKey) × Step plan.old.plan (tick at) (accepted chosen) plan.new.plan) }
    ensures refused { IfErr result (λ r. (r ≡ Refusal.Memory) ⊎ Step plan.old.plan (tick at) (refused r) plan.old.plan) }
{
    let request = tick_at(at);
    carry(plan, &request)?;
    Ok(request)
}

/// How many operations the plan has.
pub(crate) fn count_of(plan: &Plan) -> usize
    ensures { result ≡ length (entries plan.now.plan.contents.operations) }
{
    match plan.loaded() {
        Some(loaded) => loaded.contents().operations().len(),
        None => 0,
    }
}

// What counts of the known starts of the operations of a loaded plan.
fn known_times_in(
    alloc: Global,
    loaded: &LoadedPlan,
    known: &KnownStarts,
) -> Result<Vec<Option<Moment>>, AllocError>
    ensures { IfOk result (λ times. times.items ≡ times_by (since_in known.now) (entries loaded.now.operations)) }
{
    let rows = loaded.contents().operations();
    let mut times = Vec::with_capacity(alloc, rows.len())?;
    for place in 0..rows.len() {
        let row = &rows[place];
        times.push(counted_start(&row.1, known.start_of(&row.0)))?;
    }
    Ok(times)
}

/// What counts of the known starts of the operations of a plan.
pub(crate) fn known_times(
    plan: &Plan,
    known: &KnownStarts,
) -> Result<Vec<Option<Moment>>, AllocError>
    ensures { IfOk result (λ times. times.items ≡ times_by (since_in known.now) (entries plan.now.plan.contents.operations)) }
{
    match plan.loaded() {
        Some(loaded) => known_times_in(plan.alloc(), loaded, known),
        None => Ok(Vec::new(plan.alloc())),
    }
}

/// No time of any of so many operations.
pub(crate) fn no_times(alloc: Global, count: usize) -> Result<Vec<Option<Moment>>, AllocError>
    ensures { IfOk result (λ times. NoTimes count times.items) }
{
    let mut times = Vec::with_capacity(alloc, count)?;
    for _ in 0..count {
        times.push(None)?;
    }
    Ok(times)
}

// The beginnings of intervals and the not-befores from the plan's clock up to a moment, in order.
fn lasting_of(plan: &Plan, until: Moment) -> Result<Vec<Moment>, AllocError>
    ensures ascending { IfOk result (λ turns. IsNonDecreasingBy (λ turn. turn) turns.items) }
    ensures lasting { IfOk result (λ turns. AreLasting plan.now.plan.contents plan.now.plan.clock until turns.items) }
{
    let clock = plan.clock();
    match plan.loaded() {
        Some(loaded) => lasting_turns(plan.alloc(), loaded, clock, until),
        None => Ok(Vec::new(plan.alloc())),
    }
}

/// What lasts of a plan from its clock up to a moment.
pub(crate) fn horizon_of(plan: &Plan, until: Moment) -> Result<Horizon, AllocError>
    ensures until { IfOk result (λ h. h.until ≡ until) }
    ensures lasting { IfOk result (IsHorizon plan.now.plan) }
{
    let lasting = lasting_of(plan, until)?;
    Ok(Horizon { until, lasting })
}
