// The operations that a forecast doesn't begin, and why.
ghost use Rattle.std.specs.Prelude.{◌≡◌, ◌<◌, Some, length, IfErr, IfOk, MatchOption};
ghost use Rattle.std.specs.FinMap.{entries, get};
ghost use Rattle.plan_basics.specs.declared.Refusal.{Refusal};
ghost use Rattle.plan_basics.specs.declared.keys.OpKey.{OpKey as OpKeyValue};
ghost use Rattle.plan_outlooks.specs.Forecasts.{Forecast, NeverBegins};
ghost use Rattle.plan_outlooks.specs.Lent.{IsLent, IsOfRow};
ghost use Rattle.plan_outlooks.specs.Standstills.{AreStandstills, AreStandstillsByKey, IsAsked, IsOpenFirst, IsStandstill, is_waiting, standing_by};

use super::lists::note_told;
use super::refs::{ForecastRefs, key_at, later, latest_at, never_begins, read_for_proof};
use super::rows::{Standing, Standstill};
use plan_basics::{Moment, Refusal};
use plan_model::OperationRecord;
use plan_reasons::{LoadedPlan, Reason, first_reason, next_opening};
use status_rules::{Mark, Status};
use std::alloc::{AllocError, Global};
use workstations::Workstation;

// The first moment from this one on at which a workstation is open; this one where it is open no more.
fn open_first(workstation: &Workstation, from: Moment) -> Moment
    ensures { IsOpenFirst workstation.now.1 from result }
{
    let _ = workstation.attribute();
    if workstation.capacity_at(from).is_some() {
        return from;
    }
    match next_opening(workstation, from) {
        Some(opening) => opening,
        None => from,
    }
}

// The moment at which it is asked why an operation of the plan doesn't go on, from a moment on.
fn asked_at(loaded: &LoadedPlan, operation: &OperationRecord, from: Moment) -> Moment
    requires { (o : OpKeyValue) × (get loaded.now.operations o ≡ Some operation.now) }
    ensures { IsAsked loaded.now operation.now from result }
{
    let contents = loaded.contents();
    let workstation = contents.workstation(&operation.workstation).unwrap();
    open_first(workstation, later(from, operation.not_before))
}

// Why an operation of this mark doesn't begin, by the first reason why it doesn't go on, if there is one.
fn standing_by(mark: Mark, reason: Option<Reason>) -> Standing
    ensures { result ≡ standing_by mark reason }
{
    match mark {
        Mark::Error(code) => Standing::InError(code),
        Mark::Interrupted => Standing::Interrupted,
        Mark::Undecided => Standing::Undecided,
        _ => standing_for(reason),
    }
}

// So it is where its mark doesn't tell it.
fn standing_for(reason: Option<Reason>) -> Standing
    ensures { result ≡ standing_by Mark.Unmarked reason }
{
    match reason {
        Some(reason) => Standing::For(reason),
        None => Standing::Later,
    }
}

// What is told of the operation at an index, if the forecast doesn't begin it. The error is always `Memory`.
fn standstill(
    alloc: Global,
    refs: &ForecastRefs<'_>,
    place: usize,
) -> Result<Option<Standstill>, Refusal>
    requires { (F : Forecast) × IsLent F refs.now × (place < length (entries F.plan.contents.operations)) }
    ensures told { IfOk result (λ told. (F : Forecast) (o : OpKeyValue) → IsLent F refs.now → IsOfRow F place o → MatchOption told (¬ NeverBegins F o) (λ r. (r.key ≡ o) × NeverBegins F o × IsStandstill F r)) }
    ensures memory { IfErr result (λ r. r ≡ Refusal.Memory) }
{
    if !never_begins(refs, place) {
        return Ok(None);
    }
    let key = key_at(refs.last, place);
    let reported = refs.last.reported_at(place);
    let operation = reported.operation;
    let at = asked_at(refs.last, operation, refs.to);
    let reason = first_reason(alloc, refs.last, &key, place, at)?;
    Ok(Some(Standstill {
        key,
        workstation: operation.workstation,
        attribute: reported.attribute,
        status: reported.status,
        at,
        standing: standing_by(operation.mark, reason),
        latest: latest_at(refs.plan, place),
    }))
}

// What is told of the operations that the forecast doesn't begin, by key. The error is always `Memory`.
fn standstills_by_key(alloc: Global, refs: &ForecastRefs<'_>) -> Result<Vec<Standstill>, Refusal>
    requires { (F : Forecast) × IsLent F refs.now }
    ensures rows { IfOk result (λ rows. (F : Forecast) → IsLent F refs.now → AreStandstillsByKey F rows.items) }
    ensures memory { IfErr result (λ r. r ≡ Refusal.Memory) }
{
    read_for_proof(refs.plan);
    // (named here, since a row that is let go has one)
    let _none: Option<Reason> = None;
    let _nothing: Option<Standing> = None;
    let mut rows = Vec::new(alloc);
    for place in 0..refs.since.len() {
        note_told(&mut rows, standstill(alloc, refs, place))?;
    }
    Ok(rows)
}

// Whether this status is that of what waits.
fn is_waiting(status: Status) -> bool
    ensures { result ≡ is_waiting status }
{
    matches!(status, Status::Waiting)
}

/// What is told of the operations that the forecast doesn't begin: those that don't wait first, then by key. The error is
/// always `Memory`.
pub(crate) fn standstills(
    alloc: Global,
    refs: &ForecastRefs<'_>,
) -> Result<Vec<Standstill>, Refusal>
    requires { (F : Forecast) × IsLent F refs.now }
    ensures rows { IfOk result (λ rows. (F : Forecast) → IsLent F refs.now → AreStandstills F rows.items) }
    ensures memory { IfErr result (λ r. r ≡ Refusal.Memory) }
{
    let mut rows = standstills_by_key(alloc, refs)?;
    rows.sort_by_key(|row| (is_waiting(row.status), row.key))?;
    Ok(rows)
}
