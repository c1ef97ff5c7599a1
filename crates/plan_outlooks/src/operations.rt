// The operations that a forecast begins, or that are going already.
ghost use Rattle.std.specs.Prelude.{◌≡◌, ◌<◌, cond, length, None, IfOk, MatchOption};
ghost use Rattle.std.specs.FinMap.{entries};
ghost use Rattle.plan_basics.specs.declared.keys.OpKey.{OpKey};
ghost use Rattle.plan_reasons.specs.Reasons.{beginning_by};
ghost use Rattle.plan_outlooks.specs.Forecasts.{Begins, Forecast, if_known};
ghost use Rattle.plan_outlooks.specs.Lent.{IsLent, IsOfRow};
ghost use Rattle.plan_outlooks.specs.Operations.{AreOperationOutlooks, AreOperationsByKey, IsOperationOutlook};

use super::lists::note;
use super::overruns::over_by;
use super::refs::{
    ForecastRefs, beginning_of, begins, is_since_unknown, key_at, late_by, latest_at,
    read_for_proof, time_at,
};
use super::rows::OperationOutlook;
use forecasting::is_going;
use plan_basics::Moment;
use plan_reasons::Beginning;
use status_rules::Mark;
use std::alloc::{AllocError, Global};

// What a mark tells of a start.
fn beginning_by(mark: Mark) -> Beginning
    ensures { result ≡ beginning_by mark }
{
    match mark {
        Mark::Named => Beginning::Named,
        Mark::Running => Beginning::Reported,
        _ => Beginning::NotStarted,
    }
}

// A moment, if it is known.
fn if_known(is_known: bool, moment: Moment) -> Option<Moment>
    ensures { result ≡ if_known is_known moment }
{
    if is_known { Some(moment) } else { None }
}

// Since when the operation at an index is named, runs or is ready, if it is going and that is known.
fn since_of(refs: &ForecastRefs<'_>, place: usize, is_going: bool) -> Option<Moment>
    requires { (F : Forecast) × IsLent F refs.now × (place < length (entries F.plan.contents.operations)) }
    ensures { (F : Forecast) (o : OpKey) → IsLent F refs.now → IsOfRow F place o → result ≡ cond is_going (F.known o) None }
{
    if is_going {
        refs.known.start_of(&key_at(refs.plan, place))
    } else {
        None
    }
}

// What is told of the operation at an index, if it begins or is going.
fn operation_outlook(refs: &ForecastRefs<'_>, place: usize) -> Option<OperationOutlook>
    requires { (F : Forecast) × IsLent F refs.now × (place < length (entries F.plan.contents.operations)) }
    ensures { (F : Forecast) (o : OpKey) → IsLent F refs.now → IsOfRow F place o → MatchOption result (¬ Begins F o) (λ r. (r.key ≡ o) × Begins F o × IsOperationOutlook F r) }
{
    read_for_proof(refs.plan);
    if !begins(refs, place) {
        return None;
    }
    let reported = refs.plan.reported_at(place);
    let is_going = is_going(&reported);
    let begin = beginning_of(refs, place);
    let is_known = !is_since_unknown(refs, place);
    let latest = latest_at(refs.plan, place);
    let begun = if_known(is_known, begin);
    let late = late_by(&begun, latest);
    let over = over_by(
        reported.operation,
        since_of(refs, place, is_going),
        refs.from,
    );
    let is_taken = refs.taken[place];
    let operation = reported.operation;
    Some(OperationOutlook {
        key: key_at(refs.plan, place),
        workstation: operation.workstation,
        attribute: reported.attribute,
        status: reported.status,
        is_going,
        begin,
        is_known,
        end: time_at(refs.done, place),
        latest,
        late,
        beginning: beginning_by(operation.mark),
        since: since_of(refs, place, is_going),
        over,
        is_taken,
    })
}

// What is told of the operations that begin or are going, by key.
fn operations_by_key(
    alloc: Global,
    refs: &ForecastRefs<'_>,
) -> Result<Vec<OperationOutlook>, AllocError>
    requires { (F : Forecast) × IsLent F refs.now }
    ensures { IfOk result (λ rows. (F : Forecast) → IsLent F refs.now → AreOperationsByKey F rows.items) }
{
    read_for_proof(refs.plan);
    let mut rows = Vec::new(alloc);
    for place in 0..refs.since.len() {
        note(&mut rows, operation_outlook(refs, place))?;
    }
    Ok(rows)
}

/// What is told of the operations that begin or are going, by beginning, and then by key.
pub(crate) fn operation_outlooks(
    alloc: Global,
    refs: &ForecastRefs<'_>,
) -> Result<Vec<OperationOutlook>, AllocError>
    requires { (F : Forecast) × IsLent F refs.now }
    ensures { IfOk result (λ rows. (F : Forecast) → IsLent F refs.now → AreOperationOutlooks F rows.items) }
{
    let mut rows = operations_by_key(alloc, refs)?;
    rows.sort_by_key(|row| (row.begin, row.key))?;
    Ok(rows)
}
