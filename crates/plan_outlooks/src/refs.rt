// A forecast, lent, and what is told of one operation by it.
ghost use Rattle.std.specs.Prelude.{◌≡◌, ◌<◌, is_none, Some, length, slice_get, Decides};
ghost use Rattle.std.specs.FinMap.{entries};
ghost use Rattle.std.specs.Option.{option_or};
ghost use Rattle.plan_basics.specs.declared.keys.OpKey.{OpKey as OpKeyValue};
ghost use Rattle.plan_forecast.specs.Ahead.{IsGoing};
ghost use Rattle.plan_model.specs.Contents.{Operation};
ghost use Rattle.plan_model.specs.Starts.{IsLatestStart};
ghost use Rattle.plan_model.specs.Valid.{IsSound};
ghost use Rattle.status_rules.specs.declared.Status.TheVariants.{Complete, Deleted};
ghost use Rattle.plan_outlooks.specs.Forecasts.{Begins, Forecast, HasBegun, IsLateBy, IsSinceUnknown, IsUntold, NeverBegins, StaysOut, begin_minute, is_named, is_unmarked, minute_or};
ghost use Rattle.plan_outlooks.specs.Lent.{IsLent, IsOfRow};
ghost use Rattle.plan_outlooks.specs.Standstills.{IsLater};

use forecasting::{KnownStarts, is_going};
use plan_basics::{Moment, OpKey};
use plan_reasons::{LoadedPlan, Reason};
use status_rules::{Mark, Status};

/// A forecast, lent: the plan as it stands, the one to which it leads, and by the indices of their operations since when
/// these are going and complete.
#[derive(Clone, Copy)]
pub(crate) struct ForecastRefs<'a> {
    pub plan: &'a LoadedPlan,
    pub last: &'a LoadedPlan,
    pub since: &'a [Option<Moment>],
    pub done: &'a [Option<Moment>],
    /// Since when what is going in the plan as it stands is named, runs or is ready, as far as that is known.
    pub known: &'a KnownStarts,
    /// Of which operations the times are only taken.
    pub taken: &'a [bool],
    /// What each lacks first as the minute begins at which it begins.
    pub lacks: &'a [Option<Reason>],
    /// The moment of the forecast.
    pub from: Moment,
    /// The last moment that it tells of.
    pub to: Moment,
}

/// The plan is looked at for the proof alone, which learns that what it holds is sound.
pub(crate) fn read_for_proof(loaded: &LoadedPlan)
    ensures { IsSound loaded.now }
{
    let _ = loaded.contents().valid();
}

/// The key of the operation at an index.
pub(crate) fn key_at(loaded: &LoadedPlan, place: usize) -> OpKey
    requires { place < length (entries loaded.now.operations) }
    ensures { (o : OpKeyValue) (op : Operation) → slice_get (entries loaded.now.operations) place ≡ Some (o, op) → result ≡ o }
{
    loaded.contents().operations()[place].0
}

/// The latest start of the operation at an index, in minutes from 1972-01-01T00:00.
pub(crate) fn latest_at(loaded: &LoadedPlan, place: usize) -> i64
    requires { place < length (entries loaded.now.operations) }
    ensures { (o : OpKeyValue) (op : Operation) → slice_get (entries loaded.now.operations) place ≡ Some (o, op) → IsLatestStart loaded.now o result }
{
    let latest = loaded.latest();
    latest.of(place)
}

/// Whether this status is that of what is complete.
pub(crate) fn is_complete(status: Status) -> bool
    ensures { Decides result (status ≡ Complete) }
{
    status == Status::Complete
}

// Whether this status is that of what is deleted.
fn is_deleted(status: Status) -> bool
    ensures { Decides result (status ≡ Deleted) }
{
    status == Status::Deleted
}

/// Whether an operation of this status is neither complete nor deleted.
pub(crate) fn is_outstanding(status: Status) -> bool
    ensures { Decides result (¬ (status ≡ Complete) × ¬ (status ≡ Deleted)) }
{
    !is_complete(status) && !is_deleted(status)
}

/// Whether the operation at an index is going in the plan as it stands.
pub(crate) fn is_going_at(refs: &ForecastRefs<'_>, place: usize) -> bool
    requires { (F : Forecast) × IsLent F refs.now × (place < length (entries F.plan.contents.operations)) }
    ensures { (F : Forecast) (o : OpKeyValue) → IsLent F refs.now → IsOfRow F place o → Decides result (IsGoing F.plan.contents o) }
{
    read_for_proof(refs.plan);
    is_going(&refs.plan.reported_at(place))
}

/// Whether the operation at an index is going or complete in the end.
pub(crate) fn has_begun(refs: &ForecastRefs<'_>, place: usize) -> bool
    requires { (F : Forecast) × IsLent F refs.now × (place < length (entries F.plan.contents.operations)) }
    ensures { (F : Forecast) (o : OpKeyValue) → IsLent F refs.now → IsOfRow F place o → Decides result (HasBegun F o) }
{
    read_for_proof(refs.last);
    let reported = refs.last.reported_at(place);
    is_going(&reported) || is_complete(reported.status)
}

/// Whether the operation at an index is outstanding, and the forecast begins it or it is going.
pub(crate) fn begins(refs: &ForecastRefs<'_>, place: usize) -> bool
    requires { (F : Forecast) × IsLent F refs.now × (place < length (entries F.plan.contents.operations)) }
    ensures { (F : Forecast) (o : OpKeyValue) → IsLent F refs.now → IsOfRow F place o → Decides result (Begins F o) }
{
    read_for_proof(refs.plan);
    is_outstanding(refs.plan.status_at(place)) && has_begun(refs, place)
}

/// Whether the operation at an index is outstanding, and the forecast doesn't begin it.
pub(crate) fn never_begins(refs: &ForecastRefs<'_>, place: usize) -> bool
    requires { (F : Forecast) × IsLent F refs.now × (place < length (entries F.plan.contents.operations)) }
    ensures { (F : Forecast) (o : OpKeyValue) → IsLent F refs.now → IsOfRow F place o → Decides result (NeverBegins F o) }
{
    read_for_proof(refs.plan);
    is_outstanding(refs.plan.status_at(place)) && !has_begun(refs, place)
}

// Whether nothing has been reported or decided by a mark.
fn is_unmarked(mark: Mark) -> bool
    ensures { result ≡ is_unmarked mark }
{
    match mark {
        Mark::Unmarked => true,
        _ => false,
    }
}

/// Whether the forecast doesn't begin the operation at an index, and it hasn't begun and failed before.
pub(crate) fn stays_out(refs: &ForecastRefs<'_>, place: usize) -> bool
    requires { (F : Forecast) × IsLent F refs.now × (place < length (entries F.plan.contents.operations)) }
    ensures { (F : Forecast) (o : OpKeyValue) → IsLent F refs.now → IsOfRow F place o → Decides result (StaysOut F o) }
{
    if !never_begins(refs, place) {
        return false;
    }
    let reported = refs.last.reported_at(place);
    let operation = reported.operation;
    is_unmarked(operation.mark)
}

/// The time at an index.
pub(crate) fn time_at(times: &[Option<Moment>], place: usize) -> Option<Moment>
    requires { place < length times.now }
    ensures { slice_get times.now place ≡ Some result }
{
    times[place]
}

/// The first of two times that there is.
pub(crate) fn first_time(a: Option<Moment>, b: Option<Moment>) -> Option<Moment>
    ensures { result ≡ option_or a b }
{
    match a {
        Some(moment) => Some(moment),
        None => b,
    }
}

/// When the operation at an index begins.
pub(crate) fn beginning_of(refs: &ForecastRefs<'_>, place: usize) -> Moment
    requires { (F : Forecast) × IsLent F refs.now × (place < length (entries F.plan.contents.operations)) }
    ensures { (F : Forecast) (o : OpKeyValue) → IsLent F refs.now → IsOfRow F place o → result ≡ begin_minute F o }
{
    let since = time_at(refs.since, place);
    let done = time_at(refs.done, place);
    moment_or(refs.from, &first_time(since, done))
}

/// Whether a time is this moment.
pub(crate) fn is_at(time: Option<Moment>, moment: Moment) -> bool
    ensures { Decides result (time ≡ Some moment) }
{
    match time {
        Some(found) => found == moment,
        None => false,
    }
}

// Whether the plan named an operation of this mark, and its start isn't reported.
fn is_named(mark: Mark) -> bool
    ensures { result ≡ is_named mark }
{
    match mark {
        Mark::Named => true,
        _ => false,
    }
}

// Whether a time isn't known.
fn is_unknown(time: Option<Moment>) -> bool
    ensures { result ≡ is_none time }
{
    match time {
        Some(_) => false,
        None => true,
    }
}

// Whether the operation at an index isn't only named, and nothing is known of since when it is going.
fn is_untold(refs: &ForecastRefs<'_>, place: usize) -> bool
    requires { (F : Forecast) × IsLent F refs.now × (place < length (entries F.plan.contents.operations)) }
    ensures { (F : Forecast) (o : OpKeyValue) → IsLent F refs.now → IsOfRow F place o → Decides result (IsUntold F o) }
{
    let reported = refs.plan.reported_at(place);
    let operation = reported.operation;
    if is_named(operation.mark) {
        return false;
    }
    is_unknown(refs.known.start_of(&key_at(refs.plan, place)))
}

/// Whether the operation at an index is going since nobody knows when, so that it is taken to begin at the forecast's moment.
pub(crate) fn is_since_unknown(refs: &ForecastRefs<'_>, place: usize) -> bool
    requires { (F : Forecast) × IsLent F refs.now × (place < length (entries F.plan.contents.operations)) }
    ensures { (F : Forecast) (o : OpKeyValue) → IsLent F refs.now → IsOfRow F place o → Decides result (IsSinceUnknown F o) }
{
    if !is_going_at(refs, place) {
        return false;
    }
    if !is_untold(refs, place) {
        return false;
    }
    is_at(time_at(refs.since, place), refs.from)
}

/// By how many minutes a moment is after a bound, if it is.
pub(crate) fn minutes_after(moment: Moment, bound: i64) -> Option<u64>
    ensures { IsLateBy (Some moment) bound result }
{
    let minute = moment.minute();
    if minute > bound {
        Some(minute.abs_diff(bound))
    } else {
        None
    }
}

/// By how many minutes a moment is after a bound, if there is one and it is.
pub(crate) fn late_by(moment: &Option<Moment>, bound: i64) -> Option<u64>
    ensures { IsLateBy moment.now bound result }
{
    match moment {
        Some(moment) => minutes_after(*moment, bound),
        None => None,
    }
}

/// The later of two moments.
pub(crate) fn later(a: Moment, b: Moment) -> Moment
    ensures { IsLater a b result }
{
    if a < b { b } else { a }
}

/// A moment, or else this one.
pub(crate) fn moment_or(moment: Moment, other: &Option<Moment>) -> Moment
    ensures { result ≡ minute_or moment other.now }
{
    match other {
        Some(found) => *found,
        None => moment,
    }
}
