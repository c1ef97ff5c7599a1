// The occurrences that are neither complete nor deleted.
ghost use Rattle.std.specs.Prelude.{◌≡◌, ◌≤◌, true, Some, length, Decides, IfOk, MatchOption};
ghost use Rattle.std.specs.FinMap.{contains_key, entries, get};
ghost use Rattle.std.specs.List.Sorted.{IsStrictlySortedBy};
ghost use Rattle.std.specs.Map.{keys_of};
ghost use Rattle.plan_basics.specs.Keys.{operation_cmp};
ghost use Rattle.plan_basics.specs.declared.keys.OccKey.{OccKey as OccKeyValue};
ghost use Rattle.plan_records.specs.Rows.{IsCount};
ghost use Rattle.status_rules.specs.declared.OccStatus.TheVariants as occurrence;
ghost use Rattle.status_rules.specs.declared.Status.TheVariants.{Complete};
ghost use Rattle.plan_outlooks.specs.Forecasts.{Forecast, StaysOut};
ghost use Rattle.plan_outlooks.specs.Lent.{IsLent};
ghost use Rattle.plan_outlooks.specs.Occurrences.{AreOccurrenceOutlooks, IsEnd, IsOccurrenceOutlook, IsOutstandingOccurrence};
ghost use Rattle.plan_outlooks.specs.Spans.{AreBefore, AreOperationsOf, AreThrough, HaveStatus, IsLatest, IsLatestWith};

use super::lists::note;
use super::refs::{
    ForecastRefs, is_complete, late_by, later, moment_or, read_for_proof, stays_out, time_at,
};
use super::rows::OccurrenceOutlook;
use plan_basics::{Moment, OccKey, OpKey};
use plan_model::{Occurrence, OperationRecord};
use plan_reasons::LoadedPlan;
use status_rules::OccStatus;
use std::alloc::{AllocError, Global};

// How many of these rows, which stand in key order, are of occurrences before this one.
fn count_before(rows: &[(OpKey, OperationRecord)], key: &OccKey) -> usize
    requires { IsStrictlySortedBy operation_cmp (keys_of rows.now) }
    ensures { AreBefore rows.now key.now result }
{
    rows.partition_point(|row| row.0.occurrence.order(key).is_lt())
}

// How many of them are of this occurrence or one before it.
fn count_through(rows: &[(OpKey, OperationRecord)], key: &OccKey) -> usize
    requires { IsStrictlySortedBy operation_cmp (keys_of rows.now) }
    ensures within { result ≤ length rows.now }
    ensures through { AreThrough rows.now key.now result }
{
    rows.partition_point(|row| row.0.occurrence.order(key).is_le())
}

// The later of a moment and another one, if there is one.
fn latest_with(latest: Option<Moment>, moment: Moment) -> Moment
    ensures { IsLatestWith latest moment result }
{
    match latest {
        Some(other) => later(other, moment),
        None => moment,
    }
}

// The latest of the moments at the indices from one up to another; none where there is none, or one isn't known.
fn latest_of(times: &[Option<Moment>], first: usize, end: usize) -> Option<Moment>
    requires { end ≤ length times.now }
    ensures { IsLatest times.now first end result }
{
    let mut latest = None;
    for place in first..end {
        let time = time_at(times, place);
        match time {
            Some(moment) => latest = Some(latest_with(latest, moment)),
            None => return None,
        }
    }
    latest
}

// Whether all operations at the indices from one up to another are complete.
fn are_complete(loaded: &LoadedPlan, first: usize, end: usize) -> bool
    requires { end ≤ length (entries loaded.now.operations) }
    ensures { Decides result (HaveStatus loaded.now first end Complete) }
{
    read_for_proof(loaded);
    for place in first..end {
        if !is_complete(loaded.status_at(place)) {
            return false;
        }
    }
    true
}

// When the last of the operations of an occurrence of the plan is complete, which are at the indices from one up to another; none
// where one of them isn't in the end.
fn ending_of(refs: &ForecastRefs<'_>, first: usize, end: usize) -> Option<Moment>
    requires { (F : Forecast) × (c : OccKeyValue) × IsLent F refs.now × AreOperationsOf F.plan.contents c first end }
    ensures { (F : Forecast) (c : OccKeyValue) → IsLent F refs.now → AreOperationsOf F.plan.contents c first end → contains_key F.plan.contents.occurrences c ≡ true → IsEnd F c result }
{
    read_for_proof(refs.plan);
    if are_complete(refs.last, first, end) {
        latest_of(refs.done, first, end)
    } else {
        None
    }
}

// How many of the operations of an occurrence the forecast doesn't begin, and haven't begun and failed before, which are at the
// indices from one up to another.
fn never_of(refs: &ForecastRefs<'_>, first: usize, end: usize) -> usize
    requires { (F : Forecast) × (c : OccKeyValue) × IsLent F refs.now × AreOperationsOf F.plan.contents c first end }
    ensures { (F : Forecast) (c : OccKeyValue) → IsLent F refs.now → AreOperationsOf F.plan.contents c first end → IsCount (λ o. (o.occurrence ≡ c) × StaysOut F o) result }
{
    let mut count = 0;
    for place in first..end {
        if stays_out(refs, place) {
            count += 1;
        }
    }
    count
}

// Whether an occurrence of this status is neither complete nor deleted.
fn is_outstanding(status: OccStatus) -> bool
    ensures { Decides result (¬ (status ≡ occurrence.Complete) × ¬ (status ≡ occurrence.Deleted)) }
{
    !status.is_over()
}

// What is told of an occurrence of the plan, if it is neither complete nor deleted.
fn occurrence_outlook(
    refs: &ForecastRefs<'_>,
    key: &OccKey,
    occurrence: &Occurrence,
) -> Option<OccurrenceOutlook>
    requires { (F : Forecast) × IsLent F refs.now × (get F.plan.contents.occurrences key.now ≡ Some occurrence.now) }
    ensures { (F : Forecast) → IsLent F refs.now → MatchOption result (¬ IsOutstandingOccurrence F.plan.contents key.now) (λ r. (r.key ≡ key.now) × IsOutstandingOccurrence F.plan.contents key.now × IsOccurrenceOutlook F r) }
{
    read_for_proof(refs.plan);
    let status = refs.plan.outline().occurrence_status(key).unwrap();
    if !is_outstanding(status) {
        return None;
    }
    let rows = refs.plan.contents().operations();
    let first = count_before(rows, key);
    let end = count_through(rows, key);
    let ending = ending_of(refs, first, end);
    let told = moment_or(refs.to, &ending);
    let late = late_by(&Some(told), occurrence.deadline.minute());
    Some(OccurrenceOutlook {
        key: *key,
        priority: occurrence.priority,
        status,
        deadline: occurrence.deadline,
        end: ending,
        late,
        never: never_of(refs, first, end),
    })
}

/// What is told of the occurrences that are neither complete nor deleted, by key.
pub(crate) fn occurrence_outlooks(
    alloc: Global,
    refs: &ForecastRefs<'_>,
) -> Result<Vec<OccurrenceOutlook>, AllocError>
    requires { (F : Forecast) × IsLent F refs.now }
    ensures { IfOk result (λ rows. (F : Forecast) → IsLent F refs.now → AreOccurrenceOutlooks F rows.items) }
{
    let mut rows = Vec::new(alloc);
    let occurrences = refs.plan.contents().occurrences();
    for place in 0..occurrences.len() {
        let row = occurrences[place];
        note(&mut rows, occurrence_outlook(refs, &row.0, &row.1))?;
    }
    Ok(rows)
}
