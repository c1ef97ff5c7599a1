// Since when operations are going.
ghost use Rattle.std.specs.Prelude.{◌≡◌, ◌<◌, length, max, Some, slice_get};
ghost use Rattle.std.specs.FinMap.{entries};
ghost use Rattle.plan_basics.specs.declared.keys.OpKey.{OpKey};
ghost use Rattle.plan_model.specs.Contents.{Operation};
ghost use Rattle.forecasting.specs.Following.{ArePlaces, AreSetAt};
ghost use Rattle.plan_forecast.specs.Ahead.{IsGoing, IsTimeAfter, counted_by, counted_from, start_by};

use super::going::is_going_at;
use super::starting::read_for_proof;
use derived_figures::LoadedPlan;
use plan_basics::Moment;
use plan_model::OperationRecord;
use status_rules::Mark;

// The later of two moments.
fn later(a: Moment, b: Moment) -> Moment
    ensures { result ≡ max a b }
{
    if a < b { b } else { a }
}

// The minute from which it counts that is going from a moment on: where it has no mark, since only its completion is
// reported, not before its not-before.
fn counted(mark: Mark, not_before: Moment, at: Moment) -> Moment
    ensures { result ≡ counted_by mark not_before at }
{
    match mark {
        Mark::Unmarked => later(at, not_before),
        _ => at,
    }
}

/// What counts of what is known of since when an operation is going: nothing where it is only named.
pub fn counted_start(operation: &OperationRecord, known: Option<Moment>) -> Option<Moment>
    ensures { result ≡ start_by operation.now.mark operation.now.not_before known }
{
    let since = known?;
    match operation.mark {
        Mark::Named => None,
        mark => Some(counted(mark, operation.not_before, since)),
    }
}

// The minute from which the operation at an index counts, which is going from a moment on.
fn counted_at(loaded: &LoadedPlan, place: usize, at: Moment) -> Moment
    requires { place < length (entries loaded.now.operations) }
    ensures { (o : OpKey) (op : Operation) → slice_get (entries loaded.now.operations) place ≡ Some (o, op) → result ≡ counted_from loaded.now at o }
{
    let reported = loaded.reported_at(place);
    let operation = reported.operation;
    counted(operation.mark, operation.not_before, at)
}

// Since when the operation at an index is going, where this was known of it before.
fn time_at(loaded: &LoadedPlan, place: usize, old: Option<Moment>, at: Moment) -> Option<Moment>
    requires { place < length (entries loaded.now.operations) }
    ensures { (o : OpKey) (op : Operation) → slice_get (entries loaded.now.operations) place ≡ Some (o, op) → IsTimeAfter (IsGoing loaded.now o) (counted_from loaded.now at o) old result }
{
    if old.is_some() {
        return old;
    }
    if is_going_at(loaded, place) {
        return Some(counted_at(loaded, place, at));
    }
    None
}

/// Makes this moment the time of each operation at these indices that is going and has none.
pub fn set_since(loaded: &LoadedPlan, since: &mut [Option<Moment>], places: &[usize], at: Moment)
    requires size { length since.old ≡ length (entries loaded.now.operations) }
    requires within { ArePlaces loaded.now places.now }
    ensures size { length since.new ≡ length since.old }
    ensures times { AreSetAt (IsGoing loaded.now) (counted_from loaded.now at) (entries loaded.now.operations) places.now since.old since.new }
{
    read_for_proof(loaded);
    for place in places {
        since[*place] = time_at(loaded, *place, since[*place], at);
    }
}
