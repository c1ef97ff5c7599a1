// What is due.
ghost use Rattle.std.specs.Prelude.{◌≡◌, ◌<◌, ◌≤◌, ◌+◌, ℕ, length, IfSome, MatchOption, Decides, Some, slice_get};
ghost use Rattle.std.specs.FinMap.{entries};
ghost use Rattle.plan_basics.specs.declared.keys.OpKey.{OpKey as OpKeyValue};
ghost use Rattle.plan_model.specs.Contents.{Operation};
ghost use Rattle.forecasting.specs.Following.{AreGoingAt, ArePlaces, IsLeastDue, IsLeastWith};
ghost use Rattle.forecasting.specs.Times.{AreTimesOf};
ghost use Rattle.plan_forecast.specs.Ahead.{Ahead, IsDue, IsWork, SomeIsDue};
ghost use Rattle.plan_records.specs.declared.What.TheVariants.{Ended};

use super::going::is_going_at;
use super::starting::read_for_proof;
use derived_figures::LoadedPlan;
use plan_basics::{Moment, OpKey};

// Whether what has gone on since a minute, if one is known, has lasted so long at a moment.
fn has_lasted(since: Option<Moment>, duration: u16, at: Moment) -> bool
    ensures { Decides result ((b : ℕ) × (since ≡ Some b) × (b + duration ≤ at)) }
{
    match since {
        Some(begun) => begun.minute() + i64::from(duration) <= at.minute(),
        None => false,
    }
}

// Whether the operation at an index, which is going since this minute, is due at a moment.
fn is_due(loaded: &LoadedPlan, place: usize, since: Option<Moment>, at: Moment) -> bool
    requires { place < length (entries loaded.now.operations) }
    ensures { (s : Ahead) (o : OpKeyValue) (op : Operation) → s.plan.contents ≡ loaded.now → slice_get (entries loaded.now.operations) place ≡ Some (o, op) → s.since o ≡ since → Decides result (IsDue s o at) }
{
    if !is_going_at(loaded, place) {
        return false;
    }
    let reported = loaded.reported_at(place);
    let operation = reported.operation;
    has_lasted(since, operation.duration, at)
}

// The lesser of an index and another one, if there is one.
fn least_with(least: Option<usize>, place: usize) -> usize
    ensures { IsLeastWith least place result }
{
    match least {
        Some(other) if other < place => other,
        _ => place,
    }
}

// The least index of an operation that is due at a moment, among those of all that are going.
fn first_place_due(
    loaded: &LoadedPlan,
    since: &[Option<Moment>],
    going: &[usize],
    at: Moment,
) -> Option<usize>
    requires size { length since.now ≡ length (entries loaded.now.operations) }
    requires within { ArePlaces loaded.now going.now }
    ensures within { IfSome result (λ i. i < length (entries loaded.now.operations)) }
    ensures least { (s : Ahead) → s.plan.contents ≡ loaded.now → AreTimesOf s.since (entries loaded.now.operations) since.now → IsLeastDue s at going.now result }
{
    let mut first = None;
    for place in going {
        if is_due(loaded, *place, since[*place], at) {
            first = Some(least_with(first, *place));
        }
    }
    first
}

/// The first operation that is due at a moment, by the minutes since which operations are going, and the indices of all that are.
pub fn first_due(
    loaded: &LoadedPlan,
    since: &[Option<Moment>],
    going: &[usize],
    at: Moment,
) -> Option<OpKey>
    requires size { length since.now ≡ length (entries loaded.now.operations) }
    requires going { AreGoingAt loaded.now going.now }
    ensures { (s : Ahead) → s.plan.contents ≡ loaded.now → AreTimesOf s.since (entries loaded.now.operations) since.now → MatchOption result (¬ SomeIsDue s at) (λ o. IsWork s at (Ended o)) }
{
    read_for_proof(loaded);
    match first_place_due(loaded, since, going, at) {
        Some(place) => Some(loaded.contents().operations()[place].0),
        None => None,
    }
}
