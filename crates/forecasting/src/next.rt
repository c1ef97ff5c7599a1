// The first moment with work.
ghost use Rattle.std.specs.Prelude.{◌≡◌, ◌+◌, ◌<◌, ◌≤◌, ℕ, Contains, length, IfSome, MatchOption, Some};
ghost use Rattle.std.specs.FinMap.{entries};
ghost use Rattle.std.specs.List.Sorted.{IsNonDecreasingBy};
ghost use Rattle.plan_basics.specs.Minutes.{IsMoment};
ghost use Rattle.forecasting.specs.Following.{AreGoingAt, ArePlaces};
ghost use Rattle.forecasting.specs.InMemory.{IsIdleUpTo};
ghost use Rattle.forecasting.specs.Times.{AreTimesOf};
ghost use Rattle.forecasting.specs.Turns.{IsEarlier, IsEndAt, IsEndOf, IsFirstWork, IsHorizon, IsNextTurn, IsReached};
ghost use Rattle.plan_forecast.specs.Ahead.{Ahead};

use super::starting::read_for_proof;
use super::turns::Horizon;
use super::work::work_at;
use derived_figures::LoadedPlan;
use plan_basics::Moment;
use plan_records::What;

/// A moment, and what is done then.
#[derive(Drop)]
pub struct Work {
    pub at: Moment,
    pub what: What,
}

// The moment at which what began at this one is over, if it can be named.
fn end_of(begun: Moment, duration: u16) -> Option<Moment>
    ensures some { IsMoment (begun + duration) → result ≡ Some (begun + duration) }
    ensures value { IfSome result (λ m. m ≡ begun + duration) }
{
    Moment::new(begun.minute() + i64::from(duration))
}

// The earlier of two moments, where either may be lacking.
fn earlier(first: Option<Moment>, second: Option<Moment>) -> Option<Moment>
    ensures { IsEarlier first second result }
{
    let Some(a) = first else { return second };
    let Some(b) = second else { return first };
    if b < a { second } else { first }
}

// The end of the operation at an index by the minute since which it is going, if that is known, and if the end can be named and is
// after a moment.
fn end_at(loaded: &LoadedPlan, place: usize, since: Option<Moment>, after: Moment) -> Option<Moment>
    requires { place < length (entries loaded.now.operations) }
    ensures after { IfSome result (λ c. after < c) }
    ensures end { (c : ℕ) → IsMoment c → after < c → IsEndAt (entries loaded.now.operations) place since c → result ≡ Some c }
{
    let row = &loaded.contents().operations()[place];
    let end = end_of(since?, row.1.duration)?;
    if after < end { Some(end) } else { None }
}

// The first end after a moment of what is going, by the minutes since which it is.
fn end_after(
    loaded: &LoadedPlan,
    since: &[Option<Moment>],
    going: &[usize],
    after: Moment,
) -> Option<Moment>
    requires size { length since.now ≡ length (entries loaded.now.operations) }
    requires within { ArePlaces loaded.now going.now }
    ensures after { IfSome result (λ c. after < c) }
    ensures first { (c : ℕ) → IsMoment c → after < c → IsEndOf (entries loaded.now.operations) going.now since.now c → IsReached result c }
{
    let mut first = None;
    for place in going {
        first = earlier(first, end_at(loaded, *place, since[*place], after));
    }
    first
}

// The first of these moments, which stand in order, after another one.
fn first_after(turns: &[Moment], after: Moment) -> Option<Moment>
    requires { IsNonDecreasingBy (λ turn. turn) turns.now }
    ensures after { IfSome result (λ c. after < c) }
    ensures first { (c : ℕ) → Contains turns.now c → after < c → IsReached result c }
{
    let past = turns.partition_point(|turn| *turn <= after);
    if past < turns.len() {
        Some(turns[past])
    } else {
        None
    }
}

// The first moment after another one up to the horizon at which there may be work that there wasn't before.
fn turn_after(
    loaded: &LoadedPlan,
    since: &[Option<Moment>],
    going: &[usize],
    horizon: &Horizon,
    after: Moment,
) -> Option<Moment>
    requires size { length since.now ≡ length (entries loaded.now.operations) }
    requires going { AreGoingAt loaded.now going.now }
    requires ascending { IsNonDecreasingBy (λ turn. turn) horizon.now.lasting.items }
    ensures onward { IfSome result (λ turn. (after < turn) × (turn ≤ horizon.now.until)) }
    ensures next { (s : Ahead) → s.plan.contents ≡ loaded.now → s.plan.clock ≤ after → AreTimesOf s.since (entries loaded.now.operations) since.now → IsHorizon s.plan horizon.now → IsNextTurn s after horizon.now.until result }
{
    let _ = horizon.until.minute();
    let lasting = first_after(&horizon.lasting, after);
    let Some(turn) = earlier(lasting, end_after(loaded, since, going, after)) else {
        return None;
    };
    if turn <= horizon.until {
        Some(turn)
    } else {
        None
    }
}

/// The first moment with work from the clock up to the horizon, and what is done then; none where there is no work up to that.
pub fn first_work(
    loaded: &LoadedPlan,
    since: &[Option<Moment>],
    going: &[usize],
    horizon: &Horizon,
    clock: Moment,
) -> Option<Work>
    requires size { length since.now ≡ length (entries loaded.now.operations) }
    requires going { AreGoingAt loaded.now going.now }
    requires ascending { IsNonDecreasingBy (λ turn. turn) horizon.now.lasting.items }
    ensures { (s : Ahead) → s.plan.contents ≡ loaded.now → s.plan.clock ≡ clock → AreTimesOf s.since (entries loaded.now.operations) since.now → IsHorizon s.plan horizon.now
        → MatchOption result (IsIdleUpTo horizon.now.until s) (λ work. IsFirstWork s horizon.now.until work.at work.what) }
{
    read_for_proof(loaded);
    let mut at = clock;
    while at <= horizon.until {
        match work_at(loaded, since, going, at) {
            Some(what) => return Some(Work { at, what }),
            None => {}
        }
        match turn_after(loaded, since, going, horizon, at) {
            Some(turn) => at = turn,
            None => return None,
        }
    }
    None
}
