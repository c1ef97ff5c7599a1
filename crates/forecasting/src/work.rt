// What is done at a moment.
ghost use Rattle.std.specs.Prelude.{◌≡◌, length, MatchOption};
ghost use Rattle.std.specs.FinMap.{entries};
ghost use Rattle.forecasting.specs.Following.{AreGoingAt};
ghost use Rattle.forecasting.specs.Times.{AreTimesOf};
ghost use Rattle.plan_forecast.specs.Ahead.{Ahead, HasWork, IsWork, SomeIsDue};

use super::due::first_due;
use super::starting::{first_start, starts_by_itself};
use derived_figures::LoadedPlan;
use plan_basics::Moment;
use plan_records::What;

// What is done at a moment at which nothing is due.
fn start_at(loaded: &LoadedPlan, at: Moment) -> Option<What>
    ensures { (s : Ahead) → s.plan.contents ≡ loaded.now → ¬ SomeIsDue s at → MatchOption result (¬ HasWork s at) (IsWork s at) }
{
    if starts_by_itself(loaded, at) {
        return Some(What::Tick);
    }
    match first_start(loaded, at) {
        Some(key) => Some(What::Started(key)),
        None => None,
    }
}

/// What is done at a moment that has work: the due operation of the least key is ended, else the clock ticks, else the
/// first that may begin is started; none where there is no work.
pub fn work_at(
    loaded: &LoadedPlan,
    since: &[Option<Moment>],
    going: &[usize],
    at: Moment,
) -> Option<What>
    requires size { length since.now ≡ length (entries loaded.now.operations) }
    requires going { AreGoingAt loaded.now going.now }
    ensures { (s : Ahead) → s.plan.contents ≡ loaded.now → AreTimesOf s.since (entries loaded.now.operations) since.now → MatchOption result (¬ HasWork s at) (IsWork s at) }
{
    match first_due(loaded, since, going, at) {
        Some(key) => Some(What::Ended(key)),
        None => start_at(loaded, at),
    }
}
