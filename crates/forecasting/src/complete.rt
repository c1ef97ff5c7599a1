// What is complete.
ghost use Rattle.std.specs.Prelude.{◌≡◌, ◌<◌, length, Some, slice_get, Decides};
ghost use Rattle.std.specs.FinMap.{entries};
ghost use Rattle.plan_basics.specs.declared.keys.OpKey.{OpKey};
ghost use Rattle.plan_model.specs.Contents.{Operation};
ghost use Rattle.plan_model.specs.Status.{HasStatus};
ghost use Rattle.status_rules.specs.declared.Status.TheVariants.{Complete};
ghost use Rattle.forecasting.specs.Following.{ArePlaces, AreSetAt};
ghost use Rattle.plan_forecast.specs.Ahead.{IsTimeAfter};

use super::starting::read_for_proof;
use derived_figures::LoadedPlan;
use plan_basics::Moment;
use status_rules::Status;

// Whether this status is that of what is complete.
fn is_done(status: Status) -> bool
    ensures { Decides result (status ≡ Complete) }
{
    status == Status::Complete
}

// Since when the operation at an index is complete, where this was known of it before.
fn time_at(loaded: &LoadedPlan, place: usize, old: Option<Moment>, at: Moment) -> Option<Moment>
    requires { place < length (entries loaded.now.operations) }
    ensures { (o : OpKey) (op : Operation) → slice_get (entries loaded.now.operations) place ≡ Some (o, op) → IsTimeAfter (HasStatus loaded.now o Complete) at old result }
{
    read_for_proof(loaded);
    if old.is_some() {
        return old;
    }
    if is_done(loaded.status_at(place)) {
        return Some(at);
    }
    None
}

/// Makes this moment the time of each operation at these indices that is complete and has none.
pub(crate) fn set_done(
    loaded: &LoadedPlan,
    done: &mut [Option<Moment>],
    places: &[usize],
    at: Moment,
)
    requires size { length done.old ≡ length (entries loaded.now.operations) }
    requires within { ArePlaces loaded.now places.now }
    ensures size { length done.new ≡ length done.old }
    ensures times { AreSetAt (λ o. HasStatus loaded.now o Complete) (λ o. at) (entries loaded.now.operations) places.now done.old done.new }
{
    read_for_proof(loaded);
    for place in places {
        done[*place] = time_at(loaded, *place, done[*place], at);
    }
}
