// A request of the forecast that is made, and the times that it gives.
ghost use Rattle.std.specs.Prelude.{◌≡◌, ◌≤◌, ℕ, pos, length, IfOk, OnOk, IfErr};
ghost use Rattle.std.specs.FinMap.{entries};
ghost use Rattle.plan_basics.specs.Minutes.{IsMoment};
ghost use Rattle.plan_basics.specs.declared.Refusal.{Refusal};
ghost use Rattle.plan_model.specs.Plan.{IsSoundPlan};
ghost use Rattle.plan_model.specs.Status.{HasStatus};
ghost use Rattle.status_rules.specs.declared.Status.TheVariants.{Complete};
ghost use Rattle.forecasting.specs.Following.{ArePlaces, AreSetAt, IsFollowed};
ghost use Rattle.forecasting.specs.Turns.{IsFirstWork};
ghost use Rattle.plan_forecast.specs.Ahead.{Ahead, IsGoing, counted_from};
ghost use Rattle.forecasting.specs.InMemory.{GoesOn, IsInMemory, IsLike};

use super::carrying::carry_out;
use super::complete::set_done;
use super::following::follow_going;
use super::next::Work;
use super::timing::set_since;
use plan_basics::{Moment, Refusal};
use plan_core::Plan;
use plan_records::Request;

// The plan is looked at for the proof alone, which learns that it is sound.
pub(crate) fn read_for_proof(plan: &Plan)
    ensures { IsSoundPlan plan.now.plan }
{
    let _ = plan.clock();
}

// Makes this moment the time of what of these indices is going, and of what is complete, for the first time.
pub(crate) fn set_times(
    plan: &Plan,
    since: &mut [Option<Moment>],
    done: &mut [Option<Moment>],
    places: &[usize],
    at: Moment,
)
    requires since { length since.old ≡ length (entries plan.now.plan.contents.operations) }
    requires done { length done.old ≡ length (entries plan.now.plan.contents.operations) }
    requires within { ArePlaces plan.now.plan.contents places.now }
    ensures since_size { length since.new ≡ length since.old }
    ensures done_size { length done.new ≡ length done.old }
    ensures since { AreSetAt (IsGoing plan.now.plan.contents) (counted_from plan.now.plan.contents at) (entries plan.now.plan.contents.operations) places.now since.old since.new }
    ensures done { AreSetAt (λ o. HasStatus plan.now.plan.contents o Complete) (λ o. at) (entries plan.now.plan.contents.operations) places.now done.old done.new }
{
    read_for_proof(plan);
    match plan.loaded() {
        Some(loaded) => {
            set_since(loaded, since, places, at);
            set_done(loaded, done, places, at);
        }
        None => {}
    }
}

// The request by which this is done.
fn request_of(work: Work) -> Request
    ensures at { result.at ≡ pos work.at }
    ensures what { result.what ≡ work.what }
{
    let Work { at, what } = work;
    Request {
        at: at.minute(),
        what,
    }
}

/// Makes the request of the first moment with work. The error is always `Memory`.
pub(crate) fn make(
    plan: &mut Plan,
    since: &mut [Option<Moment>],
    done: &mut [Option<Moment>],
    going: &mut Vec<usize>,
    work: Work,
) -> Result<Request, Refusal>
    requires ahead { (s : Ahead) × (until : ℕ) × IsInMemory s plan.old.plan since.old done.old × IsMoment until × IsFirstWork s until work.at work.what }
    requires followed { IsFollowed plan.old.plan.contents going.old.items since.old done.old }
    ensures made { IfOk result (λ q. (s : Ahead) (until : ℕ) → IsInMemory s plan.old.plan since.old done.old → IsFirstWork s until work.at work.what → GoesOn until s q plan.new.plan since.new done.new) }
    ensures followed { OnOk result (IsFollowed plan.new.plan.contents going.new.items since.new done.new) }
    ensures like { OnOk result (IsLike plan.old.plan.contents plan.new.plan.contents) }
    ensures onward { OnOk result (plan.old.plan.clock ≤ plan.new.plan.clock) }
    ensures memory { IfErr result (λ r. r ≡ Refusal.Memory) }
{
    let at = work.at;
    let request = request_of(work);
    let places = carry_out(plan, &request)?;
    read_for_proof(plan);
    set_times(plan, since, done, &places, at);
    follow_going(plan, going, &places)?;
    Ok(request)
}
