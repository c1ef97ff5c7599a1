// The requests of a forecast, one after another.
ghost use Rattle.std.specs.Prelude.{◌≡◌, List, [], ◌∷◌, ◌++◌, length, IfOk, OnOk, IfErr, MatchOption};
ghost use Rattle.std.specs.FinMap.{entries};
ghost use Rattle.plan_basics.specs.declared.Refusal.{Refusal};
ghost use Rattle.plan_forecast.specs.Ahead.{Ahead, LeadsOn};
ghost use Rattle.forecasting.specs.Times.{AreTimesOf};
ghost use Rattle.forecasting.specs.Following.{AreGoingAt, IsFollowed};
ghost use Rattle.forecasting.specs.Turns.{IsFirstWork, IsHorizon};
ghost use Rattle.plan_records.specs.declared.Request.{Request};
ghost use Rattle.forecasting.specs.InMemory.{GoesOn, IsIdleUpTo, IsInMemory};

use super::making::{make, read_for_proof};
use super::next::{Work, first_work};
use super::turns::Horizon;
use plan_basics::{Moment, Refusal};
use plan_core::Plan;
use plan_records::Request;
use std::alloc::AllocError;

// What is to be done next in a plan, up to the horizon.
fn next_work(
    plan: &Plan,
    since: &[Option<Moment>],
    going: &[usize],
    horizon: &Horizon,
) -> Option<Work>
    requires since { length since.now ≡ length (entries plan.now.plan.contents.operations) }
    requires going { AreGoingAt plan.now.plan.contents going.now }
    requires lasting { IsHorizon plan.now.plan horizon.now }
    ensures { (s : Ahead) → s.plan ≡ plan.now.plan → AreTimesOf s.since (entries plan.now.plan.contents.operations) since.now → MatchOption result (IsIdleUpTo horizon.now.until s) (λ w. IsFirstWork s horizon.now.until w.at w.what) }
{
    let clock = plan.clock();
    let Some(loaded) = plan.loaded() else {
        return None;
    };
    first_work(loaded, since, going, horizon, clock)
}

// Makes the next request of a forecast, if there is one up to the horizon. The error is always `Memory`.
fn step_ahead(
    plan: &mut Plan,
    since: &mut [Option<Moment>],
    done: &mut [Option<Moment>],
    going: &mut Vec<usize>,
    horizon: &Horizon,
) -> Result<Option<Request>, Refusal>
    requires ahead { (s : Ahead) × IsInMemory s plan.old.plan since.old done.old }
    requires followed { IsFollowed plan.old.plan.contents going.old.items since.old done.old }
    requires lasting { IsHorizon plan.old.plan horizon.now }
    ensures made { IfOk result (λ next. (s : Ahead) → IsInMemory s plan.old.plan since.old done.old → MatchOption next (IsIdleUpTo horizon.now.until s × IsInMemory s plan.new.plan since.new done.new) (λ q. GoesOn horizon.now.until s q plan.new.plan since.new done.new)) }
    ensures followed { OnOk result (IsFollowed plan.new.plan.contents going.new.items since.new done.new) }
    ensures lasting { OnOk result (IsHorizon plan.new.plan horizon.now) }
    ensures memory { IfErr result (λ r. r ≡ Refusal.Memory) }
{
    let _ = horizon.until.minute();
    match next_work(plan, since, going, horizon) {
        Some(work) => Ok(Some(make(plan, since, done, going, work)?)),
        None => Ok(None),
    }
}

/// Adds a request to these.
pub(crate) fn add_request(requests: &mut Vec<Request>, request: Request) -> Result<(), AllocError>
    ensures { OnOk result (requests.new.items ≡ requests.old.items ++ request ∷ []) }
{
    requests.push(request)?;
    Ok(())
}

/// Makes the requests of a forecast from a plan on, up to the horizon, and adds them to these. The error is always `Memory`.
pub(crate) fn go_on(
    plan: &mut Plan,
    since: &mut [Option<Moment>],
    done: &mut [Option<Moment>],
    going: &mut Vec<usize>,
    horizon: &Horizon,
    requests: &mut Vec<Request>,
) -> Result<(), Refusal>
    requires ahead { (s : Ahead) × IsInMemory s plan.old.plan since.old done.old }
    requires followed { IsFollowed plan.old.plan.contents going.old.items since.old done.old }
    requires lasting { IsHorizon plan.old.plan horizon.now }
    ensures made { OnOk result ((s : Ahead) → IsInMemory s plan.old.plan since.old done.old → (qs : List Request) × (t : Ahead) × (requests.new.items ≡ requests.old.items ++ qs) × LeadsOn horizon.now.until s qs t × IsInMemory t plan.new.plan since.new done.new) }
    ensures memory { IfErr result (λ r. r ≡ Refusal.Memory) }
{
    loop {
        read_for_proof(plan);
        match step_ahead(plan, since, done, going, horizon)? {
            Some(request) => add_request(requests, request)?,
            None => return Ok(()),
        }
    }
}
