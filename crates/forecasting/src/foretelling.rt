// The whole forecast.
ghost use Rattle.std.specs.Prelude.{◌≡◌, ◌⊎◌, ℕ, length, List, Option, IfOk, IfErr};
ghost use Rattle.std.specs.FinMap.{entries};
ghost use Rattle.plan_basics.specs.declared.Refusal.{Refusal};
ghost use Rattle.plan_basics.specs.declared.keys.OpKey.{OpKey};
ghost use Rattle.plan_model.specs.Plan.{Plan as PlanValue};
ghost use Rattle.plan_forecast.specs.Ahead.{Ahead, IsForecast, tick};
ghost use Rattle.plan_records.specs.Answer.{accepted, refused};
ghost use Rattle.plan_records.specs.Step.{Step};
ghost use Rattle.forecasting.specs.Known.{since_in};
ghost use Rattle.forecasting.specs.InMemory.{IsInMemory, NoTimes, times_by};

use super::beginning::{begin, count_of, horizon_of, known_times, no_times};
use super::following::{every_place, follow_going};
use super::known::KnownStarts;
use super::making::{read_for_proof, set_times};
use super::stepping::{add_request, go_on};
use plan_basics::{Moment, Refusal};
use plan_core::Plan;
use plan_records::Request;

/// A forecast: its requests, and by the indices of the plan's operations the minutes since which they are going, and those at which
/// they were complete.
#[derive(Drop)]
pub struct Foretold {
    pub since: Vec<Option<Moment>>,
    pub done: Vec<Option<Moment>>,
    pub requests: Vec<Request>,
}

// The requests of a forecast whose first one has been made. The error is always `Memory`.
fn requests_from(
    plan: &mut Plan,
    since: &mut [Option<Moment>],
    done: &mut [Option<Moment>],
    first: Request,
    at: Moment,
    until: Moment,
) -> Result<Vec<Request>, Refusal>
    requires first { first ≡ tick at }
    requires begun { (P : PlanValue) × (known : OpKey → Option ℕ) × (chosen : List OpKey) × (since.old ≡ times_by known (entries P.contents.operations)) × Step P (tick at) (accepted chosen) plan.old.plan }
    requires done { NoTimes (length (entries plan.old.plan.contents.operations)) done.old }
    ensures made { IfOk result (λ requests. (P : PlanValue) (known : OpKey → Option ℕ) (chosen : List OpKey) → since.old ≡ times_by known (entries P.contents.operations) → Step P (tick at) (accepted chosen) plan.old.plan → (t : Ahead) × IsForecast P known at until requests.items t × IsInMemory t plan.new.plan since.new done.new) }
    ensures memory { IfErr result (λ r. r ≡ Refusal.Memory) }
{
    let every = every_place(plan.alloc(), count_of(plan))?;
    read_for_proof(plan);
    set_times(plan, since, done, &every, at);
    let mut going = Vec::new(plan.alloc());
    follow_going(plan, &mut going, &every)?;
    let horizon = horizon_of(plan, until)?;
    let mut requests = Vec::new(plan.alloc());
    add_request(&mut requests, first)?;
    go_on(plan, since, done, &mut going, &horizon, &mut requests)?;
    Ok(requests)
}

/// Makes the forecast of a plan from a moment up to another one in the plan itself, which is led to its end; or says what a tick at
/// that moment is refused for, or want of memory. What runs, or is ready where its completion alone is reported, is timed by its
/// known start, and ends at that moment where it is over already; with none, and where it is only named, it is as if it began then.
/// Starts should be known of what is going alone, as by a table that has followed the plan: any other counts as the operation's next
/// one.
/// After want of memory the plan may have been led on for a while.
pub fn forecast(
    plan: &mut Plan,
    known: &KnownStarts,
    at: Moment,
    until: Moment,
) -> Result<Foretold, Refusal>
    ensures forecast { IfOk result (λ f. (t : Ahead) × IsForecast plan.old.plan (since_in known.now) at until f.requests.items t × IsInMemory t plan.new.plan f.since.items f.done.items) }
    ensures refused { IfErr result (λ r. (r ≡ Refusal.Memory) ⊎ Step plan.old.plan (tick at) (refused r) plan.old.plan) }
{
    let mut since = known_times(plan, known)?;
    let first = begin(plan, at)?;
    let mut done = no_times(plan.alloc(), count_of(plan))?;
    let requests = requests_from(plan, &mut since, &mut done, first, at, until)?;
    Ok(Foretold {
        since,
        done,
        requests,
    })
}
