// What a request leads to where no plan is loaded: a load, or nothing.
ghost use Rattle.std.specs.Prelude.{◌≡◌, ◌⊎◌, ◌≤ℤ◌, ℕ, pos, None, Some, IfErr, IfOk, OnOk};
ghost use Rattle.plan_basics.specs.Refusals.{IsLeastRefusal, NoneRefuses};
ghost use Rattle.plan_basics.specs.declared.Refusal.{Refusal};
ghost use Rattle.request_outcomes.specs.Rebuilds.{AreRebuildLooks, IsRebuildOf};
ghost use Rattle.request_outcomes.specs.Requested.{AreMadeBy, MayBeMadeAt};
ghost use Rattle.plan_records.specs.Acceptance.{MayBeAccepted};
ghost use Rattle.plan_records.specs.Answer.{refused};
ghost use Rattle.plan_records.specs.Step.{Step};
ghost use Rattle.plan_drafts.specs.PlanGraphs.{IsGraphFor};
ghost use Rattle.plan_model.specs.Contents.{nothing};
ghost use Rattle.plan_model.specs.Plan.{IsSoundPlan, plan_held};

use super::rebuilds::{ChangeBase, Rebuild, rebuilt_plan};
use super::requests::drafted;
use operation_graph::Graph;
use plan_basics::{Moment, Refusal};
use plan_records::{Request, What};
use small_requests::{PlanBefore, RecordCopy, check_load, whole_plans_look_few};
use std::alloc::Global;

// What stands in the way of a request that is made at a moment where no plan is loaded, but for that moment.
fn check_first(what: &What) -> Result<(), Refusal>
    ensures ok { (clock at : ℕ) → OnOk result (NoneRefuses (MayBeMadeAt (plan_held clock None) at what.now)) }
    ensures refused { (clock at : ℕ) → IfErr result (IsLeastRefusal (MayBeMadeAt (plan_held clock None) at what.now)) }
{
    if let What::Load(draft) = what {
        check_load(false, draft)
    } else {
        Err(Refusal::NotLoaded)
    }
}

// What a request that may be accepted where no plan is loaded, which is a load, makes the plan hold, and the graph of that. The error
// is always `Memory`.
fn first_contents(alloc: Global, request: &Request) -> Result<(RecordCopy, Graph), Refusal>
    requires { (clock : ℕ) × NoneRefuses (MayBeAccepted (plan_held clock None) request.now) }
    ensures made { IfOk result (λ new. AreMadeBy nothing request.now.what new.0) }
    ensures graph { IfOk result (λ new. IsGraphFor new.0 new.1) }
    ensures refused { IfErr result (λ r. r ≡ Refusal.Memory) }
{
    match &request.what {
        What::Load(draft) => drafted(alloc, draft.as_ref().unwrap()),
        _ => unreachable!(),
    }
}

// What a request that may be accepted where no plan is loaded leads to: four looks at each operation at most. The error is always
// `Memory`.
fn loaded_first(
    alloc: Global,
    clock: Moment,
    request: &Request,
    at: Moment,
) -> Result<Rebuild, Refusal>
    requires sound { IsSoundPlan (plan_held clock None) }
    requires clear { NoneRefuses (MayBeAccepted (plan_held clock None) request.now) }
    requires at { request.now.at ≡ pos at }
    ensures rebuild { IfOk result (IsRebuildOf (plan_held clock None) request.now at) }
    ensures looked { IfOk result (λ a. AreRebuildLooks nothing request.now.what a 0) }
    ensures refused { IfErr result (λ r. r ≡ Refusal.Memory) }
{
    whole_plans_look_few();
    let (copy, graph) = first_contents(alloc, request)?;
    let before = PlanBefore {
        clock,
        loaded: None,
    };
    let kept = ChangeBase::Kept(&before);
    Ok(rebuilt_plan(alloc, &kept, copy.into_counted(), graph, at))
}

/// What a request that is made at a moment leads to where no plan is loaded; or the least refusal that applies, or that no memory
/// is found.
pub fn first_outcome(
    alloc: Global,
    clock: Moment,
    request: &Request,
    at: Moment,
) -> Result<Rebuild, Refusal>
    requires sound { IsSoundPlan (plan_held clock None) }
    requires at { request.now.at ≡ pos at }
    requires onward { pos clock ≤ℤ request.now.at }
    ensures rebuild { IfOk result (IsRebuildOf (plan_held clock None) request.now at) }
    ensures looked { IfOk result (λ a. AreRebuildLooks nothing request.now.what a 0) }
    ensures refused { IfErr result (λ r. (r ≡ Refusal.Memory) ⊎ Step (plan_held clock None) request.now (refused r) (plan_held clock None)) }
{
    check_first(&request.what)?;
    loaded_first(alloc, clock, request, at)
}
