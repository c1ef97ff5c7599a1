// Why an operation of a plan in memory doesn't go on.
ghost use Rattle.std.specs.Prelude.{◌≡◌, IfErr, IfOk, MatchOption};
ghost use Rattle.plan_basics.specs.declared.Refusal.{Refusal};
ghost use Rattle.plan_model.specs.Contents.{IsInPlan};
ghost use Rattle.plan_reasons.specs.Whys.{IsWhy};

use super::answer::{Why, explain};
use plan_basics::{Moment, OpKey, Refusal};
use plan_core::Plan;
use std::alloc::Global;

/// Why an operation of a plan doesn't go on at a moment, as `explain` tells it; `None` exactly where the operation isn't
/// in the plan. The error is always `Memory`.
pub fn why(alloc: Global, plan: &Plan, key: &OpKey, at: Moment) -> Result<Option<Why>, Refusal>
    ensures why { IfOk result (λ found. MatchOption found (¬ IsInPlan plan.now.plan.contents key.now) (IsWhy plan.now.plan.contents key.now at)) }
    ensures refused { IfErr result (λ r. r ≡ Refusal.Memory) }
{
    match plan.loaded() {
        Some(loaded) => explain(alloc, loaded, key, at),
        None => Ok(None),
    }
}
