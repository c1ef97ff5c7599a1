// What a rerun of an operation reaches.
ghost use Rattle.std.specs.Prelude.{◌≡◌, ◌↔◌, true, IfErr, IfOk, filter};
ghost use Rattle.std.specs.BTreeSet.{IsFromIterResult};
ghost use Rattle.plan_basics.specs.Keys.{operation_cmp};
ghost use Rattle.plan_basics.specs.declared.Refusal.{Refusal};
ghost use Rattle.plan_basics.specs.declared.keys.OpKey.{OpKey as OpKeyValue};
ghost use Rattle.plan_model.specs.Contents.{IsInPlan};
ghost use Rattle.plan_model.specs.Starts.{Reaches};
ghost use Rattle.plan_model.specs.ready_list.specs.Choice.{is_among};
ghost use Rattle.plan_shows.specs.Views.{AreViewsOf, has_key};

use plan_basics::{OpKey, Refusal};
use plan_checks::reached_keys;
use plan_reasons::{OpView, Ops, Plan};
use std::alloc::{AllocError, Global};
use std::collections::BTreeSet;

// The keys of what a rerun of an operation of the plan reaches, itself too, in any order. The error is always `Memory`.
fn keys_reached(alloc: Global, plan: &Plan, key: &OpKey) -> Result<Vec<OpKey>, Refusal>
    requires { IsInPlan plan.now.plan.contents key.now }
    ensures reached { IfOk result (λ keys. (o : OpKeyValue) → (is_among keys.items o ≡ true) ↔ Reaches plan.now.plan.contents key.now o) }
    ensures refused { IfErr result (λ r. r ≡ Refusal.Memory) }
{
    match plan.loaded() {
        Some(loaded) => reached_keys(alloc, &loaded.outline(), key),
        None => Ok(Vec::new(alloc)),
    }
}

// These keys, to be looked up.
fn set_of(alloc: Global, keys: &[OpKey]) -> Result<BTreeSet<OpKey>, AllocError>
    ensures { IfOk result (IsFromIterResult operation_cmp keys.now) }
{
    keys.iter().copied().collect(alloc)
}

// Whether the key of an operation is among these.
fn has_key(keys: &BTreeSet<OpKey>, view: &OpView) -> bool
    ensures { result ≡ has_key keys.now view.now }
{
    keys.contains(&view.key)
}

// Those of these operations whose keys are among these.
fn views_among(
    alloc: Global,
    ops: Ops<'_>,
    keys: &BTreeSet<OpKey>,
) -> Result<Vec<OpView>, AllocError>
    ensures { IfOk result (λ views. views.items ≡ filter (has_key keys.now) ops.entry) }
{
    ops.filter(|view| has_key(keys, view)).collect(alloc)
}

/// What a rerun of an operation of the plan reaches, itself too, in key order. The error is always `Memory`.
pub(crate) fn reached_views(alloc: Global, plan: &Plan, key: &OpKey) -> Result<Vec<OpView>, Refusal>
    requires { IsInPlan plan.now.plan.contents key.now }
    ensures views { IfOk result (λ views. AreViewsOf plan.now.plan.contents (Reaches plan.now.plan.contents key.now) views.items) }
    ensures refused { IfErr result (λ r. r ≡ Refusal.Memory) }
{
    let _ = plan.clock();
    let keys = keys_reached(alloc, plan, key)?;
    let set = set_of(alloc, &keys)?;
    let views = views_among(alloc, plan.ops(), &set)?;
    Ok(views)
}
