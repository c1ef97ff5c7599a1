// What the plan has of what an extension's records name.
ghost use Rattle.std.specs.Prelude.{◌≡◌, ◌↔◌, ◌<◌, true, Some, IsTrue, MatchOption};
ghost use Rattle.std.specs.FinMap.{contains_key, get};
ghost use Rattle.plan_drafts.specs.plan_model.specs.Contents.{IsInPlan};
ghost use Rattle.plan_drafts.specs.plan_model.specs.Status.{HasStatus, IsWaitingOrReady};
ghost use Rattle.plan_drafts.specs.plan_model.specs.Valid.{IsSound};
ghost use Rattle.plan_drafts.specs.plan_model.specs.declared.Stock.{Stock};
ghost use Rattle.plan_reasons.specs.plan_core.specs.derived_figures.specs.Reports.{IsOfStatus};
ghost use Rattle.extension_faults.specs.Beside.{is_deleted, OperationStays, Stays};

use plan_basics::{OccKey, OpKey, ResName, WsName};
use plan_drafts::{Need, Status};
use plan_reasons::Plan;

/// Whether the plan has a workstation.
pub fn has_workstation(plan: &Plan, name: &WsName) -> bool
    ensures { IsTrue result ↔ (contains_key plan.now.plan.contents.workstations name.now ≡ true) }
{
    plan.ready(name).is_some()
}

/// Whether the plan has a special resource.
pub fn has_resource(plan: &Plan, name: &ResName) -> bool
    ensures { IsTrue result ↔ (contains_key plan.now.plan.contents.resources name.now ≡ true) }
{
    match plan.loaded() {
        Some(loaded) => loaded.contents().resource(name).is_some(),
        None => false,
    }
}

// Whether one number is beyond another.
fn is_beyond(amount: u32, quantity: u32) -> bool
    ensures { IsTrue result ↔ (quantity < amount) }
{
    quantity < amount
}

/// Whether a need is of more than the plan has of the special resource.
pub fn is_beyond_quantity(plan: &Plan, need: &Need) -> bool
    ensures { IsTrue result ↔ ((stock : Stock) × (get plan.now.plan.contents.resources need.now.name ≡ Some stock) × (stock.quantity < need.now.amount)) }
{
    let Some(loaded) = plan.loaded() else {
        return false;
    };
    match loaded.contents().resource(&need.name) {
        Some(stock) => is_beyond(need.amount, stock.quantity),
        None => false,
    }
}

/// Whether an occurrence is in the plan and stays there.
pub fn stays(plan: &Plan, key: &OccKey) -> bool
    ensures { IsTrue result ↔ Stays plan.now.plan.contents key.now }
{
    match plan.view_occ(key) {
        Some(view) => !view.status.is_over(),
        None => false,
    }
}

/// The plan is looked at for the proof alone, which learns that it is sound.
pub fn read_for_proof(plan: &Plan)
    ensures { IsSound plan.now.plan.contents }
{
    let _ = plan.clock();
}

// The status of an operation, if the plan has it.
fn status_of(plan: &Plan, key: &OpKey) -> Option<Status>
    ensures { MatchOption result (¬ IsInPlan plan.now.plan.contents key.now) (IsOfStatus plan.now.plan.contents key.now) }
{
    read_for_proof(plan);
    match plan.view_op(key) {
        Some(view) => Some(view.status),
        None => None,
    }
}

/// Whether an operation is in the plan and stays there.
pub fn operation_stays(plan: &Plan, key: &OpKey) -> bool
    ensures { IsTrue result ↔ OperationStays plan.now.plan.contents key.now }
{
    plan.view_op(key).is_some() && stays(plan, &key.occurrence)
}

// Whether the status is that of what is deleted.
fn is_deleted(status: Status) -> bool
    ensures { result ≡ is_deleted status }
{
    matches!(status, Status::Deleted)
}

/// Whether an operation of the plan is deleted.
pub fn has_been_deleted(plan: &Plan, key: &OpKey) -> bool
    ensures { IsTrue result ↔ HasStatus plan.now.plan.contents key.now Status.Deleted }
{
    match status_of(plan, key) {
        Some(status) => is_deleted(status),
        None => false,
    }
}

/// Whether an operation of the plan waits or is ready.
pub fn waits_or_is_ready(plan: &Plan, key: &OpKey) -> bool
    ensures { IsTrue result ↔ IsWaitingOrReady plan.now.plan.contents key.now }
{
    match status_of(plan, key) {
        Some(status) => status.is_waiting_or_ready(),
        None => false,
    }
}
