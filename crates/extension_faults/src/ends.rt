// What the ends of an extension's dependencies are, beside the plan.
ghost use Rattle.std.specs.Prelude.{◌↔◌, IsTrue};
ghost use Rattle.plan_drafts.specs.plan_model.specs.Status.{HasStatus, IsWaitingOrReady};
ghost use Rattle.plan_drafts.specs.status_rules.specs.declared.Status.{Status};
ghost use Rattle.record_faults.specs.Sayings.{Sayings, given, IsIndex};
ghost use Rattle.text_faults.specs.AddedFaults.{IsOwn};
ghost use Rattle.extension_faults.specs.Beside.{IsFoundBeside, IsOther};

use super::looks::{has_been_deleted, operation_stays, waits_or_is_ready};
use plan_basics::OpKey;
use plan_drafts::RowKey;
use plan_reasons::Plan;
use record_faults::{Index, first_place};

// Whether an operation is of an occurrence that the text says.
fn is_own(index: &Index, key: &OpKey) -> bool
    ensures { (said : Sayings) → IsIndex (given said) index.now → (IsTrue result ↔ IsOwn said key.now) }
{
    first_place(index, &RowKey::Occurrence(key.occurrence)).is_some()
}

// Whether it is an operation of the plan that stays, and of no occurrence that the text says.
fn is_other(plan: &Plan, index: &Index, key: &OpKey) -> bool
    ensures { (said : Sayings) → IsIndex (given said) index.now → (IsTrue result ↔ IsOther plan.now.plan.contents said key.now) }
{
    operation_stays(plan, key) && !is_own(index, key)
}

/// Whether it is of an occurrence that the text says, or an operation of the plan that stays.
pub fn is_found(plan: &Plan, index: &Index, key: &OpKey) -> bool
    ensures { (said : Sayings) → IsIndex (given said) index.now → (IsTrue result ↔ IsFoundBeside plan.now.plan.contents said key.now) }
{
    is_own(index, key) || operation_stays(plan, key)
}

/// Whether it is such an operation of the plan, and deleted.
pub fn is_deleted_other(plan: &Plan, index: &Index, key: &OpKey) -> bool
    ensures { (said : Sayings) → IsIndex (given said) index.now → (IsTrue result ↔ (IsOther plan.now.plan.contents said key.now × HasStatus plan.now.plan.contents key.now Status.Deleted)) }
{
    is_other(plan, index, key) && has_been_deleted(plan, key)
}

/// Whether it is such an operation of the plan, and neither waits nor is ready.
pub fn is_other_under_way(plan: &Plan, index: &Index, key: &OpKey) -> bool
    ensures { (said : Sayings) → IsIndex (given said) index.now → (IsTrue result ↔ (IsOther plan.now.plan.contents said key.now × ¬ IsWaitingOrReady plan.now.plan.contents key.now)) }
{
    is_other(plan, index, key) && !waits_or_is_ready(plan, key)
}
