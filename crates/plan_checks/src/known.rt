// Whether the plan has what occurrences that are added name.
ghost use Rattle.std.specs.Prelude.{◌≡◌, true, false, Decides};
ghost use Rattle.std.specs.FinMap.{contains_key};
ghost use Rattle.plan_basics.specs.declared.Refusal.{Refusal};
ghost use Rattle.plan_records.specs.Acceptance.{MayBeAdded};
ghost use Rattle.plan_drafts.specs.Contents.{added_of, AreExtensionParts};
ghost use Rattle.plan_drafts.specs.Drafts.{IsOwn};
ghost use Rattle.plan_model.specs.Valid.{AmountsFit};
ghost use Rattle.plan_checks.specs.Additions.{HasResources, HasSoMuch, HasWorkstation, NeedsFit};

use derived_figures::{Statuses, is_one_of};
use plan_basics::{OccKey, OpKey, ResName};
use plan_drafts::ExtensionParts;
use plan_model::OperationRecord;
use special_resources::Need;

/// Whether an operation is of an occurrence that is added.
pub fn is_own(parts: &ExtensionParts, key: &OpKey) -> bool
    requires { AreExtensionParts parts.now }
    ensures { Decides result (IsOwn (added_of parts.now) key.now) }
{
    is_one_of(&parts.occurrences, &key.occurrence)
}

// Whether the operation's workstation is in the plan.
fn has_workstation(plan: &Statuses<'_>, operation: &OperationRecord) -> bool
    ensures { Decides result (HasWorkstation plan.now operation.now) }
{
    plan.uncounted()
        .workstation(&operation.workstation)
        .is_some()
}

/// Whether the plan has the workstations of all operations that are added.
pub fn are_workstations_known(plan: &Statuses<'_>, parts: &ExtensionParts) -> bool
    requires { AreExtensionParts parts.now }
    ensures { Decides result (MayBeAdded plan.now (added_of parts.now) Refusal.UnknownWorkstation) }
{
    parts
        .operations
        .iter()
        .all(|row| has_workstation(plan, &row.1))
}

// Whether the special resource is in the plan.
fn has_resource(plan: &Statuses<'_>, name: &ResName) -> bool
    ensures { Decides result (contains_key plan.now.resources name.now ≡ true) }
{
    plan.uncounted().resource(name).is_some()
}

// Whether the special resources that the operation needs are in the plan.
fn has_resources(plan: &Statuses<'_>, operation: &OperationRecord) -> bool
    ensures { Decides result (HasResources plan.now operation.now) }
{
    operation
        .needs
        .as_slice()
        .iter()
        .all(|need| has_resource(plan, &need.name))
}

/// Whether the plan has the special resources that the operations that are added need.
pub fn are_resources_known(plan: &Statuses<'_>, parts: &ExtensionParts) -> bool
    requires { AreExtensionParts parts.now }
    ensures { Decides result (MayBeAdded plan.now (added_of parts.now) Refusal.UnknownResource) }
{
    parts
        .operations
        .iter()
        .all(|row| has_resources(plan, &row.1))
}

// Whether the plan has as much of the special resource as the need is of, if it has it.
fn is_within_stock(plan: &Statuses<'_>, need: &Need) -> bool
    ensures { Decides result (HasSoMuch plan.now need.now.name need.now.amount) }
{
    match plan.uncounted().resource(&need.name) {
        Some(stock) => need.amount <= stock.quantity,
        None => true,
    }
}

// Whether each need of the operation is of no more than there is.
fn needs_fit(plan: &Statuses<'_>, operation: &OperationRecord) -> bool
    ensures { Decides result (NeedsFit plan.now operation.now) }
{
    operation
        .needs
        .as_slice()
        .iter()
        .all(|need| is_within_stock(plan, need))
}

/// Whether the needs of the operations that are added are of no more than there is.
pub fn amounts_fit(plan: &Statuses<'_>, parts: &ExtensionParts) -> bool
    requires { AreExtensionParts parts.now }
    ensures { Decides result (AmountsFit plan.now.resources (added_of parts.now).operations) }
{
    parts.operations.iter().all(|row| needs_fit(plan, &row.1))
}

// Whether the plan has no occurrence of a key.
fn is_new_occurrence(plan: &Statuses<'_>, key: &OccKey) -> bool
    ensures { Decides result (contains_key plan.now.occurrences key.now ≡ false) }
{
    plan.uncounted().occurrence(key).is_none()
}

/// Whether the plan has none of the occurrences that are added.
pub fn are_new_occurrences(plan: &Statuses<'_>, parts: &ExtensionParts) -> bool
    requires { AreExtensionParts parts.now }
    ensures { Decides result (MayBeAdded plan.now (added_of parts.now) Refusal.Duplicate) }
{
    parts
        .occurrences
        .iter()
        .all(|row| is_new_occurrence(plan, &row.0))
}
