// Which operations a request edits.
ghost use Rattle.std.specs.Prelude.{◌≡◌, ℕ, Decides, IfErr, IfOk, Some};
ghost use Rattle.plan_basics.specs.Refusals.{NoneRefuses};
ghost use Rattle.plan_basics.specs.declared.Refusal.{Refusal};
ghost use Rattle.plan_model.specs.Contents.{IsInPlan};
ghost use Rattle.plan_model.specs.Starts.{Reaches};
ghost use Rattle.plan_records.specs.Acceptance.{MayBeDone};
ghost use Rattle.small_requests.specs.RequestEdits.{ArePlacesWhere, IsEditedAt, IsSmall, target_of};

use super::operation_places::places_of;
use plan_basics::{OpKey, Refusal};
use plan_checks::{Outline, reached_keys};
use plan_records::What;
use std::alloc::Global;

/// Whether a request changes marks and flags, which special resources are available or when workstations are open, and
/// nothing else: all but a load, an addition, an extension, a new pair and a deletion.
pub fn is_small(what: &What) -> bool
    ensures { Decides result (IsSmall what.now) }
{
    !matches!(
        what,
        What::Load(_)
            | What::DeleteOccurrence(_)
            | What::AddOccurrence(_)
            | What::Extend(_)
            | What::AddDependency(_, _)
    )
}

// The operation that a request edits, where it edits no other.
fn target_of(what: &What) -> Option<OpKey>
    ensures { result ≡ target_of what.now }
{
    match what {
        What::Rerun(_) => None,
        _ => what.operation(),
    }
}

// The indices of the operation and of all that some path from it reaches that enters no deleted operation, ascending.
fn reached_places(alloc: Global, outline: &Outline<'_>, key: &OpKey) -> Result<Vec<usize>, Refusal>
    requires { IsInPlan outline.now key.now }
    ensures places { IfOk result (λ places. ArePlacesWhere outline.now (Reaches outline.now key.now) places.items) }
    ensures refused { IfErr result (λ r. r ≡ Refusal.Memory) }
{
    let reached = reached_keys(alloc, outline, key)?;
    Ok(places_of(alloc, &outline.uncounted(), &reached)?)
}

// The index of an operation of the plan, as a list.
fn one_place(alloc: Global, outline: &Outline<'_>, key: OpKey) -> Result<Vec<usize>, Refusal>
    requires { IsInPlan outline.now key }
    ensures places { IfOk result (λ places. ArePlacesWhere outline.now (λ o. Some key ≡ Some o) places.items) }
    ensures refused { IfErr result (λ r. r ≡ Refusal.Memory) }
{
    Ok(places_of(alloc, &outline.uncounted(), &[key])?)
}

/// The indices of the operations of which a small request, in whose way nothing stands, changes the mark or a flag,
/// ascending: that of its operation; of a rerun those of all that its operation reaches. It takes no look at a record. The error is
/// always `Memory`.
pub fn edited_places(
    alloc: Global,
    outline: &Outline<'_>,
    what: &What,
) -> Result<Vec<usize>, Refusal>
    requires small { IsSmall what.now }
    requires clear { (at : ℕ) × NoneRefuses (MayBeDone outline.now at what.now) }
    ensures places { IfOk result (λ places. IsEditedAt outline.now what.now places.items) }
    ensures refused { IfErr result (λ r. r ≡ Refusal.Memory) }
{
    if let What::Rerun(key) = what {
        return reached_places(alloc, outline, key);
    }
    match target_of(what) {
        Some(key) => one_place(alloc, outline, key),
        None => Ok(Vec::new(alloc)),
    }
}
