// What is under way.
ghost use Rattle.std.specs.Prelude.{◌≡◌, ◌<◌, All, Contains, Decides, Some, length, slice_get};
ghost use Rattle.std.specs.FinMap.{entries};
ghost use Rattle.plan_basics.specs.declared.keys.OpKey.{OpKey as OpKeyValue};
ghost use Rattle.plan_model.specs.Contents.{IsInPlan, Operation};
ghost use Rattle.plan_checks.specs.Commands.{IsItsUnderWay, IsOtherUnderWay};

use derived_figures::Outline;
use plan_basics::{OccKey, OpKey};

// Whether this is another operation, and under way.
fn is_other_under_way(outline: &Outline<'_>, key: &OpKey, other: &OpKey) -> bool
    requires { IsInPlan outline.now other.now }
    ensures { Decides result (IsOtherUnderWay outline.now key.now other.now) }
{
    other != key && outline.status_of(other).unwrap().is_under_way()
}

/// Whether one of these operations of the plan, another than this one, is under way.
pub fn is_another_under_way(outline: &Outline<'_>, key: &OpKey, others: &[OpKey]) -> bool
    requires { All (IsInPlan outline.now) others.now }
    ensures { Decides result ((q : OpKeyValue) × Contains others.now q × IsOtherUnderWay outline.now key.now q) }
{
    for other in others {
        if is_other_under_way(outline, key, other) {
            return true;
        }
    }
    false
}

// Whether the operation at an index is one of the occurrence's, and under way.
fn is_its_under_way(outline: &Outline<'_>, occurrence: &OccKey, place: usize) -> bool
    requires { place < length (entries outline.now.operations) }
    ensures { (o : OpKeyValue) → (op : Operation) → slice_get (entries outline.now.operations) place ≡ Some (o, op) → Decides result (IsItsUnderWay outline.now occurrence.now o) }
{
    let key = *outline.uncounted().operation_key(place);
    key.occurrence == *occurrence && outline.status_at(place).is_under_way()
}

/// Whether an operation of the occurrence is under way.
pub fn is_occurrence_under_way(outline: &Outline<'_>, occurrence: &OccKey) -> bool
    ensures { Decides result ((o : OpKeyValue) × IsItsUnderWay outline.now occurrence.now o) }
{
    for place in 0..outline.uncounted().operation_count() {
        if is_its_under_way(outline, occurrence, place) {
            return true;
        }
    }
    false
}
