// Whether marks are those that workstations allow.
ghost use Rattle.std.specs.Prelude.{◌≡◌, ◌↔◌, Some, IsTrue};
ghost use Rattle.std.specs.FinMap.{get};
ghost use Rattle.plan_basics.specs.declared.keys.OpKey.{OpKey};
ghost use Rattle.plan_model.specs.Valid.{IsValid, MayBear};
ghost use Rattle.plan_opening.specs.Laws.{HasMarkAllowed, MarksAreAllowed};

use plan_basics::Attr;
use plan_model::OperationRecord;
use plan_rows::{ValidContents, attribute_of};
use status_rules::Mark;

// Whether an operation on a workstation of this attribute may bear this mark.
fn may_bear(attribute: Attr, mark: &Mark) -> bool
    ensures { IsTrue result ↔ MayBear attribute mark.now }
{
    match mark {
        Mark::Unmarked | Mark::Deleted => true,
        Mark::Named => attribute == Attr::Automatic,
        Mark::Interrupted => attribute == Attr::StartAndCompletion,
        Mark::Running | Mark::Undecided => {
            attribute == Attr::Automatic || attribute == Attr::StartAndCompletion
        }
        Mark::Done | Mark::Error(_) => attribute != Attr::Nonreporting,
    }
}

// Whether the mark of an operation of the plan is one that its workstation's attribute allows.
fn has_mark_allowed(contents: &ValidContents, operation: &OperationRecord) -> bool
    requires { (o : OpKey) × (get contents.now.operations o ≡ Some operation.now) }
    ensures { IsTrue result ↔ HasMarkAllowed contents.now operation.now }
{
    may_bear(attribute_of(contents, operation), &operation.mark)
}

/// Whether each mark is one that its workstation's attribute allows.
pub fn marks_are_allowed(contents: &ValidContents) -> bool
    ensures allowed { IsTrue result ↔ MarksAreAllowed contents.now }
    ensures valid { IsValid contents.now }
{
    for row in contents.operations() {
        if !has_mark_allowed(contents, &row.1) {
            return false;
        }
    }
    true
}
