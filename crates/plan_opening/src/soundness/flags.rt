// Whether operations are held only where nothing was reported of them.
ghost use Rattle.std.specs.Prelude.{◌≡◌, ◌↔◌, IsTrue};
ghost use Rattle.plan_opening.specs.Laws.{HasNoReport, HeldAreWithoutReport, IsHeldRightly};

use plan_model::OperationRecord;
use plan_rows::ValidContents;
use status_rules::Mark;

/// Whether nothing was reported of an operation of this mark, or it is deleted.
pub fn has_no_report(mark: &Mark) -> bool
    ensures { IsTrue result ↔ HasNoReport mark.now }
{
    matches!(mark, Mark::Unmarked | Mark::Deleted)
}

// Whether an operation is held only where nothing was reported of it, or it is deleted.
fn is_held_rightly(operation: &OperationRecord) -> bool
    ensures { IsTrue result ↔ IsHeldRightly operation.now }
{
    !operation.held || has_no_report(&operation.mark)
}

/// Whether each held operation has no mark, or is deleted.
pub fn held_are_without_report(contents: &ValidContents) -> bool
    ensures { IsTrue result ↔ HeldAreWithoutReport contents.now }
{
    for row in contents.operations() {
        if !is_held_rightly(&row.1) {
            return false;
        }
    }
    true
}
