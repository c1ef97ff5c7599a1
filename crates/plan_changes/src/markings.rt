// Markings of some operations, noted and put back.
ghost use Rattle.std.specs.Prelude.{◌≡◌, All, length};
ghost use Rattle.plan_records.specs.plan_model.specs.Contents.{Contents, IsInPlan};
ghost use Rattle.plan_changes.specs.Markings.{DifferBothWays, DifferInMarks, DifferencesFollow, HoldingRemarks, MarkingRemarks, NopRemarks, OperationsStayInPlan, RemakingRemarks, WereMarked};

use plan_basics::OpKey;
use plan_records::{Marking, PlanContents};

/// Puts these markings on these operations, one for each. It takes no memory.
pub fn put_markings(contents: &mut PlanContents, keys: &[OpKey], marks: &[Marking])
    requires one_each { length marks.now ≡ length keys.now }
    requires known { All (IsInPlan contents.old) keys.now }
    ensures { (P : Contents) → DifferInMarks P contents.old keys.now → WereMarked P keys.now marks.now → contents.new ≡ P }
{
    for (i, key) in keys.iter().enumerate() {
        contents.set_marking(key, &marks[i]);
    }
}

/// The law that plans differ in markings both ways, that they have the same operations then, and that one such difference
/// after another is one; and that where operations are held or released, made no-operations or not, or given a mark, no more
/// than their markings differ. It does nothing.
pub fn markings_differ()
    ensures both_ways { DifferBothWays }
    ensures in_plan { OperationsStayInPlan }
    ensures follow { DifferencesFollow }
    ensures remade { RemakingRemarks }
    ensures held { HoldingRemarks }
    ensures nop { NopRemarks }
    ensures marked { MarkingRemarks }
{}
