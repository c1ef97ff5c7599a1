// When each operation of a plan is satisfied, as its record says.
ghost use Rattle.std.specs.Prelude.{◌≡◌, Some};
ghost use Rattle.counted_records.specs.Rules.{rule_on, rules_of};

use super::counted::CountedRecords;
use plan_basics::Attr;
use plan_changes::PlanContents;
use plan_status::{Mark, OperationRecord};
use satisfaction::{Rule, Rules};

/// When an operation on a workstation that reports so is satisfied: whatever precedes it, where it is done or deleted; by itself,
/// where nothing was reported of it, it isn't held, and it is a no-operation or its workstation doesn't report.
fn rule_on(attribute: Attr, operation: &OperationRecord) -> Rule
    ensures { result ≡ rule_on (Some attribute) operation.now }
{
    let needs_no_report = operation.nop || matches!(attribute, Attr::Nonreporting);
    Rule {
        given: matches!(operation.mark, Mark::Done | Mark::Deleted),
        passing: matches!(operation.mark, Mark::Unmarked) && !operation.held && needs_no_report,
    }
}

/// The rules of a plan's operations, read off their records: one look for each.
impl Rules for CountedRecords {
    type Source = PlanContents;

    ghost source = { λ s. s.contents };

    ghost listed = { λ s. rules_of s.contents };

    ghost looks = { λ s. s.looks };

    fn rule_of(&mut self, node: usize) -> Rule {
        let seen = self.see(node);
        rule_on(
            seen.uncounted.attribute_of(seen.operation, node),
            seen.operation,
        )
    }
}
