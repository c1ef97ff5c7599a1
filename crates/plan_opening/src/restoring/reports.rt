// What rows of operations say was reported of them and commanded.
ghost use Rattle.std.specs.Prelude.{◌≡◌};
ghost use Rattle.plan_basics.specs.Keys.{Name};
ghost use Rattle.plan_basics.specs.Names.{IsName};
ghost use Rattle.plan_model.specs.Valid.{IsValid};
ghost use Rattle.plan_records.specs.Changes.{is_at, revised};
ghost use Rattle.plan_opening.specs.Restoring.{reported, with_report};

use plan_drafts::PlanContents;
use plan_model::OperationRecord;
use plan_records::{OperationRow, PlanRow};
use status_rules::Mark;

// A mark is looked at for the proof alone, which learns that its code is legal.
fn read_for_proof(mark: &Mark)
    ensures { (code : Name) → mark.now ≡ Mark.Error code → IsName 4 code }
{
    if let Mark::Error(code) = mark {
        let _ = code.as_bytes();
    }
}

// The operation with the mark and the flags of its row.
fn with_report(operation: &OperationRecord, row: &OperationRow) -> OperationRecord
    ensures { result ≡ with_report row.now operation.now }
{
    OperationRecord {
        mark: row.mark,
        held: row.held,
        nop: row.nop,
        ..*operation
    }
}

// The contents with the mark and the flags of a row on its operation. A row of no operation of theirs is passed over.
fn put_report(contents: &mut PlanContents, row: &OperationRow)
    requires { IsValid contents.old }
    ensures reported { contents.new ≡ revised (is_at row.now.op) (with_report row.now) contents.old }
    ensures valid { IsValid contents.new }
{
    read_for_proof(&row.mark);
    if let Some(operation) = contents.operation(&row.op) {
        let operation = with_report(operation, row);
        contents.set_operation(&row.op, operation);
    }
}

// The contents with the marks and flags of these rows on their operations.
pub fn put_reports(contents: &mut PlanContents, rows: &[PlanRow])
    requires { IsValid contents.old }
    ensures reported { contents.new ≡ reported rows.now contents.old }
    ensures valid { IsValid contents.new }
{
    for row in rows {
        if let PlanRow::Operation(row) = row {
            put_report(contents, row);
        }
    }
}
