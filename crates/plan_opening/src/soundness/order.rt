// Whether what is reported came after its predecessors.
ghost use Rattle.std.specs.Prelude.{◌≡◌, ◌↔◌, Some, IsTrue};
ghost use Rattle.plan_basics.specs.declared.keys.OpKey.{OpKey};
ghost use Rattle.plan_model.specs.Contents.{Contents};
ghost use Rattle.plan_opening.specs.Laws.{IsReportedInOrder, ReportsAreInOrder};
ghost use Rattle.plan_rows.specs.plan_status.specs.Standings.{AreStandings, IsStanding};

use super::flags::has_no_report;
use plan_model::OperationRecord;
use plan_rows::{Standing, ValidContents};

// Whether what was reported of an operation came after its predecessors, by its standing.
fn is_reported_in_order(operation: &OperationRecord, standing: &Standing) -> bool
    ensures { (P : Contents) (o : OpKey) → IsStanding P o standing.now → IsTrue result ↔ IsReportedInOrder P o operation.now }
{
    has_no_report(&operation.mark) || standing.preds.satisfied
}

/// Whether what is reported of each operation came after its predecessors, by the standings of the operations.
pub fn reports_are_in_order(contents: &ValidContents, standings: &[Standing]) -> bool
    requires { AreStandings contents.now standings.now }
    ensures { IsTrue result ↔ ReportsAreInOrder contents.now }
{
    let rows = contents.operations();
    for (i, standing) in standings.iter().enumerate() {
        if !is_reported_in_order(&rows[i].1, standing) {
            return false;
        }
    }
    true
}
