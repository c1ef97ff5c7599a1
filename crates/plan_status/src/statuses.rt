// Statuses of operations.
ghost use Rattle.std.specs.Prelude.{◌≡◌, IfOk, Some, length};
ghost use Rattle.std.specs.FinMap.{get};
ghost use Rattle.plan_basics.specs.declared.keys.OpKey.{OpKey};
ghost use Rattle.plan_model.specs.Contents.{Contents, HasAttribute};
ghost use Rattle.plan_model.specs.Status.{HasStatus};
ghost use Rattle.plan_laws.specs.plan_drafts.specs.Places.{AreStatuses};
ghost use Rattle.plan_status.specs.Summaries.{AreSummaries};
ghost use Rattle.plan_status.specs.Standings.{IsStanding, AreStandings};

use super::standings::Standing;
use super::summaries::OperationSummary;
use plan_basics::Attr;
use plan_model::OperationRecord;
use status_rules::{Status, status_of};
use std::alloc::{AllocError, Global};

/// The status of an operation on a workstation of this attribute, by its standing.
pub fn status_with(operation: &OperationRecord, attribute: Attr, standing: &Standing) -> Status
    ensures { (P : Contents) → (o : OpKey) → get P.operations o ≡ Some operation.now → HasAttribute P operation.now.workstation attribute → IsStanding P o standing.now → HasStatus P o result }
{
    status_of(
        operation.mark,
        operation.held,
        operation.nop,
        attribute,
        standing.preds,
    )
}

/// The status of each operation, in key order, by their summaries and standings.
pub fn statuses_of(
    alloc: Global,
    summaries: &[OperationSummary],
    standings: &[Standing],
) -> Result<Vec<Status>, AllocError>
    requires { length summaries.now ≡ length standings.now }
    ensures { IfOk result (λ found. (P : Contents) → AreSummaries P summaries.now → AreStandings P standings.now → AreStatuses P found.items) }
{
    let mut statuses = Vec::with_capacity(alloc, standings.len())?;
    for (i, standing) in standings.iter().enumerate() {
        statuses.push(summaries[i].status(standing))?;
    }
    Ok(statuses)
}
