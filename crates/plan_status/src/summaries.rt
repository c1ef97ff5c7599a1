// Summaries of operations.
ghost use Rattle.std.specs.Prelude.{◌≡◌, IfOk, Some};
ghost use Rattle.std.specs.FinMap.{get};
ghost use Rattle.plan_basics.specs.declared.keys.OpKey.{OpKey};
ghost use Rattle.plan_model.specs.Contents.{Contents};
ghost use Rattle.plan_model.specs.Holdings.{takes};
ghost use Rattle.plan_model.specs.Status.{HasStatus};
ghost use Rattle.plan_status.specs.Summaries.{AreSummaries, HasSummary, IsSummaryOf};
ghost use Rattle.plan_status.specs.Standings.{IsStanding};

use super::standings::Standing;
use super::valid::ValidContents;
use plan_basics::{Attr, Moment};
use plan_model::OperationRecord;
use status_rules::{Mark, Status, status_of};
use std::alloc::{AllocError, Global};

/// What the figures of a whole plan go by of one operation, read off its record once.
#[derive(Clone, Copy)]
pub struct OperationSummary {
    pub mark: Mark,
    pub held: bool,
    pub nop: bool,
    /// How its workstation reports.
    pub attribute: Attr,
    /// The index of its workstation, by name.
    pub station: usize,
    pub duration: u16,
    pub deadline: Moment,
    pub r1: u8,
    pub r2: u8,
}

impl OperationSummary {
    /// The status of its operation, by the standing of that.
    pub fn status(&self, standing: &Standing) -> Status
        ensures { (P : Contents) → (o : OpKey) → HasSummary P o self.now → IsStanding P o standing.now → HasStatus P o result }
    {
        status_of(
            self.mark,
            self.held,
            self.nop,
            self.attribute,
            standing.preds,
        )
    }

    /// Whether starts are known on its workstation: there its operation takes servers and special resources.
    pub fn starts_are_known(&self) -> bool
        ensures { result ≡ takes (Some self.now.attribute) }
    {
        self.attribute.knows_starts()
    }
}

/// The summary of an operation of the plan. Where that operation stands at this place, no search is made.
pub fn summary_of(
    contents: &ValidContents,
    operation: &OperationRecord,
    place: usize,
) -> OperationSummary
    requires { (o : OpKey) × (get contents.now.operations o ≡ Some operation.now) }
    ensures { IsSummaryOf contents.now operation.now result }
{
    let rows = contents.rows();
    let station = rows.known_workstation_place_near(&operation.workstation, place);
    OperationSummary {
        mark: operation.mark,
        held: operation.held,
        nop: operation.nop,
        attribute: rows.workstations()[station].attribute(),
        station,
        duration: operation.duration,
        deadline: operation.deadline,
        r1: operation.r1,
        r2: operation.r2,
    }
}

/// The summary of each operation, in key order: for contents of which no looks are counted.
pub fn summaries_of(
    alloc: Global,
    contents: &ValidContents,
) -> Result<Vec<OperationSummary>, AllocError>
    ensures { IfOk result (λ found. AreSummaries contents.now found.items) }
{
    let rows = contents.operations();
    let mut summaries = Vec::with_capacity(alloc, rows.len())?;
    for (i, row) in rows.iter().enumerate() {
        summaries.push(summary_of(contents, &row.1, i))?;
    }
    Ok(summaries)
}
