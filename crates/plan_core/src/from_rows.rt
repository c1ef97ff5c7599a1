// A plan from the rows of its tables.
ghost use Rattle.std.specs.Prelude.{◌≡◌, IfErr, IfOk, MatchOption};
ghost use Rattle.plan_basics.specs.declared.Refusal.{Refusal};
ghost use Rattle.plan_opening.specs.Opening.{AreOfNoPlan, IsPlanOf};

use super::plan::Plan;
use plan_basics::Refusal;
use plan_opening::{OpenedPlan, plan_of_rows};
use plan_records::PlanRow;
use std::alloc::Global;

impl Plan {
    /// The sound plan that has exactly these rows, in any order; `None` where there is none, or a row is given twice. The
    /// columns that follow from the others, as a status or a latest start, are compared too. The error is always `Memory`.
    pub fn from_rows(alloc: Global, rows: &[PlanRow]) -> Result<Option<Plan>, Refusal>
        ensures plan { IfOk result (λ found. MatchOption found (AreOfNoPlan rows.now) (λ p. IsPlanOf rows.now p.plan)) }
        ensures refused { IfErr result (λ r. r ≡ Refusal.Memory) }
    {
        let Some(OpenedPlan { clock, loaded }) = plan_of_rows(alloc, rows)? else {
            return Ok(None);
        };
        Ok(Some(Plan {
            alloc,
            clock,
            loaded,
        }))
    }
}
