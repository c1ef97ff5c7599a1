// The contents whose rows these are.
ghost use Rattle.std.specs.Prelude.{◌≡◌, Some, IfOk, IfSome};
ghost use Rattle.plan_model.specs.Plan.{Plan};
ghost use Rattle.plan_model.specs.Valid.{IsValid};
ghost use Rattle.plan_records.specs.Rows.{AreRows};

use super::items::{are_in_range, items_of};
use super::reports::put_reports;
use super::said::said_by;
use plan_denotation::contents_of_items;
use plan_drafts::PlanContents;
use plan_records::PlanRow;
use std::alloc::{AllocError, Global};

/// What the plan holds whose rows these are, in any order. What it gives is valid. The columns that follow from the
/// others, as a status or a latest start, aren't looked at: rows of no plan may give `None` or what another plan holds,
/// so the caller compares that plan's rows with these.
pub fn contents_of_rows(alloc: Global, rows: &[PlanRow]) -> Result<Option<PlanContents>, AllocError>
    ensures valid { IfOk result (λ found. IfSome found IsValid) }
    ensures complete { IfOk result (λ found. (P : Plan) → IsValid P.contents → AreRows P rows.now → found ≡ Some P.contents) }
{
    let Some(said) = said_by(alloc, rows)? else {
        return Ok(None);
    };
    let items = items_of(alloc, &said, rows)?;
    if !are_in_range(&items) {
        return Ok(None);
    }
    let Some(mut contents) = contents_of_items(alloc, &items)? else {
        return Ok(None);
    };
    put_reports(&mut contents, rows);
    Ok(Some(contents))
}
