// The rows of the plan before one is loaded.
ghost use Rattle.std.specs.Prelude.{◌≡◌, ◌↔◌, IsTrue};
ghost use Rattle.plan_model.specs.Plan.{no_plan};
ghost use Rattle.plan_opening.specs.Opening.{first_row};
ghost use Rattle.plan_records.specs.Rows.{AreRows};

use plan_records::PlanRow;

// Whether it is the row of the plan itself before one is loaded.
fn is_first(row: &PlanRow) -> bool
    ensures { IsTrue result ↔ (row.now ≡ first_row) }
{
    match row {
        PlanRow::Meta {
            version,
            loaded,
            clock,
        } => *version == 2 && !*loaded && clock.minute() == 0,
        _ => false,
    }
}

// Whether these are the rows of the plan before one is loaded.
pub fn are_first(rows: &[PlanRow]) -> bool
    ensures { IsTrue result ↔ AreRows no_plan rows.now }
{
    rows.len() == 1 && is_first(&rows[0])
}
