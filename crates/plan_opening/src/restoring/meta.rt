// What the row of the plan itself says.
ghost use Rattle.std.specs.Prelude.{◌≡◌, ◌≢◌, ℕ, Bool, Some, IfSome, IsNone};
ghost use Rattle.plan_basics.specs.Minutes.{IsMoment};
ghost use Rattle.plan_model.specs.Plan.{Plan};
ghost use Rattle.plan_records.specs.Rows.{AreRows};
ghost use Rattle.plan_records.specs.declared.PlanRow.TheVariants as row_of;

use plan_basics::Moment;
use plan_records::PlanRow;

// Whether a plan is loaded, and its clock, where this is the row of the plan itself and has the version 2.
fn meta_in(row: &PlanRow) -> Option<(bool, Moment)>
    ensures found { IfSome result (λ found. row.now ≡ row_of.Meta 2 found.0 found.1) }
    ensures absent { IsNone result → (loaded : Bool) (clock : ℕ) → row.now ≢ row_of.Meta 2 loaded clock }
    ensures legal { IfSome result (λ found. IsMoment found.1) }
{
    match row {
        PlanRow::Meta {
            version,
            loaded,
            clock,
        } => {
            if *version != 2 {
                return None;
            }
            let _ = clock.minute();
            Some((*loaded, *clock))
        }
        _ => None,
    }
}

/// Whether a plan is loaded, and its clock, by the row of the plan itself among its rows. Of rows of no plan it says nothing but
/// a legal clock.
pub fn meta_of_rows(rows: &[PlanRow]) -> Option<(bool, Moment)>
    ensures legal { IfSome result (λ found. IsMoment found.1) }
    ensures complete { (P : Plan) → AreRows P rows.now → result ≡ Some (P.loaded, P.clock) }
{
    for row in rows {
        if let Some(found) = meta_in(row) {
            return Some(found);
        }
    }
    None
}
