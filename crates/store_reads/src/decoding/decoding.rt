// The rows of any table of a plan, as rows of a plan.
ghost use Rattle.std.specs.Prelude.{[], ◌∷◌, IfOk, MatchBool, Any};
ghost use Rattle.plan_items.specs.Parts.{IsReading};
ghost use Rattle.store_reads.specs.Rows.{AppendsRows, IsNoRow, IsStoredAs};

use super::Table;
use super::operations::read_operation;
use super::records::{
    read_amount, read_dependency, read_interval, read_meta, read_need, read_occurrence,
    read_quantity, read_resource, read_workstation,
};
use plan_records::PlanRow;
use sqlite::Row;
use std::alloc::AllocError;

/// The row of a plan that this row of a table is.
pub fn decode(table: Table, row: &Row) -> Option<PlanRow>
    ensures { IsReading (IsStoredAs table row.now) result }
{
    match table {
        Table::Meta => read_meta(row),
        Table::Workstation => read_workstation(row),
        Table::Interval => read_interval(row),
        Table::Resource => read_resource(row),
        Table::Occurrence => read_occurrence(row),
        Table::Operation => read_operation(row),
        Table::Dependency => read_dependency(row),
        Table::Need => read_need(row),
        Table::Quantity => read_quantity(row),
        Table::Amount => read_amount(row),
    }
}

// Appends the row of a plan that this row of a table is. Answers `false` where it is no row of a plan.
fn decode_next(table: Table, row: &Row, into: &mut Vec<PlanRow>) -> Result<bool, AllocError>
    ensures { IfOk result (λ is_one. MatchBool is_one
        (AppendsRows table (row.now ∷ []) into.old.items into.new.items)
        (IsNoRow table row.now)) }
{
    match decode(table, row) {
        Some(read) => {
            into.extend_from_slice(&[read])?;
            Ok(true)
        }
        None => Ok(false),
    }
}

/// Appends the rows of a plan that these rows of a table are, in their order. Answers `false` where one of them is no
/// row of a plan.
pub fn decode_all(table: Table, rows: &[Row], into: &mut Vec<PlanRow>) -> Result<bool, AllocError>
    ensures { IfOk result (λ all. MatchBool all
        (AppendsRows table rows.now into.old.items into.new.items)
        (Any (IsNoRow table) rows.now)) }
{
    for row in rows {
        if !decode_next(table, row, into)? {
            return Ok(false);
        }
    }
    Ok(true)
}
