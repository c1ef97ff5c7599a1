// The rows of each table, as rows of a plan. In front of the columns stands the rowid.
ghost use Rattle.plan_items.specs.Parts.{IsReading};
ghost use Rattle.store_reads.specs.Rows.{IsStoredAs};
ghost use Rattle.store_reads.specs.declared.decoding.Table.TheVariants as table;

use super::columns::{
    attribute, byte, count, keep, mode, moment, number, occurrence_key, occurrence_status,
    operation_key, resource, truth, workstation,
};
use plan_basics::Interval;
use plan_records::PlanRow;
use sqlite::Row;

// A row of `meta`, whose id is 1.
pub fn read_meta(row: &Row) -> Option<PlanRow>
    ensures { IsReading (IsStoredAs table.Meta row.now) result }
{
    if row.column_count() != 5 {
        return None;
    }
    let id = number(row, 1)?;
    if id != 1 {
        return None;
    }
    let version = count(row, 2)?;
    let loaded = truth(row, 3)?;
    let clock = moment(row, 4)?;
    Some(PlanRow::Meta {
        version,
        loaded,
        clock,
    })
}

// A row of `workstation`.
pub fn read_workstation(row: &Row) -> Option<PlanRow>
    ensures { IsReading (IsStoredAs table.Workstation row.now) result }
{
    if row.column_count() != 3 {
        return None;
    }
    let name = workstation(row, 1)?;
    let attr = attribute(row, 2)?;
    Some(PlanRow::Workstation { name, attr })
}

// A row of `interval`.
pub fn read_interval(row: &Row) -> Option<PlanRow>
    ensures { IsReading (IsStoredAs table.Interval row.now) result }
{
    if row.column_count() != 7 {
        return None;
    }
    let ws = workstation(row, 1)?;
    let from = moment(row, 2)?;
    let end = moment(row, 3)?;
    let servers = byte(row, 4)?;
    let r1 = byte(row, 5)?;
    let r2 = byte(row, 6)?;
    let interval = Interval::new(from, end, servers, r1, r2)?;
    Some(PlanRow::Interval { ws, interval })
}

// A row of `resource`.
pub fn read_resource(row: &Row) -> Option<PlanRow>
    ensures { IsReading (IsStoredAs table.Resource row.now) result }
{
    if row.column_count() != 3 {
        return None;
    }
    let name = resource(row, 1)?;
    let available = truth(row, 2)?;
    Some(PlanRow::Resource { name, available })
}

// A row of `occurrence`.
pub fn read_occurrence(row: &Row) -> Option<PlanRow>
    ensures { IsReading (IsStoredAs table.Occurrence row.now) result }
{
    if row.column_count() != 6 {
        return None;
    }
    let occurrence = occurrence_key(row, 1)?;
    let priority = byte(row, 3)?;
    let deadline = moment(row, 4)?;
    let status = occurrence_status(row, 5)?;
    Some(PlanRow::Occurrence {
        occurrence,
        priority,
        deadline,
        status,
    })
}

// A row of `dependency`.
pub fn read_dependency(row: &Row) -> Option<PlanRow>
    ensures { IsReading (IsStoredAs table.Dependency row.now) result }
{
    if row.column_count() != 7 {
        return None;
    }
    let predecessor = operation_key(row, 1)?;
    let successor = operation_key(row, 4)?;
    Some(PlanRow::Dependency {
        predecessor,
        successor,
    })
}

// A row of `need`.
pub fn read_need(row: &Row) -> Option<PlanRow>
    ensures { IsReading (IsStoredAs table.Need row.now) result }
{
    if row.column_count() != 7 {
        return None;
    }
    let op = operation_key(row, 1)?;
    let resource = resource(row, 4)?;
    let mode = mode(row, 5)?;
    let keep = keep(row, 6)?;
    Some(PlanRow::Need {
        op,
        resource,
        mode,
        keep,
    })
}

// A row of `quantity`.
pub fn read_quantity(row: &Row) -> Option<PlanRow>
    ensures { IsReading (IsStoredAs table.Quantity row.now) result }
{
    if row.column_count() != 3 {
        return None;
    }
    let resource = resource(row, 1)?;
    let quantity = count(row, 2)?;
    Some(PlanRow::Quantity { resource, quantity })
}

// A row of `amount`.
pub fn read_amount(row: &Row) -> Option<PlanRow>
    ensures { IsReading (IsStoredAs table.Amount row.now) result }
{
    if row.column_count() != 6 {
        return None;
    }
    let op = operation_key(row, 1)?;
    let resource = resource(row, 4)?;
    let amount = count(row, 5)?;
    Some(PlanRow::Amount {
        op,
        resource,
        amount,
    })
}
