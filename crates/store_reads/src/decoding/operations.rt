// A row of `operation` is read in three parts: what was planned, what was reported, and what is read off the plan.
ghost use Rattle.std.specs.Prelude.{◌≡◌};
ghost use Rattle.plan_items.specs.Parts.{IsReading};
ghost use Rattle.store_reads.specs.Operations.{IsDerivedIn, IsPlannedIn, IsReportedIn, operation_of};
ghost use Rattle.store_reads.specs.Rows.{IsStoredAs};
ghost use Rattle.store_reads.specs.declared.decoding.Table.TheVariants as table;

use super::columns::{
    byte, count, mark, moment, number, operation_key, short, status, truth, workstation,
};
use plan_basics::{Moment, OpKey, WsName};
use plan_records::{OperationRow, PlanRow};
use sqlite::Row;
use status_rules::{Mark, Status};

// What was planned of an operation.
#[derive(Clone, Copy)]
pub struct Planned {
    pub op: OpKey,
    pub ws: WsName,
    pub duration: u16,
    pub r1: u8,
    pub r2: u8,
    pub not_before: Moment,
    pub deadline: Moment,
}

// What was reported of an operation, and commanded.
#[derive(Clone, Copy)]
pub struct Reported {
    pub mark: Mark,
    pub held: bool,
    pub nop: bool,
}

// What is read off the plan for an operation.
#[derive(Clone, Copy)]
pub struct Derived {
    pub status: Status,
    pub latest: i64,
    pub waiting: u32,
}

// The columns of what was planned.
fn read_planned(row: &Row) -> Option<Planned>
    ensures { IsReading (IsPlannedIn row.now) result }
{
    let op = operation_key(row, 1)?;
    let ws = workstation(row, 4)?;
    let duration = short(row, 5)?;
    let r1 = byte(row, 6)?;
    let r2 = byte(row, 7)?;
    let not_before = moment(row, 8)?;
    let deadline = moment(row, 9)?;
    Some(Planned {
        op,
        ws,
        duration,
        r1,
        r2,
        not_before,
        deadline,
    })
}

// The columns of what was reported.
fn read_reported(row: &Row) -> Option<Reported>
    ensures { IsReading (IsReportedIn row.now) result }
{
    let mark = mark(row, 10)?;
    let held = truth(row, 12)?;
    let nop = truth(row, 13)?;
    Some(Reported { mark, held, nop })
}

// The columns of what is read off the plan.
fn read_derived(row: &Row) -> Option<Derived>
    ensures { IsReading (IsDerivedIn row.now) result }
{
    let status = status(row, 14)?;
    let latest = number(row, 15)?;
    let waiting = count(row, 16)?;
    Some(Derived {
        status,
        latest,
        waiting,
    })
}

// The three parts as one row.
fn joined(planned: Planned, reported: Reported, derived: Derived) -> OperationRow
    ensures { result ≡ operation_of planned reported derived }
{
    OperationRow {
        op: planned.op,
        ws: planned.ws,
        duration: planned.duration,
        r1: planned.r1,
        r2: planned.r2,
        not_before: planned.not_before,
        deadline: planned.deadline,
        mark: reported.mark,
        held: reported.held,
        nop: reported.nop,
        status: derived.status,
        latest: derived.latest,
        waiting: derived.waiting,
    }
}

// A row of `operation`.
pub fn read_operation(row: &Row) -> Option<PlanRow>
    ensures { IsReading (IsStoredAs table.Operation row.now) result }
{
    if row.column_count() != 17 {
        return None;
    }
    let planned = read_planned(row)?;
    let reported = read_reported(row)?;
    let derived = read_derived(row)?;
    Some(PlanRow::Operation(joined(planned, reported, derived)))
}
