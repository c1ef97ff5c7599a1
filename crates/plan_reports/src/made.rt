// The text of each report of a desk, or why there is none.
ghost use Rattle.std.specs.Prelude.{◌≡◌, IfErr, IfOk, None, Some};
ghost use Rattle.plan_basics.specs.declared.Refusal.{Refusal};
ghost use Rattle.desk_tables.specs.Errors.{AreErrorRows};
ghost use Rattle.plan_reports.specs.Reports.{IsErrorReport, IsLateReport, IsOccurrenceReport, IsOwed, IsReadyReport, IsWhyReport, desk_show_refusal_of, ready_refusal_of, refusal_of, why_refusal_of};
ghost use Rattle.plan_shows.specs.Shows.{IsShow};

use super::late::late_views;
use super::rows::{ErrorRows, LateRows, OccurrenceRows, ReadyRows};
use desk_tables::{Desk, ErrorRow, OccView, OpView, Plan};
use plan_basics::{Moment, OpKey, Refusal, WsName};
use plan_shows::{Show, shown, why, why_text};
use report_lines::{Field, moment_text, report};
use sqlite::Alter;
use std::alloc::Global;

/// The plan of a desk, if there is one to report of. Refused as the desk owes it.
pub fn loaded_plan<S: Alter + Drop>(desk: &Desk<S>) -> Result<&Plan, Refusal>
    ensures plan { IfOk result (λ plan. plan.now.plan ≡ desk.now.plan) }
    ensures none_owed { IfOk result (λ plan. refusal_of desk.now.is_usable desk.now.plan ≡ None) }
    ensures refused { IfErr result (λ r. refusal_of desk.now.is_usable desk.now.plan ≡ Some r) }
{
    if !desk.is_usable() {
        return Err(Refusal::Reopen);
    }
    let plan = desk.plan();
    if !plan.is_loaded() {
        return Err(Refusal::NotLoaded);
    }
    Ok(plan)
}

/// What is ready on a workstation. Refused as the desk owes it, or else as `Memory`.
pub fn ready_made<S: Alter + Drop>(
    alloc: Global,
    desk: &Desk<S>,
    workstation: &WsName,
) -> Result<Vec<u8>, Refusal>
    ensures text { IfOk result (λ text. IsReadyReport desk.now.plan workstation.now text.items) }
    ensures none_owed { IfOk result (λ text. ready_refusal_of desk.now.is_usable desk.now.plan workstation.now ≡ None) }
    ensures refused { IfErr result (IsOwed (ready_refusal_of desk.now.is_usable desk.now.plan workstation.now)) }
{
    let plan = loaded_plan(desk)?;
    let Some(ready) = plan.ready(workstation) else {
        return Err(Refusal::UnknownWorkstation);
    };
    let views: Vec<OpView> = ready.collect(alloc)?;
    let at = moment_text(plan.clock());
    let head = [
        Field::Word(b"READY"),
        Field::Word(workstation.as_bytes()),
        Field::Word(b"AT"),
        Field::Word(&at),
    ];
    Ok(report::<ReadyRows, OpView>(alloc, &head, &views)?)
}

/// All occurrences. Refused as the desk owes it, or else as `Memory`.
pub fn occurrences_made<S: Alter + Drop>(alloc: Global, desk: &Desk<S>) -> Result<Vec<u8>, Refusal>
    ensures text { IfOk result (λ text. IsOccurrenceReport desk.now.plan text.items) }
    ensures none_owed { IfOk result (λ text. refusal_of desk.now.is_usable desk.now.plan ≡ None) }
    ensures refused { IfErr result (IsOwed (refusal_of desk.now.is_usable desk.now.plan)) }
{
    let plan = loaded_plan(desk)?;
    let views: Vec<OccView> = plan.occs().collect(alloc)?;
    let at = moment_text(plan.clock());
    let head = [
        Field::Word(b"OCCURRENCES"),
        Field::Word(b"AT"),
        Field::Word(&at),
    ];
    Ok(report::<OccurrenceRows, OccView>(alloc, &head, &views)?)
}

// The operations in error. Refused as `Reopen` where the desk is to be opened again, or else as `Memory`.
fn error_rows<S: Alter + Drop>(alloc: Global, desk: &Desk<S>) -> Result<Vec<ErrorRow>, Refusal>
    requires { refusal_of desk.now.is_usable desk.now.plan ≡ None }
    ensures rows { IfOk result (λ rows. AreErrorRows desk.now.plan.contents rows.items) }
    ensures refused { IfErr result (λ r. r ≡ Refusal.Memory) }
{
    let mut left = desk.errors()?;
    let mut rows = Vec::new(alloc);
    while let Some(row) = left.next()? {
        if rows.push(row).is_err() {
            return Err(Refusal::Memory);
        }
    }
    Ok(rows)
}

/// The operations in error. Refused as the desk owes it, or else as `Memory`.
pub fn errors_made<S: Alter + Drop>(alloc: Global, desk: &Desk<S>) -> Result<Vec<u8>, Refusal>
    ensures text { IfOk result (λ text. IsErrorReport desk.now.plan text.items) }
    ensures none_owed { IfOk result (λ text. refusal_of desk.now.is_usable desk.now.plan ≡ None) }
    ensures refused { IfErr result (IsOwed (refusal_of desk.now.is_usable desk.now.plan)) }
{
    let plan = loaded_plan(desk)?;
    let rows = error_rows(alloc, desk)?;
    let at = moment_text(plan.clock());
    let head = [Field::Word(b"ERRORS"), Field::Word(b"AT"), Field::Word(&at)];
    Ok(report::<ErrorRows, ErrorRow>(alloc, &head, &rows)?)
}

/// The operations that are late. Refused as the desk owes it, or else as `Memory`.
pub fn late_made<S: Alter + Drop>(alloc: Global, desk: &Desk<S>) -> Result<Vec<u8>, Refusal>
    ensures text { IfOk result (λ text. IsLateReport desk.now.plan text.items) }
    ensures none_owed { IfOk result (λ text. refusal_of desk.now.is_usable desk.now.plan ≡ None) }
    ensures refused { IfErr result (IsOwed (refusal_of desk.now.is_usable desk.now.plan)) }
{
    let plan = loaded_plan(desk)?;
    let views = late_views(alloc, plan)?;
    let at = moment_text(plan.clock());
    let head = [Field::Word(b"LATE"), Field::Word(b"AT"), Field::Word(&at)];
    Ok(report::<LateRows, OpView>(alloc, &head, &views)?)
}

/// Why an operation doesn't go on at a moment. Refused as the desk owes it, or else as `Memory`.
pub fn why_made<S: Alter + Drop>(
    alloc: Global,
    desk: &Desk<S>,
    key: &OpKey,
    at: Moment,
) -> Result<Vec<u8>, Refusal>
    ensures text { IfOk result (λ text. IsWhyReport desk.now.plan key.now at text.items) }
    ensures none_owed { IfOk result (λ text. why_refusal_of desk.now.is_usable desk.now.plan key.now ≡ None) }
    ensures refused { IfErr result (IsOwed (why_refusal_of desk.now.is_usable desk.now.plan key.now)) }
{
    let plan = loaded_plan(desk)?;
    if plan.view_op(key).is_none() {
        return Err(Refusal::UnknownOperation);
    }
    let Some(found) = why(alloc, plan, key, at)? else {
        return Err(Refusal::UnknownOperation);
    };
    Ok(why_text(alloc, key, at, &found)?)
}

/// A show of the desk. Refused as the desk owes it, or else as `Memory`.
pub fn show_made<S: Alter + Drop>(
    alloc: Global,
    desk: &Desk<S>,
    show: &Show,
) -> Result<Vec<u8>, Refusal>
    ensures text { IfOk result (λ text. IsShow show.now desk.now.plan desk.now.receipts text.items) }
    ensures none_owed { IfOk result (λ text. desk_show_refusal_of desk.now.is_usable show.now desk.now.plan ≡ None) }
    ensures refused { IfErr result (IsOwed (desk_show_refusal_of desk.now.is_usable show.now desk.now.plan)) }
{
    if desk.is_usable() {
        shown(alloc, desk.plan(), desk.receipts(), show)
    } else {
        Err(Refusal::Reopen)
    }
}
