// The lists that are asked for.
ghost use Rattle.std.specs.Prelude.{◌≡◌, map, IfOk, MatchResult};
ghost use Rattle.desk_tables.specs.Desk.{usability};
ghost use Rattle.tracker_http.specs.Lists.{ready_row, occurrence_row, TellsReady, TellsOccurrences, IsListRefusal, IsListed, TellsList};

use super::told::Told;
use desk_tables::{Desk, Occs, Plan, Ready};
use plan_basics::{Refusal, WsName};
use plan_records::Reply;
use request_json::{OccurrenceRow, ReadyRow};
use sqlite::Alter;
use std::alloc::{AllocError, Global};

fn ready_rows(alloc: Global, views: Ready<'_>) -> Result<Vec<ReadyRow>, AllocError>
    ensures { IfOk result (λ rows. rows.items ≡ map ready_row views.entry) }
{
    let mut rows = Vec::new(alloc);
    for view in views {
        rows.push(ReadyRow {
            op: view.key,
            priority: view.priority,
            duration: view.duration,
            latest: view.latest,
            held: view.held,
            status: view.status,
        })?;
    }
    Ok(rows)
}

fn occurrence_rows(alloc: Global, views: Occs<'_>) -> Result<Vec<OccurrenceRow>, AllocError>
    ensures { IfOk result (λ rows. rows.items ≡ map occurrence_row views.entry) }
{
    let mut rows = Vec::new(alloc);
    for view in views {
        rows.push(OccurrenceRow {
            occurrence: view.key,
            priority: view.priority,
            deadline: view.deadline,
            status: view.status,
        })?;
    }
    Ok(rows)
}

// The ready list of the workstation of this name, if there is one.
// What is no name is unknown too, since a list is asked for by a name.
fn ready_told(alloc: Global, plan: &Plan, name: &[u8]) -> Result<Told, AllocError>
    ensures { IfOk result (TellsReady name.now plan.now.plan.contents) }
{
    let unknown = Told::Answer(Reply::Refused(Refusal::UnknownWorkstation));
    let Some(workstation) = WsName::from_text(name) else {
        return Ok(unknown);
    };
    let Some(views) = plan.ready(&workstation) else {
        return Ok(unknown);
    };
    Ok(Told::Ready(ready_rows(alloc, views)?))
}

fn occurrences_told(alloc: Global, plan: &Plan) -> Result<Told, AllocError>
    ensures { IfOk result (TellsOccurrences plan.now.plan.contents) }
{
    Ok(Told::Occurrences(occurrence_rows(alloc, plan.occs())?))
}

// The plan of which lists are told, or why none is.
fn listed_plan<S: Alter + Drop>(desk: &Desk<S>) -> Result<&Plan, Refusal>
    ensures { MatchResult result (λ plan. (plan.now.plan ≡ desk.now.plan) × IsListed (usability desk.now.is_usable) desk.now.plan)
        (IsListRefusal (usability desk.now.is_usable) desk.now.plan) }
{
    if !desk.is_usable() {
        return Err(Refusal::Reopen);
    }
    let plan = desk.plan();
    if !plan.is_loaded() {
        return Err(Refusal::NotLoaded);
    }
    Ok(plan)
}

/// What is ready on the workstation of this name, which may be no name. It fails for want of memory only.
pub(crate) fn tell_ready<S: Alter + Drop>(
    alloc: Global,
    desk: &Desk<S>,
    name: &[u8],
) -> Result<Told, AllocError>
    ensures { IfOk result (TellsList (TellsReady name.now) (usability desk.now.is_usable) desk.now.plan) }
{
    match listed_plan(desk) {
        Ok(plan) => ready_told(alloc, plan, name),
        Err(refusal) => Ok(Told::Answer(Reply::Refused(refusal))),
    }
}

/// The occurrences of the plan. It fails for want of memory only.
pub(crate) fn tell_occurrences<S: Alter + Drop>(
    alloc: Global,
    desk: &Desk<S>,
) -> Result<Told, AllocError>
    ensures { IfOk result (TellsList TellsOccurrences (usability desk.now.is_usable) desk.now.plan) }
{
    match listed_plan(desk) {
        Ok(plan) => occurrences_told(alloc, plan),
        Err(refusal) => Ok(Told::Answer(Reply::Refused(refusal))),
    }
}
