// What the desk is asked, and what it tells.
ghost use Rattle.std.specs.Prelude.{◌≡◌, ◌↔◌, ℕ, List, IfOk, IfErr, IsTrue, OnErr};
ghost use Rattle.sqlite.specs.Held.{state};
ghost use Rattle.tracker_http.specs.Continuing.{Continues, ContinuesTelling};
ghost use Rattle.tracker_http.specs.Exchange.{seen, StaysOpen, Tells};
ghost use Rattle.tracker_http.specs.Readings.{ReadsFor, ReadsForOperator, ReadsForReport};
ghost use Rattle.tracker_http.specs.Guard.{IsTooFar, TellsOperatorWithin, TellsReportWithin, TellsWithin};

use super::lists::{tell_occurrences, tell_ready};
use super::reading::{Reading, read_asked};
use super::told::Told;
use desk_tables::{Desk, Plan};
use http_messages::{Asked, Status};
use plan_records::Request;
use request_json::WireFault;
use sqlite::Alter;
use std::alloc::Global;

// Whether a request's moment is more than so many minutes after the plan's clock, where there is such a limit and a plan is
// loaded.
fn is_too_far(ahead: Option<u32>, plan: &Plan, request: &Request) -> bool
    ensures { IsTrue result ↔ IsTooFar ahead plan.now.plan request.now.at }
{
    match ahead {
        Some(minutes) => plan.is_loaded()
            && request.at > plan.clock().minute() + i64::from(minutes),
        None => false,
    }
}

// Makes the report that a body is, with the whole body as its text, unless it is too far ahead.
fn tell_report<S: Alter + Drop>(
    desk: &mut Desk<S>,
    body: &[u8],
    reading: &Reading,
    ahead: Option<u32>,
) -> Told
    requires reading { ReadsForReport body.now reading.now }
    ensures told { TellsReportWithin ahead body.now (seen desk.old) result (seen desk.new) }
    ensures continues { Continues S.Store desk.old desk.new }
    ensures stays_open { StaysOpen (state S.Store desk.old.conn) (state S.Store desk.new.conn) result }
{
    let Reading::Report(report) = reading else {
        return Told::Fault(Status::BadRequest);
    };
    if is_too_far(ahead, desk.plan(), &report.request) {
        return Told::Fault(Status::UnprocessableEntity);
    }
    let reply = desk.call_numbered(&report.tracker, report.number, body, &report.request);
    Told::Answer(reply)
}

// Makes the request that a body is, unless it is too far ahead.
fn tell_operator<S: Alter + Drop>(desk: &mut Desk<S>, reading: &Reading, ahead: Option<u32>) -> Told
    ensures told { (body : List ℕ) → ReadsForOperator body reading.now → TellsOperatorWithin ahead body (seen desk.old) result (seen desk.new) }
    ensures continues { Continues S.Store desk.old desk.new }
    ensures stays_open { StaysOpen (state S.Store desk.old.conn) (state S.Store desk.new.conn) result }
{
    let Reading::Operator(request) = reading else {
        return Told::Fault(Status::BadRequest);
    };
    if is_too_far(ahead, desk.plan(), request) {
        return Told::Fault(Status::UnprocessableEntity);
    }
    Told::Answer(desk.call(request))
}

/// Asks the desk what was read so, and gives what it tells, as `tell_within` does.
pub(crate) fn tell_read<S: Alter + Drop>(
    alloc: Global,
    desk: &mut Desk<S>,
    asked: &Asked,
    reading: &Reading,
    ahead: Option<u32>,
) -> Result<Told, WireFault>
    requires reading { ReadsFor asked.now reading.now }
    ensures told { IfOk result (λ told. TellsWithin ahead asked.now (seen desk.old) told (seen desk.new)) }
    ensures memory { IfErr result (λ fault. fault ≡ WireFault.Memory) }
    ensures continues { ContinuesTelling S.Store result desk.old desk.new }
    ensures unchanged { OnErr result (desk.new ≡ desk.old) }
{
    match asked {
        Asked::Report(body) => Ok(tell_report(desk, body, reading, ahead)),
        Asked::Operator(_) => Ok(tell_operator(desk, reading, ahead)),
        Asked::Ready(name) => Ok(tell_ready(alloc, desk, name)?),
        Asked::Occurrences => Ok(tell_occurrences(alloc, desk)?),
    }
}

/// Asks the desk, and gives what it tells. A report or a request whose moment is more than so many minutes after the clock of
/// a loaded plan isn't asked, where there is such a limit: that is told, and nothing changes. The error is always `Memory`,
/// and nothing has changed then.
pub fn tell_within<S: Alter + Drop>(
    alloc: Global,
    desk: &mut Desk<S>,
    asked: &Asked,
    ahead: Option<u32>,
) -> Result<Told, WireFault>
    ensures told { IfOk result (λ told. TellsWithin ahead asked.now (seen desk.old) told (seen desk.new)) }
    ensures memory { IfErr result (λ fault. fault ≡ WireFault.Memory) }
    ensures continues { ContinuesTelling S.Store result desk.old desk.new }
    ensures unchanged { OnErr result (desk.new ≡ desk.old) }
{
    let reading = read_asked(alloc, asked)?;
    tell_read(alloc, desk, asked, &reading, ahead)
}

/// Asks the desk, whatever the moment, and gives what it tells. The error is always `Memory`, and nothing has changed then.
pub(crate) fn tell<S: Alter + Drop>(
    alloc: Global,
    desk: &mut Desk<S>,
    asked: &Asked,
) -> Result<Told, WireFault>
    ensures told { IfOk result (λ told. Tells asked.now (seen desk.old) told (seen desk.new)) }
    ensures memory { IfErr result (λ fault. fault ≡ WireFault.Memory) }
    ensures continues { ContinuesTelling S.Store result desk.old desk.new }
    ensures unchanged { OnErr result (desk.new ≡ desk.old) }
{
    tell_within(alloc, desk, asked, None)
}
