// What a body says, read for its path: once, before its line and before the desk is asked.
ghost use Rattle.std.specs.Prelude.{◌≡◌, ◌↔◌, IfErr, IfOk, IsTrue, option_map};
ghost use Rattle.tracker_http.specs.Readings.{IsAnothers, IsTurnedAway, ReadsFor, ReadsForOperator, ReadsForReport, is_brief as is_told_in_brief, requester_of as requester_in};

use http_messages::{Asked, Asking};
use plan_records::Request;
use request_json::{NumberedRequest, WireFault, read_operator, read_report};
use std::alloc::Global;

/// The most bytes of a body that is no request and that a journal has whole.
pub const MOST_WHOLE_BYTES: usize = 4096;

/// What a body says, read for its path.
#[derive(Drop)]
pub enum Reading {
    /// A tracker's report.
    Report(NumberedRequest),
    /// An operator's request.
    Operator(Request),
    /// No such request; or there is no body, as for a list.
    Nothing,
}

fn read_for_report(alloc: Global, body: &[u8]) -> Result<Reading, WireFault>
    ensures reading { IfOk result (ReadsForReport body.now) }
    ensures memory { IfErr result (λ fault. fault ≡ WireFault.Memory) }
{
    match read_report(alloc, body)? {
        Some(report) => Ok(Reading::Report(report)),
        None => Ok(Reading::Nothing),
    }
}

fn read_for_operator(alloc: Global, body: &[u8]) -> Result<Reading, WireFault>
    ensures reading { IfOk result (ReadsForOperator body.now) }
    ensures memory { IfErr result (λ fault. fault ≡ WireFault.Memory) }
{
    match read_operator(alloc, body)? {
        Some(request) => Ok(Reading::Operator(request)),
        None => Ok(Reading::Nothing),
    }
}

/// What the body says of what is asked for. The error is always `Memory`.
pub fn read_asked(alloc: Global, asked: &Asked) -> Result<Reading, WireFault>
    ensures reading { IfOk result (ReadsFor asked.now) }
    ensures memory { IfErr result (λ fault. fault ≡ WireFault.Memory) }
{
    match asked {
        Asked::Report(body) => read_for_report(alloc, body),
        Asked::Operator(body) => read_for_operator(alloc, body),
        Asked::Ready(_) | Asked::Occurrences => Ok(Reading::Nothing),
    }
}

/// Who makes a request, where that is known.
pub(crate) fn requester_of(asking: &Asking) -> Option<&str>
    ensures { option_map (λ by. by.now) result ≡ requester_in asking.now }
{
    match &asking.by {
        Some(by) => Some(by.as_str()),
        None => None,
    }
}

/// Whether a line tells a body that was read so in brief.
pub(crate) fn is_brief(reading: &Reading, body: &[u8]) -> bool
    ensures { result ≡ is_told_in_brief reading.now body.now }
{
    match reading {
        Reading::Nothing => body.len() > MOST_WHOLE_BYTES,
        Reading::Report(_) | Reading::Operator(_) => false,
    }
}

// Whether a report is another tracker's than its requester's.
fn is_anothers(by: Option<&str>, reading: &Reading) -> bool
    ensures { IsTrue result ↔ IsAnothers (option_map (λ by. by.now) by.entry) reading.now }
{
    match reading {
        Reading::Report(report) => match by {
            Some(by) => by.as_bytes() != report.tracker.as_bytes(),
            None => true,
        },
        Reading::Operator(_) | Reading::Nothing => false,
    }
}

/// Whether a request is turned away that was read so, where trackers are bound to their names.
pub(crate) fn is_turned_away(bound: bool, asking: &Asking, reading: &Reading) -> bool
    ensures { IsTrue result ↔ IsTurnedAway bound asking.now reading.now }
{
    bound && is_anothers(requester_of(asking), reading)
}
