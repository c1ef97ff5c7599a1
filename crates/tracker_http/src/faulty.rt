// The reply to a body that is to be a report or an operator's request and is none.
ghost use Rattle.std.specs.Prelude.{◌≡◌, ◌↔◌, [], IfOk, false, map, string_bytes};
ghost use Rattle.std.specs.List.{AllZip};
ghost use Rattle.request_json.specs.ReportFaults.{IsReportFault};
ghost use Rattle.request_json.specs.RequestFaults.{IsRequestFault, ReadsAsSomeRequest};
ghost use Rattle.serde_json.specs.Data.{string};
ghost use Rattle.serde_json.specs.View.{view};
ghost use Rattle.serde_json.specs.Written.{compact_text, has_float};
ghost use Rattle.tracker_http.specs.Faulty.{AreFaultLines, IsFaultyReply, IsReplyTo, TellsFault, faulty_bytes, faulty_data};

use super::reading::Reading;
use super::told::Told;
use http_messages::{Asked, Status, reply_bytes};
use request_json::{RequestFault, faults_of_report, faults_of_request, request_fault_text};
use serde_json::{Value, json};
use std::alloc::{AllocError, Global};

// A line for each of these faults of a body.
fn lines_of(alloc: Global, faults: &[RequestFault], body: &[u8]) -> Result<Vec<String>, AllocError>
    ensures { IfOk result (λ lines. AllZip TellsFault faults.now (map string_bytes lines.items)) }
{
    let mut lines = Vec::with_capacity(alloc, faults.len())?;
    for fault in faults {
        lines.push(request_fault_text(alloc, *fault, body)?)?;
    }
    Ok(lines)
}

/// A line for each fault of a body that is to be an operator's request; none exactly where it is one. It fails for want of
/// memory only.
pub fn fault_lines(alloc: Global, body: &[u8]) -> Result<Vec<String>, AllocError>
    ensures exactly { IfOk result (λ lines. AreFaultLines (IsRequestFault body.now) (map string_bytes lines.items)) }
    ensures none { IfOk result (λ lines. (lines.items ≡ []) ↔ ReadsAsSomeRequest body.now) }
{
    let faults = faults_of_request(alloc, body)?;
    lines_of(alloc, &faults, body)
}

// The same of one that is to be a report.
fn report_lines(alloc: Global, body: &[u8]) -> Result<Vec<String>, AllocError>
    ensures { IfOk result (λ lines. AreFaultLines (IsReportFault body.now) (map string_bytes lines.items)) }
{
    let faults = faults_of_report(alloc, body)?;
    lines_of(alloc, &faults, body)
}

/// Lines as values. It fails for want of memory only.
pub fn line_values(alloc: Global, lines: &[String]) -> Result<Vec<Value>, AllocError>
    ensures { IfOk result (λ values. map view values.items ≡ map string (map string_bytes lines.now)) }
{
    let mut values = Vec::with_capacity(alloc, lines.len())?;
    for line in lines {
        values.push(Value::String(String::from_str(alloc, line)?))?;
    }
    Ok(values)
}

// A fault of the exchange with these values.
fn faulty_value(alloc: Global, code: u16, values: Vec<Value>) -> Result<Value, AllocError>
    ensures { IfOk result (λ v. view v ≡ faulty_data code (map view values.items)) }
{
    json!(in alloc; {"error": code, "faults": values})
}

/// The text of a value without a float. It fails for want of memory only.
pub fn value_text(alloc: Global, value: &Value) -> Result<Vec<u8>, AllocError>
    requires { has_float (view value.now) ≡ false }
    ensures { IfOk result (λ text. text.items ≡ compact_text (view value.now)) }
{
    value.to_vec(alloc)
}

// The reply that has these lines.
fn faulty_reply(alloc: Global, lines: &[String]) -> Result<Vec<u8>, AllocError>
    ensures { IfOk result (λ reply. reply.items ≡ faulty_bytes (map string_bytes lines.now)) }
{
    let values = line_values(alloc, lines)?;
    let value = faulty_value(alloc, Status::BadRequest.code(), values)?;
    let text = value_text(alloc, &value)?;
    reply_bytes(alloc, Status::BadRequest, &text)
}

// The reply to a body that is no report.
fn no_report(alloc: Global, body: &[u8]) -> Result<Vec<u8>, AllocError>
    ensures { IfOk result (λ reply. IsFaultyReply (IsReportFault body.now) reply.items) }
{
    let lines = report_lines(alloc, body)?;
    faulty_reply(alloc, &lines)
}

// The reply to a body that is no operator's request.
fn no_request(alloc: Global, body: &[u8]) -> Result<Vec<u8>, AllocError>
    ensures { IfOk result (λ reply. IsFaultyReply (IsRequestFault body.now) reply.items) }
{
    let lines = fault_lines(alloc, body)?;
    faulty_reply(alloc, &lines)
}

/// The reply that tells this of a request that was read so: of a body that is no report, or no operator's request, also what is
/// wrong with it. It fails for want of memory only.
pub(crate) fn reply_to(
    alloc: Global,
    asked: &Asked,
    reading: &Reading,
    told: &Told,
) -> Result<Vec<u8>, AllocError>
    ensures { IfOk result (λ reply. IsReplyTo asked.now reading.now told.now reply.items) }
{
    match (asked, reading) {
        (Asked::Report(body), Reading::Nothing) => no_report(alloc, body),
        (Asked::Operator(body), Reading::Nothing) => no_request(alloc, body),
        _ => told.reply(alloc),
    }
}
