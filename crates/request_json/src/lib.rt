//! Requests and replies as JSON texts.
//!
//! A request is an object with exactly the members that are named here. Each has `at`, a date and time of the years
//! 0000 to 9999 written `YYYY-MM-DDTHH:MM`, and `do`; the others go by `do`:
//!
//! | `do` | Members |
//! |---|---|
//! | `tick` | none |
//! | `started`, `ended`, `interrupted`, `unknown`, `hold`, `release`, `nop`, `unnop`, `rerun`, `complete` | `op`: the key of an operation |
//! | `error` | `op`; `code`: the error code |
//! | `delete` | `occ`: the key of an occurrence |
//! | `load`, `add`, `extend` | `records`: the text of a plan, of an occurrence, or of an extension |
//! | `depend` | `from`, `to`: the keys of two operations |
//! | `available` | `resource`: its name; `value`: true or false |
//! | `intervals` | `ws`: the name of a workstation; `intervals`: an array of arrays of a first minute, an end, servers, R1 and R2 |
//!
//! An operator's request is any of these. The report of a tracker is one of `started`, `ended`, `error`, `interrupted`
//! and `unknown`, with two members more: `tracker`, its name, and `number`, which it gives to the report. The members
//! and their texts are this project's own; what a JSON text is, and which value it has, is the statement of
//! `serde_json`. Of a member that is given twice the last value counts.
#![tactic(auto)]

ghost use Rattle.std.specs.Prelude.{◌≡◌, MatchOption, IfOk, IfErr};
ghost use Rattle.plan_items.specs.Parts.{IsReading};
ghost use Rattle.request_json.specs.Members.{IsJsonOf};
ghost use Rattle.request_json.specs.Requests.{SaysReport, ReadsAsRequest, ReadsAsReport};
ghost use Rattle.serde_json.specs.Data.{Data};
ghost use Rattle.serde_json.specs.View.{view};

mod faults;
mod intervals;
mod members;
mod operations;
mod records;
mod replies;
mod requests;
mod rows;
pub mod verbs;

pub use faults::{
    MemberName, RequestFault, RequestKind, faults_of_report, faults_of_request, request_fault_text,
};
use members::{number_at, text_at, tracker_at};
use operations::is_report;
use plan_basics::TrackerName;
pub use plan_import::{ImportFault, read_extension, read_plan};
pub use plan_records::{Request, What};
pub use records::{Brought, brought_records};
pub use replies::{fault_text, reply_text};
use requests::read_request;
pub use rows::{OccurrenceRow, ReadyRow, occurrences_text, ready_text};
use serde_json::Value;
use std::alloc::{AllocError, Global};

/// Why an exchange with a client was broken off.
#[derive(Clone, Copy)]
pub enum WireFault {
    /// Memory lacked.
    Memory,
    /// The reader answered a fault.
    Reader,
    /// The writer answered a fault.
    Writer,
}

/// A growth that was refused is `Memory`.
impl From<AllocError> for WireFault {
    ghost use Rattle.std.specs.Prelude.{◌≡◌};
    ghost use Rattle.request_json.specs.declared.WireFault.{WireFault};

    ghost from_gives = { λ _ fault. fault ≡ WireFault.Memory };

    fn from(_: AllocError) -> WireFault {
        WireFault::Memory
    }
}

/// A report of a tracker: which one, the number that it gives to the report, 0 to 999,999,999, and what it reports.
#[derive(Drop)]
pub struct NumberedRequest {
    pub tracker: TrackerName,
    pub number: u64,
    pub request: Request,
}

/// The request of an operator that a JSON text says, if it says one. `tracker` and `number` are no members of it. Of
/// the faults, `Memory` alone is answered.
pub fn read_operator(alloc: Global, body: &[u8]) -> Result<Option<Request>, WireFault>
    ensures request { IfOk result (IsReading (ReadsAsRequest body.now)) }
    ensures memory { IfErr result (λ fault. fault ≡ WireFault.Memory) }
{
    match read_value(alloc, body)? {
        Some(value) => Ok(read_request(alloc, &value, 0)?),
        None => Ok(None),
    }
}

/// The report of a tracker that a JSON text says, if it says one. Of the faults, `Memory` alone is answered.
pub fn read_report(alloc: Global, body: &[u8]) -> Result<Option<NumberedRequest>, WireFault>
    ensures report { IfOk result (IsReading (ReadsAsReport body.now)) }
    ensures memory { IfErr result (λ fault. fault ≡ WireFault.Memory) }
{
    match read_value(alloc, body)? {
        Some(value) => Ok(numbered_request(alloc, &value)?),
        None => Ok(None),
    }
}

// The report that a value says, if it says one.
fn numbered_request(alloc: Global, value: &Value) -> Result<Option<NumberedRequest>, AllocError>
    ensures { IfOk result (IsReading (SaysReport (view value.now))) }
{
    let Some(verb) = text_at(value, "do") else {
        return Ok(None);
    };
    if !is_report(verb) {
        return Ok(None);
    }
    let Some(tracker) = tracker_at(value) else {
        return Ok(None);
    };
    let Some(number) = number_at(value) else {
        return Ok(None);
    };
    let Some(request) = read_request(alloc, value, 2)? else {
        return Ok(None);
    };
    Ok(Some(NumberedRequest {
        tracker,
        number,
        request,
    }))
}

// The value of a JSON text, if it is one.
fn read_value(alloc: Global, body: &[u8]) -> Result<Option<Value>, AllocError>
    ensures { IfOk result (λ found. MatchOption found ((d : Data) → ¬ IsJsonOf body.now d)
        (λ v. IsJsonOf body.now (view v))) }
{
    match Value::from_slice(alloc, body) {
        Ok(value) => Ok(Some(value)),
        Err(fault) if fault.is_memory() => Err(AllocError),
        Err(_) => Ok(None),
    }
}
