// What is told of a fault of a request's text: the member, what is wrong, and what it may be.
ghost use Rattle.std.specs.Prelude.{◌≡◌, ◌++◌, ℕ, List, codes, IfOk};
ghost use Rattle.std.specs.String.{string_bytes};
ghost use Rattle.request_json.specs.RequestFaults.{place_text};

use super::finding::RequestFault;
use super::kinds::{MemberName, RequestKind, first_member, kind_at, member_name, second_member};
use crate::read_value;
use crate::verbs::{all_verbs, report_verbs};
use plan_basics::limits::GREATEST_REQUEST_NUMBER;
use plan_basics::{ErrCode, ResName, WsName};
use serde_json::Value;
use std::alloc::{AllocError, Global};

// What a member may be.
fn may_be(alloc: Global, name: MemberName) -> Result<String, AllocError> {
    match name {
        MemberName::At => format!(in alloc; "a date and time YYYY-MM-DDTHH:MM"),
        MemberName::Do => all_verbs(alloc),
        MemberName::Op | MemberName::From | MemberName::To => format!(in alloc;
            "an operation's key APPLICATION/YYYY-MM-DDTHH:MM/NNN: the number has three digits: 010"
        ),
        MemberName::Code => format!(in alloc; "an error code of {}", ErrCode::FORM),
        MemberName::Occ => format!(in alloc; "an occurrence's key APPLICATION/YYYY-MM-DDTHH:MM"),
        MemberName::Records => format!(in alloc; "a text"),
        MemberName::Resource => format!(in alloc; "a name of {}", ResName::FORM),
        MemberName::Value => format!(in alloc; "true or false"),
        MemberName::Ws => format!(in alloc; "a name of {}", WsName::FORM),
        MemberName::Intervals => format!(in alloc;
            "an array of arrays of a first minute, an end after it, servers, R1 and R2: [[\"2024-03-01T22:00\",\"2024-03-02T06:00\",1,0,0]]"
        ),
        MemberName::Tracker => format!(in alloc;
            "a name of 1 to 8 characters of A-Z, 0-9, @, # and $"
        ),
        MemberName::Number => format!(in alloc;
            "a whole number from 0 to {}",
            GREATEST_REQUEST_NUMBER
        ),
        MemberName::ReportDo => report_verbs(alloc),
    }
}

// Whether a name is that of a member, if there is to be one.
fn is_name_of(found: Option<MemberName>, name: &str) -> bool {
    match found {
        Some(found) => member_name(found) == name,
        None => false,
    }
}

// Whether a name is that of a member of a request of the kind.
fn is_known(kind: RequestKind, name: &str) -> bool {
    name == "at"
        || name == "do"
        || is_name_of(first_member(kind), name)
        || is_name_of(second_member(kind), name)
}

// Whether a name is that of a member that reports alone have.
fn is_of_report(name: &str) -> bool {
    name == "tracker" || name == "number"
}

// The names of a value's other members than those of a request, or of a report, each between quotes.
fn names_of_others(alloc: Global, value: &Value, is_report: bool) -> Result<String, AllocError> {
    let mut text = String::new(alloc);
    let Some(kind) = kind_at(value) else {
        return Ok(text);
    };
    let Some(members) = value.as_object() else {
        return Ok(text);
    };
    for (name, _) in members.iter() {
        if !is_known(kind, name) && !(is_report && is_of_report(name)) {
            let more = format!(in alloc; " \"{name}\"")?;
            text.push_str(&more)?;
        }
    }
    Ok(text)
}

// That a body has other members than those of a request, or of a report.
fn others_text(alloc: Global, body: &[u8], is_report: bool) -> Result<String, AllocError> {
    match read_value(alloc, body)? {
        Some(value) => {
            let names = names_of_others(alloc, &value, is_report)?;
            format!(in alloc; "unknown member{names}")
        }
        None => format!(in alloc; "unknown member"),
    }
}

// What is wrong, and what it may be.
fn wrong_text(alloc: Global, fault: RequestFault, body: &[u8]) -> Result<String, AllocError> {
    match fault {
        RequestFault::NoJson => format!(in alloc; "no JSON text"),
        RequestFault::NoObject => format!(in alloc; "no object: it must be an object of members"),
        RequestFault::Missing(name) => {
            let form = may_be(alloc, name)?;
            format!(in alloc; "missing: must be {form}")
        }
        RequestFault::Wrong(name) => {
            let form = may_be(alloc, name)?;
            format!(in alloc; "must be {form}")
        }
        RequestFault::Others => others_text(alloc, body, false),
        RequestFault::OthersInReport => others_text(alloc, body, true),
    }
}

// The member that a fault is of; `request` where it is of the whole.
fn place_of(fault: RequestFault) -> &'static str
    ensures { result.now ≡ place_text fault }
{
    match fault {
        RequestFault::NoJson => "request",
        RequestFault::NoObject => "request",
        RequestFault::Missing(name) => member_name(name),
        RequestFault::Wrong(name) => member_name(name),
        RequestFault::Others | RequestFault::OthersInReport => "do",
    }
}

/// What is told of a fault of a request's text or a report's: the member, or `request` where it is of the whole, a colon, what is wrong
/// and what it may be. Other members are told with their names, under `do`. It fails for want of memory only.
pub fn request_fault_text(
    alloc: Global,
    fault: RequestFault,
    body: &[u8],
) -> Result<String, AllocError>
    ensures { IfOk result (λ text. (wrong : List ℕ) × (string_bytes text ≡ place_text fault ++ codes ": " ++ wrong)) }
{
    let place = place_of(fault);
    let wrong = wrong_text(alloc, fault, body)?;
    format!(in alloc; "{place}: {wrong}")
}
