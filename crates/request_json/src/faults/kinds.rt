// The members that come with each `do`, and whether each is of its form.
ghost use Rattle.std.specs.Prelude.{◌≡◌, ◌↔◌, Bool, IsTrue, IfOk, codes};
ghost use Rattle.plan_items.specs.Parts.{IsReading};
ghost use Rattle.request_json.specs.Members.{HasMember};
ghost use Rattle.request_json.specs.RequestFaults.{member_text, IsOperationVerb, IsRecordsVerb, IsVerbOf, IsOfKind, first_of_kind, second_of_kind, Fits};
ghost use Rattle.request_json.specs.declared.faults.kinds.MemberName.TheVariants as name;
ghost use Rattle.serde_json.specs.Data.{boolean};
ghost use Rattle.serde_json.specs.View.{view};

use crate::intervals::read_intervals;
use crate::members::{
    array_at, code_at, minute_at, number_at, occurrence_at, operation_at, resource_at, text_at,
    tracker_at, workstation_at,
};
use crate::operations::is_report;
use crate::verbs::{
    ADD, AVAILABLE, COMPLETE, DELETE, DEPEND, ENDED, ERROR, EXTEND, HOLD, INTERRUPTED, INTERVALS,
    LOAD, NOP, RELEASE, RERUN, STARTED, TICK, UNKNOWN, UNNOP,
};
use serde_json::Value;
use std::alloc::{AllocError, Global};

/// A member of a request.
#[derive(Clone, Copy)]
pub enum MemberName {
    At,
    Do,
    Op,
    Code,
    Occ,
    Records,
    From,
    To,
    Resource,
    Value,
    Ws,
    Intervals,
    /// Of a report.
    Tracker,
    /// Of a report.
    Number,
    /// The `do` of a report.
    ReportDo,
}

/// What kind of request it is, by the members that come with its `do`.
#[derive(Clone, Copy)]
pub enum RequestKind {
    /// None comes.
    Tick,
    /// `op`.
    OnOperation,
    /// `op` and `code`.
    Error,
    /// `occ`.
    Delete,
    /// `records`.
    Records,
    /// `from` and `to`.
    Depend,
    /// `resource` and `value`.
    Available,
    /// `ws` and `intervals`.
    Intervals,
}

/// The name of a member as it is written.
pub fn member_name(name: MemberName) -> &'static str
    ensures { result.now ≡ member_text name }
{
    match name {
        MemberName::At => "at",
        MemberName::Do => "do",
        MemberName::Op => "op",
        MemberName::Code => "code",
        MemberName::Occ => "occ",
        MemberName::Records => "records",
        MemberName::From => "from",
        MemberName::To => "to",
        MemberName::Resource => "resource",
        MemberName::Value => "value",
        MemberName::Ws => "ws",
        MemberName::Intervals => "intervals",
        MemberName::Tracker => "tracker",
        MemberName::Number => "number",
        MemberName::ReportDo => "do",
    }
}

/// The first member that comes with `at` and `do`.
pub fn first_member(kind: RequestKind) -> Option<MemberName>
    ensures { result ≡ first_of_kind kind }
{
    match kind {
        RequestKind::Tick => None,
        RequestKind::OnOperation => Some(MemberName::Op),
        RequestKind::Error => Some(MemberName::Op),
        RequestKind::Delete => Some(MemberName::Occ),
        RequestKind::Records => Some(MemberName::Records),
        RequestKind::Depend => Some(MemberName::From),
        RequestKind::Available => Some(MemberName::Resource),
        RequestKind::Intervals => Some(MemberName::Ws),
    }
}

/// The second.
pub fn second_member(kind: RequestKind) -> Option<MemberName>
    ensures { result ≡ second_of_kind kind }
{
    match kind {
        RequestKind::Error => Some(MemberName::Code),
        RequestKind::Depend => Some(MemberName::To),
        RequestKind::Available => Some(MemberName::Value),
        RequestKind::Intervals => Some(MemberName::Intervals),
        _ => None,
    }
}

// Whether this `do` asks for something of an operation by its key alone.
fn is_on_operation(verb: &str) -> bool
    ensures { IsTrue result ↔ IsOperationVerb verb.now }
{
    matches!(
        verb,
        STARTED | ENDED | INTERRUPTED | UNKNOWN | HOLD | RELEASE | NOP | UNNOP | RERUN | COMPLETE
    )
}

// Whether this `do` brings records.
fn brings_records(verb: &str) -> bool
    ensures { IsTrue result ↔ IsRecordsVerb verb.now }
{
    matches!(verb, LOAD | ADD | EXTEND)
}

// The kind of another `do`.
fn other_kind(verb: &str) -> Option<RequestKind>
    requires operation { ¬ IsOperationVerb verb.now }
    requires records { ¬ IsRecordsVerb verb.now }
    ensures { IsReading (λ k. IsVerbOf k verb.now) result }
{
    match verb {
        TICK => Some(RequestKind::Tick),
        ERROR => Some(RequestKind::Error),
        DELETE => Some(RequestKind::Delete),
        DEPEND => Some(RequestKind::Depend),
        AVAILABLE => Some(RequestKind::Available),
        INTERVALS => Some(RequestKind::Intervals),
        _ => None,
    }
}

/// The kind of a request of this `do`.
pub fn kind_of_verb(verb: &str) -> Option<RequestKind>
    ensures { IsReading (λ k. IsVerbOf k verb.now) result }
{
    if is_on_operation(verb) {
        return Some(RequestKind::OnOperation);
    }
    if brings_records(verb) {
        return Some(RequestKind::Records);
    }
    other_kind(verb)
}

/// The kind of a value's request, where its `do` is known.
pub fn kind_at(value: &Value) -> Option<RequestKind>
    ensures { IsReading (IsOfKind (view value.now)) result }
{
    kind_of_verb(text_at(value, "do")?)
}

// Whether the member `value` is true or false.
fn has_flag(value: &Value) -> bool
    ensures { IsTrue result ↔ ((b : Bool) × HasMember (view value.now) (codes "value", boolean b)) }
{
    match value.get("value") {
        Some(value) => value.as_bool().is_some(),
        None => false,
    }
}

// Whether the member `records` is a text.
fn has_records(value: &Value) -> bool
    ensures { IsTrue result ↔ Fits (view value.now) name.Records }
{
    text_at(value, "records").is_some()
}

// Whether the member `intervals` is an array of intervals.
fn has_intervals(alloc: Global, value: &Value) -> Result<bool, AllocError>
    ensures { IfOk result (λ told. IsTrue told ↔ Fits (view value.now) name.Intervals) }
{
    let Some(list) = array_at(value, "intervals") else {
        return Ok(false);
    };
    let found = read_intervals(alloc, list)?;
    Ok(found.is_some())
}

// Whether the member `do` is a report's.
fn has_report_verb(value: &Value) -> bool
    ensures { IsTrue result ↔ Fits (view value.now) name.ReportDo }
{
    match text_at(value, "do") {
        Some(verb) => is_report(verb),
        None => false,
    }
}

/// Whether a value has a member of its form.
pub fn fits(alloc: Global, value: &Value, name: MemberName) -> Result<bool, AllocError>
    ensures { IfOk result (λ told. IsTrue told ↔ Fits (view value.now) name) }
{
    match name {
        MemberName::At => Ok(minute_at(value, "at").is_some()),
        MemberName::Do => Ok(kind_at(value).is_some()),
        MemberName::Op => Ok(operation_at(value, "op").is_some()),
        MemberName::Code => Ok(code_at(value).is_some()),
        MemberName::Occ => Ok(occurrence_at(value, "occ").is_some()),
        MemberName::Records => Ok(has_records(value)),
        MemberName::From => Ok(operation_at(value, "from").is_some()),
        MemberName::To => Ok(operation_at(value, "to").is_some()),
        MemberName::Resource => Ok(resource_at(value).is_some()),
        MemberName::Value => Ok(has_flag(value)),
        MemberName::Ws => Ok(workstation_at(value).is_some()),
        MemberName::Intervals => has_intervals(alloc, value),
        MemberName::Tracker => Ok(tracker_at(value).is_some()),
        MemberName::Number => Ok(number_at(value).is_some()),
        MemberName::ReportDo => Ok(has_report_verb(value)),
    }
}
