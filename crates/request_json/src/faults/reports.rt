// What is found in a report's text.
ghost use Rattle.std.specs.Prelude.{◌≡◌, ◌↔◌, ◌⊎◌, Some, Contains, IfOk, OnOk};
ghost use Rattle.plan_items.specs.Parts.{IsReading};
ghost use Rattle.request_json.specs.ReportFaults.{report_members, HasOthersInReport, IsFaultOfTwo, IsReportFault, IsReportFaultOfKind, IsReportFaultOfObject, IsReportFaultOfValue, IsReportOfKind};
ghost use Rattle.serde_json.specs.View.{view};

use super::finding::{RequestFault, has_member, known, tell, tell_any, tell_member};
use super::kinds::{MemberName, RequestKind, first_member, kind_of_verb, second_member};
use crate::members::{members_beside, text_at};
use crate::operations::is_report;
use crate::read_value;
use serde_json::Value;
use std::alloc::{AllocError, Global};

// The kind of a value's report, where its `do` is a report's.
fn report_kind_at(value: &Value) -> Option<RequestKind>
    ensures { IsReading (IsReportOfKind (view value.now)) result }
{
    let Some(verb) = text_at(value, "do") else {
        return None;
    };
    if !is_report(verb) {
        return None;
    }
    kind_of_verb(verb)
}

// How many members of a report of the kind a value has.
fn known_in_report(value: &Value, kind: RequestKind) -> usize
    ensures { result ≡ report_members (view value.now) kind }
{
    let request = known(value, kind);
    let tracker = has_member(value, Some(MemberName::Tracker));
    let number = has_member(value, Some(MemberName::Number));
    request + (tracker + number)
}

// That a value has others too.
fn others_in_report(value: &Value, kind: RequestKind) -> Option<RequestFault>
    ensures { (f : RequestFault) → (result ≡ Some f) ↔ HasOthersInReport (view value.now) kind f }
{
    let Some(count) = members_beside(value, 0) else {
        return Some(RequestFault::OthersInReport);
    };
    if count == known_in_report(value, kind) {
        return None;
    }
    Some(RequestFault::OthersInReport)
}

// What is wrong with two members that must be there goes to the end.
fn tell_two(
    alloc: Global,
    faults: &mut Vec<RequestFault>,
    value: &Value,
    first: MemberName,
    second: MemberName,
) -> Result<(), AllocError>
    ensures { OnOk result ((f : RequestFault) → Contains faults.new.items f ↔ (Contains faults.old.items f ⊎ IsFaultOfTwo (view value.now) first second f)) }
{
    tell_member(alloc, faults, value, first)?;
    tell_member(alloc, faults, value, second)?;
    Ok(())
}

// What is wrong with what comes with a report's `do` of the kind goes to the end.
fn tell_report_kind(
    alloc: Global,
    faults: &mut Vec<RequestFault>,
    value: &Value,
    kind: RequestKind,
) -> Result<(), AllocError>
    ensures { OnOk result ((f : RequestFault) → Contains faults.new.items f ↔ (Contains faults.old.items f ⊎ IsReportFaultOfKind (view value.now) kind f)) }
{
    tell_any(alloc, faults, value, first_member(kind))?;
    tell_any(alloc, faults, value, second_member(kind))?;
    tell(faults, others_in_report(value, kind))?;
    Ok(())
}

// The faults of an object that is to be a report.
fn report_faults_of_object(alloc: Global, value: &Value) -> Result<Vec<RequestFault>, AllocError>
    ensures { IfOk result (λ v. (f : RequestFault) → Contains v.items f ↔ IsReportFaultOfObject (view value.now) f) }
{
    let mut faults = Vec::new(alloc);
    tell_two(
        alloc,
        &mut faults,
        value,
        MemberName::Tracker,
        MemberName::Number,
    )?;
    tell_two(
        alloc,
        &mut faults,
        value,
        MemberName::At,
        MemberName::ReportDo,
    )?;
    let Some(kind) = report_kind_at(value) else {
        return Ok(faults);
    };
    tell_report_kind(alloc, &mut faults, value, kind)?;
    Ok(faults)
}

// The faults of a value that is to be a report.
fn report_faults_of_value(alloc: Global, value: &Value) -> Result<Vec<RequestFault>, AllocError>
    ensures { IfOk result (λ v. (f : RequestFault) → Contains v.items f ↔ IsReportFaultOfValue (view value.now) f) }
{
    if !value.is_object() {
        let alone = Vec::from_slice(alloc, &[RequestFault::NoObject])?;
        return Ok(alone);
    }
    let faults = report_faults_of_object(alloc, value)?;
    Ok(faults)
}

/// The faults of a report's text. It fails for want of memory only.
pub fn faults_of_report(alloc: Global, body: &[u8]) -> Result<Vec<RequestFault>, AllocError>
    ensures { IfOk result (λ v. (f : RequestFault) → Contains v.items f ↔ IsReportFault body.now f) }
{
    let Some(value) = read_value(alloc, body)? else {
        let alone = Vec::from_slice(alloc, &[RequestFault::NoJson])?;
        return Ok(alone);
    };
    let faults = report_faults_of_value(alloc, &value)?;
    Ok(faults)
}
