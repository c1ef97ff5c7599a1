// What is found in a request's text.
ghost use Rattle.std.specs.Prelude.{◌≡◌, ◌↔◌, ◌⊎◌, ◌≤◌, [], Some, Contains, IsTrue, IfOk, OnOk};
ghost use Rattle.request_json.specs.RequestFaults.{has, known_members, HasOthers, IsFaultOfMember, IsFaultOfAny, IsFaultOfKind, IsFaultOfObject, IsFaultOfValue, IsRequestFault, SaysSomeRequest, ReadsAsSomeRequest};
ghost use Rattle.serde_json.specs.View.{view};

use super::kinds::{
    MemberName, RequestKind, first_member, fits, kind_at, member_name, second_member,
};
use crate::members::members_beside;
use crate::read_value;
use crate::requests::read_request;
use serde_json::Value;
use std::alloc::{AllocError, Global};

/// What is wrong with a request's text, or a report's.
#[derive(Clone, Copy)]
pub enum RequestFault {
    /// It is no JSON text.
    NoJson,
    /// Its value is no object.
    NoObject,
    /// The object hasn't this member, which the request must have.
    Missing(MemberName),
    /// The member isn't of its form.
    Wrong(MemberName),
    /// The object has members beside those that come with its `do`.
    Others,
    /// So it is in a report.
    OthersInReport,
}

// What is wrong with one member, if something is.
fn fault_of_member(
    alloc: Global,
    value: &Value,
    name: MemberName,
) -> Result<Option<RequestFault>, AllocError>
    ensures { IfOk result (λ found. (f : RequestFault) → (found ≡ Some f) ↔ IsFaultOfMember (view value.now) name f) }
{
    if value.get(member_name(name)).is_none() {
        return Ok(Some(RequestFault::Missing(name)));
    }
    if fits(alloc, value, name)? {
        return Ok(None);
    }
    Ok(Some(RequestFault::Wrong(name)))
}

// A fault that is found goes to the end.
pub(super) fn tell(
    faults: &mut Vec<RequestFault>,
    found: Option<RequestFault>,
) -> Result<(), AllocError>
    ensures { OnOk result ((f : RequestFault) → Contains faults.new.items f ↔ (Contains faults.old.items f ⊎ (found ≡ Some f))) }
{
    let Some(fault) = found else {
        return Ok(());
    };
    faults.extend_from_slice(&[fault])?;
    Ok(())
}

// What is wrong with a member that must be there goes to the end.
pub(super) fn tell_member(
    alloc: Global,
    faults: &mut Vec<RequestFault>,
    value: &Value,
    name: MemberName,
) -> Result<(), AllocError>
    ensures { OnOk result ((f : RequestFault) → Contains faults.new.items f ↔ (Contains faults.old.items f ⊎ IsFaultOfMember (view value.now) name f)) }
{
    let found = fault_of_member(alloc, value, name)?;
    tell(faults, found)?;
    Ok(())
}

// So it does where there is to be such a member.
pub(super) fn tell_any(
    alloc: Global,
    faults: &mut Vec<RequestFault>,
    value: &Value,
    name: Option<MemberName>,
) -> Result<(), AllocError>
    ensures { OnOk result ((f : RequestFault) → Contains faults.new.items f ↔ (Contains faults.old.items f ⊎ IsFaultOfAny (view value.now) name f)) }
{
    let Some(name) = name else {
        return Ok(());
    };
    tell_member(alloc, faults, value, name)?;
    Ok(())
}

// 1 where a value has a member, else 0.
pub(super) fn has_member(value: &Value, name: Option<MemberName>) -> usize
    ensures count { result ≡ has (view value.now) name }
    ensures few { result ≤ 1 }
{
    let Some(name) = name else {
        return 0;
    };
    if value.get(member_name(name)).is_none() {
        return 0;
    }
    1
}

// How many members of a request of the kind a value has.
pub(super) fn known(value: &Value, kind: RequestKind) -> usize
    ensures count { result ≡ known_members (view value.now) kind }
    ensures few { result ≤ 4 }
{
    let at = has_member(value, Some(MemberName::At));
    let verb = has_member(value, Some(MemberName::Do));
    let first = has_member(value, first_member(kind));
    let second = has_member(value, second_member(kind));
    at + verb + first + second
}

// That a value has others too.
fn others(value: &Value, kind: RequestKind) -> Option<RequestFault>
    ensures { (f : RequestFault) → (result ≡ Some f) ↔ HasOthers (view value.now) kind f }
{
    let Some(count) = members_beside(value, 0) else {
        return Some(RequestFault::Others);
    };
    if count == known(value, kind) {
        return None;
    }
    Some(RequestFault::Others)
}

// What is wrong with what comes with a `do` of the kind goes to the end.
fn tell_kind(
    alloc: Global,
    faults: &mut Vec<RequestFault>,
    value: &Value,
    kind: RequestKind,
) -> Result<(), AllocError>
    ensures { OnOk result ((f : RequestFault) → Contains faults.new.items f ↔ (Contains faults.old.items f ⊎ IsFaultOfKind (view value.now) kind f)) }
{
    tell_any(alloc, faults, value, first_member(kind))?;
    tell_any(alloc, faults, value, second_member(kind))?;
    tell(faults, others(value, kind))?;
    Ok(())
}

// The faults of an object.
fn faults_of_object(alloc: Global, value: &Value) -> Result<Vec<RequestFault>, AllocError>
    ensures { IfOk result (λ v. (f : RequestFault) → Contains v.items f ↔ IsFaultOfObject (view value.now) f) }
{
    let mut faults = Vec::new(alloc);
    tell_member(alloc, &mut faults, value, MemberName::At)?;
    tell_member(alloc, &mut faults, value, MemberName::Do)?;
    let Some(kind) = kind_at(value) else {
        return Ok(faults);
    };
    tell_kind(alloc, &mut faults, value, kind)?;
    Ok(faults)
}

// Whether a value says a request.
fn says_request(alloc: Global, value: &Value) -> Result<bool, AllocError>
    ensures { IfOk result (λ told. IsTrue told ↔ SaysSomeRequest (view value.now)) }
{
    let found = read_request(alloc, value, 0)?;
    Ok(found.is_some())
}

// The faults of a value.
fn faults_of_value(alloc: Global, value: &Value) -> Result<Vec<RequestFault>, AllocError>
    ensures exactly { IfOk result (λ v. (f : RequestFault) → Contains v.items f ↔ IsFaultOfValue (view value.now) f) }
    ensures none { IfOk result (λ v. (v.items ≡ []) ↔ SaysSomeRequest (view value.now)) }
{
    if !value.is_object() {
        let alone = Vec::from_slice(alloc, &[RequestFault::NoObject])?;
        return Ok(alone);
    }
    if says_request(alloc, value)? {
        return Ok(Vec::new(alloc));
    }
    let faults = faults_of_object(alloc, value)?;
    Ok(faults)
}

/// The faults of a request's text: there is none exactly where the text says a request of an operator. Where it says one it
/// takes as long as to read it. It fails for want of memory only.
pub fn faults_of_request(alloc: Global, body: &[u8]) -> Result<Vec<RequestFault>, AllocError>
    ensures exactly { IfOk result (λ v. (f : RequestFault) → Contains v.items f ↔ IsRequestFault body.now f) }
    ensures none { IfOk result (λ v. (v.items ≡ []) ↔ ReadsAsSomeRequest body.now) }
{
    let Some(value) = read_value(alloc, body)? else {
        let alone = Vec::from_slice(alloc, &[RequestFault::NoJson])?;
        return Ok(alone);
    };
    let faults = faults_of_value(alloc, &value)?;
    Ok(faults)
}
