// Requests, by their members.
ghost use Rattle.std.specs.Prelude.{◌≡◌, codes, IfOk};
ghost use Rattle.plan_items.specs.Parts.{IsReading};
ghost use Rattle.request_json.specs.Counted.{AsksBy, SaysBeside};
ghost use Rattle.serde_json.specs.Data.{Data};
ghost use Rattle.serde_json.specs.View.{view};

use super::intervals::read_intervals;
use super::members::{
    array_at, code_at, members_beside, minute_at, occurrence_at, operation_at, resource_at,
    text_at, workstation_at,
};
use super::operations::read_on_operation;
use super::records::{read_add, read_extend, read_load};
use super::verbs::{ADD, AVAILABLE, DELETE, DEPEND, ERROR, EXTEND, INTERVALS, LOAD, TICK};
use plan_records::{Request, What};
use serde_json::Value;
use std::alloc::{AllocError, Global};

/// The request that a value says by its members beside so many others.
pub fn read_request(
    alloc: Global,
    value: &Value,
    others: usize,
) -> Result<Option<Request>, AllocError>
    ensures { IfOk result (IsReading (SaysBeside (view value.now) others)) }
{
    let Some(at) = minute_at(value, "at") else {
        return Ok(None);
    };
    let Some(verb) = text_at(value, "do") else {
        return Ok(None);
    };
    let Some(count) = members_beside(value, others) else {
        return Ok(None);
    };
    match read_what(alloc, verb, value, count)? {
        Some(what) => Ok(Some(request_at(at, what))),
        None => Ok(None),
    }
}

// The request of what is asked at a minute.
fn request_at(at: i64, what: What) -> Request
    ensures at { result.at ≡ at }
    ensures what { result.what ≡ what }
{
    Request { at, what }
}

// What is asked with this `do`, by so many members.
fn read_what(
    alloc: Global,
    verb: &str,
    value: &Value,
    count: usize,
) -> Result<Option<What>, AllocError>
    ensures { IfOk result (IsReading (AsksBy (view value.now) verb.now count)) }
{
    match verb {
        TICK => Ok(read_tick(count)),
        ERROR => Ok(read_error(value, count)),
        LOAD => read_load(alloc, value, count),
        ADD => read_add(alloc, value, count),
        EXTEND => read_extend(alloc, value, count),
        DELETE => Ok(read_delete(value, count)),
        DEPEND => Ok(read_depend(value, count)),
        AVAILABLE => Ok(read_available(value, count)),
        INTERVALS => read_replacement(alloc, value, count),
        _ => Ok(read_on_operation(verb, value, count)),
    }
}

// A tick: `at` and `do` alone.
fn read_tick(count: usize) -> Option<What>
    ensures { (d : Data) → IsReading (AsksBy d (codes "tick") count) result }
{
    if count == 2 { Some(What::Tick) } else { None }
}

// The report of an error, by `op` and `code`.
fn read_error(value: &Value, count: usize) -> Option<What>
    ensures { IsReading (AsksBy (view value.now) (codes "error") count) result }
{
    if count != 4 {
        return None;
    }
    let key = operation_at(value, "op")?;
    let code = code_at(value)?;
    Some(What::Error(key, code))
}

// The deletion of an occurrence, by `occ`.
fn read_delete(value: &Value, count: usize) -> Option<What>
    ensures { IsReading (AsksBy (view value.now) (codes "delete") count) result }
{
    if count != 3 {
        return None;
    }
    let key = occurrence_at(value, "occ")?;
    Some(What::DeleteOccurrence(key))
}

// The addition of a dependency, by `from` and `to`.
fn read_depend(value: &Value, count: usize) -> Option<What>
    ensures { IsReading (AsksBy (view value.now) (codes "depend") count) result }
{
    if count != 4 {
        return None;
    }
    let predecessor = operation_at(value, "from")?;
    let successor = operation_at(value, "to")?;
    Some(What::AddDependency(predecessor, successor))
}

// Whether a special resource is available, by `resource` and `value`.
fn read_available(value: &Value, count: usize) -> Option<What>
    ensures { IsReading (AsksBy (view value.now) (codes "available") count) result }
{
    if count != 4 {
        return None;
    }
    let resource = resource_at(value)?;
    let available = value.get("value")?.as_bool()?;
    Some(What::SetAvailable(resource, available))
}

// The intervals that a workstation gets, by `ws` and `intervals`.
fn read_replacement(alloc: Global, value: &Value, count: usize) -> Result<Option<What>, AllocError>
    ensures { IfOk result (IsReading (AsksBy (view value.now) (codes "intervals") count)) }
{
    if count != 4 {
        return Ok(None);
    }
    let Some(workstation) = workstation_at(value) else {
        return Ok(None);
    };
    let Some(list) = array_at(value, "intervals") else {
        return Ok(None);
    };
    match read_intervals(alloc, list)? {
        Some(intervals) => Ok(Some(What::ReplaceIntervals(workstation, intervals))),
        None => Ok(None),
    }
}
