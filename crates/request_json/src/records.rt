// Texts of records: plans that are to be loaded, occurrences that are to be added, and extensions.
ghost use Rattle.std.specs.Prelude.{codes, IfOk, MatchOption};
ghost use Rattle.plan_items.specs.Parts.{IsReading};
ghost use Rattle.request_json.specs.Brought.{Brings, BringsAt};
ghost use Rattle.request_json.specs.Counted.{AsksBy};
ghost use Rattle.request_json.specs.declared.records.Brought.{Brought as BroughtValue};
ghost use Rattle.serde_json.specs.View.{view};

use super::members::text_at;
use super::verbs::{ADD, EXTEND};
use crate::read_value;
use plan_basics::Watched;
use plan_import::{read_extension, read_occurrence, read_plan};
use plan_records::What;
use serde_json::Value;
use std::alloc::{AllocError, Global};

/// The load of a plan, where `records` is the third member. A text that denotes no plan is a load all the same.
pub fn read_load(alloc: Global, value: &Value, count: usize) -> Result<Option<What>, AllocError>
    ensures { IfOk result (IsReading (AsksBy (view value.now) (codes "load") count)) }
{
    if count != 3 {
        return Ok(None);
    }
    let Some(records) = text_at(value, "records") else {
        return Ok(None);
    };
    let mut reader = Watched::new(records.as_bytes());
    match read_plan(alloc, &mut reader) {
        Ok(plan) => Ok(Some(What::Load(plan))),
        Err(_) => Err(AllocError),
    }
}

/// The addition of an occurrence, in the same way.
pub fn read_add(alloc: Global, value: &Value, count: usize) -> Result<Option<What>, AllocError>
    ensures { IfOk result (IsReading (AsksBy (view value.now) (codes "add") count)) }
{
    if count != 3 {
        return Ok(None);
    }
    let Some(records) = text_at(value, "records") else {
        return Ok(None);
    };
    let mut reader = Watched::new(records.as_bytes());
    match read_occurrence(alloc, &mut reader) {
        Ok(addition) => Ok(Some(What::AddOccurrence(addition))),
        Err(_) => Err(AllocError),
    }
}

/// The extension of the plan, in the same way.
pub fn read_extend(alloc: Global, value: &Value, count: usize) -> Result<Option<What>, AllocError>
    ensures { IfOk result (IsReading (AsksBy (view value.now) (codes "extend") count)) }
{
    if count != 3 {
        return Ok(None);
    }
    let Some(records) = text_at(value, "records") else {
        return Ok(None);
    };
    let mut reader = Watched::new(records.as_bytes());
    match read_extension(alloc, &mut reader) {
        Ok(extension) => Ok(Some(What::Extend(extension))),
        Err(_) => Err(AllocError),
    }
}

/// The records that a request brings to a plan.
#[derive(Drop)]
pub enum Brought {
    /// Those of an addition.
    Addition(String),
    /// Those of an extension.
    Extension(String),
}

// The records that a value brings to a plan, if it is an addition or an extension.
fn brought_at(alloc: Global, value: &Value) -> Result<Option<Brought>, AllocError>
    ensures { IfOk result (λ found. MatchOption found ((b : BroughtValue) → ¬ BringsAt (view value.now) b) (BringsAt (view value.now))) }
{
    let Some(verb) = text_at(value, "do") else {
        return Ok(None);
    };
    let Some(records) = text_at(value, "records") else {
        return Ok(None);
    };
    match verb {
        ADD => Ok(Some(Brought::Addition(String::from_str(alloc, records)?))),
        EXTEND => Ok(Some(Brought::Extension(String::from_str(alloc, records)?))),
        _ => Ok(None),
    }
}

/// The records that a text brings to a plan, if it is an addition or an extension. It fails for want of memory only.
pub fn brought_records(alloc: Global, body: &[u8]) -> Result<Option<Brought>, AllocError>
    ensures { IfOk result (λ found. MatchOption found ((b : BroughtValue) → ¬ Brings body.now b) (Brings body.now)) }
{
    match read_value(alloc, body)? {
        Some(value) => brought_at(alloc, &value),
        None => Ok(None),
    }
}
