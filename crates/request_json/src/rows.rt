// Lists of operations that are ready, and of occurrences, as compact texts.
ghost use Rattle.std.specs.Prelude.{◌≡◌, ◌<◌, [], ◌∷◌, map, false, string_bytes, IfOk};
ghost use Rattle.request_json.specs.Replies.{minute_shown, ready_data, occurrence_data};
ghost use Rattle.serde_json.specs.Data.{array};
ghost use Rattle.serde_json.specs.View.{view, items_of};
ghost use Rattle.serde_json.specs.Written.{compact_text, items_have_float};

use plan_basics::{Moment, NO_MOMENT, OccKey, OpKey};
use serde_json::{Value, json};
use status_rules::{OccStatus, Status};
use std::alloc::{AllocError, Global};

/// An operation of a ready list.
#[derive(Clone, Copy)]
pub struct ReadyRow {
    pub op: OpKey,
    /// Its occurrence's priority, from 1 (low) to 9 (urgent).
    pub priority: u8,
    /// In minutes.
    pub duration: u16,
    /// The minute by which it has to start, counted from 1972-01-01T00:00; it may be no moment.
    pub latest: i64,
    /// An operator holds it.
    pub held: bool,
    pub status: Status,
}

/// An occurrence of a list of occurrences.
#[derive(Clone, Copy)]
pub struct OccurrenceRow {
    pub occurrence: OccKey,
    /// From 1 (low) to 9 (urgent).
    pub priority: u8,
    pub deadline: Moment,
    pub status: OccStatus,
}

/// The text of a ready list: an array of its rows, in their order.
pub fn ready_text(alloc: Global, rows: &[ReadyRow]) -> Result<Vec<u8>, AllocError>
    ensures { IfOk result (λ text. text.items ≡ compact_text (array (items_of (map ready_data rows.now)))) }
{
    let mut values = Vec::with_capacity(alloc, rows.len())?;
    for row in rows {
        values.push(ready_value(alloc, row)?)?;
    }
    array_text(alloc, values)
}

/// The text of a list of occurrences: an array of its rows, in their order.
pub fn occurrences_text(alloc: Global, rows: &[OccurrenceRow]) -> Result<Vec<u8>, AllocError>
    ensures { IfOk result (λ text. text.items ≡ compact_text (array (items_of (map occurrence_data rows.now)))) }
{
    let mut values = Vec::with_capacity(alloc, rows.len())?;
    for row in rows {
        values.push(occurrence_value(alloc, row)?)?;
    }
    array_text(alloc, values)
}

fn array_text(alloc: Global, values: Vec<Value>) -> Result<Vec<u8>, AllocError>
    requires { items_have_float (items_of (map view values.items)) ≡ false }
    ensures { IfOk result (λ text. text.items ≡ compact_text (array (items_of (map view values.items)))) }
{
    Value::Array(values).to_vec(alloc)
}

fn ready_value(alloc: Global, row: &ReadyRow) -> Result<Value, AllocError>
    ensures { IfOk result (λ v. view v ≡ ready_data row.now) }
{
    let latest = minute_shown(alloc, row.latest)?;
    let key = format!(in alloc; "{}", row.op)?;
    let status = letter_text(alloc, row.status.letter())?;
    json!(in alloc; {
        "duration": row.duration,
        "held": row.held,
        "latest": latest,
        "op": key,
        "priority": row.priority,
        "status": status
    })
}

fn occurrence_value(alloc: Global, row: &OccurrenceRow) -> Result<Value, AllocError>
    ensures { IfOk result (λ v. view v ≡ occurrence_data row.now) }
{
    let deadline = format!(in alloc; "{}", row.deadline)?;
    let key = format!(in alloc; "{}", row.occurrence)?;
    let status = letter_text(alloc, row.status.letter())?;
    json!(in alloc; {
        "deadline": deadline,
        "occ": key,
        "priority": row.priority,
        "status": status
    })
}

// A minute as it is shown: its text, or sixteen hyphens where no plan can name it.
fn minute_shown(alloc: Global, minute: i64) -> Result<String, AllocError>
    ensures { IfOk result (λ text. string_bytes text ≡ minute_shown minute) }
{
    match Moment::new(minute) {
        Some(moment) => format!(in alloc; "{moment}"),
        None => String::from_utf8_lossy(alloc, &NO_MOMENT),
    }
}

// A text of one letter.
fn letter_text(alloc: Global, letter: u8) -> Result<String, AllocError>
    requires { letter < 128 }
    ensures { IfOk result (λ text. string_bytes text ≡ letter ∷ []) }
{
    format!(in alloc; "{}", char::from(letter))
}
