// What a line of a journal says.
ghost use Rattle.std.specs.Prelude.{◌≡◌, IfOk, MatchOption, None, option_map};
ghost use Rattle.serde_json.specs.Data.{Data};
ghost use Rattle.serde_json.specs.View.{view};
ghost use Rattle.desk_journal.specs.Entries.{IsEntry, IsEntryOf, IsTextOf, body_of, path_of, status_of, text_at};

use serde_json::Value;
use std::alloc::{AllocError, Global};

/// What a line says.
#[derive(Drop)]
pub enum Entry {
    /// A tracker's report is asked for, by this body.
    Report(Vec<u8>),
    /// An operator's request is, by this body.
    Operator(Vec<u8>),
    /// An answer of this status.
    Answer(u64),
    /// It is no JSON text: a stop cut it short.
    Cut,
    /// It is JSON, but no line of a journal.
    Other,
}

// The text of a member.
fn text_at<'v>(value: &'v Value, name: &str) -> Option<&'v str>
    ensures { option_map (λ text. text.now) result ≡ text_at name.now (view value.now) }
{
    value.get(name)?.as_str()
}

// The body of a request; nothing, where it was no text.
fn body_of(alloc: Global, value: &Value) -> Result<Vec<u8>, AllocError>
    ensures { IfOk result (λ body. body.items ≡ body_of (view value.now)) }
{
    match text_at(value, "body") {
        Some(text) => Vec::from_slice(alloc, text.as_bytes()),
        None => Ok(Vec::new(alloc)),
    }
}

// The status of an answer.
fn status_of(value: &Value) -> Option<u64>
    ensures { result ≡ status_of (view value.now) }
{
    value.get("status")?.as_u64()
}

// What a value without a path says.
fn answer_of(value: &Value) -> Entry
    ensures { path_of (view value.now) ≡ None → IsEntryOf (view value.now) result }
{
    match status_of(value) {
        Some(status) => Entry::Answer(status),
        None => Entry::Other,
    }
}

// What a value says.
fn entry_of(alloc: Global, value: &Value) -> Result<Entry, AllocError>
    ensures { IfOk result (IsEntryOf (view value.now)) }
{
    let Some(path) = text_at(value, "path") else {
        return Ok(answer_of(value));
    };
    match path {
        "/report" => Ok(Entry::Report(body_of(alloc, value)?)),
        "/operator" => Ok(Entry::Operator(body_of(alloc, value)?)),
        _ => Ok(Entry::Other),
    }
}

// The value of a JSON text, if it is one.
fn read_value(alloc: Global, text: &[u8]) -> Result<Option<Value>, AllocError>
    ensures { IfOk result (λ found. MatchOption found ((d : Data) → ¬ IsTextOf text.now d) (λ v. IsTextOf text.now (view v))) }
{
    match Value::from_slice(alloc, text) {
        Ok(value) => Ok(Some(value)),
        Err(fault) if fault.is_memory() => Err(AllocError),
        Err(_) => Ok(None),
    }
}

/// What a line says, without its end. It fails for want of memory only.
pub fn read_entry(alloc: Global, line: &[u8]) -> Result<Entry, AllocError>
    ensures { IfOk result (IsEntry line.now) }
{
    match read_value(alloc, line)? {
        Some(value) => entry_of(alloc, &value),
        None => Ok(Entry::Cut),
    }
}
