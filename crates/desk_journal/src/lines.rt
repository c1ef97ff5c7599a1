// The lines of a request and of its answer.
ghost use Rattle.std.specs.Prelude.{◌≡◌, false, IfOk, codes, option_map};
ghost use Rattle.serde_json.specs.Data.{Data, member, no_members, number, object, string, unsigned};
ghost use Rattle.serde_json.specs.View.{view};
ghost use Rattle.serde_json.specs.Written.{compact_text, has_float};
ghost use Rattle.desk_journal.specs.Lines.{answer_data, by_member, line_of, request_data, text_of, text_or_null, told_of};

use serde_json::{Value, json};
use std::alloc::{AllocError, Global};

/// How many bytes of a body stand in a line that tells it in brief.
pub const BRIEF_BYTES: usize = 256;

// A text as a value, or null.
fn text_or_null(alloc: Global, text: Option<&str>) -> Result<Value, AllocError>
    ensures { IfOk result (λ v. view v ≡ text_or_null (option_map (λ t. t.now) text.entry)) }
{
    match text {
        Some(text) => json!(in alloc; (text)),
        None => Ok(Value::Null),
    }
}

// A body as text, if it is one.
fn text_of(body: &[u8]) -> Option<&str>
    ensures { option_map (λ t. t.now) result ≡ text_of body.now }
{
    match std::str::from_utf8(body) {
        Ok(text) => Some(text),
        Err(_) => None,
    }
}

// What is told of a body.
fn told_of(body: &[u8], is_brief: bool) -> &[u8]
    ensures { result.now ≡ told_of is_brief body.now }
{
    if is_brief {
        &body[..BRIEF_BYTES.min(body.len())]
    } else {
        body
    }
}

// A request whose body is told whole.
fn whole_value(
    alloc: Global,
    told: Value,
    by: Option<&str>,
    clock: Value,
    path: &str,
) -> Result<Value, AllocError>
    ensures { IfOk result (λ v. view v ≡ object (member (codes "body") (view told) (by_member (option_map (λ t. t.now) by.entry) (member (codes "clock") (view clock) (member (codes "path") (string path.now) no_members))))) }
{
    match by {
        Some(by) => json!(in alloc; {"body": told, "by": by, "clock": clock, "path": path}),
        None => json!(in alloc; {"body": told, "clock": clock, "path": path}),
    }
}

// A request of whose body the beginning is told, and how many bytes it has.
fn brief_value(
    alloc: Global,
    told: Value,
    by: Option<&str>,
    bytes: usize,
    clock: Value,
    path: &str,
) -> Result<Value, AllocError>
    ensures { IfOk result (λ v. view v ≡ object (member (codes "body") (view told) (by_member (option_map (λ t. t.now) by.entry) (member (codes "bytes") (number (unsigned bytes)) (member (codes "clock") (view clock) (member (codes "path") (string path.now) no_members)))))) }
{
    match by {
        Some(by) =>
            json!(in alloc; {"body": told, "by": by, "bytes": bytes, "clock": clock, "path": path}),
        None => json!(in alloc; {"body": told, "bytes": bytes, "clock": clock, "path": path}),
    }
}

fn request_value(
    alloc: Global,
    clock: Option<&str>,
    by: Option<&str>,
    path: &str,
    body: &[u8],
    is_brief: bool,
) -> Result<Value, AllocError>
    ensures { IfOk result (λ v. view v ≡ request_data (option_map (λ t. t.now) clock.entry) (option_map (λ t. t.now) by.entry) path.now is_brief body.now) }
{
    let told = text_or_null(alloc, text_of(told_of(body, is_brief)))?;
    let clock = text_or_null(alloc, clock)?;
    if is_brief {
        brief_value(alloc, told, by, body.len(), clock, path)
    } else {
        whole_value(alloc, told, by, clock, path)
    }
}

// A value as a line.
fn line_of(alloc: Global, value: &Value) -> Result<Vec<u8>, AllocError>
    ensures { has_float (view value.now) ≡ false → IfOk result (λ text. text.items ≡ line_of (view value.now)) }
{
    let mut text = value.to_vec(alloc)?;
    text.push(b'\n')?;
    Ok(text)
}

/// The line of a request: the plan's clock before it, where one is loaded, who makes it, where that is known, its path, and its
/// body, which may be no text. In brief it tells the body's first 256 bytes, and how many bytes it has.
#[tactic(auto, using(crate::proofs::Plain::plain_request))]
pub fn request_line(
    alloc: Global,
    clock: Option<&str>,
    by: Option<&str>,
    path: &str,
    body: &[u8],
    is_brief: bool,
) -> Result<Vec<u8>, AllocError>
    ensures { IfOk result (λ text. text.items ≡ line_of (request_data (option_map (λ t. t.now) clock.entry) (option_map (λ t. t.now) by.entry) path.now is_brief body.now)) }
{
    let value = request_value(alloc, clock, by, path, body, is_brief)?;
    line_of(alloc, &value)
}

/// The line of an answer: the body of the reply, which is a value's compact text, and its status.
pub fn answer_line(alloc: Global, body: &[u8], status: u16) -> Result<Vec<u8>, AllocError>
    ensures { (reply : Data) → body.now ≡ compact_text reply → IfOk result (λ text. text.items ≡ line_of (answer_data reply status)) }
{
    let end = format!(in alloc; ",\"status\":{status}}}\n")?;
    let mut text = Vec::new(alloc);
    text.extend_from_slice(b"{\"reply\":")?;
    text.extend_from_slice(body)?;
    text.extend_from_slice(end.as_bytes())?;
    Ok(text)
}
