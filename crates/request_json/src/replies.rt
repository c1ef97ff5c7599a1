// Replies, as compact texts.
ghost use Rattle.std.specs.Prelude.{◌≡◌, List, map, string_bytes, IfOk};
ghost use Rattle.plan_basics.specs.KeyTexts.{operation_text};
ghost use Rattle.plan_records.specs.Answer as answer;
ghost use Rattle.plan_records.specs.Answer.{answer_of};
ghost use Rattle.request_json.specs.Replies.{key_data, answer_data, fault_data};
ghost use Rattle.serde_json.specs.Data.{Data};
ghost use Rattle.serde_json.specs.View.{view};
ghost use Rattle.serde_json.specs.Written.{compact_text};

use plan_basics::{OpKey, Refusal};
use plan_records::Reply;
use serde_json::{Value, json};
use std::alloc::{AllocError, Global};

/// The text of a reply: the keys of the operations that are named, or the refusal's name and number.
pub fn reply_text(alloc: Global, reply: &Reply) -> Result<Vec<u8>, AllocError>
    ensures { IfOk result (λ text. text.items ≡ compact_text (answer_data (answer_of reply.now))) }
{
    reply_value(alloc, reply)?.to_vec(alloc)
}

/// The text of a fault of the exchange, by its status.
pub fn fault_text(alloc: Global, status: u16) -> Result<Vec<u8>, AllocError>
    ensures { IfOk result (λ text. text.items ≡ compact_text (fault_data status)) }
{
    fault_value(alloc, status)?.to_vec(alloc)
}

fn fault_value(alloc: Global, status: u16) -> Result<Value, AllocError>
    ensures { IfOk result (λ v. view v ≡ fault_data status) }
{
    json!(in alloc; {"error": status})
}

fn reply_value(alloc: Global, reply: &Reply) -> Result<Value, AllocError>
    ensures { IfOk result (λ v. view v ≡ answer_data (answer_of reply.now)) }
{
    match reply {
        Reply::Accepted { named } => accepted_value(alloc, named),
        Reply::Refused(refusal) => refused_value(alloc, *refusal),
    }
}

fn refused_value(alloc: Global, refusal: Refusal) -> Result<Value, AllocError>
    ensures { IfOk result (λ v. view v ≡ answer_data (answer.refused refusal)) }
{
    json!(in alloc; {"name": refusal.name(), "refusal": refusal.number()})
}

fn accepted_value(alloc: Global, named: &[OpKey]) -> Result<Value, AllocError>
    ensures { IfOk result (λ v. view v ≡ answer_data (answer.accepted named.now)) }
{
    let keys = key_values(alloc, named)?;
    json!(in alloc; {"named": keys})
}

fn key_values(alloc: Global, named: &[OpKey]) -> Result<Vec<Value>, AllocError>
    ensures { IfOk result (λ v. map view v.items ≡ map key_data named.now) }
{
    let mut values = Vec::with_capacity(alloc, named.len())?;
    for key in named {
        values.push(Value::String(format!(in alloc; "{key}")?))?;
    }
    Ok(values)
}
