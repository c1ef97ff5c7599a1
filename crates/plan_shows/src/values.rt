// What is started, and how the desk is, as JSON values.
ghost use Rattle.std.specs.Prelude.{◌≡◌, false, map, IfErr, IfOk, None, Some, option_map};
ghost use Rattle.plan_shows.specs.Shows.{IsOwed};
ghost use Rattle.plan_shows.specs.Values.{IsStartedText, health_data, started_data, started_refusal_of};
ghost use Rattle.serde_json.specs.Data.{array};
ghost use Rattle.serde_json.specs.View.{items_of, view};
ghost use Rattle.serde_json.specs.Written.{compact_text, items_have_float};

use super::columns::mark_word;
use super::views::{started_views, started_views_on};
use plan_basics::{Refusal, WsName};
use plan_reasons::{OpView, Plan};
use serde_json::{Value, json};
use std::alloc::{AllocError, Global};

// An operation that is started.
fn started_value(alloc: Global, started: &OpView) -> Result<Value, AllocError>
    ensures { IfOk result (λ v. view v ≡ started_data started.now) }
{
    let mark = String::from_str(alloc, mark_word(&started.mark))?;
    let key = format!(in alloc; "{}", started.key)?;
    let workstation = format!(in alloc; "{}", started.workstation)?;
    json!(in alloc; {
        "duration": started.duration,
        "mark": mark,
        "op": key,
        "ws": workstation
    })
}

// The text of an array of these values.
fn array_text(alloc: Global, values: Vec<Value>) -> Result<Vec<u8>, AllocError>
    requires { items_have_float (items_of (map view values.items)) ≡ false }
    ensures { IfOk result (λ text. text.items ≡ compact_text (array (items_of (map view values.items)))) }
{
    Value::Array(values).to_vec(alloc)
}

// The text of an array of operations that are started, in their order.
fn listed_text(alloc: Global, views: &[OpView]) -> Result<Vec<u8>, AllocError>
    ensures { IfOk result (λ text. text.items ≡ compact_text (array (items_of (map started_data views.now)))) }
{
    let mut values = Vec::with_capacity(alloc, views.len())?;
    for view in views {
        values.push(started_value(alloc, view)?)?;
    }
    array_text(alloc, values)
}

// What is started, by key.
fn all_started(alloc: Global, plan: &Plan) -> Result<Vec<u8>, Refusal>
    ensures text { IfOk result (λ text. IsStartedText None plan.now.plan text.items) }
    ensures none_owed { IfOk result (λ text. started_refusal_of None plan.now.plan ≡ None) }
    ensures refused { IfErr result (IsOwed (started_refusal_of None plan.now.plan)) }
{
    if !plan.is_loaded() {
        return Err(Refusal::NotLoaded);
    }
    let views = started_views(alloc, plan)?;
    Ok(listed_text(alloc, &views)?)
}

// What is started on a workstation, by key.
fn started_on(alloc: Global, plan: &Plan, workstation: &WsName) -> Result<Vec<u8>, Refusal>
    ensures text { IfOk result (λ text. IsStartedText (Some workstation.now) plan.now.plan text.items) }
    ensures none_owed { IfOk result (λ text. started_refusal_of (Some workstation.now) plan.now.plan ≡ None) }
    ensures refused { IfErr result (IsOwed (started_refusal_of (Some workstation.now) plan.now.plan)) }
{
    if !plan.is_loaded() {
        return Err(Refusal::NotLoaded);
    }
    let Some(_) = plan.ready(workstation) else {
        return Err(Refusal::UnknownWorkstation);
    };
    let views = started_views_on(alloc, plan, workstation)?;
    Ok(listed_text(alloc, &views)?)
}

/// What is started on a workstation, or on any, by key, as an array of JSON: those operations that were named and those
/// that were reported as started, each with its mark. Refused as `NotLoaded` before a plan is loaded, else as
/// `UnknownWorkstation` where the workstation isn't in it, else as `Memory`.
pub fn started_text(
    alloc: Global,
    plan: &Plan,
    workstation: Option<&WsName>,
) -> Result<Vec<u8>, Refusal>
    ensures text { IfOk result (λ text. IsStartedText (option_map (λ w. w.now) workstation.entry) plan.now.plan text.items) }
    ensures none_owed { IfOk result (λ text. started_refusal_of (option_map (λ w. w.now) workstation.entry) plan.now.plan ≡ None) }
    ensures refused { IfErr result (IsOwed (started_refusal_of (option_map (λ w. w.now) workstation.entry) plan.now.plan)) }
{
    match workstation {
        Some(workstation) => started_on(alloc, plan, workstation),
        None => all_started(alloc, plan),
    }
}

// How the desk of a plan is.
fn health_value(alloc: Global, plan: &Plan, stood: u64) -> Result<Value, AllocError>
    ensures { IfOk result (λ v. view v ≡ health_data stood plan.now.plan) }
{
    if !plan.is_loaded() {
        return json!(in alloc; { "clock": null, "loaded": false, "stood": stood });
    }
    let clock = format!(in alloc; "{}", plan.clock())?;
    json!(in alloc; { "clock": clock, "loaded": true, "stood": stood })
}

/// How the desk of a plan is, as JSON: the moment of its clock, whether a plan is loaded, and that the clock has stood for so many
/// minutes. It fails for want of memory only.
pub fn health_text(alloc: Global, plan: &Plan, stood: u64) -> Result<Vec<u8>, AllocError>
    ensures { IfOk result (λ text. text.items ≡ compact_text (health_data stood plan.now.plan)) }
{
    health_value(alloc, plan, stood)?.to_vec(alloc)
}
