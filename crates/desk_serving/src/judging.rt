// What the text of a request is told, which isn't asked.
ghost use Rattle.std.specs.Prelude.{◌≡◌, IfErr, IfOk, map, None, string_bytes};
ghost use Rattle.serde_json.specs.View.{view};
ghost use Rattle.plan_reports.specs.Reports.{IsOwed};
ghost use Rattle.extension_faults.specs.Judged.{IsJudgedBeside};
ghost use Rattle.extension_faults.specs.Warned.{AreWarningsBeside};
ghost use Rattle.desk_serving.specs.Judged.{judged_data, IsJudgedText, Judges, JudgesBrought, JudgesRequest};
ghost use Rattle.desk_serving.specs.Shown.{owed_by, ShowsJudged};

use super::showing::value_shown;
use extension_faults::{AddedText, judged_beside, warned_beside};
use plan_basics::Refusal;
use plan_reports::Desk;
use serde_json::{Value, json};
use sqlite::Alter;
use std::alloc::{AllocError, Global};
use tracker_http::{Brought, Plan, brought_records, fault_lines, line_values, value_text};

// What is told of a text.
#[derive(Drop)]
struct Judgement {
    /// What is wrong with it.
    faults: Vec<String>,
    /// What it is warned of.
    warnings: Vec<String>,
}

// What is told of records that are brought to a plan.
fn judged_text(
    alloc: Global,
    plan: &Plan,
    added: AddedText,
    text: &[u8],
) -> Result<Judgement, AllocError>
    ensures { IfOk result (λ j. IsJudgedBeside added plan.now.plan text.now (map string_bytes j.faults.items) × AreWarningsBeside plan.now.plan text.now (map string_bytes j.warnings.items)) }
{
    let faults = judged_beside(alloc, plan, added, text)?;
    let warnings = warned_beside(alloc, plan, text)?;
    Ok(Judgement { faults, warnings })
}

// The same, by what they are.
fn judged_brought(alloc: Global, plan: &Plan, brought: &Brought) -> Result<Judgement, AllocError>
    ensures { IfOk result (λ j. JudgesBrought plan.now.plan brought.now (map string_bytes j.faults.items) (map string_bytes j.warnings.items)) }
{
    match brought {
        Brought::Addition(text) => {
            judged_text(alloc, plan, AddedText::Addition, text.as_bytes())
        }
        Brought::Extension(text) => {
            judged_text(alloc, plan, AddedText::Extension, text.as_bytes())
        }
    }
}

// What is told of a text that is a request.
fn judged_request(alloc: Global, plan: &Plan, body: &[u8]) -> Result<Judgement, AllocError>
    ensures { IfOk result (λ j. JudgesRequest plan.now.plan body.now (map string_bytes j.faults.items) (map string_bytes j.warnings.items)) }
{
    match brought_records(alloc, body)? {
        Some(brought) => judged_brought(alloc, plan, &brought),
        None => Ok(Judgement {
            faults: Vec::new(alloc),
            warnings: Vec::new(alloc),
        }),
    }
}

// What is told of a text.
fn judged(alloc: Global, plan: &Plan, body: &[u8]) -> Result<Judgement, AllocError>
    ensures { IfOk result (λ j. Judges plan.now.plan body.now (map string_bytes j.faults.items) (map string_bytes j.warnings.items)) }
{
    let faults = fault_lines(alloc, body)?;
    if faults.is_empty() {
        return judged_request(alloc, plan, body);
    }
    Ok(Judgement {
        faults,
        warnings: Vec::new(alloc),
    })
}

// All that as a value.
fn judged_value(
    alloc: Global,
    faults: Vec<Value>,
    warnings: Vec<Value>,
) -> Result<Value, AllocError>
    ensures { IfOk result (λ v. view v ≡ judged_data (map view faults.items) (map view warnings.items)) }
{
    json!(in alloc; {"faults": faults, "warnings": warnings})
}

// The text of all that.
fn judged_json(alloc: Global, plan: &Plan, body: &[u8]) -> Result<Vec<u8>, AllocError>
    ensures { IfOk result (λ text. IsJudgedText plan.now.plan body.now text.items) }
{
    let told = judged(alloc, plan, body)?;
    let faults = line_values(alloc, &told.faults)?;
    let warnings = line_values(alloc, &told.warnings)?;
    let value = judged_value(alloc, faults, warnings)?;
    value_text(alloc, &value)
}

// The same, or that the desk is to be opened again.
fn judged_made<S: Alter + Drop>(
    alloc: Global,
    desk: &Desk<S>,
    body: &[u8],
) -> Result<Vec<u8>, Refusal>
    ensures text { IfOk result (λ text. IsJudgedText desk.now.plan body.now text.items) }
    ensures none_owed { IfOk result (λ text. owed_by desk.now.is_usable None ≡ None) }
    ensures refused { IfErr result (IsOwed (owed_by desk.now.is_usable None)) }
{
    if !desk.is_usable() {
        return Err(Refusal::Reopen);
    }
    Ok(judged_json(alloc, desk.plan(), body)?)
}

/// What the text of a request is told.
pub fn judged_shown<S: Alter + Drop>(
    alloc: Global,
    desk: &Desk<S>,
    body: &[u8],
) -> Result<Vec<u8>, AllocError>
    ensures { IfOk result (λ output. ShowsJudged body.now desk.now output.items) }
{
    value_shown(alloc, judged_made(alloc, desk, body))
}
