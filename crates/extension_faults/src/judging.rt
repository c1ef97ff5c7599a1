// What is told of a text that adds to a plan, beside that plan, line by line.
ghost use Rattle.std.specs.Prelude.{◌≡◌, ◌++◌, ◌-◌, map, take, IfOk, OnOk, Option, string_bytes};
ghost use Rattle.std.specs.List.{AllZip};
ghost use Rattle.plan_drafts.specs.plan_model.specs.Contents.{AddedParts};
ghost use Rattle.plan_import.specs.Lines.{BeginOn};
ghost use Rattle.text_faults.specs.declared.additions.faults.PlacedFault.{PlacedFault as PlacedValue};
ghost use Rattle.extension_faults.specs.declared.kinds.FaultBeside.{FaultBeside as FaultBesideValue};
ghost use Rattle.extension_faults.specs.Judged.{at_clock, more_lines, places_of, what_of, AreTold, IsFoundIn, IsJudgedBeside, IsRefusalTold, TellsAsked, TellsBeside, TellsFrom, TellsRefusal, TellsRefused, TellsWhole};

use super::finding::{BesideFaults, faults_beside};
use super::kinds::FaultBeside;
use super::texts::beside_text;
use super::whole::whole_beside;
use plan_basics::{Refusal, Watched};
use plan_import::{read_extension, read_occurrence};
use plan_reasons::Plan;
use plan_records::{Request, What};
use record_faults::RecordFault;
use std::alloc::{AllocError, Global};
use text_faults::{
    AddedText, AddedTextFaults, PlacedFault, TextFaults, added_fault_text, fault_text,
    faults_of_added_text,
};

/// How many faults are told one by one.
pub const MOST_TOLD: usize = 100;

/// The first of some faults, or warnings.
pub fn first_of<F>(faults: &[F]) -> &[F]
    ensures { result.now ≡ take MOST_TOLD faults.now }
{
    if faults.len() > MOST_TOLD {
        &faults[..MOST_TOLD]
    } else {
        faults
    }
}

// How many more there are than are told goes to the end, if there are.
fn tell_more(alloc: Global, lines: &mut Vec<String>, count: usize) -> Result<(), AllocError>
    ensures { OnOk result (map string_bytes lines.new.items ≡ map string_bytes lines.old.items ++ more_lines (count - MOST_TOLD)) }
{
    let more = count.saturating_sub(MOST_TOLD);
    if more == 0 {
        return Ok(());
    }
    lines.push(format!(in alloc; "{more} more")?)?;
    Ok(())
}

// A line for each of these faults of a text by itself.
fn lines_alone(
    alloc: Global,
    found: &AddedTextFaults,
    faults: &[PlacedFault],
) -> Result<Vec<String>, AllocError>
    ensures { IfOk result (λ lines. AllZip (TellsFrom found.now.read.lines.items) (map (λ (f : PlacedValue). f.place) faults.now) (map string_bytes lines.items)) }
{
    let mut lines = Vec::new(alloc);
    for fault in faults {
        lines.push(added_fault_text(alloc, fault, found)?)?;
    }
    Ok(lines)
}

// The same of faults beside a plan.
fn lines_beside(
    alloc: Global,
    found: &BesideFaults,
    faults: &[FaultBeside],
) -> Result<Vec<String>, AllocError>
    ensures { IfOk result (λ lines. AllZip (TellsFrom found.now.lines.items) (map (λ (f : FaultBesideValue). f.place) faults.now) (map string_bytes lines.items)) }
{
    let mut lines = Vec::new(alloc);
    for fault in faults {
        lines.push(beside_text(alloc, found, fault)?)?;
    }
    Ok(lines)
}

// The same of faults of the whole.
fn lines_of_whole(
    alloc: Global,
    found: &TextFaults,
    faults: &[RecordFault],
) -> Result<Vec<String>, AllocError>
    ensures { IfOk result (λ lines. AllZip (TellsFrom found.now.lines.items) (places_of faults.now) (map string_bytes lines.items)) }
{
    let mut lines = Vec::new(alloc);
    for fault in faults {
        lines.push(fault_text(alloc, fault, found)?)?;
    }
    Ok(lines)
}

// What is wrong with a text by itself.
fn told_alone(
    alloc: Global,
    text: &[u8],
    found: &AddedTextFaults,
) -> Result<Vec<String>, AllocError>
    requires { BeginOn text.now found.now.read.lines.items }
    ensures { IfOk result (λ lines. AreTold text.now (map (λ (f : PlacedValue). f.place) found.now.faults.items) (map string_bytes lines.items)) }
{
    let mut lines = lines_alone(alloc, found, first_of(&found.faults))?;
    tell_more(alloc, &mut lines, found.faults.len())?;
    Ok(lines)
}

// What is wrong with its records beside a plan.
fn told_beside(alloc: Global, text: &[u8], found: &BesideFaults) -> Result<Vec<String>, AllocError>
    requires { BeginOn text.now found.now.lines.items }
    ensures { IfOk result (λ lines. AreTold text.now (map (λ (f : FaultBesideValue). f.place) found.now.faults.items) (map string_bytes lines.items)) }
{
    let mut lines = lines_beside(alloc, found, first_of(&found.faults))?;
    tell_more(alloc, &mut lines, found.faults.len())?;
    Ok(lines)
}

// What is wrong with the whole.
fn told_of_whole(alloc: Global, text: &[u8], found: &TextFaults) -> Result<Vec<String>, AllocError>
    requires { BeginOn text.now found.now.lines.items }
    ensures { IfOk result (λ lines. AreTold text.now (places_of found.now.faults.items) (map string_bytes lines.items)) }
{
    let mut lines = lines_of_whole(alloc, found, first_of(&found.faults))?;
    tell_more(alloc, &mut lines, found.faults.len())?;
    Ok(lines)
}

// The line of a refusal for which no record is told.
fn told_refusal(alloc: Global, refusal: Refusal) -> Result<Vec<String>, AllocError>
    ensures { IfOk result (λ lines. TellsRefusal refusal (map string_bytes lines.items)) }
{
    let line = format!(in alloc; "the whole: the plan doesn't take it ({refusal})")?;
    let mut lines = Vec::new(alloc);
    lines.push(line)?;
    Ok(lines)
}

// What is wrong with the whole, or else what the plan refuses it for.
fn tell_whole(
    alloc: Global,
    plan: &Plan,
    text: &[u8],
    refusal: Refusal,
) -> Result<Vec<String>, AllocError>
    ensures { IfOk result (λ lines. TellsWhole plan.now.plan text.now refusal (map string_bytes lines.items)) }
{
    let found = whole_beside(alloc, plan, text)?;
    if found.faults.is_empty() {
        return told_refusal(alloc, refusal);
    }
    told_of_whole(alloc, text, &found)
}

// What is wrong beside a plan that refuses it.
fn tell_beside(
    alloc: Global,
    plan: &Plan,
    text: &[u8],
    refusal: Refusal,
) -> Result<Vec<String>, AllocError>
    ensures { IfOk result (λ lines. TellsBeside plan.now.plan text.now refusal (map string_bytes lines.items)) }
{
    let found = faults_beside(alloc, plan, text)?;
    if found.faults.is_empty() {
        return tell_whole(alloc, plan, text, refusal);
    }
    told_beside(alloc, text, &found)
}

// What is wrong with what a plan refuses.
fn tell_refused(
    alloc: Global,
    plan: &Plan,
    text: &[u8],
    refusal: Refusal,
) -> Result<Vec<String>, AllocError>
    ensures { IfOk result (λ lines. TellsRefused plan.now.plan text.now refusal (map string_bytes lines.items)) }
{
    if plan.is_loaded() {
        tell_beside(alloc, plan, text, refusal)
    } else {
        told_refusal(alloc, refusal)
    }
}

// What a text asks, as an addition or an extension.
fn asked_by(alloc: Global, added: AddedText, text: &[u8]) -> Result<What, AllocError>
    ensures { IfOk result (λ w. (found : Option AddedParts) × IsFoundIn added text.now found × (w ≡ what_of added found)) }
{
    let mut reader = Watched::new(text);
    match added {
        AddedText::Addition => match read_occurrence(alloc, &mut reader) {
            Ok(addition) => Ok(What::AddOccurrence(addition)),
            Err(_) => Err(AllocError),
        },
        AddedText::Extension => match read_extension(alloc, &mut reader) {
            Ok(extension) => Ok(What::Extend(extension)),
            Err(_) => Err(AllocError),
        },
    }
}

// What a plan, of which nothing is kept, refuses a request for, if it refuses it.
fn refusal_to(plan: &mut Plan, request: &Request) -> Result<Option<Refusal>, AllocError>
    ensures { IfOk result (IsRefusalTold plan.old.plan request.now) }
{
    match plan.prepare(request) {
        Ok(_) => Ok(None),
        Err(Refusal::Memory) => Err(AllocError),
        Err(refusal) => Ok(Some(refusal)),
    }
}

// What a plan refuses this for at its clock, if it refuses it. The plan stays as it is: a copy is asked.
fn refusal_of(plan: &Plan, what: What) -> Result<Option<Refusal>, AllocError>
    ensures { IfOk result (IsRefusalTold plan.now.plan (at_clock plan.now.plan what)) }
{
    let request = Request {
        at: plan.clock().minute(),
        what,
    };
    match plan.try_clone() {
        Ok(mut copy) => refusal_to(&mut copy, &request),
        Err(_) => Err(AllocError),
    }
}

// What is wrong with a text that has no fault by itself.
fn tell_asked(
    alloc: Global,
    plan: &Plan,
    added: AddedText,
    text: &[u8],
) -> Result<Vec<String>, AllocError>
    ensures { IfOk result (λ lines. TellsAsked added plan.now.plan text.now (map string_bytes lines.items)) }
{
    let what = asked_by(alloc, added, text)?;
    match refusal_of(plan, what)? {
        None => Ok(Vec::new(alloc)),
        Some(refusal) => tell_refused(alloc, plan, text, refusal),
    }
}

/// What is told of a text that is to be an addition or an extension, beside a plan at its clock: what is wrong with the text
/// alone, or else with its records beside what stays of the plan, or else with the whole; a line for each of the first
/// `MOST_TOLD` faults, and how many more there are. There is none exactly where the plan would take it. It fails for want of
/// memory only.
pub fn judged_beside(
    alloc: Global,
    plan: &Plan,
    added: AddedText,
    text: &[u8],
) -> Result<Vec<String>, AllocError>
    ensures { IfOk result (λ lines. IsJudgedBeside added plan.now.plan text.now (map string_bytes lines.items)) }
{
    let own = faults_of_added_text(alloc, added, text)?;
    if own.faults.is_empty() {
        return tell_asked(alloc, plan, added, text);
    }
    told_alone(alloc, text, &own)
}
