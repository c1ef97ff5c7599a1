// `validate` of an extension's text beside the plan that it is to extend.
ghost use Rattle.std.specs.Prelude.{◌≢◌, ℕ, Option, IfOk, IfErr};
ghost use Rattle.plan_records.specs.plan_model.specs.Contents.{AddedParts};
ghost use Rattle.plan_basics.specs.Watched.{inner_of};
ghost use Rattle.text_commands.specs.Beside.{extension_at_clock, IsBesideShown, IsJudgedBeside, IsRefusalTold};
ghost use Rattle.command_answers.specs.Given.{IsExtensionOf};
ghost use Rattle.text_commands.specs.Judged.{AreFaultsShown};
ghost use Rattle.command_answers.specs.Statuses.{IsOfSurroundings};

use crate::texts::{
    MOST_TOLD, lines_of_extension, lines_of_plan, push_line, push_more, tell_found,
};
use command_answers::{Ending, Fault, extension_of, tell};
use extension_faults::{BesideFaults, Plan, beside_text, faults_beside, whole_beside};
use plan_basics::{Refusal, Watched};
use plan_records::{Extension, Reply, Request, What};
use std::alloc::{AllocError, Global};
use std::io::Write;
use text_faults::{AddedText, faults_of_added_text};

// What a plan, of which nothing is kept, refuses a request for, if it refuses it.
fn refusal_to(plan: &mut Plan, request: &Request) -> Result<Option<Refusal>, Fault>
    ensures told { IfOk result (IsRefusalTold plan.old.plan request.now) }
    ensures fault { IfErr result IsOfSurroundings }
{
    match plan.prepare(request) {
        Ok(_) => Ok(None),
        Err(Refusal::Memory) => Err(Fault::Memory),
        Err(refusal) => Ok(Some(refusal)),
    }
}

// What a plan refuses an extension for at its clock, if it refuses it. The plan stays as it is: a copy is asked.
fn refusal_of(plan: &Plan, extension: Option<Extension>) -> Result<Option<Refusal>, Fault>
    ensures told { IfOk result (IsRefusalTold plan.now.plan (extension_at_clock plan.now.plan extension)) }
    ensures fault { IfErr result IsOfSurroundings }
{
    let request = Request {
        at: plan.clock().minute(),
        what: What::Extend(extension),
    };
    match plan.try_clone() {
        Ok(mut copy) => refusal_to(&mut copy, &request),
        Err(_) => Err(Fault::Memory),
    }
}

// The same of the extension that a text denotes, if it denotes one.
fn refusal_of_text(alloc: Global, plan: &Plan, text: &[u8]) -> Result<Option<Refusal>, Fault>
    ensures told { IfOk result (λ told. (found : Option AddedParts) × IsExtensionOf text.now found × IsRefusalTold plan.now.plan (extension_at_clock plan.now.plan found) told) }
    ensures fault { IfErr result IsOfSurroundings }
{
    let extension = extension_of(alloc, text)?;
    refusal_of(plan, extension)
}

// A line for each of the first faults of a text's records beside a plan, and how many more there are, if there are.
fn lines_beside(alloc: Global, found: &BesideFaults) -> Result<String, AllocError> {
    let mut lines = String::new(alloc);
    for fault in found.faults.iter().take(MOST_TOLD) {
        push_line(&mut lines, &beside_text(alloc, found, fault)?)?;
    }
    push_more(alloc, &mut lines, found.faults.len())?;
    Ok(lines)
}

// The line of a refusal for which no record is told.
fn line_of_whole(alloc: Global, refusal: Refusal) -> Result<String, AllocError> {
    let line = format!(in alloc; "the whole: the plan doesn't take it ({refusal})\n")?;
    Ok(line)
}

// Shows what is wrong with an extension as a whole, where no record has a fault: at its line, or else what it is refused for.
fn tell_whole<W: Write>(
    alloc: Global,
    plan: &Plan,
    text: &[u8],
    refusal: Refusal,
    out: &mut Watched<W>,
) -> Result<Ending, Fault>
    ensures shown { IfOk result (λ ending. (count : ℕ) × (count ≢ 0) × AreFaultsShown count (W.contents (inner_of out.old)) (W.contents (inner_of out.new)) ending) }
    ensures fault { IfErr result IsOfSurroundings }
{
    let found = whole_beside(alloc, plan, text)?;
    if found.faults.is_empty() {
        let line = line_of_whole(alloc, refusal)?;
        return tell_found(&line, 1, out);
    }
    let lines = lines_of_plan(alloc, &found)?;
    tell_found(&lines, found.faults.len(), out)
}

// Shows what stands in the way of an extension that a plan refuses: a line for each fault of its records beside the plan;
// where none has one, what is wrong with the whole.
fn tell_in_the_way<W: Write>(
    alloc: Global,
    plan: &Plan,
    text: &[u8],
    refusal: Refusal,
    out: &mut Watched<W>,
) -> Result<Ending, Fault>
    ensures shown { IfOk result (λ ending. (count : ℕ) × (count ≢ 0) × AreFaultsShown count (W.contents (inner_of out.old)) (W.contents (inner_of out.new)) ending) }
    ensures fault { IfErr result IsOfSurroundings }
{
    let found = faults_beside(alloc, plan, text)?;
    if found.faults.is_empty() {
        return tell_whole(alloc, plan, text, refusal, out);
    }
    let lines = lines_beside(alloc, &found)?;
    tell_found(&lines, found.faults.len(), out)
}

// Shows what a loaded plan refuses an extension's text for.
fn tell_asked<W: Write>(
    alloc: Global,
    plan: &Plan,
    text: &[u8],
    out: &mut Watched<W>,
) -> Result<Ending, Fault>
    ensures shown { IfOk result (IsJudgedBeside plan.now.plan text.now (W.contents (inner_of out.old)) (W.contents (inner_of out.new))) }
    ensures fault { IfErr result IsOfSurroundings }
{
    match refusal_of_text(alloc, plan, text)? {
        None => tell_found("", 0, out),
        Some(refusal) => tell_in_the_way(alloc, plan, text, refusal, out),
    }
}

// Shows what is wrong with an extension's text beside a loaded plan: what is wrong with it without one, if anything is.
fn tell_judged<W: Write>(
    alloc: Global,
    plan: &Plan,
    text: &[u8],
    out: &mut Watched<W>,
) -> Result<Ending, Fault>
    ensures shown { IfOk result (IsJudgedBeside plan.now.plan text.now (W.contents (inner_of out.old)) (W.contents (inner_of out.new))) }
    ensures fault { IfErr result IsOfSurroundings }
{
    let own = faults_of_added_text(alloc, AddedText::Extension, text)?;
    if own.faults.is_empty() {
        return tell_asked(alloc, plan, text, out);
    }
    let lines = lines_of_extension(alloc, &own)?;
    tell_found(&lines, own.faults.len(), out)
}

/// Judges an extension's text beside a plan at its clock: what is wrong with the text alone, or else with its records beside
/// what stays of the plan, or else with the whole; a line for each of the first hundred faults, how many more there are, and
/// the number of all. There are none exactly where the plan would take it. Where no plan is loaded, that is shown.
pub fn judge_beside<W: Write>(
    alloc: Global,
    plan: &Plan,
    text: &[u8],
    out: &mut Watched<W>,
) -> Result<Ending, Fault>
    ensures shown { IfOk result (IsBesideShown plan.now.plan text.now (W.contents (inner_of out.old)) (W.contents (inner_of out.new))) }
    ensures fault { IfErr result IsOfSurroundings }
{
    if plan.is_loaded() {
        tell_judged(alloc, plan, text, out)
    } else {
        tell(out, &Reply::Refused(Refusal::NotLoaded))
    }
}
