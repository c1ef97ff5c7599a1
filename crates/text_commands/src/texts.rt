// `validate`: what is wrong with the text of a plan or of an extension, record by record, or of a request, member by member.
ghost use Rattle.std.specs.Prelude.{◌≡◌, IfOk, IfErr, OnOk, List, ℕ, codes};
ghost use Rattle.clap.specs.Matches.{first_value, found_of};
ghost use Rattle.request_json.specs.RequestFaults.{ReadsAsSomeRequest};
ghost use Rattle.text_faults.specs.TextFaults.{TextDenotesSome};
ghost use Rattle.text_faults.specs.AddedTexts.{TextDenotesSomeAdded};
ghost use Rattle.text_faults.specs.declared.additions.faults.AddedText.TheVariants as added;
ghost use Rattle.std.specs.Io.KnownBytes.{Appends};
ghost use Rattle.plan_basics.specs.Watched.{inner_of};
ghost use Rattle.text_commands.specs.Judged.{AreFaultsShown, IsJudged, IsRequestJudged, IsValidated, count_line, ending_of_count};
ghost use Rattle.command_answers.specs.Statuses.{IsOfSurroundings};

use clap::ArgMatches;
use command_answers::{Ending, Fault, text_of, text_of_file};
use command_words::value_of;
use plan_basics::Watched;
use request_json::{RequestFault, faults_of_request, request_fault_text};
use std::alloc::{AllocError, Global};
use std::io::Write;
use std::rt::HostRuntime;
use text_faults::{
    AddedText, AddedTextFaults, TextFaults, TextWarnings, added_fault_text, fault_text,
    faults_of_added_text, faults_of_text, warning_text, warnings_of_text,
};

/// How many faults are told one by one, and how many warnings.
pub(crate) const MOST_TOLD: usize = 100;

// Adds a line.
pub(crate) fn push_line(lines: &mut String, line: &str) -> Result<(), AllocError> {
    lines.push_str(line)?;
    lines.push_str("\n")
}

// Adds how many more faults there are than are told, if there are.
pub(crate) fn push_more(alloc: Global, lines: &mut String, count: usize) -> Result<(), AllocError> {
    let more = count.saturating_sub(MOST_TOLD);
    if more == 0 {
        return Ok(());
    }
    push_line(lines, &format!(in alloc; "{more} more")?)
}

// A line for each of the first faults of a plan's text, and how many more there are, if there are.
pub(crate) fn lines_of_plan(alloc: Global, found: &TextFaults) -> Result<String, AllocError> {
    let mut lines = String::new(alloc);
    for fault in found.faults.iter().take(MOST_TOLD) {
        push_line(&mut lines, &fault_text(alloc, fault, found)?)?;
    }
    push_more(alloc, &mut lines, found.faults.len())?;
    Ok(lines)
}

// The same of an extension's text.
pub(crate) fn lines_of_extension(
    alloc: Global,
    found: &AddedTextFaults,
) -> Result<String, AllocError> {
    let mut lines = String::new(alloc);
    for fault in found.faults.iter().take(MOST_TOLD) {
        push_line(&mut lines, &added_fault_text(alloc, fault, found)?)?;
    }
    push_more(alloc, &mut lines, found.faults.len())?;
    Ok(lines)
}

// Adds a line for each of the first warnings of a plan's text, and how many more there are, if there are.
fn push_warnings(alloc: Global, lines: &mut String, told: &TextWarnings) -> Result<(), AllocError> {
    for warning in told.warnings.iter().take(MOST_TOLD) {
        push_line(lines, &warning_text(alloc, warning, told)?)?;
    }
    let more = told.warnings.len().saturating_sub(MOST_TOLD);
    if more == 0 {
        return Ok(());
    }
    push_line(lines, &format!(in alloc; "warning: {more} more")?)
}

// A line for each fault of a plan's text and then for each warning, as far as they are told one by one.
fn lines_with_warnings(
    alloc: Global,
    found: &TextFaults,
    text: &[u8],
) -> Result<String, AllocError> {
    let mut lines = lines_of_plan(alloc, found)?;
    push_warnings(alloc, &mut lines, &warnings_of_text(alloc, text)?)?;
    Ok(lines)
}

// A line for each fault of a request's text.
fn lines_of_request(
    alloc: Global,
    faults: &[RequestFault],
    text: &[u8],
) -> Result<String, AllocError> {
    let mut lines = String::new(alloc);
    for fault in faults {
        push_line(&mut lines, &request_fault_text(alloc, *fault, text)?)?;
    }
    Ok(lines)
}

// Shows how many faults there are, and ends as refused where there are any.
#[tactic(auto, using(command_answers::proofs::Statuses::of_the_surroundings))]
fn tell_count<W: Write>(out: &mut Watched<W>, count: usize) -> Result<Ending, Fault>
    ensures shown { IfOk result (λ ending. Appends (W.contents (inner_of out.old)) (W.contents (inner_of out.new)) (count_line count) × (ending ≡ ending_of_count count)) }
    ensures fault { IfErr result IsOfSurroundings }
{
    if count == 0 {
        writeln!(out, "no faults")?;
        return Ok(Ending::Done);
    }
    writeln!(out, "{count} faults")?;
    Ok(Ending::Refused)
}

// Shows the lines of faults.
fn tell_lines<W: Write>(lines: &str, out: &mut Watched<W>) -> Result<(), Fault>
    ensures shown { OnOk result ((told : List ℕ) × Appends (W.contents (inner_of out.old)) (W.contents (inner_of out.new)) told) }
    ensures fault { IfErr result IsOfSurroundings }
{
    Ok(out.write_all(lines.as_bytes())?)
}

// Shows the lines of faults, and how many there are.
pub(crate) fn tell_found<W: Write>(
    lines: &str,
    count: usize,
    out: &mut Watched<W>,
) -> Result<Ending, Fault>
    ensures shown { IfOk result (AreFaultsShown count (W.contents (inner_of out.old)) (W.contents (inner_of out.new))) }
    ensures fault { IfErr result IsOfSurroundings }
{
    tell_lines(lines, out)?;
    tell_count(out, count)
}

// Shows what is wrong with the text of a plan's file, and what it is warned of, which isn't counted.
fn validate_plan<W: Write>(
    rt: &HostRuntime,
    path: &str,
    out: &mut Watched<W>,
) -> Result<Ending, Fault>
    ensures shown { IfOk result (λ ending. (text : List ℕ) × IsJudged (TextDenotesSome text) (W.contents (inner_of out.old)) (W.contents (inner_of out.new)) ending) }
    ensures fault { IfErr result IsOfSurroundings }
{
    let text = text_of_file(rt, path)?;
    let found = faults_of_text(rt.alloc(), &text)?;
    let lines = lines_with_warnings(rt.alloc(), &found, &text)?;
    tell_found(&lines, found.faults.len(), out)
}

/// Shows what is wrong with the text of an extension's file, without a plan.
pub fn validate_extension<W: Write>(
    rt: &HostRuntime,
    path: &str,
    out: &mut Watched<W>,
) -> Result<Ending, Fault>
    ensures shown { IfOk result (λ ending. (text : List ℕ) × IsJudged (TextDenotesSomeAdded added.Extension text) (W.contents (inner_of out.old)) (W.contents (inner_of out.new)) ending) }
    ensures fault { IfErr result IsOfSurroundings }
{
    let text = text_of_file(rt, path)?;
    let found = faults_of_added_text(rt.alloc(), AddedText::Extension, &text)?;
    let lines = lines_of_extension(rt.alloc(), &found)?;
    tell_found(&lines, found.faults.len(), out)
}

// Shows what is wrong with the text of a request.
fn judge_request<W: Write>(
    alloc: Global,
    text: &[u8],
    out: &mut Watched<W>,
) -> Result<Ending, Fault>
    ensures shown { IfOk result (IsJudged (ReadsAsSomeRequest text.now) (W.contents (inner_of out.old)) (W.contents (inner_of out.new))) }
    ensures fault { IfErr result IsOfSurroundings }
{
    let faults = faults_of_request(alloc, text)?;
    let lines = lines_of_request(alloc, &faults, text)?;
    tell_found(&lines, faults.len(), out)
}

// Shows what is wrong with the text of a request that standard input has.
fn judge_input<W: Write>(rt: &HostRuntime, out: &mut Watched<W>) -> Result<Ending, Fault>
    ensures shown { IfOk result (λ ending. (text : List ℕ) × IsJudged (ReadsAsSomeRequest text) (W.contents (inner_of out.old)) (W.contents (inner_of out.new)) ending) }
    ensures fault { IfErr result IsOfSurroundings }
{
    let text = text_of(rt.alloc(), rt.stdin())?;
    judge_request(rt.alloc(), &text, out)
}

// Shows what is wrong with the request that a word is, or that standard input has where it is a hyphen.
fn validate_request<W: Write>(
    rt: &HostRuntime,
    word: &str,
    out: &mut Watched<W>,
) -> Result<Ending, Fault>
    ensures shown { IfOk result (IsRequestJudged word.now (W.contents (inner_of out.old)) (W.contents (inner_of out.new))) }
    ensures fault { IfErr result IsOfSurroundings }
{
    if word == "-" {
        judge_input(rt, out)
    } else {
        judge_request(rt.alloc(), word.as_bytes(), out)
    }
}

/// The text of a plan is judged record by record: a line for each of the first hundred faults, how many more there are, so
/// the warnings, and the number of all faults. Where the words give a request, its text is judged member by member.
pub fn validate_text<W: Write>(
    rt: &HostRuntime,
    given: &ArgMatches,
    out: &mut Watched<W>,
) -> Result<Ending, Fault>
    ensures shown { IfOk result (IsValidated (first_value (found_of given.now) (codes "request")) (W.contents (inner_of out.old)) (W.contents (inner_of out.new))) }
    ensures fault { IfErr result IsOfSurroundings }
{
    match given.get_str("request") {
        Some(word) => validate_request(rt, word, out),
        None => validate_plan(rt, value_of(given, "plan"), out),
    }
}
