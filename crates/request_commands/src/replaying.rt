// `play` of a journal: what was accepted is carried out at a desk in memory, and the answers are compared with the
// journal's.
ghost use Rattle.std.specs.Prelude.{◌≡◌, ◌↔◌, ◌++◌, IsTrue, IfOk, IfErr, OnOk, Some, None, List, ℕ};
ghost use Rattle.std.specs.Io.KnownBytes.{Appends};
ghost use Rattle.plan_basics.specs.Watched.{inner_of};
ghost use Rattle.tracker_http.specs.Exchange.{seen};
ghost use Rattle.tracker_http.specs.Guard.{TellsWithin};
ghost use Rattle.tracker_http.specs.Journalled.{told_line};
ghost use Rattle.tracker_http.specs.declared.told.Told.{Told as ToldValue};
ghost use Rattle.command_answers.specs.Answers.{line};
ghost use Rattle.command_answers.specs.Statuses.{IsOfSurroundings};
ghost use Rattle.command_answers.specs.declared.endings.Ending.{Ending};
ghost use Rattle.desk_journal.specs.declared.entries.Entry.{Entry};
ghost use Rattle.command_answers.specs.Lines.{IsNumberShown};
ghost use Rattle.request_commands.specs.declared.replaying.Step.{Step};
ghost use Rattle.request_commands.specs.Replays.{Compares, IsEntryTaken, IsLineTaken, IsOutcome, IsPlanReplayed, IsReplayed, TakesAnswer, acted_line, joined, parting_lines, place_line, same_line, unanswered};

use command_answers::{Ending, Fault, first_line, tell_no_desk, tell_number, text_of_file};
use command_desks::{Desk, loaded_desk};
use desk_journal::{Entry, read_entry};
use http_messages::Asked;
use plan_basics::Watched;
use plan_records::PlanDraft;
use sqlite::Alter;
use std::alloc::{AllocError, Global};
use std::io::Write;
use std::rt::HostRuntime;
use tracker_http::{Told, line_told, tell_within};

/// A request that waits for its answer's line.
#[derive(Drop)]
pub struct Waiting {
    /// The number of its line.
    pub number: usize,
    /// What it asks.
    pub asked: Asked,
}

/// What comes of a line.
#[derive(Drop)]
pub enum Step {
    /// The next line follows; this request waits for its answer's, if one does.
    GoesOn(Option<Waiting>),
    /// The answers part.
    Parts,
}

/// What an answer's status tells of its request.
#[derive(Clone, Copy)]
pub enum Outcome {
    /// It was accepted.
    Accepted,
    /// It was refused, and nothing has changed.
    Refused,
    /// The store failed: it may have acted.
    Failed,
}

/// A line: its number, and its text without its end.
#[derive(Clone, Copy)]
pub struct Line<'a> {
    pub number: usize,
    pub text: &'a [u8],
}

// Shows that the request of a line may have acted.
#[tactic(auto, using(command_answers::proofs::Statuses::of_the_surroundings))]
fn tell_acted<W: Write>(out: &mut Watched<W>, number: usize) -> Result<(), Fault>
    ensures shown { OnOk result (Appends (W.contents (inner_of out.old)) (W.contents (inner_of out.new)) (acted_line number)) }
    ensures fault { IfErr result IsOfSurroundings }
{
    Ok(writeln!(out, "{number} may have acted")?)
}

// Shows that the request that waits for its answer's line may have acted, where one does.
fn tell_unanswered<W: Write>(out: &mut Watched<W>, waiting: &Option<Waiting>) -> Result<(), Fault>
    ensures shown { OnOk result (Appends (W.contents (inner_of out.old)) (W.contents (inner_of out.new)) (unanswered waiting.now)) }
    ensures fault { IfErr result IsOfSurroundings }
{
    match waiting {
        Some(request) => tell_acted(out, request.number),
        None => Ok(()),
    }
}

// Shows the number of the line at which the answers part.
#[tactic(auto, using(command_answers::proofs::Statuses::of_the_surroundings))]
fn tell_place<W: Write>(out: &mut Watched<W>, number: usize) -> Result<(), Fault>
    ensures shown { OnOk result (Appends (W.contents (inner_of out.old)) (W.contents (inner_of out.new)) (place_line number)) }
    ensures fault { IfErr result IsOfSurroundings }
{
    Ok(writeln!(out, "{number} parts")?)
}

// Shows where the answers part: the number of the answer's line, and the line that the answer here would be.
#[tactic(auto, using(command_answers::proofs::Statuses::of_the_surroundings))]
fn tell_parting<W: Write>(out: &mut Watched<W>, number: usize, told: &[u8]) -> Result<Step, Fault>
    ensures shown { (x : ToldValue) → told.now ≡ told_line x → IfOk result (λ step. Appends (W.contents (inner_of out.old)) (W.contents (inner_of out.new)) (parting_lines number x) × (step ≡ Step.Parts)) }
    ensures fault { IfErr result IsOfSurroundings }
{
    tell_place(out, number)?;
    out.write_all(told)?;
    Ok(Step::Parts)
}

// Shows how many lines a journal has whose answers are the same.
#[tactic(auto, using(command_answers::proofs::Statuses::of_the_surroundings))]
fn tell_same<W: Write>(out: &mut Watched<W>, number: usize) -> Result<(), Fault>
    ensures shown { OnOk result (Appends (W.contents (inner_of out.old)) (W.contents (inner_of out.new)) (same_line number)) }
    ensures fault { IfErr result IsOfSurroundings }
{
    Ok(writeln!(out, "{number} lines, the answers are the same")?)
}

// Whether a line, with its end, is this.
fn is_line(alloc: Global, text: &[u8], told: &[u8]) -> Result<bool, AllocError>
    ensures { IfOk result (λ same. IsTrue same ↔ (told.now ≡ line text.now)) }
{
    let mut whole = Vec::from_slice(alloc, text)?;
    whole.push(b'\n')?;
    Ok(told == whole.as_slice())
}

// Compares an answer's line with that of what is told here, and shows where they part.
fn compare<W: Write>(
    alloc: Global,
    answer: Line<'_>,
    told: &[u8],
    out: &mut Watched<W>,
) -> Result<Step, Fault>
    ensures compared { (x : ToldValue) → told.now ≡ told_line x → IfOk result (λ step. (shown : List ℕ) × Compares answer.entry.number answer.entry.text.now x shown step × Appends (W.contents (inner_of out.old)) (W.contents (inner_of out.new)) shown) }
    ensures fault { IfErr result IsOfSurroundings }
{
    let same = is_line(alloc, answer.text, told)?;
    if same {
        Ok(Step::GoesOn(None))
    } else {
        tell_parting(out, answer.number, told)
    }
}

// Compares an answer's line with what is told here, and shows where they part.
fn compare_told<W: Write>(
    alloc: Global,
    answer: Line<'_>,
    told: &Told,
    out: &mut Watched<W>,
) -> Result<Step, Fault>
    ensures compared { IfOk result (λ step. (shown : List ℕ) × Compares answer.entry.number answer.entry.text.now told.now shown step × Appends (W.contents (inner_of out.old)) (W.contents (inner_of out.new)) shown) }
    ensures fault { IfErr result IsOfSurroundings }
{
    let here = line_told(alloc, told)?;
    compare(alloc, answer, &here, out)
}

// Carries out a request that was accepted, and compares its answer's line.
fn carry_out<S: Alter + Drop, W: Write>(
    alloc: Global,
    desk: &mut Desk<S>,
    asked: &Asked,
    answer: Line<'_>,
    out: &mut Watched<W>,
) -> Result<Step, Fault>
    ensures taken { IfOk result (λ step. (shown : List ℕ) × ((x : ToldValue) × TellsWithin None asked.now (seen desk.old) x (seen desk.new) × Compares answer.entry.number answer.entry.text.now x shown step) × Appends (W.contents (inner_of out.old)) (W.contents (inner_of out.new)) shown) }
    ensures fault { IfErr result IsOfSurroundings }
{
    match tell_within(alloc, desk, asked, None) {
        Ok(told) => compare_told(alloc, answer, &told, out),
        Err(_) => Err(Fault::Memory),
    }
}

// What an answer's status tells of its request.
fn outcome_of(status: u64) -> Outcome
    ensures { IsOutcome status result }
{
    if status == 200 {
        Outcome::Accepted
    } else if status == 503 {
        Outcome::Failed
    } else {
        Outcome::Refused
    }
}

// Shows that a request may have acted whose store failed, and goes on.
fn tell_failed<W: Write>(out: &mut Watched<W>, number: usize) -> Result<Step, Fault>
    ensures shown { IfOk result (λ step. Appends (W.contents (inner_of out.old)) (W.contents (inner_of out.new)) (acted_line number) × (step ≡ Step.GoesOn None)) }
    ensures fault { IfErr result IsOfSurroundings }
{
    tell_acted(out, number)?;
    Ok(Step::GoesOn(None))
}

// Takes the answer's line of a request.
fn take_answer<S: Alter + Drop, W: Write>(
    alloc: Global,
    desk: &mut Desk<S>,
    request: &Waiting,
    answer: Line<'_>,
    status: u64,
    out: &mut Watched<W>,
) -> Result<Step, Fault>
    ensures taken { IfOk result (λ step. (shown : List ℕ) × TakesAnswer answer.entry.number request.now status answer.entry.text.now (seen desk.old) shown step (seen desk.new) × Appends (W.contents (inner_of out.old)) (W.contents (inner_of out.new)) shown) }
    ensures fault { IfErr result IsOfSurroundings }
{
    match outcome_of(status) {
        Outcome::Accepted => carry_out(alloc, desk, &request.asked, answer, out),
        Outcome::Failed => tell_failed(out, request.number),
        Outcome::Refused => Ok(Step::GoesOn(None)),
    }
}

// Takes the line of a request, which waits for its answer's.
fn take_request<W: Write>(
    waiting: &Option<Waiting>,
    number: usize,
    asked: Asked,
    out: &mut Watched<W>,
) -> Result<Step, Fault>
    ensures taken { IfOk result (λ step. Appends (W.contents (inner_of out.old)) (W.contents (inner_of out.new)) (unanswered waiting.now) × (step ≡ Step.GoesOn (Some (record { number = number; asked = asked })))) }
    ensures fault { IfErr result IsOfSurroundings }
{
    tell_unanswered(out, waiting)?;
    Ok(Step::GoesOn(Some(Waiting { number, asked })))
}

// Shows the number of a line that has no place in a journal, which ends the run.
fn tell_misplaced<W: Write>(out: &mut Watched<W>, number: usize) -> Result<Step, Fault>
    ensures { IsNumberShown number (W.contents (inner_of out.old)) (W.contents (inner_of out.new)) result }
{
    tell_number(out, number)?;
    Err(Fault::Request)
}

// Takes an answer's line, where this request waits for it, if one does.
fn take_status<S: Alter + Drop, W: Write>(
    alloc: Global,
    desk: &mut Desk<S>,
    waiting: Option<Waiting>,
    answer: Line<'_>,
    status: u64,
    out: &mut Watched<W>,
) -> Result<Step, Fault>
    ensures { IsEntryTaken answer.entry.number waiting answer.entry.text.now (Entry.Answer status) (seen desk.old) (W.contents (inner_of out.old)) (W.contents (inner_of out.new)) result (seen desk.new) }
{
    match waiting {
        Some(request) => take_answer(alloc, desk, &request, answer, status, out),
        None => tell_misplaced(out, answer.number),
    }
}

// Takes what a line says, where this request waits for its answer's line, if one does.
fn take_entry<S: Alter + Drop, W: Write>(
    alloc: Global,
    desk: &mut Desk<S>,
    waiting: Option<Waiting>,
    taken: Line<'_>,
    entry: Entry,
    out: &mut Watched<W>,
) -> Result<Step, Fault>
    ensures { IsEntryTaken taken.entry.number waiting taken.entry.text.now entry (seen desk.old) (W.contents (inner_of out.old)) (W.contents (inner_of out.new)) result (seen desk.new) }
{
    match entry {
        Entry::Cut => Ok(Step::GoesOn(waiting)),
        Entry::Report(body) => take_request(&waiting, taken.number, Asked::Report(body), out),
        Entry::Operator(body) => take_request(&waiting, taken.number, Asked::Operator(body), out),
        Entry::Answer(status) => take_status(alloc, desk, waiting, taken, status, out),
        Entry::Other => tell_misplaced(out, taken.number),
    }
}

// Takes a line.
fn take_line<S: Alter + Drop, W: Write>(
    alloc: Global,
    desk: &mut Desk<S>,
    waiting: Option<Waiting>,
    taken: Line<'_>,
    out: &mut Watched<W>,
) -> Result<Step, Fault>
    ensures { IsLineTaken taken.entry.number waiting taken.entry.text.now (seen desk.old) (W.contents (inner_of out.old)) (W.contents (inner_of out.new)) result (seen desk.new) }
{
    match read_entry(alloc, taken.text) {
        Ok(entry) => take_entry(alloc, desk, waiting, taken, entry, out),
        Err(_) => Err(Fault::Memory),
    }
}

// Shows that the answers of a journal of so many lines are the same, and that its last request may have acted, where that
// waits for its answer's line.
fn tell_end<W: Write>(
    out: &mut Watched<W>,
    waiting: &Option<Waiting>,
    number: usize,
) -> Result<Ending, Fault>
    ensures shown { IfOk result (λ ending. Appends (W.contents (inner_of out.old)) (W.contents (inner_of out.new)) (unanswered waiting.now ++ same_line number) × (ending ≡ Ending.Done)) }
    ensures fault { IfErr result IsOfSurroundings }
{
    tell_unanswered(out, waiting)?;
    tell_same(out, number)?;
    Ok(Ending::Done)
}

// Takes the lines of a journal at a desk, until the answers part or a line has no place.
fn replay_lines<S: Alter + Drop, W: Write>(
    alloc: Global,
    desk: &mut Desk<S>,
    journal: &[u8],
    out: &mut Watched<W>,
) -> Result<Ending, Fault>
    ensures { IsReplayed journal.now (seen desk.old) (W.contents (inner_of out.old)) (W.contents (inner_of out.new)) result }
{
    let mut waiting: Option<Waiting> = None;
    let mut number = 0;
    let mut rest = journal;
    while let Some((text, after)) = first_line(rest) {
        number += 1;
        let step = take_line(alloc, desk, waiting, Line { number, text }, out)?;
        waiting = match step {
            Step::GoesOn(next) => next,
            Step::Parts => return Ok(Ending::Refused),
        };
        rest = after;
    }
    tell_end(out, &waiting, number)
}

// Loads a plan into a desk in memory, and takes a journal there; or shows the refusal of the load.
fn replay_plan<W: Write>(
    alloc: Global,
    at: i64,
    draft: Option<PlanDraft>,
    journal: &[u8],
    out: &mut Watched<W>,
) -> Result<Ending, Fault>
    ensures { IsPlanReplayed at draft journal.now (W.contents (inner_of out.old)) (W.contents (inner_of out.new)) result }
{
    match loaded_desk(alloc, at, draft) {
        Ok(mut desk) => {
            let replayed = replay_lines(alloc, &mut desk, journal, out);
            desk.close();
            replayed
        }
        Err(none) => tell_no_desk(out, none),
    }
}

// Adds a file of a journal to those before it. Its last line, which a stop may have cut short, ends there.
fn add_file(journal: &mut Vec<u8>, file: &[u8]) -> Result<(), AllocError>
    ensures { OnOk result (journal.new.items ≡ joined journal.old.items file.now) }
{
    journal.extend_from_slice(file)?;
    match file.last().copied() {
        Some(byte) if byte != b'\n' => Ok(journal.push(b'\n')?),
        _ => Ok(()),
    }
}

// The lines of a journal's files, one file after the other.
fn lines_of_files(rt: &HostRuntime, paths: &[&str]) -> Result<Vec<u8>, Fault> {
    let mut journal = Vec::new(rt.alloc());
    for path in paths {
        let file = text_of_file(rt, *path)?;
        add_file(&mut journal, &file)?;
    }
    Ok(journal)
}

/// Takes a journal at a desk in memory at which a plan is loaded: the lines of these files, in this order.
pub fn replay_files<W: Write>(
    rt: &HostRuntime,
    paths: &[&str],
    at: i64,
    draft: Option<PlanDraft>,
    out: &mut Watched<W>,
) -> Result<Ending, Fault> {
    match lines_of_files(rt, paths) {
        Ok(journal) => replay_plan(rt.alloc(), at, draft, journal.as_slice(), out),
        Err(fault) => Err(fault),
    }
}
