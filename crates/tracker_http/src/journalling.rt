// A desk that is asked between two lines of a journal.
ghost use Rattle.std.specs.Prelude.{◌≡◌, ◌≢◌, Err, IfOk, OnOk, option_map};
ghost use Rattle.std.specs.Io.KnownBytes.{Appends, Keeps};
ghost use Rattle.plan_basics.specs.Watched.{AppendsBeginning};
ghost use Rattle.desk_journal.specs.Lines.{entries_of, line_of, request_data};
ghost use Rattle.desk_journal.specs.Journals.{Journals, Stands};
ghost use Rattle.tracker_http.specs.Continuing.{Continues};
ghost use Rattle.tracker_http.specs.Readings.{ReadsFor};
ghost use Rattle.tracker_http.specs.Journalled.{answer_lines, clock_of, request_lines, told_line, Takes};

use super::asking::tell_read;
use super::reading::{Reading, is_brief, requester_of};
use super::told::Told;
use desk_journal::{Journal, JournalFault, answer_line, request_line};
use desk_tables::{Desk, Plan};
use http_messages::{Asked, Asking};
use sqlite::Alter;
use std::alloc::{AllocError, Global};
use std::io::Write;

// The line of a request at a plan.
fn line_at(
    alloc: Global,
    plan: &Plan,
    by: Option<&str>,
    path: &str,
    body: &[u8],
    is_brief: bool,
) -> Result<Vec<u8>, AllocError>
    ensures { IfOk result (λ text. text.items ≡ line_of (request_data (clock_of plan.now.plan) (option_map (λ by. by.now) by.entry) path.now is_brief body.now)) }
{
    if !plan.is_loaded() {
        return request_line(alloc, None, by, path, body, is_brief);
    }
    let clock = format!(in alloc; "{}", plan.clock())?;
    request_line(alloc, Some(clock.as_str()), by, path, body, is_brief)
}

// The line of a request at a plan, whose body was read so; none of a list.
fn lines_before(
    alloc: Global,
    plan: &Plan,
    asking: &Asking,
    reading: &Reading,
) -> Result<Vec<u8>, AllocError>
    ensures { IfOk result (λ text. text.items ≡ request_lines plan.now.plan reading.now asking.now) }
{
    let by = requester_of(asking);
    match &asking.asked {
        Asked::Report(body) => line_at(alloc, plan, by, "/report", body, is_brief(reading, body)),
        Asked::Operator(body) => {
            line_at(alloc, plan, by, "/operator", body, is_brief(reading, body))
        }
        Asked::Ready(_) | Asked::Occurrences => Ok(Vec::new(alloc)),
    }
}

/// The line of what is told.
pub fn line_told(alloc: Global, told: &Told) -> Result<Vec<u8>, AllocError>
    ensures { IfOk result (λ text. text.items ≡ told_line told.now) }
{
    let body = told.body(alloc)?;
    answer_line(alloc, &body, told.status().code())
}

// The line of what a request is told; none of a list.
fn lines_after(alloc: Global, asked: &Asked, told: &Told) -> Result<Vec<u8>, AllocError>
    ensures { IfOk result (λ text. text.items ≡ answer_lines asked.now told.now) }
{
    match asked {
        Asked::Report(_) | Asked::Operator(_) => line_told(alloc, told),
        Asked::Ready(_) | Asked::Occurrences => Ok(Vec::new(alloc)),
    }
}

// Enters a request's line, where a journal is kept.
fn enter_request<J: Write>(
    alloc: Global,
    journal: &mut Journal<J>,
    plan: &Plan,
    asking: &Asking,
    reading: &Reading,
) -> Result<(), JournalFault>
    ensures whole { OnOk result (Appends (entries_of J.contents journal.old) (entries_of J.contents journal.new) (request_lines plan.now.plan reading.now asking.now)) }
    ensures beginning { result ≡ Err JournalFault.Request → AppendsBeginning (entries_of J.contents journal.old) (entries_of J.contents journal.new) (request_lines plan.now.plan reading.now asking.now) }
    ensures memory { result ≡ Err JournalFault.Memory → Keeps (entries_of J.contents journal.old) (entries_of J.contents journal.new) }
    ensures before { result ≢ Err JournalFault.Answer }
{
    if !journal.is_kept() {
        return Ok(());
    }
    let lines = lines_before(alloc, plan, asking, reading)?;
    if journal.enter(&lines) {
        Ok(())
    } else {
        Err(JournalFault::Request)
    }
}

// Enters the line of what a request is told, where a journal is kept.
fn enter_answer<J: Write>(
    alloc: Global,
    journal: &mut Journal<J>,
    asked: &Asked,
    told: &Told,
) -> Result<(), JournalFault>
    ensures whole { OnOk result (Appends (entries_of J.contents journal.old) (entries_of J.contents journal.new) (answer_lines asked.now told.now)) }
    ensures beginning { result ≡ Err JournalFault.Answer → AppendsBeginning (entries_of J.contents journal.old) (entries_of J.contents journal.new) (answer_lines asked.now told.now) }
    ensures memory { result ≡ Err JournalFault.Memory → Keeps (entries_of J.contents journal.old) (entries_of J.contents journal.new) }
    ensures after { result ≢ Err JournalFault.Request }
{
    if !journal.is_kept() {
        return Ok(());
    }
    let lines = lines_after(alloc, asked, told)?;
    if journal.enter(&lines) {
        Ok(())
    } else {
        Err(JournalFault::Answer)
    }
}

/// Asks the desk what was read so, as `tell_within` does, between the two lines of a journal, where one is kept: nothing is asked before the
/// request's line is written, and nothing is told before the answer's is (`journals`). So a desk that isn't as it was has the
/// request's line in its journal (`stands`).
pub fn journalled<J: Write, S: Alter + Drop>(
    alloc: Global,
    journal: &mut Journal<J>,
    desk: &mut Desk<S>,
    asking: &Asking,
    reading: &Reading,
    ahead: Option<u32>,
) -> Result<Told, JournalFault>
    requires reading { ReadsFor asking.now.asked reading.now }
    ensures journals { Journals (Takes S.Store ahead asking.now.asked) (request_lines desk.old.plan reading.now asking.now) (answer_lines asking.now.asked) result desk.old desk.new (entries_of J.contents journal.old) (entries_of J.contents journal.new) }
    ensures stands { Stands (request_lines desk.old.plan reading.now asking.now) desk.old desk.new (entries_of J.contents journal.old) (entries_of J.contents journal.new) }
    ensures continues { Continues S.Store desk.old desk.new }
{
    enter_request(alloc, journal, desk.plan(), asking, reading)?;
    let Ok(told) = tell_read(alloc, desk, &asking.asked, reading, ahead) else {
        return Err(JournalFault::Memory);
    };
    enter_answer(alloc, journal, &asking.asked, &told)?;
    Ok(told)
}
