// `play`: the requests of a text are made one after another at a desk in memory.
ghost use Rattle.std.specs.Prelude.{◌≡◌, Ok, IfOk, IfErr, OnOk, true, List, ℕ};
ghost use Rattle.std.specs.List.{list_all};
ghost use Rattle.std.specs.Io.KnownBytes.{Appends};
ghost use Rattle.plan_basics.specs.Minutes.{IsShownAs};
ghost use Rattle.plan_basics.specs.Watched.{inner_of};
ghost use Rattle.command_answers.specs.Statuses.{IsOfSurroundings};
ghost use Rattle.request_commands.specs.Turns.{is_blank_byte, is_refusal, IsLinePlayed, IsPlanPlayed, IsPlayed, IsTurnShown, joined, turn_head};
ghost use Rattle.command_answers.specs.Lines.{IsNumberShown};
ghost use Rattle.command_answers.specs.declared.endings.Ending.{Ending as Ended};
ghost use Rattle.plan_records.specs.Answer.{Answer, answer_of};
ghost use Rattle.plan_records.specs.Run.{Answers, plain};
ghost use Rattle.command_answers.specs.request_json.specs.Requests.{ReadsAsRequest};
ghost use Rattle.command_desks.specs.desk_tables.specs.Desk.{state_of, usability};

use command_answers::{
    Ending, Fault, first_line, request_of, tell, tell_no_desk, tell_number, text_of, text_of_file,
};
use command_desks::{Desk, loaded_desk};
use plan_basics::{Watched, minute_text};
use plan_records::{PlanDraft, Reply, Request};
use sqlite::Alter;
use std::alloc::Global;
use std::io::Write;
use std::rt::HostRuntime;

// Whether a line has nothing but what JSON passes over.
fn is_blank(line: &[u8]) -> bool
    ensures { result ≡ list_all is_blank_byte line.now }
{
    line.iter()
        .all(|byte| *byte == b' ' || *byte == b'\t' || *byte == b'\r')
}

// Shows the number of a line and the moment of its request.
#[tactic(auto, using(command_answers::proofs::Statuses::of_the_surroundings))]
fn tell_head<W: Write>(out: &mut Watched<W>, number: usize, at: i64) -> Result<(), Fault>
    ensures shown { OnOk result ((moment : List ℕ) × IsShownAs at moment × Appends (W.contents (inner_of out.old)) (W.contents (inner_of out.new)) (turn_head number moment)) }
    ensures fault { IfErr result IsOfSurroundings }
{
    write!(out, "{number} ")?;
    out.write_all(&minute_text(at))?;
    out.write_all(b"\n")?;
    Ok(())
}

// Whether a reply refuses.
fn is_refusal(reply: &Reply) -> bool
    ensures { result ≡ is_refusal (answer_of reply.now) }
{
    match reply {
        Reply::Accepted { .. } => false,
        Reply::Refused(_) => true,
    }
}

// How lines end that are all requests, by whether one was refused.
fn ending_of_lines(refused: bool) -> Ending
    ensures { Ok result ≡ joined refused (Ok Ended.Done) }
{
    if refused {
        Ending::Refused
    } else {
        Ending::Done
    }
}

// Shows an answer, and tells whether it refuses.
fn tell_turn<W: Write>(out: &mut Watched<W>, reply: &Reply) -> Result<bool, Fault>
    ensures shown { IfOk result (IsTurnShown (answer_of reply.now) (W.contents (inner_of out.old)) (W.contents (inner_of out.new))) }
    ensures fault { IfErr result IsOfSurroundings }
{
    tell(out, reply)?;
    Ok(is_refusal(reply))
}

// Has a desk answer a request, shows the answer, and tells whether it refuses.
// By `call`, not by `run_all`: so each answer is shown before the next line is read, and one request is held.
fn play_turn<S: Alter + Drop, W: Write>(
    desk: &mut Desk<S>,
    request: &Request,
    out: &mut Watched<W>,
) -> Result<bool, Fault>
    ensures played { IfOk result (λ refuses. (a : Answer) × Answers (state_of desk.old) (usability desk.old.is_usable) (plain request.now) a (state_of desk.new) (usability desk.new.is_usable) × IsTurnShown a (W.contents (inner_of out.old)) (W.contents (inner_of out.new)) refuses) }
    ensures fault { IfErr result IsOfSurroundings }
{
    let reply = desk.call(request);
    tell_turn(out, &reply)
}

// Makes a request, and shows the number of its line, its moment and the answer.
fn play_request<S: Alter + Drop, W: Write>(
    desk: &mut Desk<S>,
    number: usize,
    request: &Request,
    out: &mut Watched<W>,
) -> Result<bool, Fault>
    ensures { (line : List ℕ) → ReadsAsRequest line request.now → IsLinePlayed number line (state_of desk.old) (usability desk.old.is_usable) (W.contents (inner_of out.old)) (W.contents (inner_of out.new)) result (state_of desk.new) (usability desk.new.is_usable) }
{
    tell_head(out, number, request.at)?;
    play_turn(desk, request, out)
}

// Shows the number of a line that is no request, which ends the run.
fn tell_no_request<W: Write>(out: &mut Watched<W>, number: usize) -> Result<bool, Fault>
    ensures { IsNumberShown number (W.contents (inner_of out.old)) (W.contents (inner_of out.new)) result }
{
    tell_number(out, number)?;
    Err(Fault::Request)
}

// Makes the request of a line that isn't blank, shows number, moment and answer, and tells whether it is refused.
fn play_line<S: Alter + Drop, W: Write>(
    alloc: Global,
    desk: &mut Desk<S>,
    number: usize,
    line: &[u8],
    out: &mut Watched<W>,
) -> Result<bool, Fault>
    ensures { IsLinePlayed number line.now (state_of desk.old) (usability desk.old.is_usable) (W.contents (inner_of out.old)) (W.contents (inner_of out.new)) result (state_of desk.new) (usability desk.new.is_usable) }
{
    if is_blank(line) {
        return Ok(false);
    }
    match request_of(alloc, line) {
        Ok(request) => play_request(desk, number, &request, out),
        Err(Fault::Request) => tell_no_request(out, number),
        Err(fault) => Err(fault),
    }
}

// Makes the requests of a text, a line each, until one is none. Blank lines are passed over, and counted.
fn play_lines<S: Alter + Drop, W: Write>(
    alloc: Global,
    desk: &mut Desk<S>,
    text: &[u8],
    out: &mut Watched<W>,
) -> Result<Ending, Fault>
    ensures { IsPlayed text.now (state_of desk.old) (usability desk.old.is_usable) (W.contents (inner_of out.old)) (W.contents (inner_of out.new)) result }
{
    let mut refused = false;
    let mut number = 0;
    let mut rest = text;
    while let Some((line, after)) = first_line(rest) {
        number += 1;
        let refuses = play_line(alloc, desk, number, line, out)?;
        refused |= refuses;
        rest = after;
    }
    Ok(ending_of_lines(refused))
}

// The text of the requests: that of a file, or of standard input where the path is a hyphen.
fn requests_of(rt: &HostRuntime, path: &str) -> Result<Vec<u8>, Fault>
    ensures { IfErr result IsOfSurroundings }
{
    if path == "-" {
        text_of(rt.alloc(), rt.stdin())
    } else {
        text_of_file(rt, path)
    }
}

// Loads a plan into a desk in memory, and makes the requests of a text there; or shows the refusal of the load.
fn play_plan<W: Write>(
    alloc: Global,
    at: i64,
    draft: Option<PlanDraft>,
    requests: &[u8],
    out: &mut Watched<W>,
) -> Result<Ending, Fault>
    ensures { IsPlanPlayed at draft requests.now (W.contents (inner_of out.old)) (W.contents (inner_of out.new)) result }
{
    match loaded_desk(alloc, at, draft) {
        Ok(mut desk) => {
            let played = play_lines(alloc, &mut desk, requests, out);
            desk.close();
            played
        }
        Err(none) => tell_no_desk(out, none),
    }
}

/// Makes the requests of a file, or of standard input.
pub fn play_file<W: Write>(
    rt: &HostRuntime,
    path: &str,
    at: i64,
    draft: Option<PlanDraft>,
    out: &mut Watched<W>,
) -> Result<Ending, Fault> {
    match requests_of(rt, path) {
        Ok(requests) => play_plan(rt.alloc(), at, draft, requests.as_slice(), out),
        Err(fault) => Err(fault),
    }
}
