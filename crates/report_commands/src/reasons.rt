// `why`: why an operation doesn't go on, at the desk of a database's file or at one in memory.
ghost use Rattle.std.specs.Prelude.{◌≡◌, ◌⊎◌, IfOk, IfErr, codes};
ghost use Rattle.clap.specs.Matches.{first_value, found_of};
ghost use Rattle.plan_basics.specs.Watched.{inner_of};
ghost use Rattle.command_answers.specs.Statuses.{IsOfSurroundings};
ghost use Rattle.command_desks.specs.Given.{IsNoDeskGiven, minute_asked};
ghost use Rattle.report_commands.specs.Whys.{IsNoTypedOperation, IsWhyAsked, IsWhyOfDesk, IsWhyOfText, IsWhyPlanned, IsWhyShown};
ghost use Rattle.command_answers.specs.Given.{IsNoMinuteGiven};
ghost use Rattle.plan_reports.specs.plan_shows.specs.Typed.{IsTypedOperation};
ghost use Rattle.command_words.specs.Words.{text_given};
ghost use Rattle.command_answers.specs.declared.endings.Fault.{Fault};

use crate::reports::end_of;
use clap::ArgMatches;
use command_answers::{Ending, Fault, moment_if_given, plan_of_file, tell_no_desk, tell_refusal};
use command_desks::{Database, Desk, close_desk, loaded_desk, minute_of, stored_desk};
use command_words::value_of;
use plan_basics::{Moment, OpKey, Refusal, Watched};
use plan_records::PlanDraft;
use plan_reports::{operation_typed, why_report};
use sqlite::{Alter, Connection};
use std::alloc::Global;
use std::io::Write;
use std::rt::HostRuntime;

// Shows at a desk why an operation doesn't go on at a minute, or why that isn't told.
fn tell_why<S: Alter + Drop, W: Write>(
    alloc: Global,
    desk: &Desk<S>,
    key: &OpKey,
    minute: i64,
    out: &mut Watched<W>,
) -> Result<Ending, Fault>
    ensures shown { IfOk result (IsWhyShown key.now minute desk.now.is_usable desk.now.plan (W.contents (inner_of out.old)) (W.contents (inner_of out.new))) }
    ensures fault { IfErr result IsOfSurroundings }
{
    let Some(at) = Moment::new(minute) else {
        tell_refusal(out, Refusal::MomentRange)?;
        return Ok(Ending::Refused);
    };
    let written = why_report(alloc, desk, key, at, out);
    end_of(written, out)
}

// The same at a desk in memory at which a plan is loaded then; or the refusal of the load is shown.
fn why_planned<W: Write>(
    alloc: Global,
    at: i64,
    draft: Option<PlanDraft>,
    key: &OpKey,
    out: &mut Watched<W>,
) -> Result<Ending, Fault>
    ensures shown { IfOk result (IsWhyPlanned key.now at draft (W.contents (inner_of out.old)) (W.contents (inner_of out.new))) }
    ensures fault { IfErr result IsOfSurroundings }
{
    match loaded_desk(alloc, at, draft) {
        Ok(desk) => {
            let shown = tell_why(alloc, &desk, key, at, out);
            desk.close();
            shown
        }
        Err(none) => tell_no_desk(out, none),
    }
}

// The same at a desk in memory at which the plan of a file is loaded then.
fn why_of_file<W: Write>(
    rt: &HostRuntime,
    path: &str,
    at: i64,
    key: &OpKey,
    out: &mut Watched<W>,
) -> Result<Ending, Fault>
    ensures shown { IfOk result (IsWhyOfText key.now at (W.contents (inner_of out.old)) (W.contents (inner_of out.new))) }
    ensures fault { IfErr result IsOfSurroundings }
{
    match plan_of_file(rt, path) {
        Ok(draft) => why_planned(rt.alloc(), at, draft, key, out),
        Err(fault) => Err(fault),
    }
}

// Shows the same at the desk of a database, at its clock where no minute is given, and closes the database.
fn why_and_close<S: Alter + Drop, W: Write>(
    alloc: Global,
    desk: Desk<S>,
    key: &OpKey,
    minute: Option<i64>,
    out: &mut Watched<W>,
) -> Result<Ending, Fault>
where
    Connection<S>: Database<S>,
    ensures shown { IfOk result (IsWhyShown key.now (minute_asked minute desk.plan) desk.is_usable desk.plan (W.contents (inner_of out.old)) (W.contents (inner_of out.new))) }
    ensures fault { IfErr result IsOfSurroundings }
{
    let minute = minute_of(&desk, minute);
    let shown = tell_why(alloc, &desk, key, minute, out);
    close_desk(desk)?;
    shown
}

// The same at the desk of a database's file; or why it can't be opened.
fn why_stored<S: Alter + Drop, W: Write>(
    rt: &HostRuntime,
    path: &str,
    key: &OpKey,
    minute: Option<i64>,
    out: &mut Watched<W>,
) -> Result<Ending, Fault>
where
    Connection<S>: Database<S>,
    ensures shown { IfOk result (IsWhyOfDesk key.now minute (W.contents (inner_of out.old)) (W.contents (inner_of out.new))) }
    ensures fault { IfErr result IsOfSurroundings }
{
    match stored_desk::<S>(rt, path) {
        Ok(desk) => why_and_close(rt.alloc(), desk, key, minute, out),
        Err(none) => tell_no_desk(out, none),
    }
}

// The operation that the words name. `Words` where the text is no key of an operation.
fn operation_of(given: &ArgMatches) -> Result<OpKey, Fault>
    ensures key { IfOk result (IsTypedOperation (text_given (found_of given.now) (codes "op"))) }
    ensures fault { IfErr result (λ fault. (fault ≡ Fault.Words) × IsNoTypedOperation (text_given (found_of given.now) (codes "op"))) }
{
    match operation_typed(value_of(given, "op").as_bytes()) {
        Some(key) => Ok(key),
        None => Err(Fault::Words),
    }
}

/// `why`: the words are judged before the files. A plan's text is loaded at the moment that is given; the database of a
/// desk is closed at the end. `Words` where the words name no operation, or don't say at which desk.
pub fn why<S: Alter + Drop, W: Write>(
    rt: &HostRuntime,
    given: &ArgMatches,
    out: &mut Watched<W>,
) -> Result<Ending, Fault>
where
    Connection<S>: Database<S>,
    ensures shown { IfOk result (IsWhyAsked (text_given (found_of given.now) (codes "op")) (first_value (found_of given.now) (codes "at")) (W.contents (inner_of out.old)) (W.contents (inner_of out.new))) }
    ensures fault { IfErr result (λ fault. ((fault ≡ Fault.Words) × (IsNoTypedOperation (text_given (found_of given.now) (codes "op")) ⊎ IsNoDeskGiven (first_value (found_of given.now) (codes "db")) (first_value (found_of given.now) (codes "plan")) (first_value (found_of given.now) (codes "at")))) ⊎ (((fault ≡ Fault.Moment) × IsNoMinuteGiven (first_value (found_of given.now) (codes "at"))) ⊎ IsOfSurroundings fault)) }
{
    let key = operation_of(given)?;
    let at = moment_if_given(given, "at")?;
    match (given.get_str("db"), given.get_str("plan"), at) {
        (Some(path), _, at) => why_stored::<S, W>(rt, path, &key, at, out),
        (None, Some(path), Some(at)) => why_of_file(rt, path, at, &key, out),
        _ => Err(Fault::Words),
    }
}
