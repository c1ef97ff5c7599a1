// `validate`: an extension's text beside the plan of a desk, of a database's file or in memory; all else without a desk.
ghost use Rattle.std.specs.Prelude.{◌≡◌, ◌⊎◌, ℕ, List, None, Err, IfOk, IfErr, IsSome, codes};
ghost use Rattle.clap.specs.Matches.{first_value, found_of};
ghost use Rattle.plan_basics.specs.Watched.{inner_of};
ghost use Rattle.text_commands.specs.Beside.{IsBesideShown};
ghost use Rattle.text_commands.specs.Judged.{IsValidated};
ghost use Rattle.command_answers.specs.Statuses.{IsOfSurroundings};
ghost use Rattle.text_commands.specs.Besides.{IsBesideDesk, IsBesidePlanned, IsBesideText, IsExtensionJudged, IsSomeBesideText, LacksMoment};
ghost use Rattle.command_answers.specs.declared.endings.Fault.{Fault};

use crate::beside::judge_beside;
use crate::texts::{validate_extension, validate_text};
use clap::ArgMatches;
use command_answers::{Ending, Fault, moment_of, plan_of_file, tell_no_desk, text_of_file};
use command_desks::{Database, Desk, close_desk, loaded_desk, stored_desk};
use plan_basics::Watched;
use plan_records::PlanDraft;
use sqlite::{Alter, Connection};
use std::alloc::Global;
use std::io::Write;
use std::rt::HostRuntime;

// Judges an extension's text beside a plan that is loaded into a desk in memory at a minute; or the refusal of the load is
// shown.
fn judge_planned<W: Write>(
    alloc: Global,
    at: i64,
    draft: Option<PlanDraft>,
    text: &[u8],
    out: &mut Watched<W>,
) -> Result<Ending, Fault>
    ensures shown { IfOk result (IsBesidePlanned text.now at draft (W.contents (inner_of out.old)) (W.contents (inner_of out.new))) }
    ensures fault { IfErr result IsOfSurroundings }
{
    match loaded_desk(alloc, at, draft) {
        Ok(desk) => {
            let shown = judge_beside(alloc, desk.plan(), text, out);
            desk.close();
            shown
        }
        Err(none) => tell_no_desk(out, none),
    }
}

// The same beside the plan of a file.
fn judge_of_file<W: Write>(
    rt: &HostRuntime,
    path: &str,
    at: i64,
    text: &[u8],
    out: &mut Watched<W>,
) -> Result<Ending, Fault>
    ensures shown { IfOk result (IsBesideText text.now at (W.contents (inner_of out.old)) (W.contents (inner_of out.new))) }
    ensures fault { IfErr result IsOfSurroundings }
{
    match plan_of_file(rt, path) {
        Ok(draft) => judge_planned(rt.alloc(), at, draft, text, out),
        Err(fault) => Err(fault),
    }
}

// Judges it beside the plan of a database's desk, and closes the database.
fn judge_and_close<S: Alter + Drop, W: Write>(
    alloc: Global,
    desk: Desk<S>,
    text: &[u8],
    out: &mut Watched<W>,
) -> Result<Ending, Fault>
where
    Connection<S>: Database<S>,
    ensures shown { IfOk result (IsBesideShown desk.plan text.now (W.contents (inner_of out.old)) (W.contents (inner_of out.new))) }
    ensures fault { IfErr result IsOfSurroundings }
{
    let shown = judge_beside(alloc, desk.plan(), text, out);
    close_desk(desk)?;
    shown
}

// The same at the desk of a database's file; or why it can't be opened.
fn judge_stored<S: Alter + Drop, W: Write>(
    rt: &HostRuntime,
    path: &str,
    text: &[u8],
    out: &mut Watched<W>,
) -> Result<Ending, Fault>
where
    Connection<S>: Database<S>,
    ensures shown { IfOk result (IsBesideDesk text.now (W.contents (inner_of out.old)) (W.contents (inner_of out.new))) }
    ensures fault { IfErr result IsOfSurroundings }
{
    match stored_desk::<S>(rt, path) {
        Ok(desk) => judge_and_close(rt.alloc(), desk, text, out),
        Err(none) => tell_no_desk(out, none),
    }
}

// An extension's text, which is read first, beside the plan of a database's desk.
fn validate_stored<S: Alter + Drop, W: Write>(
    rt: &HostRuntime,
    path: &str,
    db: &str,
    out: &mut Watched<W>,
) -> Result<Ending, Fault>
where
    Connection<S>: Database<S>,
    ensures shown { IfOk result (λ ending. (bytes : List ℕ) × IsBesideDesk bytes (W.contents (inner_of out.old)) (W.contents (inner_of out.new)) ending) }
    ensures fault { IfErr result IsOfSurroundings }
{
    match text_of_file(rt, path) {
        Ok(text) => judge_stored::<S, W>(rt, db, &text, out),
        Err(fault) => Err(fault),
    }
}

// The same beside the plan of a text at a minute.
fn validate_planned<W: Write>(
    rt: &HostRuntime,
    path: &str,
    plan: &str,
    at: i64,
    out: &mut Watched<W>,
) -> Result<Ending, Fault>
    ensures shown { IfOk result (IsSomeBesideText at (W.contents (inner_of out.old)) (W.contents (inner_of out.new))) }
    ensures fault { IfErr result IsOfSurroundings }
{
    match text_of_file(rt, path) {
        Ok(text) => judge_of_file(rt, plan, at, &text, out),
        Err(fault) => Err(fault),
    }
}

// An extension's text beside the plan that the words give, or without one. The moment is judged before the files.
fn validate_given<S: Alter + Drop, W: Write>(
    rt: &HostRuntime,
    path: &str,
    given: &ArgMatches,
    out: &mut Watched<W>,
) -> Result<Ending, Fault>
where
    Connection<S>: Database<S>,
    ensures shown { IfOk result (IsExtensionJudged (first_value (found_of given.now) (codes "db")) (first_value (found_of given.now) (codes "plan")) (first_value (found_of given.now) (codes "at")) (W.contents (inner_of out.old)) (W.contents (inner_of out.new))) }
    ensures moment { LacksMoment (first_value (found_of given.now) (codes "db")) (first_value (found_of given.now) (codes "plan")) (first_value (found_of given.now) (codes "at")) → result ≡ Err Fault.Moment }
    ensures fault { IfErr result (λ fault. ((fault ≡ Fault.Moment) × LacksMoment (first_value (found_of given.now) (codes "db")) (first_value (found_of given.now) (codes "plan")) (first_value (found_of given.now) (codes "at"))) ⊎ IsOfSurroundings fault) }
{
    match (given.get_str("db"), given.get_str("plan")) {
        (Some(db), _) => validate_stored::<S, W>(rt, path, db, out),
        (None, Some(plan)) => {
            let at = moment_of(given)?;
            validate_planned(rt, path, plan, at, out)
        }
        (None, None) => validate_extension(rt, path, out),
    }
}

/// `validate`: an extension's text is judged beside the plan of a database's desk or of a text that is loaded at a moment,
/// where the words give one; the text of a plan, of an extension without one, and of a request by itself. `Moment` exactly
/// where an extension is to be judged beside a plan's text, and the words give no moment for its load and no database.
pub fn validate<S: Alter + Drop, W: Write>(
    rt: &HostRuntime,
    given: &ArgMatches,
    out: &mut Watched<W>,
) -> Result<Ending, Fault>
where
    Connection<S>: Database<S>,
    ensures extension { IsSome (first_value (found_of given.now) (codes "extension")) → IfOk result (IsExtensionJudged (first_value (found_of given.now) (codes "db")) (first_value (found_of given.now) (codes "plan")) (first_value (found_of given.now) (codes "at")) (W.contents (inner_of out.old)) (W.contents (inner_of out.new))) }
    ensures alone { first_value (found_of given.now) (codes "extension") ≡ None → IfOk result (IsValidated (first_value (found_of given.now) (codes "request")) (W.contents (inner_of out.old)) (W.contents (inner_of out.new))) }
    ensures moment { IsSome (first_value (found_of given.now) (codes "extension")) → LacksMoment (first_value (found_of given.now) (codes "db")) (first_value (found_of given.now) (codes "plan")) (first_value (found_of given.now) (codes "at")) → result ≡ Err Fault.Moment }
    ensures fault { IfErr result (λ fault. ((fault ≡ Fault.Moment) × (IsSome (first_value (found_of given.now) (codes "extension")) × LacksMoment (first_value (found_of given.now) (codes "db")) (first_value (found_of given.now) (codes "plan")) (first_value (found_of given.now) (codes "at")))) ⊎ IsOfSurroundings fault) }
{
    match given.get_str("extension") {
        Some(path) => validate_given::<S, W>(rt, path, given, out),
        None => validate_text(rt, given, out),
    }
}
