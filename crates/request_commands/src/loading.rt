// `check` and `load`: what an empty desk answers to the load of a plan's text, and its load into the desk of a database's file.
ghost use Rattle.std.specs.Prelude.{◌≡◌, ◌⊎◌, IfOk, IfErr, codes};
ghost use Rattle.clap.specs.Matches.{found_of};
ghost use Rattle.plan_basics.specs.Watched.{inner_of};
ghost use Rattle.request_commands.specs.Loads.{IsCheckShown, IsLoadOf, IsLoadShown};
ghost use Rattle.command_answers.specs.Statuses.{IsOfSurroundings};
ghost use Rattle.command_answers.specs.Given.{IsNoMinute};
ghost use Rattle.command_words.specs.Words.{text_given};
ghost use Rattle.command_answers.specs.declared.endings.Fault.{Fault};

use crate::loads::load_into;
use clap::ArgMatches;
use command_answers::{Ending, Fault, moment_of, plan_of_file, tell};
use command_desks::{Database, answer_alone, close};
use command_words::value_of;
use plan_basics::Watched;
use plan_records::PlanDraft;
use sqlite::{Alter, Connection};
use std::alloc::Global;
use std::io::Write;
use std::rt::HostRuntime;

/// `check`: what an empty desk answers to the load of a file's plan. The moment is judged before the file.
pub fn check<W: Write>(
    rt: &HostRuntime,
    given: &ArgMatches,
    out: &mut Watched<W>,
) -> Result<Ending, Fault>
    ensures shown { IfOk result (IsCheckShown (text_given (found_of given.now) (codes "at")) (W.contents (inner_of out.old)) (W.contents (inner_of out.new))) }
    ensures fault { IfErr result (λ fault. ((fault ≡ Fault.Moment) × IsNoMinute (text_given (found_of given.now) (codes "at"))) ⊎ IsOfSurroundings fault) }
{
    let at = moment_of(given)?;
    match plan_of_file(rt, value_of(given, "plan")) {
        Ok(draft) => tell(out, &answer_alone(rt.alloc(), at, draft)),
        Err(fault) => Err(fault),
    }
}

// Loads a draft over a connection, shows the answer and closes the database. What is shown stands also where that fails.
// It is shown first, since what is committed stands even where the log can't be copied into the file.
fn load_over<S: Alter + Drop, W: Write>(
    alloc: Global,
    conn: Connection<S>,
    at: i64,
    draft: Option<PlanDraft>,
    out: &mut Watched<W>,
) -> Result<Ending, Fault>
where
    Connection<S>: Database<S>,
    ensures shown { IfOk result (IsLoadOf at draft (W.contents (inner_of out.old)) (W.contents (inner_of out.new))) }
    ensures fault { IfErr result IsOfSurroundings }
{
    let (reply, conn) = load_into(alloc, conn, at, draft);
    let told = tell(out, &reply);
    close(conn, &reply)?;
    told
}

// Loads a draft into the desk of a database's file.
fn load_draft<S: Alter + Drop, W: Write>(
    rt: &HostRuntime,
    path: &str,
    at: i64,
    draft: Option<PlanDraft>,
    out: &mut Watched<W>,
) -> Result<Ending, Fault>
where
    Connection<S>: Database<S>,
    ensures shown { IfOk result (IsLoadOf at draft (W.contents (inner_of out.old)) (W.contents (inner_of out.new))) }
    ensures fault { IfErr result IsOfSurroundings }
{
    match Connection::<S>::open_at(rt, path) {
        Ok(conn) => load_over(rt.alloc(), conn, at, draft, out),
        Err(fault) => Err(fault),
    }
}

/// `load`: the plan of a file is loaded into the desk of a database's file. The moment is judged before the files, and
/// the plan is read before the database is touched.
pub fn load<S: Alter + Drop, W: Write>(
    rt: &HostRuntime,
    given: &ArgMatches,
    out: &mut Watched<W>,
) -> Result<Ending, Fault>
where
    Connection<S>: Database<S>,
    ensures shown { IfOk result (IsLoadShown (text_given (found_of given.now) (codes "at")) (W.contents (inner_of out.old)) (W.contents (inner_of out.new))) }
    ensures fault { IfErr result (λ fault. ((fault ≡ Fault.Moment) × IsNoMinute (text_given (found_of given.now) (codes "at"))) ⊎ IsOfSurroundings fault) }
{
    let at = moment_of(given)?;
    match plan_of_file(rt, value_of(given, "plan")) {
        Ok(draft) => load_draft::<S, W>(rt, value_of(given, "db"), at, draft, out),
        Err(fault) => Err(fault),
    }
}
