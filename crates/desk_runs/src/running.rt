// `desk`: the desk of a database's file over HTTP, until it is ended.
ghost use Rattle.std.specs.Prelude.{◌≡◌, codes, IfOk, IsErr, OnOk};
ghost use Rattle.std.specs.Io.KnownBytes.{Appends};
ghost use Rattle.clap.specs.Matches.{found_of};
ghost use Rattle.plan_basics.specs.MomentTexts.{moment_text};
ghost use Rattle.plan_basics.specs.Watched.{inner_of};
ghost use Rattle.command_words.specs.Words.{text_given};
ghost use Rattle.desk_runs.specs.Ticks.{IsBeyond, gap_text};
ghost use Rattle.command_answers.specs.declared.endings.Ending.{Ending};
ghost use Rattle.desk_serving.specs.tracker_http.specs.Continuing.{Continues};
ghost use Rattle.desk_runs.specs.Following.{AreFollowed, AreTermsOf};

use super::following::{first_terms, follow};
use super::journals::{end_exchange, journal_end, opened_journal};
use super::polling::serve_polled;
use super::seen::Seen;
use super::serving::taken_port;
use super::ticks::{is_behind, is_beyond, tell_gap, tick};
use clap::ArgMatches;
use command_answers::{Ending, Fault, moment_if_given, tell, tell_no_desk};
use command_desks::{Database, Desk, close_desk, stored_desk};
use command_words::value_of;
use desk_serving::{Journal, Reply, Terms};
use plan_basics::Watched;
use sqlite::{Alter, Connection};
use std::io::Write;
use std::rt::HostRuntime;

/// How many minutes after the plan's clock a request's moment may be, where the words don't say.
const MINUTES_AHEAD: u32 = 1_440;

/// From how many minutes on it is an alarm that the plan's clock stands, where the words don't say.
const MINUTES_STALE: u32 = 3;

/// How many minutes after the plan's clock `--at` may be, where the words don't say: thirty days.
const MINUTES_GAP: u32 = 43_200;

/// Tells that the port of the words is taken, and serves until a fault ends it.
fn listen<J: Write, S: Alter + Drop, W: Write>(
    rt: &HostRuntime,
    given: &ArgMatches,
    journal: &mut Journal<J>,
    desk: &mut Desk<S>,
    terms: &mut Terms,
    out: &mut Watched<W>,
) -> Result<Ending, Fault>
    requires known { AreTermsOf desk.old.plan terms.old }
    ensures faulty { IsErr result }
    ensures continues { Continues S.Store desk.old desk.new }
{
    let listener = taken_port(rt, given)?;
    let stale = given.get_one::<u32>("stale").unwrap_or(MINUTES_STALE);
    let Ok(seen) = Seen::first(rt, desk.plan().clock(), u64::from(stale)) else {
        return Err(Fault::Network);
    };
    writeln!(out, "listening")?;
    out.flush()?;
    Err(serve_polled(rt, &listener, journal, desk, terms, seen))
}

/// Brings the plan to the moment that the words give, where that is later than its clock; and gives the answer to the tick,
/// if one was asked for.
#[tactic(auto, using(crate::proofs::Followed::follows_itself))]
fn brought_to<J: Write, S: Alter + Drop>(
    rt: &HostRuntime,
    given: &ArgMatches,
    at: Option<i64>,
    journal: &mut Journal<J>,
    desk: &mut Desk<S>,
    terms: &mut Terms,
) -> Result<Option<Reply>, Fault>
    requires known { AreTermsOf desk.old.plan terms.old }
    ensures followed { OnOk result (AreFollowed desk.old.plan desk.new.plan terms.old terms.new) }
    ensures continues { Continues S.Store desk.old desk.new }
{
    let Some(at) = at else {
        return Ok(None);
    };
    if !is_behind(desk.plan(), at) {
        return Ok(None);
    }
    let reply = tick(rt.alloc(), journal, desk, value_of(given, "at"))?;
    follow(terms, desk.plan())?;
    Ok(Some(reply))
}

/// Opens the journal that the words name, brings the plan to the moment that they give, and serves until a fault ends it. A
/// refusal of the tick is shown.
fn start<S: Alter + Drop, W: Write>(
    rt: &HostRuntime,
    given: &ArgMatches,
    at: Option<i64>,
    desk: &mut Desk<S>,
    out: &mut Watched<W>,
) -> Result<Ending, Fault>
    ensures ending { IfOk result (λ ending. ending ≡ Ending.Refused) }
    ensures continues { Continues S.Store desk.old desk.new }
{
    let mut journal = opened_journal(rt, given.get_str("journal"))?;
    let end = journal_end(rt, given.get_str("journal"))?;
    let minutes = given.get_one::<u32>("ahead").unwrap_or(MINUTES_AHEAD);
    let mut terms = first_terms(desk.plan(), &end, minutes, given.get_flag("bound"))?;
    let answer = brought_to(rt, given, at, &mut journal, desk, &mut terms)?;
    end_exchange(&mut journal)?;
    match answer {
        Some(Reply::Refused(refusal)) => tell(out, &Reply::Refused(refusal)),
        Some(Reply::Accepted { .. }) | None => {
            listen(rt, given, &mut journal, desk, &mut terms, out)
        }
    }
}

/// Starts a desk, unless the moment that the words give is more than so many minutes after the clock of its plan: that is
/// shown, and nothing is opened, and nothing changes.
fn run<S: Alter + Drop, W: Write>(
    rt: &HostRuntime,
    given: &ArgMatches,
    at: Option<i64>,
    gap: u32,
    desk: &mut Desk<S>,
    out: &mut Watched<W>,
) -> Result<Ending, Fault>
    ensures ending { IfOk result (λ ending. ending ≡ Ending.Refused) }
    ensures beyond { IsBeyond gap desk.old.plan at → (desk.new ≡ desk.old)
        × IfOk result (λ ending. Appends (W.contents (inner_of out.old)) (W.contents (inner_of out.new)) (gap_text (moment_text desk.old.plan.clock) (text_given (found_of given.now) (codes "at")) gap)) }
    ensures continues { Continues S.Store desk.old desk.new }
{
    if is_beyond(desk.plan(), at, gap) {
        return tell_gap(out, desk.plan().clock(), value_of(given, "at"), gap);
    }
    start(rt, given, at, desk, out)
}

/// Runs a desk, and closes its database.
fn run_and_close<S: Alter + Drop, W: Write>(
    rt: &HostRuntime,
    given: &ArgMatches,
    at: Option<i64>,
    desk: Desk<S>,
    out: &mut Watched<W>,
) -> Result<Ending, Fault>
where
    Connection<S>: Database<S>,
    ensures { IfOk result (λ ending. ending ≡ Ending.Refused) }
{
    let mut desk = desk;
    let gap = given.get_one::<u32>("gap").unwrap_or(MINUTES_GAP);
    let ended = run(rt, given, at, gap, &mut desk, out);
    close_desk(desk)?;
    ended
}

/// `desk`: the moment is judged before the database is opened, and beside the plan's clock before the journal is. It ends by a fault alone: then
/// the database is closed, but where its store has failed; or by a refusal of the tick.
pub fn run_desk<S: Alter + Drop, W: Write>(
    rt: &HostRuntime,
    given: &ArgMatches,
    out: &mut Watched<W>,
) -> Result<Ending, Fault>
where
    Connection<S>: Database<S>,
    ensures { IfOk result (λ ending. ending ≡ Ending.Refused) }
{
    let at = moment_if_given(given, "at")?;
    match stored_desk::<S>(rt, value_of(given, "db")) {
        Ok(desk) => run_and_close(rt, given, at, desk, out),
        Err(none) => tell_no_desk(out, none),
    }
}
