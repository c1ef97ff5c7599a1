// `show`: what the desk of a database's file has, for people.
ghost use Rattle.std.specs.Prelude.{◌≡◌, ◌⊎◌, IfOk, IfErr, codes};
ghost use Rattle.clap.specs.Matches.{found_of};
ghost use Rattle.plan_basics.specs.Watched.{inner_of};
ghost use Rattle.report_commands.specs.Shown.{AsksNoShow, AsksShow, IsShowAsked, IsShowShown};
ghost use Rattle.command_answers.specs.Statuses.{IsOfSurroundings};
ghost use Rattle.command_words.specs.Words.{text_given};
ghost use Rattle.command_answers.specs.declared.endings.Fault.{Fault};

use crate::reports::end_of;
use clap::ArgMatches;
use command_answers::{Ending, Fault, tell_no_desk};
use command_desks::{Database, Desk, close_desk, stored_desk};
use command_words::value_of;
use plan_basics::{OccKey, Watched, WsName};
use plan_reports::{Show, operation_typed, show_report};
use sqlite::{Alter, Connection};
use std::alloc::Global;
use std::io::Write;
use std::rt::HostRuntime;

// The show of the operations of the occurrence that the words name.
fn operations_of(given: &ArgMatches) -> Result<Show, Fault>
    ensures show { IfOk result (AsksShow (codes "operations") (text_given (found_of given.now))) }
    ensures fault { IfErr result (λ fault. (fault ≡ Fault.Words) × AsksNoShow (codes "operations") (text_given (found_of given.now))) }
{
    match OccKey::from_text(value_of(given, "occ").as_bytes()) {
        Some(occurrence) => Ok(Show::Operations(occurrence)),
        None => Err(Fault::Words),
    }
}

// That of its dependencies.
fn dependencies_of(given: &ArgMatches) -> Result<Show, Fault>
    ensures show { IfOk result (AsksShow (codes "dependencies") (text_given (found_of given.now))) }
    ensures fault { IfErr result (λ fault. (fault ≡ Fault.Words) × AsksNoShow (codes "dependencies") (text_given (found_of given.now))) }
{
    match OccKey::from_text(value_of(given, "occ").as_bytes()) {
        Some(occurrence) => Ok(Show::Dependencies(occurrence)),
        None => Err(Fault::Words),
    }
}

// That of what a rerun of the operation that the words name reaches.
fn reach_of(given: &ArgMatches) -> Result<Show, Fault>
    ensures show { IfOk result (AsksShow (codes "reach") (text_given (found_of given.now))) }
    ensures fault { IfErr result (λ fault. (fault ≡ Fault.Words) × AsksNoShow (codes "reach") (text_given (found_of given.now))) }
{
    match operation_typed(value_of(given, "op").as_bytes()) {
        Some(key) => Ok(Show::Reach(key)),
        None => Err(Fault::Words),
    }
}

// That of the open intervals of the workstation that the words name.
fn intervals_of(given: &ArgMatches) -> Result<Show, Fault>
    ensures show { IfOk result (AsksShow (codes "intervals") (text_given (found_of given.now))) }
    ensures fault { IfErr result (λ fault. (fault ≡ Fault.Words) × AsksNoShow (codes "intervals") (text_given (found_of given.now))) }
{
    match WsName::from_text(value_of(given, "ws").as_bytes()) {
        Some(workstation) => Ok(Show::Intervals(workstation)),
        None => Err(Fault::Words),
    }
}

// The show that the words ask for. `Words` where it lacks the key or the name of what is to be shown.
fn show_of(given: &ArgMatches) -> Result<Show, Fault>
    ensures show { IfOk result (AsksShow (text_given (found_of given.now) (codes "kind")) (text_given (found_of given.now))) }
    ensures fault { IfErr result (λ fault. (fault ≡ Fault.Words) × AsksNoShow (text_given (found_of given.now) (codes "kind")) (text_given (found_of given.now))) }
{
    match value_of(given, "kind") {
        "started" => Ok(Show::Started),
        "operations" => operations_of(given),
        "resources" => Ok(Show::Resources),
        "workstations" => Ok(Show::Workstations),
        "trackers" => Ok(Show::Trackers),
        "dependencies" => dependencies_of(given),
        "reach" => reach_of(given),
        "intervals" => intervals_of(given),
        _ => Err(Fault::Words),
    }
}

// Shows what a desk has, or why that is refused.
fn tell_show<S: Alter + Drop, W: Write>(
    alloc: Global,
    desk: &Desk<S>,
    show: &Show,
    out: &mut Watched<W>,
) -> Result<Ending, Fault>
    ensures shown { IfOk result (IsShowShown show.now desk.now.is_usable desk.now.plan desk.now.receipts (W.contents (inner_of out.old)) (W.contents (inner_of out.new))) }
    ensures fault { IfErr result IsOfSurroundings }
{
    let written = show_report(alloc, desk, show, out);
    end_of(written, out)
}

// Shows what the desk of a database has, or why that is refused, and closes the database.
fn show_and_close<S: Alter + Drop, W: Write>(
    alloc: Global,
    desk: Desk<S>,
    show: &Show,
    out: &mut Watched<W>,
) -> Result<Ending, Fault>
where
    Connection<S>: Database<S>,
    ensures shown { IfOk result (IsShowShown show.now desk.is_usable desk.plan desk.receipts (W.contents (inner_of out.old)) (W.contents (inner_of out.new))) }
    ensures fault { IfErr result IsOfSurroundings }
{
    let shown = tell_show(alloc, &desk, show, out);
    close_desk(desk)?;
    shown
}

/// `show`: what is to be shown is judged before the file. At its end the database is closed. `Words` where the words ask
/// for no show.
pub fn show<S: Alter + Drop, W: Write>(
    rt: &HostRuntime,
    given: &ArgMatches,
    out: &mut Watched<W>,
) -> Result<Ending, Fault>
where
    Connection<S>: Database<S>,
    ensures shown { IfOk result (IsShowAsked (text_given (found_of given.now) (codes "kind")) (text_given (found_of given.now)) (W.contents (inner_of out.old)) (W.contents (inner_of out.new))) }
    ensures fault { IfErr result (λ fault. ((fault ≡ Fault.Words) × AsksNoShow (text_given (found_of given.now) (codes "kind")) (text_given (found_of given.now))) ⊎ IsOfSurroundings fault) }
{
    let wanted = show_of(given)?;
    match stored_desk::<S>(rt, value_of(given, "db")) {
        Ok(desk) => show_and_close(rt.alloc(), desk, &wanted, out),
        Err(none) => tell_no_desk(out, none),
    }
}
