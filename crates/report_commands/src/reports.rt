// `report`: one of the four reports of the desk of a database's file.
ghost use Rattle.std.specs.Prelude.{◌≡◌, ◌⊎◌, Err, IfOk, IfErr, IsErr, OnOk, codes};
ghost use Rattle.clap.specs.Matches.{first_value, found_of};
ghost use Rattle.plan_basics.specs.Watched.{inner_of};
ghost use Rattle.plan_basics.specs.declared.Refusal.{Refusal};
ghost use Rattle.command_answers.specs.Given.{AsksNoReport};
ghost use Rattle.report_commands.specs.Shown.{IsEndOf, IsReport, IsReportAsked, IsReportShown, report_refusal_of};
ghost use Rattle.command_answers.specs.Statuses.{IsOfSurroundings};
ghost use Rattle.command_words.specs.Words.{text_given};
ghost use Rattle.command_answers.specs.declared.endings.Fault.{Fault};
ghost use Rattle.plan_reports.specs.Reports.{IsOwed, IsWritten};
ghost use Rattle.plan_reports.specs.declared.reports.ReportFault.{ReportFault};

use clap::ArgMatches;
use command_answers::{Ending, Fault, Kind, kind_of, tell_no_desk, tell_refusal};
use command_desks::{Database, Desk, close_desk, stored_desk};
use command_words::value_of;
use plan_basics::Watched;
use plan_reports::{ReportFault, error_report, late_report, occurrence_report, ready_report};
use sqlite::{Alter, Connection};
use std::alloc::Global;
use std::io::Write;
use std::rt::HostRuntime;

// Writes a report of a desk.
fn write_report<S: Alter + Drop, W: Write>(
    alloc: Global,
    desk: &Desk<S>,
    kind: &Kind,
    out: &mut Watched<W>,
) -> Result<(), ReportFault>
    ensures written { OnOk result (IsWritten (report_refusal_of kind.now desk.now.is_usable desk.now.plan) (IsReport kind.now desk.now.plan) (W.contents (inner_of out.old)) (W.contents (inner_of out.new))) }
    ensures refused { (r : Refusal) → result ≡ Err (ReportFault.Refused r) → IsOwed (report_refusal_of kind.now desk.now.is_usable desk.now.plan) r × (inner_of out.new ≡ inner_of out.old) }
{
    match kind {
        Kind::Ready(workstation) => ready_report(alloc, desk, workstation, out),
        Kind::Occurrences => occurrence_report(alloc, desk, out),
        Kind::Errors => error_report(alloc, desk, out),
        Kind::Late => late_report(alloc, desk, out),
    }
}

/// How a run ends whose report was written, or wasn't; its refusal is shown.
pub fn end_of<W: Write>(
    written: Result<(), ReportFault>,
    out: &mut Watched<W>,
) -> Result<Ending, Fault>
    ensures shown { IfOk result (IsEndOf written (W.contents (inner_of out.old)) (W.contents (inner_of out.new))) }
    ensures fault { IfErr result (λ fault. IsErr written × IsOfSurroundings fault) }
{
    match written {
        Ok(()) => Ok(Ending::Done),
        Err(ReportFault::Refused(refusal)) => {
            tell_refusal(out, refusal)?;
            Ok(Ending::Refused)
        }
        Err(ReportFault::Writer) => Err(Fault::File),
    }
}

/// Shows a report of a desk, or why it is refused.
pub fn show<S: Alter + Drop, W: Write>(
    alloc: Global,
    desk: &Desk<S>,
    kind: &Kind,
    out: &mut Watched<W>,
) -> Result<Ending, Fault>
    ensures shown { IfOk result (IsReportShown kind.now desk.now.is_usable desk.now.plan (W.contents (inner_of out.old)) (W.contents (inner_of out.new))) }
    ensures fault { IfErr result IsOfSurroundings }
{
    let written = write_report(alloc, desk, kind, out);
    end_of(written, out)
}

// Shows a report of the desk of a database, or why it is refused, and closes the database.
fn show_and_close<S: Alter + Drop, W: Write>(
    alloc: Global,
    desk: Desk<S>,
    kind: &Kind,
    out: &mut Watched<W>,
) -> Result<Ending, Fault>
where
    Connection<S>: Database<S>,
    ensures shown { IfOk result (IsReportShown kind.now desk.is_usable desk.plan (W.contents (inner_of out.old)) (W.contents (inner_of out.new))) }
    ensures fault { IfErr result IsOfSurroundings }
{
    let shown = show(alloc, &desk, kind, out);
    close_desk(desk)?;
    shown
}

/// `report`: which report is asked for is judged before the file. At its end the database is closed. `Words` where the
/// words ask for no report.
pub fn report<S: Alter + Drop, W: Write>(
    rt: &HostRuntime,
    given: &ArgMatches,
    out: &mut Watched<W>,
) -> Result<Ending, Fault>
where
    Connection<S>: Database<S>,
    ensures shown { IfOk result (IsReportAsked (text_given (found_of given.now) (codes "kind")) (first_value (found_of given.now) (codes "ws")) (W.contents (inner_of out.old)) (W.contents (inner_of out.new))) }
    ensures fault { IfErr result (λ fault. ((fault ≡ Fault.Words) × AsksNoReport (text_given (found_of given.now) (codes "kind")) (first_value (found_of given.now) (codes "ws"))) ⊎ IsOfSurroundings fault) }
{
    let kind = kind_of(given)?;
    match stored_desk::<S>(rt, value_of(given, "db")) {
        Ok(desk) => show_and_close(rt.alloc(), desk, &kind, out),
        Err(none) => tell_no_desk(out, none),
    }
}
