// The reports of a desk, as they are written.
ghost use Rattle.std.specs.Prelude.{◌≡◌, ◌↔◌, Err, IfErr, OnErr, OnOk, false, true};
ghost use Rattle.std.specs.Io.KnownBytes.{Appends};
ghost use Rattle.plan_basics.specs.Watched.{AppendsBeginning, failed_of, inner_of};
ghost use Rattle.plan_basics.specs.declared.Refusal.{Refusal};
ghost use Rattle.plan_reports.specs.Reports.{IsBegun, IsErrorReport, IsLateReport, IsOccurrenceReport, IsOwed, IsReadyReport, IsWhyReport, IsWritten, desk_show_refusal_of, ready_refusal_of, refusal_of, why_refusal_of};
ghost use Rattle.plan_reports.specs.declared.reports.ReportFault.{ReportFault};
ghost use Rattle.plan_shows.specs.Shows.{IsShow};

use super::made::{errors_made, late_made, occurrences_made, ready_made, show_made, why_made};
use desk_tables::Desk;
use plan_basics::{Moment, OpKey, Refusal, Watched, WsName};
use plan_shows::Show;
use sqlite::Alter;
use std::alloc::Global;
use std::io::Write;

/// Why a report isn't written, or not wholly.
#[derive(Clone, Copy)]
pub enum ReportFault {
    /// It is refused, and nothing was written.
    Refused(Refusal),
    /// The writer failed; a beginning of the report was written.
    Writer,
}

impl From<Refusal> for ReportFault {
    ghost use Rattle.std.specs.Prelude.{◌≡◌};
    ghost use Rattle.plan_reports.specs.declared.reports.ReportFault.{ReportFault};

    ghost from_gives = { λ refusal fault. fault ≡ ReportFault.Refused refusal };

    fn from(refusal: Refusal) -> ReportFault {
        ReportFault::Refused(refusal)
    }
}

// Writes a text, and flushes the writer.
// The text is whole by then, so that a refusal or want of memory leaves the writer as it was.
fn deliver<W: Write>(text: &[u8], writer: &mut Watched<W>) -> Result<(), ReportFault>
    requires { failed_of writer.old ≡ false }
    ensures written { OnOk result (Appends (W.contents (inner_of writer.old)) (W.contents (inner_of writer.new)) text.now) }
    ensures only { IfErr result (λ fault. fault ≡ ReportFault.Writer) }
    ensures writer { (result ≡ Err ReportFault.Writer) ↔ (failed_of writer.new ≡ true) }
    ensures begun { OnErr result (AppendsBeginning (W.contents (inner_of writer.old)) (W.contents (inner_of writer.new)) text.now) }
{
    if writer.write_all(text).is_err() || writer.flush().is_err() {
        return Err(ReportFault::Writer);
    }
    Ok(())
}

/// Writes what is ready on a workstation, held operations too, in the order of the ready list.
///
/// Refused as `Reopen` after a fault of the store, else as `NotLoaded` before a plan is loaded, else as
/// `UnknownWorkstation`, else as `Memory`. The writer is cleared first and flushed at the end.
pub fn ready_report<S: Alter + Drop, W: Write>(
    alloc: Global,
    desk: &Desk<S>,
    workstation: &WsName,
    writer: &mut Watched<W>,
) -> Result<(), ReportFault>
    ensures written { OnOk result (IsWritten (ready_refusal_of desk.now.is_usable desk.now.plan workstation.now) (IsReadyReport desk.now.plan workstation.now) (W.contents (inner_of writer.old)) (W.contents (inner_of writer.new))) }
    ensures refused { (r : Refusal) → result ≡ Err (ReportFault.Refused r) → IsOwed (ready_refusal_of desk.now.is_usable desk.now.plan workstation.now) r × (inner_of writer.new ≡ inner_of writer.old) }
    ensures writer { (result ≡ Err ReportFault.Writer) ↔ (failed_of writer.new ≡ true) }
    ensures begun { result ≡ Err ReportFault.Writer → IsBegun (ready_refusal_of desk.now.is_usable desk.now.plan workstation.now) (IsReadyReport desk.now.plan workstation.now) (W.contents (inner_of writer.old)) (W.contents (inner_of writer.new)) }
{
    writer.clear();
    let text = ready_made(alloc, desk, workstation)?;
    deliver(&text, writer)
}

/// Writes all occurrences, deleted ones too, in key order.
///
/// Refused as `Reopen` after a fault of the store, else as `NotLoaded` before a plan is loaded, else as `Memory`. The
/// writer is cleared first and flushed at the end.
pub fn occurrence_report<S: Alter + Drop, W: Write>(
    alloc: Global,
    desk: &Desk<S>,
    writer: &mut Watched<W>,
) -> Result<(), ReportFault>
    ensures written { OnOk result (IsWritten (refusal_of desk.now.is_usable desk.now.plan) (IsOccurrenceReport desk.now.plan) (W.contents (inner_of writer.old)) (W.contents (inner_of writer.new))) }
    ensures refused { (r : Refusal) → result ≡ Err (ReportFault.Refused r) → IsOwed (refusal_of desk.now.is_usable desk.now.plan) r × (inner_of writer.new ≡ inner_of writer.old) }
    ensures writer { (result ≡ Err ReportFault.Writer) ↔ (failed_of writer.new ≡ true) }
    ensures begun { result ≡ Err ReportFault.Writer → IsBegun (refusal_of desk.now.is_usable desk.now.plan) (IsOccurrenceReport desk.now.plan) (W.contents (inner_of writer.old)) (W.contents (inner_of writer.new)) }
{
    writer.clear();
    let text = occurrences_made(alloc, desk)?;
    deliver(&text, writer)
}

/// Writes the operations in error, in key order.
///
/// Refused as `Reopen` after a fault of the store, else as `NotLoaded` before a plan is loaded, else as `Memory`. The
/// writer is cleared first and flushed at the end.
pub fn error_report<S: Alter + Drop, W: Write>(
    alloc: Global,
    desk: &Desk<S>,
    writer: &mut Watched<W>,
) -> Result<(), ReportFault>
    ensures written { OnOk result (IsWritten (refusal_of desk.now.is_usable desk.now.plan) (IsErrorReport desk.now.plan) (W.contents (inner_of writer.old)) (W.contents (inner_of writer.new))) }
    ensures refused { (r : Refusal) → result ≡ Err (ReportFault.Refused r) → IsOwed (refusal_of desk.now.is_usable desk.now.plan) r × (inner_of writer.new ≡ inner_of writer.old) }
    ensures writer { (result ≡ Err ReportFault.Writer) ↔ (failed_of writer.new ≡ true) }
    ensures begun { result ≡ Err ReportFault.Writer → IsBegun (refusal_of desk.now.is_usable desk.now.plan) (IsErrorReport desk.now.plan) (W.contents (inner_of writer.old)) (W.contents (inner_of writer.new)) }
{
    writer.clear();
    let text = errors_made(alloc, desk)?;
    deliver(&text, writer)
}

/// Writes the operations that are late: those that wait, are arriving or ready, held ones too, whose latest start is
/// before the clock. The earliest latest start comes first, then they go by key.
///
/// Refused as `Reopen` after a fault of the store, else as `NotLoaded` before a plan is loaded, else as `Memory`. The
/// writer is cleared first and flushed at the end.
pub fn late_report<S: Alter + Drop, W: Write>(
    alloc: Global,
    desk: &Desk<S>,
    writer: &mut Watched<W>,
) -> Result<(), ReportFault>
    ensures written { OnOk result (IsWritten (refusal_of desk.now.is_usable desk.now.plan) (IsLateReport desk.now.plan) (W.contents (inner_of writer.old)) (W.contents (inner_of writer.new))) }
    ensures refused { (r : Refusal) → result ≡ Err (ReportFault.Refused r) → IsOwed (refusal_of desk.now.is_usable desk.now.plan) r × (inner_of writer.new ≡ inner_of writer.old) }
    ensures writer { (result ≡ Err ReportFault.Writer) ↔ (failed_of writer.new ≡ true) }
    ensures begun { result ≡ Err ReportFault.Writer → IsBegun (refusal_of desk.now.is_usable desk.now.plan) (IsLateReport desk.now.plan) (W.contents (inner_of writer.old)) (W.contents (inner_of writer.new)) }
{
    writer.clear();
    let text = late_made(alloc, desk)?;
    deliver(&text, writer)
}

/// Writes why an operation doesn't go on at a moment: every reason, and the operations that hold the chain that it waits
/// for.
///
/// Refused as `Reopen` after a fault of the store, else as `NotLoaded` before a plan is loaded, else as
/// `UnknownOperation`, else as `Memory`. The writer is cleared first and flushed at the end.
pub fn why_report<S: Alter + Drop, W: Write>(
    alloc: Global,
    desk: &Desk<S>,
    key: &OpKey,
    at: Moment,
    writer: &mut Watched<W>,
) -> Result<(), ReportFault>
    ensures written { OnOk result (IsWritten (why_refusal_of desk.now.is_usable desk.now.plan key.now) (IsWhyReport desk.now.plan key.now at) (W.contents (inner_of writer.old)) (W.contents (inner_of writer.new))) }
    ensures refused { (r : Refusal) → result ≡ Err (ReportFault.Refused r) → IsOwed (why_refusal_of desk.now.is_usable desk.now.plan key.now) r × (inner_of writer.new ≡ inner_of writer.old) }
    ensures writer { (result ≡ Err ReportFault.Writer) ↔ (failed_of writer.new ≡ true) }
    ensures begun { result ≡ Err ReportFault.Writer → IsBegun (why_refusal_of desk.now.is_usable desk.now.plan key.now) (IsWhyReport desk.now.plan key.now at) (W.contents (inner_of writer.old)) (W.contents (inner_of writer.new)) }
{
    writer.clear();
    let text = why_made(alloc, desk, key, at)?;
    deliver(&text, writer)
}

/// Writes a show of the desk: what is started, the operations of an occurrence, special resources, workstations or
/// trackers.
///
/// Refused as `Reopen` after a fault of the store, else as `NotLoaded` before a plan is loaded, else as
/// `UnknownOccurrence`, else as `Memory`. The writer is cleared first and flushed at the end.
pub fn show_report<S: Alter + Drop, W: Write>(
    alloc: Global,
    desk: &Desk<S>,
    show: &Show,
    writer: &mut Watched<W>,
) -> Result<(), ReportFault>
    ensures written { OnOk result (IsWritten (desk_show_refusal_of desk.now.is_usable show.now desk.now.plan) (IsShow show.now desk.now.plan desk.now.receipts) (W.contents (inner_of writer.old)) (W.contents (inner_of writer.new))) }
    ensures refused { (r : Refusal) → result ≡ Err (ReportFault.Refused r) → IsOwed (desk_show_refusal_of desk.now.is_usable show.now desk.now.plan) r × (inner_of writer.new ≡ inner_of writer.old) }
    ensures writer { (result ≡ Err ReportFault.Writer) ↔ (failed_of writer.new ≡ true) }
    ensures begun { result ≡ Err ReportFault.Writer → IsBegun (desk_show_refusal_of desk.now.is_usable show.now desk.now.plan) (IsShow show.now desk.now.plan desk.now.receipts) (W.contents (inner_of writer.old)) (W.contents (inner_of writer.new)) }
{
    writer.clear();
    let text = show_made(alloc, desk, show)?;
    deliver(&text, writer)
}
