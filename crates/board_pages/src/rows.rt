// The rows of each table.
ghost use Rattle.std.specs.Prelude.{◌≡◌, ◌<◌, ◌++◌, OnOk};
ghost use Rattle.html_pages.specs.Pieces.{bytes};
ghost use Rattle.board_pages.specs.Rows.{bar_parts, by_hand_row, cell_parts, endless_end, key_parts, late_parts, late_row, named_row, occurrence_row, operation_parts, over_row, row_class, running_row, spare_parts, standstill_row, status_word, tick_parts};

use super::bars::{Bar, bar_of, minute_of, per_mille, tick_minute};
use super::tables::Layout;
use forecast_texts::{
    ByHand, OccurrenceOutlook as Occurrence, OperationOutlook, Outlooks, Standstill, deed_text,
    standing_line,
};
use html_pages::Value::{Application, At, Minute, Minutes, Number, Path, Text, Workstation};
use html_pages::put;
use plan_basics::{OccKey, OpKey, WsName};
use status_rules::Status;
use std::alloc::AllocError;

/// The last cells of a row, and two before the last one.
const ONE_LAST: &str = "<td>~</td></tr>\n";

const TWO_LAST: &str = "<td>~</td><td>~</td></tr>\n";

const THREE_LAST: &str = "<td>~</td><td>~</td><td>~</td></tr>\n";

const TWO_BEFORE: &str = "<td>~</td><td>~</td>";

/// The end of a row of what is late, and of an occurrence that isn't.
const LATE_END: &str = "<td class=\"bad\">~ min late</td></tr>\n";

const SPARE_END: &str = "<td>~ min to spare</td></tr>\n";

/// What was named and isn't started, and for how many minutes nobody has asked for its workstation.
type NamedRow = (OperationOutlook, Option<u64>);

// Puts the beginning of an operation's row behind a page, with a path to what holds it up, and its workstation.
fn put_operation(page: &mut Vec<u8>, key: OpKey, workstation: WsName) -> Result<(), AllocError>
    ensures { OnOk result (page.new.items ≡ page.old.items ++ bytes (operation_parts key workstation)) }
{
    let text = key.to_text();
    let occurrence = key.occurrence;
    put(
        page,
        "<tr class=\"\"><th scope=\"row\"><a href=\"/page/why/~\">~ ~</a> <small>~</small></th><td>~</td>",
        &[
            Path(text.as_bytes()),
            Application(occurrence.app),
            Number(u64::from(key.number)),
            At(Some(occurrence.arrival)),
            Workstation(workstation),
        ],
    )
}

// Puts the beginning of an occurrence's row of this class behind a page, with a path to its operations.
fn put_key(page: &mut Vec<u8>, class: &[u8], key: OccKey) -> Result<(), AllocError>
    ensures { OnOk result (page.new.items ≡ page.old.items ++ bytes (key_parts class.now key)) }
{
    let text = key.to_text();
    put(page, "<tr class=\"~\"><th scope=\"row\">", &[Text(class)])?;
    put(
        page,
        "<a href=\"/page/show/operations/~\">~</a> <small>~</small></th>",
        &[
            Path(text.as_bytes()),
            Application(key.app),
            At(Some(key.arrival)),
        ],
    )?;
    Ok(())
}

// Puts a cell of a text behind a page.
fn put_cell(page: &mut Vec<u8>, text: &[u8]) -> Result<(), AllocError>
    ensures { OnOk result (page.new.items ≡ page.old.items ++ bytes (cell_parts text.now)) }
{
    put(page, "<td>~</td>", &[Text(text)])
}

// Puts the end of a row behind a page that tells by how many minutes something is late, if it is.
fn put_late(page: &mut Vec<u8>, late: Option<u64>) -> Result<(), AllocError>
    ensures { OnOk result (page.new.items ≡ page.old.items ++ bytes (late_parts late)) }
{
    match late {
        Some(late) => put(page, LATE_END, &[Number(late)]),
        None => put(page, "<td></td></tr>\n", &[]),
    }
}

// How a status is called.
fn status_word(status: Status) -> &'static [u8]
    ensures { result.now ≡ status_word status }
{
    match status {
        Status::Started => b"started",
        Status::Interrupted => b"interrupted",
        Status::Error => b"in error",
        Status::Undecided => b"undecided",
        Status::Deleted => b"deleted",
        Status::Complete => b"complete",
        Status::Arriving => b"arriving",
        Status::ReadyAfterNonreporting => b"ready",
        Status::Ready => b"ready",
        Status::Waiting => b"waiting",
    }
}

/// Operations that never begin and don't wait.
pub(crate) struct StandstillRows;

impl Layout<Standstill> for StandstillRows {
    ghost parts = { λ x. standstill_row };

    fn put(page: &mut Vec<u8>, _told: &Outlooks, row: &Standstill) -> Result<(), AllocError> {
        let why = standing_line(*page.allocator(), &row.standing)?;
        put_operation(page, row.key, row.workstation)?;
        put_cell(page, status_word(row.status))?;
        put_cell(page, &why)?;
        put(page, ONE_LAST, &[Minute(row.latest)])?;
        Ok(())
    }
}

/// Operations that were named and aren't started, each with for how many minutes nobody has asked for its workstation.
pub(crate) struct NamedRows;

impl Layout<NamedRow> for NamedRows {
    ghost parts = { λ x. named_row };

    fn put(page: &mut Vec<u8>, _told: &Outlooks, row: &NamedRow) -> Result<(), AllocError> {
        let (named, unasked) = row;
        put_operation(page, named.key, named.workstation)?;
        let values = [At(named.since), Minutes(*unasked), Minute(named.latest)];
        put(page, THREE_LAST, &values)?;
        Ok(())
    }
}

/// Operations that go on longer than planned.
pub(crate) struct OverRows;

impl Layout<OperationOutlook> for OverRows {
    ghost parts = { λ x. over_row };

    fn put(page: &mut Vec<u8>, _told: &Outlooks, row: &OperationOutlook) -> Result<(), AllocError> {
        put_operation(page, row.key, row.workstation)?;
        put(page, TWO_LAST, &[At(row.since), Minutes(row.over)])?;
        Ok(())
    }
}

/// What people have to do.
pub(crate) struct ByHandRows;

impl Layout<ByHand> for ByHandRows {
    ghost parts = { λ x. by_hand_row };

    fn put(page: &mut Vec<u8>, _told: &Outlooks, row: &ByHand) -> Result<(), AllocError> {
        put_operation(page, row.key, row.workstation)?;
        put_cell(page, deed_text(row.deed))?;
        put(page, TWO_BEFORE, &[At(row.at), Minute(row.latest)])?;
        put_late(page, row.late)?;
        Ok(())
    }
}

/// Operations that run.
pub(crate) struct RunningRows;

impl Layout<OperationOutlook> for RunningRows {
    ghost parts = { λ x. running_row };

    fn put(page: &mut Vec<u8>, _told: &Outlooks, row: &OperationOutlook) -> Result<(), AllocError> {
        put_operation(page, row.key, row.workstation)?;
        put(page, TWO_LAST, &[At(row.since), At(row.end)])?;
        Ok(())
    }
}

/// Occurrences that will be late.
pub(crate) struct LateRows;

impl Layout<Occurrence> for LateRows {
    ghost parts = { λ x. late_row };

    fn put(page: &mut Vec<u8>, _told: &Outlooks, row: &Occurrence) -> Result<(), AllocError> {
        put_key(page, b"", row.key)?;
        put(page, TWO_BEFORE, &[At(Some(row.deadline)), At(row.end)])?;
        put_late(page, row.late)?;
        Ok(())
    }
}

// The class of an occurrence's row: without an end, late, or on time.
fn row_class(row: &Occurrence) -> &'static [u8]
    ensures { result.now ≡ row_class row.now.end row.now.late }
{
    match (row.end, row.late) {
        (None, _) => b"never",
        (Some(_), Some(_)) => b"late",
        (Some(_), None) => b"",
    }
}

// Puts a bar and the mark of a deadline behind a page.
fn put_bar(page: &mut Vec<u8>, bar: Bar) -> Result<(), AllocError>
    ensures { OnOk result (page.new.items ≡ page.old.items ++ bytes (bar_parts bar)) }
{
    put(
        page,
        "<td class=\"t\"><div class=\"bar\" style=\"--p:~;--w:~\"></div><div class=\"by\" style=\"--p:~\"></div></td>",
        &[Number(bar.start), Number(bar.width), Number(bar.mark)],
    )
}

// The end of the row of an occurrence without an end.
fn endless_end(is_cut: bool) -> &'static str
    ensures { result.now ≡ endless_end is_cut }
{
    if is_cut {
        "<td class=\"bad\">not ended, not started: ~</td></tr>\n"
    } else {
        "<td class=\"bad\">won't end, never begin: ~</td></tr>\n"
    }
}

// Puts the end of an occurrence's row behind a page: by how much it is late, what it has to spare, or that it has no end.
fn put_spare(page: &mut Vec<u8>, is_cut: bool, row: &Occurrence) -> Result<(), AllocError>
    ensures { OnOk result (page.new.items ≡ page.old.items ++ bytes (spare_parts is_cut row.now row.now.end row.now.late)) }
{
    match (row.end, row.late) {
        (None, _) => put(page, endless_end(is_cut), &[Number(row.never as u64)]),
        (Some(_), Some(late)) => put_late(page, Some(late)),
        (Some(end), None) => {
            let spare = minute_of(row.deadline).saturating_sub(minute_of(end));
            put(page, SPARE_END, &[Number(spare)])
        }
    }
}

/// Occurrences: each with its bar on the axis, its deadline, and its end.
pub(crate) struct OccurrenceRows;

impl Layout<Occurrence> for OccurrenceRows {
    ghost parts = { occurrence_row };

    fn put(page: &mut Vec<u8>, told: &Outlooks, row: &Occurrence) -> Result<(), AllocError> {
        put_key(page, row_class(row), row.key)?;
        put_bar(page, bar_of(told, row))?;
        put(page, TWO_BEFORE, &[At(Some(row.deadline)), At(row.end)])?;
        put_spare(page, told.is_cut, row)?;
        Ok(())
    }
}

/// Puts an hour of the axis behind a page, unless it comes too near to its end.
pub(crate) fn put_tick(page: &mut Vec<u8>, told: &Outlooks, count: u64) -> Result<(), AllocError>
    requires { count < 8 }
    ensures { OnOk result (page.new.items ≡ page.old.items ++ bytes (tick_parts told.now count)) }
{
    let minute = tick_minute(told, count);
    let place = per_mille(told, minute);
    if place > 900 {
        return Ok(());
    }
    put(
        page,
        "<span style=\"--p:~\">~</span>",
        &[Number(place), Minute(minute as i64)],
    )
}
