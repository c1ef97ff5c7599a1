// The rows of the shows, column by column.
ghost use Rattle.std.specs.Prelude.{◌≡◌, ◌++◌, ◌∷◌, Some, OnOk};
ghost use Rattle.plan_shows.specs.Columns.{dependency_columns, holder_columns, hours_word, interval_columns, no_report, operation_columns, reached_columns, report_columns, resource_columns, row_columns, started_columns, tracker_columns, workstation_columns};
ghost use Rattle.report_lines.specs.Lines.{left, line, right};

use super::columns::{
    available_text, held_text, mark_word, mode_word, nop_text, not_before_text, verb_text,
};
use super::dependencies::DependencyView;
use super::resources::{HolderView, ResourceAmounts, ResourceRow};
use super::stations::WorkstationView;
use super::trackers::TrackerView;
use plan_basics::{Interval, NO_MOMENT, OccKey, OpKey};
use plan_reasons::OpView;
use report_lines::{Field, Layout, latest_text, moment_text, put_line, right};
use request_json::Request;
use std::alloc::AllocError;

/// Operations that are started.
pub(crate) struct StartedRows;

impl Layout<OpView> for StartedRows {
    ghost columns = { started_columns };

    fn put(text: &mut Vec<u8>, view: &OpView) -> Result<(), AllocError> {
        let OccKey { app, arrival } = view.key.occurrence;
        put_line(
            text,
            &[
                Field::Left(16, app.as_bytes()),
                Field::Left(16, &moment_text(arrival)),
                right(3, u64::from(view.key.number)),
                Field::Left(4, view.workstation.as_bytes()),
                Field::Left(7, mark_word(&view.mark).as_bytes()),
                right(4, u64::from(view.duration)),
                Field::Left(16, &latest_text(view.latest)),
            ],
        )
    }
}

/// The operations of an occurrence.
pub(crate) struct OperationRows;

impl Layout<OpView> for OperationRows {
    ghost columns = { operation_columns };

    fn put(text: &mut Vec<u8>, view: &OpView) -> Result<(), AllocError> {
        put_line(
            text,
            &[
                right(3, u64::from(view.key.number)),
                Field::Left(4, view.workstation.as_bytes()),
                Field::Left(1, &[view.status.letter()]),
                Field::Left(1, &held_text(view.held)),
                Field::Left(1, &nop_text(view.nop)),
                right(4, u64::from(view.duration)),
                Field::Left(16, &not_before_text(view.not_before)),
                Field::Left(16, &latest_text(view.latest)),
                right(5, u64::from(view.waiting)),
            ],
        )
    }
}

/// Dependencies.
pub(crate) struct DependencyRows;

impl Layout<DependencyView> for DependencyRows {
    ghost columns = { dependency_columns };

    fn put(text: &mut Vec<u8>, view: &DependencyView) -> Result<(), AllocError> {
        let before = view.predecessor.occurrence;
        let after = view.successor.occurrence;
        put_line(
            text,
            &[
                Field::Left(16, before.app.as_bytes()),
                Field::Left(16, &moment_text(before.arrival)),
                right(3, u64::from(view.predecessor.number)),
                Field::Left(1, &[view.predecessor_status.letter()]),
                Field::Left(16, after.app.as_bytes()),
                Field::Left(16, &moment_text(after.arrival)),
                right(3, u64::from(view.successor.number)),
                Field::Left(1, &[view.successor_status.letter()]),
            ],
        )
    }
}

/// Operations that a rerun reaches.
pub(crate) struct ReachedRows;

impl Layout<OpView> for ReachedRows {
    ghost columns = { reached_columns };

    fn put(text: &mut Vec<u8>, view: &OpView) -> Result<(), AllocError> {
        let OccKey { app, arrival } = view.key.occurrence;
        put_line(
            text,
            &[
                Field::Left(16, app.as_bytes()),
                Field::Left(16, &moment_text(arrival)),
                right(3, u64::from(view.key.number)),
                Field::Left(4, view.workstation.as_bytes()),
                Field::Left(1, &[view.status.letter()]),
            ],
        )
    }
}

// Puts the row of a special resource behind a text.
fn put_resource(text: &mut Vec<u8>, amounts: &ResourceAmounts) -> Result<(), AllocError>
    ensures { OnOk result (text.new.items ≡ text.old.items ++ line (resource_columns amounts.now)) }
{
    put_line(
        text,
        &[
            Field::Left(44, amounts.name.as_bytes()),
            Field::Left(1, &available_text(amounts.stock.available)),
            right(6, u64::from(amounts.stock.quantity)),
            right(6, u64::from(amounts.left)),
        ],
    )
}

// Puts the row of one that holds it behind a text.
fn put_holder(text: &mut Vec<u8>, holder: &HolderView) -> Result<(), AllocError>
    ensures { OnOk result (text.new.items ≡ text.old.items ++ line (holder_columns holder.now)) }
{
    let OccKey { app, arrival } = holder.op.occurrence;
    let blank = *b" ";
    put_line(
        text,
        &[
            Field::Word(&blank),
            Field::Left(16, app.as_bytes()),
            Field::Left(16, &moment_text(arrival)),
            right(3, u64::from(holder.op.number)),
            Field::Left(1, &[holder.status.letter()]),
            Field::Left(9, mode_word(&holder.mode).as_bytes()),
            right(6, u64::from(holder.amount)),
        ],
    )
}

/// Special resources, and those that hold them.
pub(crate) struct ResourceRows;

impl Layout<ResourceRow> for ResourceRows {
    ghost columns = { row_columns };

    fn put(text: &mut Vec<u8>, row: &ResourceRow) -> Result<(), AllocError> {
        match row {
            ResourceRow::Resource(amounts) => put_resource(text, amounts),
            ResourceRow::Holder(holder) => put_holder(text, holder),
        }
    }
}

// Whether a workstation is open.
fn hours_word<'a>(is_open: bool) -> &'a [u8]
    ensures { result.now ≡ hours_word is_open }
{
    if is_open { b"open" } else { b"closed" }
}

/// Workstations.
pub(crate) struct WorkstationRows;

impl Layout<WorkstationView> for WorkstationRows {
    ghost columns = { workstation_columns };

    fn put(text: &mut Vec<u8>, view: &WorkstationView) -> Result<(), AllocError> {
        let offered = view.hours.offered;
        put_line(
            text,
            &[
                Field::Left(4, view.name.as_bytes()),
                Field::Left(1, &[view.attribute.letter()]),
                Field::Left(6, hours_word(view.hours.is_open)),
                Field::Left(16, &latest_text(view.hours.until)),
                right(2, u64::from(view.given.servers)),
                right(2, u64::from(offered.servers)),
                right(2, u64::from(view.given.r1)),
                right(2, u64::from(offered.r1)),
                right(2, u64::from(view.given.r2)),
                right(2, u64::from(offered.r2)),
                right(5, view.ready as u64),
            ],
        )
    }
}

/// Open intervals.
pub(crate) struct IntervalRows;

impl Layout<Interval> for IntervalRows {
    ghost columns = { interval_columns };

    fn put(text: &mut Vec<u8>, interval: &Interval) -> Result<(), AllocError> {
        put_line(
            text,
            &[
                Field::Left(16, &moment_text(interval.from())),
                Field::Left(16, &moment_text(interval.end())),
                right(2, u64::from(interval.servers())),
                right(2, u64::from(interval.r1())),
                right(2, u64::from(interval.r2())),
            ],
        )
    }
}

// Puts the row of a tracker behind a text, of whose last request nothing can be told.
fn put_unread(text: &mut Vec<u8>, view: &TrackerView) -> Result<(), AllocError>
    ensures { OnOk result (text.new.items ≡ text.old.items ++ line (left 8 view.now.tracker ∷ right 9 view.now.number ∷ no_report)) }
{
    put_line(
        text,
        &[
            Field::Left(8, view.tracker.as_bytes()),
            right(9, view.number),
            Field::Word(b"-----------"),
            Field::Word(&NO_MOMENT),
            Field::Word(&NO_MOMENT),
            Field::Word(b"---"),
            Field::Word(&NO_MOMENT),
        ],
    )
}

// Puts the row of a tracker behind a text, whose last request was this, on this operation.
fn put_report(
    text: &mut Vec<u8>,
    view: &TrackerView,
    request: &Request,
    op: &OpKey,
) -> Result<(), AllocError>
    ensures { OnOk result (text.new.items ≡ text.old.items ++ line (left 8 view.now.tracker ∷ right 9 view.now.number ∷ report_columns request.now (Some op.now))) }
{
    let OccKey { app, arrival } = op.occurrence;
    put_line(
        text,
        &[
            Field::Left(8, view.tracker.as_bytes()),
            right(9, view.number),
            Field::Left(11, verb_text(&request.what)),
            Field::Left(16, app.as_bytes()),
            Field::Left(16, &moment_text(arrival)),
            right(3, u64::from(op.number)),
            Field::Left(16, &latest_text(request.at)),
        ],
    )
}

/// Trackers.
pub(crate) struct TrackerRows;

impl Layout<TrackerView> for TrackerRows {
    ghost columns = { tracker_columns };

    fn put(text: &mut Vec<u8>, view: &TrackerView) -> Result<(), AllocError> {
        let Some(request) = &view.request else {
            return put_unread(text, view);
        };
        match request.what.operation() {
            Some(op) => put_report(text, view, request, &op),
            None => put_unread(text, view),
        }
    }
}
