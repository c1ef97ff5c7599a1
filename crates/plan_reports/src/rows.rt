// The rows of the reports, column by column.
ghost use Rattle.plan_reports.specs.Columns.{error_columns, late_columns, occurrence_columns, ready_columns};

use desk_tables::{ErrorRow, OccView, OpView};
use plan_basics::OccKey;
use plan_shows::held_text;
use report_lines::{Field, Layout, latest_text, moment_text, put_line, right};
use std::alloc::AllocError;

/// Operations that are ready.
pub(crate) struct ReadyRows;

impl Layout<OpView> for ReadyRows {
    ghost columns = { ready_columns };

    fn put(text: &mut Vec<u8>, view: &OpView) -> Result<(), AllocError> {
        let OccKey { app, arrival } = view.key.occurrence;
        put_line(
            text,
            &[
                Field::Left(16, app.as_bytes()),
                Field::Left(16, &moment_text(arrival)),
                right(3, u64::from(view.key.number)),
                Field::Left(1, &[view.status.letter()]),
                Field::Left(1, &held_text(view.held)),
                right(1, u64::from(view.priority)),
                right(4, u64::from(view.duration)),
                Field::Left(16, &latest_text(view.latest)),
            ],
        )
    }
}

/// Occurrences.
pub(crate) struct OccurrenceRows;

impl Layout<OccView> for OccurrenceRows {
    ghost columns = { occurrence_columns };

    fn put(text: &mut Vec<u8>, view: &OccView) -> Result<(), AllocError> {
        let OccKey { app, arrival } = view.key;
        put_line(
            text,
            &[
                Field::Left(16, app.as_bytes()),
                Field::Left(16, &moment_text(arrival)),
                right(1, u64::from(view.priority)),
                Field::Left(1, &[view.status.letter()]),
                Field::Left(16, &moment_text(view.deadline)),
                right(5, u64::from(view.operations)),
                right(5, u64::from(view.complete)),
            ],
        )
    }
}

/// Operations in error.
pub(crate) struct ErrorRows;

impl Layout<ErrorRow> for ErrorRows {
    ghost columns = { error_columns };

    fn put(text: &mut Vec<u8>, row: &ErrorRow) -> Result<(), AllocError> {
        let OccKey { app, arrival } = row.op.occurrence;
        put_line(
            text,
            &[
                Field::Left(16, app.as_bytes()),
                Field::Left(16, &moment_text(arrival)),
                right(3, u64::from(row.op.number)),
                Field::Left(4, row.ws.as_bytes()),
                Field::Left(4, row.code.as_bytes()),
            ],
        )
    }
}

/// Operations that are late.
pub(crate) struct LateRows;

impl Layout<OpView> for LateRows {
    ghost columns = { late_columns };

    fn put(text: &mut Vec<u8>, view: &OpView) -> Result<(), AllocError> {
        let OccKey { app, arrival } = view.key.occurrence;
        put_line(
            text,
            &[
                Field::Left(16, app.as_bytes()),
                Field::Left(16, &moment_text(arrival)),
                right(3, u64::from(view.key.number)),
                Field::Left(4, view.workstation.as_bytes()),
                Field::Left(1, &[view.status.letter()]),
                Field::Left(16, &latest_text(view.latest)),
            ],
        )
    }
}
