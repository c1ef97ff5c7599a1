// The rows of a forecast, column by column.
ghost use Rattle.std.specs.Prelude.{◌≡◌, ◌++◌, ◌∷◌, ℕ, List, [], codes, IfOk};
ghost use Rattle.std.specs.List.{concat};
ghost use Rattle.forecast_texts.specs.Columns.{begin_text, by_hand_columns, cause_word, deed_text, freed_text, lacked_text, late_text, minute_text, named_columns, occurrence_columns, operation_columns, over_columns, over_text, path_columns, standing_text, standstill_columns};
ghost use Rattle.plan_outlooks.specs.plan_reasons.specs.Texts.{reason_pieces};
ghost use Rattle.report_lines.specs.Lines.{shown};

use super::hands::{ByHand, Deed};
use plan_basics::{ErrCode, Moment, NO_MOMENT, OccKey};
use plan_outlooks::{
    Cause, OccurrenceOutlook, OperationOutlook, PathMember, Reason, Standing, Standstill,
    put_reason,
};
use report_lines::{Field, Layout, latest_text, moment_text, put_line, right};
use std::alloc::{AllocError, Global};

// The text of a moment, sixteen hyphens where there is none.
fn minute_text(moment: Option<Moment>) -> [u8; 16]
    ensures { result ≡ minute_text moment }
{
    match moment {
        Some(moment) => moment_text(moment),
        None => NO_MOMENT,
    }
}

// When an operation begins; sixteen hyphens where that isn't known.
fn begin_text(is_known: bool, begin: Moment) -> [u8; 16]
    ensures { result ≡ begin_text is_known begin }
{
    if is_known {
        moment_text(begin)
    } else {
        NO_MOMENT
    }
}

// By how many minutes it is late; a hyphen where it isn't.
fn late_field<'a>(late: Option<u64>) -> Field<'a>
    ensures { shown result ≡ late_text late }
{
    match late {
        Some(minutes) => right(5, minutes),
        None => Field::Word(b"    -"),
    }
}

// By how many minutes it goes on longer than planned; a tilde where its times are only taken.
fn over_field<'a>(over: Option<u64>, is_taken: bool) -> Field<'a>
    ensures { shown result ≡ over_text over is_taken }
{
    match (over, is_taken) {
        (Some(minutes), _) => right(5, minutes),
        (None, true) => Field::Word(b"    ~"),
        (None, false) => Field::Word(b"    -"),
    }
}

/// Occurrences.
pub(crate) struct OccurrenceRows;

impl Layout<OccurrenceOutlook> for OccurrenceRows {
    ghost columns = { occurrence_columns };

    fn put(text: &mut Vec<u8>, row: &OccurrenceOutlook) -> Result<(), AllocError> {
        let OccKey { app, arrival } = row.key;
        put_line(
            text,
            &[
                Field::Left(16, app.as_bytes()),
                Field::Left(16, &moment_text(arrival)),
                right(1, u64::from(row.priority)),
                Field::Left(1, &[row.status.letter()]),
                Field::Left(16, &moment_text(row.deadline)),
                Field::Left(16, &minute_text(row.end)),
                late_field(row.late),
                right(5, row.never as u64),
            ],
        )
    }
}

/// Operations that begin or are going.
pub(crate) struct OperationRows;

impl Layout<OperationOutlook> for OperationRows {
    ghost columns = { operation_columns };

    fn put(text: &mut Vec<u8>, row: &OperationOutlook) -> Result<(), AllocError> {
        let OccKey { app, arrival } = row.key.occurrence;
        put_line(
            text,
            &[
                Field::Left(16, app.as_bytes()),
                Field::Left(16, &moment_text(arrival)),
                right(3, u64::from(row.key.number)),
                Field::Left(4, row.workstation.as_bytes()),
                Field::Left(1, &[row.status.letter()]),
                Field::Left(16, &begin_text(row.is_known, row.begin)),
                Field::Left(16, &minute_text(row.end)),
                Field::Left(16, &latest_text(row.latest)),
                late_field(row.late),
                over_field(row.over, row.is_taken),
            ],
        )
    }
}

// The line of a reason. It fails for want of memory only.
fn told(alloc: Global, reason: &Reason) -> Result<Vec<u8>, AllocError>
    ensures { IfOk result (λ text. text.items ≡ concat (reason_pieces reason.now) ++ 10 ∷ []) }
{
    let mut text = Vec::new(alloc);
    put_reason(&mut text, reason)?;
    Ok(text)
}

// The line of a word.
fn word_told(alloc: Global, word: &[u8]) -> Result<Vec<u8>, AllocError>
    ensures { IfOk result (λ text. text.items ≡ word.now ++ 10 ∷ []) }
{
    let mut text = word.to_vec(alloc)?;
    text.push(b'\n')?;
    Ok(text)
}

// The line of what is in error with a code.
fn code_told(alloc: Global, code: &ErrCode) -> Result<Vec<u8>, AllocError>
    ensures { IfOk result (λ text. text.items ≡ (codes "in error " ++ code.now) ++ 10 ∷ []) }
{
    let mut text = b"in error ".to_vec(alloc)?;
    text.extend_from_slice(code.as_bytes())?;
    text.push(b'\n')?;
    Ok(text)
}

/// The line that tells why an operation doesn't begin. It fails for want of memory only.
pub fn standing_line(alloc: Global, standing: &Standing) -> Result<Vec<u8>, AllocError>
    ensures { IfOk result (λ text. text.items ≡ standing_text standing.now ++ 10 ∷ []) }
{
    match standing {
        Standing::InError(code) => code_told(alloc, code),
        Standing::Interrupted => word_told(alloc, b"interrupted"),
        Standing::Undecided => word_told(alloc, b"undecided"),
        Standing::For(reason) => told(alloc, reason),
        Standing::Later => word_told(alloc, b"begins later"),
    }
}

// A line without its end.
fn without_end(line: &[u8]) -> &[u8]
    requires { (front : List ℕ) × (line.now ≡ front ++ 10 ∷ []) }
    ensures { (front : List ℕ) → line.now ≡ front ++ 10 ∷ [] → result.now ≡ front }
{
    let length = line.len() - 1;
    &line[..length]
}

/// Operations that never begin.
pub(crate) struct StandstillRows;

impl Layout<Standstill> for StandstillRows {
    ghost columns = { standstill_columns };

    fn put(text: &mut Vec<u8>, row: &Standstill) -> Result<(), AllocError> {
        let line = standing_line(*text.allocator(), &row.standing)?;
        put_line(
            text,
            &[
                Field::Word(row.key.to_text().as_bytes()),
                Field::Word(&[row.status.letter()]),
                Field::Word(&moment_text(row.at)),
                Field::Word(without_end(&line)),
            ],
        )
    }
}

// What an operation begins after.
fn cause_word<'a>(cause: Cause) -> &'a [u8]
    ensures { result.now ≡ cause_word cause }
{
    match cause {
        Cause::Now => b"now",
        Cause::After => b"after",
        Cause::NotBefore => b"not-before",
        Cause::Opens => b"opens",
        Cause::Frees => b"frees",
    }
}

// The line of what an operation lacked, where it begins since that was freed; else of a hyphen.
fn freed_line(alloc: Global, cause: Cause, reason: &Reason) -> Result<Vec<u8>, AllocError>
    ensures { IfOk result (λ text. text.items ≡ freed_text cause reason.now ++ 10 ∷ []) }
{
    match cause {
        Cause::Frees => told(alloc, reason),
        _ => word_told(alloc, b"-"),
    }
}

// The line of what was freed for an operation, or of a hyphen.
fn lacked_line(alloc: Global, cause: Cause, lack: &Option<Reason>) -> Result<Vec<u8>, AllocError>
    ensures { IfOk result (λ text. text.items ≡ lacked_text cause lack.now ++ 10 ∷ []) }
{
    match lack {
        Some(reason) => freed_line(alloc, cause, reason),
        None => word_told(alloc, b"-"),
    }
}

/// Members of the paths by which occurrences will be late.
pub(crate) struct PathRows;

impl Layout<PathMember> for PathRows {
    ghost columns = { path_columns };

    fn put(text: &mut Vec<u8>, row: &PathMember) -> Result<(), AllocError> {
        let OccKey { app, arrival } = row.key.occurrence;
        let line = lacked_line(*text.allocator(), row.cause, &row.lack)?;
        put_line(
            text,
            &[
                Field::Left(16, row.late.app.as_bytes()),
                Field::Left(16, &moment_text(row.late.arrival)),
                Field::Left(16, app.as_bytes()),
                Field::Left(16, &moment_text(arrival)),
                right(3, u64::from(row.key.number)),
                Field::Left(10, cause_word(row.cause)),
                Field::Left(16, &begin_text(row.is_known, row.begin)),
                Field::Left(16, &moment_text(row.end)),
                Field::Word(without_end(&line)),
            ],
        )
    }
}

/// Operations that were named and aren't started.
pub(crate) struct NamedRows;

impl Layout<OperationOutlook> for NamedRows {
    ghost columns = { named_columns };

    fn put(text: &mut Vec<u8>, row: &OperationOutlook) -> Result<(), AllocError> {
        let OccKey { app, arrival } = row.key.occurrence;
        put_line(
            text,
            &[
                Field::Left(16, app.as_bytes()),
                Field::Left(16, &moment_text(arrival)),
                right(3, u64::from(row.key.number)),
                Field::Left(4, row.workstation.as_bytes()),
                Field::Word(&minute_text(row.since)),
            ],
        )
    }
}

/// Operations that go on longer than planned.
pub(crate) struct OverRows;

impl Layout<OperationOutlook> for OverRows {
    ghost columns = { over_columns };

    fn put(text: &mut Vec<u8>, row: &OperationOutlook) -> Result<(), AllocError> {
        let OccKey { app, arrival } = row.key.occurrence;
        put_line(
            text,
            &[
                Field::Left(16, app.as_bytes()),
                Field::Left(16, &moment_text(arrival)),
                right(3, u64::from(row.key.number)),
                Field::Left(4, row.workstation.as_bytes()),
                Field::Word(&minute_text(row.since)),
                late_field(row.over),
            ],
        )
    }
}

/// What a person has to do, in words.
pub fn deed_text<'a>(deed: Deed) -> &'a [u8]
    ensures { result.now ≡ deed_text deed }
{
    match deed {
        Deed::Start => b"start",
        Deed::StartAgain => b"start again",
        Deed::Report => b"report end",
    }
}

/// What people have to do.
pub(crate) struct ByHandRows;

impl Layout<ByHand> for ByHandRows {
    ghost columns = { by_hand_columns };

    fn put(text: &mut Vec<u8>, row: &ByHand) -> Result<(), AllocError> {
        let OccKey { app, arrival } = row.key.occurrence;
        put_line(
            text,
            &[
                Field::Left(16, app.as_bytes()),
                Field::Left(16, &moment_text(arrival)),
                right(3, u64::from(row.key.number)),
                Field::Left(4, row.workstation.as_bytes()),
                Field::Left(11, deed_text(row.deed)),
                Field::Left(16, &minute_text(row.at)),
                Field::Word(&latest_text(row.latest)),
            ],
        )
    }
}
