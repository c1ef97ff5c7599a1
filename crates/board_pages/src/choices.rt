// Which rows each part of a page lists, and in which order.
ghost use Rattle.std.specs.Prelude.{◌≡◌, IfOk, count_by, filter, is_some};
ghost use Rattle.board_pages.specs.Choices.{AreByLatest, AreBySpare, has_no_end, is_going_since_unknown, is_late, is_troubled, needs_somebody, place, runs, spare};

use forecast_texts::{Beginning, OccurrenceOutlook, OperationOutlook, Standstill};
use status_rules::Status;
use std::alloc::{AllocError, Global};

// Whether it is in error or undecided.
fn is_troubled(row: &Standstill) -> bool
    ensures { result ≡ is_troubled row.now }
{
    matches!(row.status, Status::Error | Status::Undecided)
}

/// How many are in error or undecided.
pub(crate) fn troubled(rows: &[Standstill]) -> usize
    ensures { result ≡ count_by is_troubled rows.now }
{
    rows.iter().filter(|row| is_troubled(row)).count()
}

// Whether it doesn't wait for another, so that nothing comes of it until somebody acts.
fn needs_somebody(row: &Standstill) -> bool
    ensures { result ≡ needs_somebody row.now }
{
    !matches!(row.status, Status::Waiting)
}

// Those that don't wait for another.
fn needing_somebody(alloc: Global, rows: &[Standstill]) -> Result<Vec<Standstill>, AllocError>
    ensures { IfOk result (λ chosen. chosen.items ≡ filter needs_somebody rows.now) }
{
    let mut chosen = Vec::new(alloc);
    for row in rows {
        if needs_somebody(row) {
            chosen.push(*row)?;
        }
    }
    Ok(chosen)
}

/// Those that don't wait for another, what has to start first comes first.
pub(crate) fn by_latest(alloc: Global, rows: &[Standstill]) -> Result<Vec<Standstill>, AllocError>
    ensures { IfOk result (λ sorted. AreByLatest rows.now sorted.items) }
{
    let mut sorted = needing_somebody(alloc, rows)?;
    sorted.sort_by_key(|row| row.latest)?;
    Ok(sorted)
}

/// How many are going.
pub(crate) fn going(rows: &[OperationOutlook]) -> usize
    ensures { result ≡ count_by (λ r. r.is_going) rows.now }
{
    rows.iter().filter(|row| row.is_going).count()
}

// Whether it runs.
fn runs(row: &OperationOutlook) -> bool
    ensures { result ≡ runs row.now }
{
    matches!(row.beginning, Beginning::Reported)
}

/// Those that run.
pub(crate) fn running(
    alloc: Global,
    rows: &[OperationOutlook],
) -> Result<Vec<OperationOutlook>, AllocError>
    ensures { IfOk result (λ chosen. chosen.items ≡ filter runs rows.now) }
{
    rows.iter().copied().filter(|row| runs(row)).collect(alloc)
}

/// How many are going of which it isn't known since when.
pub(crate) fn going_since_unknown(rows: &[OperationOutlook]) -> usize
    ensures { result ≡ count_by is_going_since_unknown rows.now }
{
    rows.iter()
        .filter(|row| row.is_going && !row.is_known)
        .count()
}

/// How many the forecast doesn't end.
pub(crate) fn without_end(rows: &[OccurrenceOutlook]) -> usize
    ensures { result ≡ count_by has_no_end rows.now }
{
    rows.iter().filter(|row| row.end.is_none()).count()
}

// Whether it will be late.
fn is_late(row: &OccurrenceOutlook) -> bool
    ensures { result ≡ is_late row.now }
{
    row.late.is_some()
}

/// How many will be late.
pub(crate) fn late_count(rows: &[OccurrenceOutlook]) -> usize
    ensures { result ≡ count_by is_late rows.now }
{
    rows.iter().filter(|row| is_late(row)).count()
}

/// Those that will be late.
pub(crate) fn late(
    alloc: Global,
    rows: &[OccurrenceOutlook],
) -> Result<Vec<OccurrenceOutlook>, AllocError>
    ensures { IfOk result (λ chosen. chosen.items ≡ filter is_late rows.now) }
{
    let late = rows.iter().copied().filter(|row| is_late(row));
    late.collect(alloc)
}

// By how many minutes an occurrence ends before its deadline, negative where it is late; where it has no end, the minute of
// its deadline.
fn spare(row: &OccurrenceOutlook) -> i64
    ensures { result ≡ spare row.now.deadline row.now.end }
{
    match row.end {
        Some(end) => row.deadline.minute() - end.minute(),
        None => row.deadline.minute(),
    }
}

// What an occurrence's place goes by: those without an end come first, by deadline, and then what has the least time to
// spare.
fn place(row: &OccurrenceOutlook) -> (bool, i64)
    ensures { result ≡ place row.now }
{
    (row.end.is_some(), spare(row))
}

/// The occurrences, those without an end first, by deadline, and then the least time to spare; in their order where that is
/// the same.
pub(crate) fn by_spare(
    alloc: Global,
    rows: &[OccurrenceOutlook],
) -> Result<Vec<OccurrenceOutlook>, AllocError>
    ensures { IfOk result (λ sorted. AreBySpare rows.now sorted.items) }
{
    let mut sorted = Vec::from_slice(alloc, rows)?;
    sorted.sort_by_key(|row| place(row))?;
    Ok(sorted)
}
