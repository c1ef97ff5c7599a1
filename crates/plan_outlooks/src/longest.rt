// What was named and isn't started, and what goes on longer than planned: of each the longest first.
ghost use Rattle.std.specs.Prelude.{◌≡◌, IfOk, filter, is_some};
ghost use Rattle.plan_basics.specs.Minutes.{IsMoment};
ghost use Rattle.plan_outlooks.specs.Longest.{AreNamed, AreOver, end_place, is_named_only, since_place};

use super::rows::OperationOutlook;
use plan_basics::Moment;
use plan_reasons::Beginning;
use std::alloc::{AllocError, Global};

// The minute of a moment.
fn minute_of(moment: Moment) -> u64
    ensures minute { result ≡ moment }
    ensures legal { IsMoment moment }
{
    moment.minute() as u64
}

// Whether a mark tells that an operation was named, and its start isn't reported.
fn is_named_only(beginning: Beginning) -> bool
    ensures { result ≡ is_named_only beginning }
{
    matches!(beginning, Beginning::Named)
}

// The place of what was named since a moment, if that is known.
fn since_place(since: Option<Moment>) -> u64
    ensures { result ≡ since_place since }
{
    match since {
        Some(moment) => minute_of(moment) + 1,
        None => 0,
    }
}

// The place of what goes on so many minutes longer than planned.
fn end_place(over: Option<u64>) -> u64
    ensures { result ≡ end_place over }
{
    52_595_999u64.saturating_sub(over.unwrap_or(0))
}

// Those of these operations that were named and aren't started, in their order.
fn named_among(
    alloc: Global,
    rows: &[OperationOutlook],
) -> Result<Vec<OperationOutlook>, AllocError>
    ensures { IfOk result (λ chosen. chosen.items ≡ filter (λ r. is_named_only r.beginning) rows.now) }
{
    rows.iter()
        .copied()
        .filter(|row| is_named_only(row.beginning))
        .collect(alloc)
}

// Those that go on longer than planned, in their order.
fn over_among(alloc: Global, rows: &[OperationOutlook]) -> Result<Vec<OperationOutlook>, AllocError>
    ensures { IfOk result (λ chosen. chosen.items ≡ filter (λ r. is_some r.over) rows.now) }
{
    rows.iter()
        .copied()
        .filter(|row| row.over.is_some())
        .collect(alloc)
}

/// Those of these operations that were named and aren't started, what was named first comes first.
pub(crate) fn named_first(
    alloc: Global,
    rows: &[OperationOutlook],
) -> Result<Vec<OperationOutlook>, AllocError>
    ensures { IfOk result (λ named. AreNamed rows.now named.items) }
{
    let mut named = named_among(alloc, rows)?;
    named.sort_by_key(|row| since_place(row.since))?;
    Ok(named)
}

/// Those that go on longer than planned, what was to end first comes first.
pub(crate) fn over_first(
    alloc: Global,
    rows: &[OperationOutlook],
) -> Result<Vec<OperationOutlook>, AllocError>
    ensures { IfOk result (λ over. AreOver rows.now over.items) }
{
    let mut over = over_among(alloc, rows)?;
    over.sort_by_key(|row| end_place(row.over))?;
    Ok(over)
}
