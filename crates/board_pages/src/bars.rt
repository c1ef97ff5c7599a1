// The axis of the occurrences' bars.
ghost use Rattle.std.specs.Prelude.{◌≡◌, ◌<◌, ◌≤◌, ◌^◌};
ghost use Rattle.plan_basics.specs.Minutes.{IsMoment};
ghost use Rattle.board_pages.specs.Bars.{bar_end, bar_of, begin_of, is_of, last_deadline, later_within, length_of, per_mille, span_of, tick_minute};

use forecast_texts::{OccurrenceOutlook, OperationOutlook, Outlooks};
use plan_basics::{Moment, OccKey};

/// A bar on the axis, and the mark of a deadline, in parts of a thousand of it.
#[derive(Clone, Copy)]
pub(crate) struct Bar {
    pub start: u64,
    pub width: u64,
    pub mark: u64,
}

/// The minute of a moment.
pub(crate) fn minute_of(moment: Moment) -> u64
    ensures minute { result ≡ moment }
    ensures legal { IsMoment moment }
{
    moment.minute() as u64
}

// The later of a minute and a deadline, where that comes by the end of the day.
fn later_within(end: u64, minute: u64, deadline: Moment) -> u64
    ensures { result ≡ later_within end minute deadline }
{
    let deadline = minute_of(deadline);
    if deadline <= end {
        minute.max(deadline)
    } else {
        minute
    }
}

// The last deadline within a day from the forecast's moment on; 0 where there is none.
fn last_deadline(told: &Outlooks) -> u64
    ensures { result ≡ last_deadline told.now }
{
    let end = minute_of(told.from) + 1440;
    told.occurrences
        .iter()
        .fold(0, |minute, row| later_within(end, minute, row.deadline))
}

// The minutes up to it: an hour at least, and a day at most.
fn span_of(told: &Outlooks) -> u64
    ensures span { result ≡ span_of told.now }
    ensures some { 60 ≤ result }
    ensures bound { result ≤ 1440 }
{
    last_deadline(told)
        .saturating_sub(minute_of(told.from))
        .min(1440)
        .max(60)
}

/// The minutes from a forecast's moment up to the end of the axis.
pub(crate) fn length_of(told: &Outlooks) -> u64
    ensures length { result ≡ length_of told.now }
    ensures some { 0 < result }
    ensures bound { result ≤ 1800 }
{
    span_of(told) * 5 / 4
}

/// The place of a minute on the axis, in parts of a thousand: 0 where it comes before, 1,000 where it comes after it.
pub(crate) fn per_mille(told: &Outlooks, minute: u64) -> u64
    requires { minute < 2 ^ 32 }
    ensures place { result ≡ per_mille told.now minute }
    ensures within { result ≤ 1000 }
{
    let after = minute.saturating_sub(minute_of(told.from));
    (after * 1000 / length_of(told)).min(1000)
}

// Whether an operation is one of an occurrence.
fn is_of(key: &OccKey, row: &OperationOutlook) -> bool
    ensures { result ≡ is_of key.now row.now }
{
    row.key.occurrence.order(key).is_eq()
}

// When the first of the operations of an occurrence begins, if any does.
fn begin_of(told: &Outlooks, key: &OccKey) -> Option<Moment>
    ensures { result ≡ begin_of told.now key.now }
{
    let first = told.operations.iter().find(|row| is_of(key, row))?;
    Some(first.begin)
}

/// The minute of one of the hours that are told on the axis, whether it is on it or after it.
pub(crate) fn tick_minute(told: &Outlooks, count: u64) -> u64
    requires { count < 8 }
    ensures minute { result ≡ tick_minute told.now count }
    ensures bound { result < 2 ^ 32 }
{
    let step = length_of(told) / 480 + 1;
    (minute_of(told.from) / 60 + 1 + count * step) * 60
}

// The end of a bar, in parts of a thousand of the axis: the axis's own where the occurrence has no end.
fn bar_end(told: &Outlooks, end: Option<Moment>) -> u64
    ensures { result ≡ bar_end told.now end }
{
    match end {
        Some(end) => per_mille(told, minute_of(end)),
        None => 1000,
    }
}

/// The bar of an occurrence.
pub(crate) fn bar_of(told: &Outlooks, row: &OccurrenceOutlook) -> Bar
    ensures { result ≡ bar_of told.now row.now }
{
    let mark = per_mille(told, minute_of(row.deadline));
    let Some(begin) = begin_of(told, &row.key) else {
        return Bar {
            start: 0,
            width: 0,
            mark,
        };
    };
    let start = per_mille(told, minute_of(begin));
    Bar {
        start,
        width: bar_end(told, row.end).saturating_sub(start).max(1),
        mark,
    }
}
