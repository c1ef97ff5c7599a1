// The text of a forecast.
ghost use Rattle.std.specs.Prelude.{◌≡◌, ◌⊎◌, ◌∷◌, ◌++◌, IfErr, IfOk, OnOk, map};
ghost use Rattle.forecast_texts.specs.Texts.{IsForecastText, forecast_text, hands_text, moment, named_text, never_words, over_text, paths_text, span, standstills_text};
ghost use Rattle.plan_basics.specs.declared.Refusal.{Refusal};
ghost use Rattle.plan_outlooks.specs.forecasting.specs.Known.{since_in};
ghost use Rattle.plan_outlooks.specs.plan_forecast.specs.Ahead.{tick};
ghost use Rattle.plan_outlooks.specs.plan_records.specs.Answer.{refused};
ghost use Rattle.plan_outlooks.specs.plan_records.specs.Step.{Step};
ghost use Rattle.report_lines.specs.Lines.{report};

use super::hands::{ByHand, work_by_hand};
use super::rows::{
    ByHandRows, NamedRows, OccurrenceRows, OperationRows, OverRows, PathRows, StandstillRows,
};
use plan_basics::{Moment, Refusal};
use plan_outlooks::{
    KnownStarts, OccurrenceOutlook, OperationOutlook, Outlooks, PathMember, Plan, Standstill,
    outlooks,
};
use report_lines::{Field, Layout, moment_text, report};
use std::alloc::{AllocError, Global};

// A part of the text: these words with the span of the forecast, and these rows.
fn part<L: Layout<R>, R>(
    alloc: Global,
    words: &[u8],
    told: &Outlooks,
    rows: &[R],
) -> Result<Vec<u8>, AllocError>
    ensures { IfOk result (λ text. text.items ≡ report (words.now ∷ span told.now) (map L.columns rows.now)) }
{
    let (from, to) = (moment_text(told.from), moment_text(told.to));
    let head = [
        Field::Word(words),
        Field::Word(b"FROM"),
        Field::Word(&from),
        Field::Word(b"TO"),
        Field::Word(&to),
    ];
    report::<L, R>(alloc, &head, rows)
}

// How what doesn't begin is called.
fn never_words<'a>(is_cut: bool) -> &'a [u8]
    ensures { result.now ≡ never_words is_cut }
{
    if is_cut {
        b"NOT STARTED"
    } else {
        b"NEVER STARTED"
    }
}

// Puts the paths by which occurrences will be late, and the operations that never begin, behind a text.
fn put_rest(alloc: Global, text: &mut Vec<u8>, told: &Outlooks) -> Result<(), AllocError>
    ensures { OnOk result (text.new.items ≡ text.old.items ++ paths_text told.now ++ standstills_text told.now) }
{
    let paths = part::<PathRows, PathMember>(alloc, b"LATE PATHS", told, &told.paths)?;
    text.extend_from_slice(&paths)?;
    let words = never_words(told.is_cut);
    let never = part::<StandstillRows, Standstill>(alloc, words, told, &told.standstills)?;
    text.extend_from_slice(&never)
}

// The first line of what is so at the moment of a forecast, and rows.
fn part_at<L: Layout<R>, R>(
    alloc: Global,
    words: &[u8],
    told: &Outlooks,
    rows: &[R],
) -> Result<Vec<u8>, AllocError>
    ensures { IfOk result (λ text. text.items ≡ report (words.now ∷ moment told.now) (map L.columns rows.now)) }
{
    let at = moment_text(told.from);
    let head = [Field::Word(words), Field::Word(b"AT"), Field::Word(&at)];
    report::<L, R>(alloc, &head, rows)
}

// Puts what waits for a report of its start, what goes on longer than planned, and what people have to do, behind a text.
fn put_watched(alloc: Global, text: &mut Vec<u8>, told: &Outlooks) -> Result<(), AllocError>
    ensures { OnOk result (text.new.items ≡ text.old.items ++ named_text told.now ++ over_text told.now ++ hands_text told.now) }
{
    let named = part_at::<NamedRows, OperationOutlook>(
        alloc,
        b"NAMED AND NOT STARTED",
        told,
        &told.named,
    )?;
    text.extend_from_slice(&named)?;
    let over = part_at::<OverRows, OperationOutlook>(
        alloc,
        b"LONGER THAN PLANNED",
        told,
        &told.over,
    )?;
    text.extend_from_slice(&over)?;
    let rows = work_by_hand(alloc, told)?;
    let by_hand = part::<ByHandRows, ByHand>(alloc, b"BY HAND", told, &rows)?;
    text.extend_from_slice(&by_hand)
}

/// What a forecast tells, as a text: the occurrences that are neither complete nor deleted; the operations that begin or are
/// going; the paths by which occurrences will be late; the operations that never begin; what was named and isn't started; what
/// goes on longer than planned; and what people have to do. It fails for want of memory only.
pub fn forecast_text(alloc: Global, told: &Outlooks) -> Result<Vec<u8>, AllocError>
    ensures { IfOk result (λ text. text.items ≡ forecast_text told.now) }
{
    let mut text = part::<OccurrenceRows, OccurrenceOutlook>(
        alloc,
        b"FORECAST OF OCCURRENCES",
        told,
        &told.occurrences,
    )?;
    let operations = part::<OperationRows, OperationOutlook>(
        alloc,
        b"FORECAST OF OPERATIONS",
        told,
        &told.operations,
    )?;
    text.extend_from_slice(&operations)?;
    put_rest(alloc, &mut text, told)?;
    put_watched(alloc, &mut text, told)?;
    Ok(text)
}

/// The text of a forecast of a plan, by what is known of starts, from a moment on; up to another one, or where none is asked for as long as anything is due
/// or may begin. The plan stays as it is. Refused as a tick at the first moment is, else as `Memory`.
pub fn forecast_made(
    plan: &Plan,
    known: &KnownStarts,
    from: Moment,
    until: Option<Moment>,
) -> Result<Vec<u8>, Refusal>
    ensures text { IfOk result (λ text. IsForecastText plan.now.plan (since_in known.now) from until text.items) }
    ensures refused { IfErr result (λ r. (r ≡ Refusal.Memory) ⊎ Step plan.now.plan (tick from) (refused r) plan.now.plan) }
{
    let told = outlooks(plan, known, from, until)?;
    Ok(forecast_text(plan.alloc(), &told)?)
}
