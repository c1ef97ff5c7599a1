// A whole page, part by part.
ghost use Rattle.std.specs.Prelude.{◌≡◌, ◌++◌, IfOk, OnOk, flat_map, map};
ghost use Rattle.forecast_texts.specs.Hands.{hands};
ghost use Rattle.board_pages.specs.Pages.{IsBoardPage, ahead_parts, body_parts, clock_parts, count_parts, count_template, counts_parts, endless_words, foot_parts, head_parts, needing_head, occurrences_part, still_parts, stood_parts, stood_template, ticks_parts, trouble_parts, unknown_parts};
ghost use Rattle.html_pages.specs.Pieces.{bytes};
ghost use Rattle.board_pages.specs.Views.{unasked};

use super::choices::{
    by_latest, by_spare, going, going_since_unknown, late, late_count, running, troubled,
    without_end,
};
use super::markup::STYLE_END;
use super::rows::{
    ByHandRows, LateRows, NamedRows, OccurrenceRows, OverRows, RunningRows, StandstillRows,
    put_tick,
};
use super::tables::put_table;
use super::views::{View, Watch, unasked};
use forecast_texts::{
    ByHand, OccurrenceOutlook, OperationOutlook, Outlooks, Standstill, work_by_hand,
};
use html_pages::Value::{Date, Hour, Number};
use html_pages::{put, put_beginning};
use plan_basics::Moment;
use std::alloc::{AllocError, Global};

/// How many rows a table shows, how many operations that run, and how many occurrences.
const MOST_LISTED: usize = 8;

const MOST_RUNNING: usize = 16;

const MOST_BARS: usize = 200;

/// How the head of each table reads; before and after the axis that of the occurrences.
const NAMED_HEAD: &str =
    "<section><h2>Named and not started</h2>\n<table><thead><tr><th scope=\"col\">Operation</th><th scope=\"col\">Workstation</th><th scope=\"col\">Named</th><th scope=\"col\">Nobody asked for</th><th scope=\"col\">Start by</th></tr></thead><tbody>\n";

const OVER_HEAD: &str =
    "<section><h2>Longer than planned</h2>\n<table><thead><tr><th scope=\"col\">Operation</th><th scope=\"col\">Workstation</th><th scope=\"col\">Since</th><th scope=\"col\">Over</th></tr></thead><tbody>\n";

const LATE_HEAD: &str =
    "<section><h2>Will be late</h2>\n<table><thead><tr><th scope=\"col\">Occurrence</th><th scope=\"col\">Deadline</th><th scope=\"col\">Ends</th><th scope=\"col\">Late</th></tr></thead><tbody>\n";

const BY_HAND_HEAD: &str =
    "<section><h2>By hand</h2>\n<table><thead><tr><th scope=\"col\">Operation</th><th scope=\"col\">Workstation</th><th scope=\"col\">Do</th><th scope=\"col\">When</th><th scope=\"col\">Start by</th><th scope=\"col\">Late</th></tr></thead><tbody>\n";

const RUNNING_HEAD: &str =
    "<section><h2>Running</h2>\n<table><thead><tr><th scope=\"col\">Operation</th><th scope=\"col\">Workstation</th><th scope=\"col\">Since</th><th scope=\"col\">Ends</th></tr></thead><tbody>\n";

const OCCURRENCES_HEAD: &str =
    "<section class=\"wide\"><h2>Occurrences <small>least time to spare first; an upright mark is a deadline</small></h2>\n<table><thead><tr><th scope=\"col\">Occurrence</th><th scope=\"col\" class=\"t\">";

const AXIS_END: &str =
    "</th><th scope=\"col\">Deadline</th><th scope=\"col\">Ends</th><th scope=\"col\">Spare</th></tr></thead><tbody>\n";

// Puts the clock behind a page, from the beginning of the page on.
fn put_clock(page: &mut Vec<u8>, clock: Moment, is_still: bool) -> Result<(), AllocError>
    ensures { OnOk result (page.new.items ≡ page.old.items ++ bytes (clock_parts clock is_still)) }
{
    let title = "<title>Board ~</title>\n<style>\n";
    put_beginning(page, is_still, title, &[Hour(clock)])?;
    put(page, STYLE_END, &[])?;
    put(
        page,
        "</style>\n</head>\n<body>\n<header>\n<h1><small>~</small>~</h1>\n",
        &[Date(clock), Hour(clock)],
    )?;
    Ok(())
}

// Puts behind a page that isn't loaded again where one is that is.
fn put_still(page: &mut Vec<u8>, view: View) -> Result<(), AllocError>
    ensures { OnOk result (page.new.items ≡ page.old.items ++ bytes (still_parts view.is_still view.until)) }
{
    match (view.is_still, view.until) {
        (false, _) => Ok(()),
        (true, None) => put(
            page,
            "<p>This page doesn't load again: <a href=\"/board\">one that does</a></p>\n",
            &[],
        ),
        (true, Some(until)) => put(
            page,
            "<p>This page doesn't load again: <a href=\"/board?until=~T~\">one that does</a></p>\n",
            &[Date(until), Hour(until)],
        ),
    }
}

// That the plan's clock has stood for some minutes.
fn stood_template(is_alarm: bool) -> &'static str
    ensures { result.now ≡ stood_template is_alarm }
{
    if is_alarm {
        "<p class=\"alarm\" role=\"alert\">The plan's clock has stood for ~ minutes: nobody ticks, and nothing new is named</p>\n"
    } else {
        "<p>The plan's clock has stood for ~ minutes</p>\n"
    }
}

// Puts behind a page for how many minutes the plan's clock has stood, if that is known.
fn put_stood(page: &mut Vec<u8>, watch: &Option<Watch>) -> Result<(), AllocError>
    ensures { OnOk result (page.new.items ≡ page.old.items ++ bytes (stood_parts watch.now)) }
{
    let Some(watch) = watch else {
        return Ok(());
    };
    let template = stood_template(watch.stale <= watch.stood);
    put(page, template, &[Number(watch.stood)])
}

// A count before its words: one of what somebody has to look at is filled where it isn't 0.
fn count_template(is_alarm: bool, count: usize) -> &'static str
    ensures { result.now ≡ count_template is_alarm count }
{
    if is_alarm && count > 0 {
        "<li class=\"alarm\"><b>~</b> "
    } else {
        "<li><b>~</b> "
    }
}

// Puts a count and its words behind a page.
fn put_count(
    page: &mut Vec<u8>,
    is_alarm: bool,
    count: usize,
    words: &str,
) -> Result<(), AllocError>
    ensures { OnOk result (page.new.items ≡ page.old.items ++ bytes (count_parts is_alarm count words.now)) }
{
    put(
        page,
        count_template(is_alarm, count),
        &[Number(count as u64)],
    )?;
    put(page, words, &[])?;
    put(page, "</li>\n", &[])?;
    Ok(())
}

// Puts counts behind a page.
#[tactic(auto, using(html_pages::proofs::Bytes::bytes_append))]
fn put_all_counts(page: &mut Vec<u8>, counts: &[(bool, usize, &str)]) -> Result<(), AllocError>
    ensures { OnOk result (page.new.items ≡ page.old.items ++ bytes (flat_map (λ r. count_parts r.0 r.1 r.2.now) counts.now)) }
{
    for count in counts {
        put_count(page, count.0, count.1, count.2)?;
    }
    Ok(())
}

// How what has no end is called.
fn endless_words(is_cut: bool) -> &'static str
    ensures { result.now ≡ endless_words is_cut }
{
    if is_cut { "not ended" } else { "won't end" }
}

// Puts the counts behind a page, where so many operations are complete, and so many by hand.
fn put_counts(
    page: &mut Vec<u8>,
    told: &Outlooks,
    complete: usize,
    by_hand: usize,
) -> Result<(), AllocError>
    ensures { OnOk result (page.new.items ≡ page.old.items ++ bytes (counts_parts told.now complete by_hand)) }
{
    let endless = endless_words(told.is_cut);
    put_all_counts(
        page,
        &[
            (true, troubled(&told.standstills), "in error or undecided"),
            (true, without_end(&told.occurrences), endless),
            (true, late_count(&told.occurrences), "late"),
            (true, told.over.len(), "longer than planned"),
            (false, told.named.len(), "named and not started"),
            (false, by_hand, "by hand"),
            (false, going(&told.operations), "going"),
            (false, complete, "complete"),
        ],
    )
}

// Puts the head behind a page.
fn put_head(
    page: &mut Vec<u8>,
    told: &Outlooks,
    complete: usize,
    by_hand: usize,
    view: View,
    watch: &Option<Watch>,
) -> Result<(), AllocError>
    ensures { OnOk result (page.new.items ≡ page.old.items ++ bytes (head_parts told.now complete by_hand view watch.now)) }
{
    put_clock(page, told.from, view.is_still)?;
    put_still(page, view)?;
    put_stood(page, watch)?;
    put(page, "<ul>\n", &[])?;
    put_counts(page, told, complete, by_hand)?;
    put(page, "</ul>\n</header>\n<main>\n", &[])?;
    Ok(())
}

// How the head of what never begins reads.
fn needing_head(is_cut: bool) -> &'static str
    ensures { result.now ≡ needing_head is_cut }
{
    if is_cut {
        "<section><h2>Not started <small>by the end of the forecast</small></h2>\n<table><thead><tr><th scope=\"col\">Operation</th><th scope=\"col\">Workstation</th><th scope=\"col\">Status</th><th scope=\"col\">Why</th><th scope=\"col\">Start by</th></tr></thead><tbody>\n"
    } else {
        "<section><h2>Nothing comes of these <small>until somebody acts</small></h2>\n<table><thead><tr><th scope=\"col\">Operation</th><th scope=\"col\">Workstation</th><th scope=\"col\">Status</th><th scope=\"col\">Why</th><th scope=\"col\">Start by</th></tr></thead><tbody>\n"
    }
}

// What was named and isn't started, with for how many minutes nobody has asked for its workstation.
fn named_rows(
    alloc: Global,
    rows: &[OperationOutlook],
    watch: &Option<Watch>,
) -> Result<Vec<(OperationOutlook, Option<u64>)>, AllocError>
    ensures { IfOk result (λ found. found.items ≡ map (λ r. (r, unasked watch.now r.workstation)) rows.now) }
{
    rows.iter()
        .map(|row| (*row, unasked(watch, &row.workstation)))
        .collect(alloc)
}

// Puts what somebody has to look at behind a page: what needs somebody in this order, and what goes on.
fn put_trouble(
    page: &mut Vec<u8>,
    told: &Outlooks,
    watch: &Option<Watch>,
    needing: &[Standstill],
) -> Result<(), AllocError>
    ensures { OnOk result (page.new.items ≡ page.old.items ++ bytes (trouble_parts told.now watch.now needing.now)) }
{
    let named = named_rows(*page.allocator(), &told.named, watch)?;
    let head = needing_head(told.is_cut);
    put_table::<StandstillRows, _>(page, told, head, needing, MOST_LISTED)?;
    put_table::<NamedRows, _>(page, told, NAMED_HEAD, &named, MOST_LISTED)?;
    put_table::<OverRows, _>(page, told, OVER_HEAD, &told.over, MOST_LISTED)?;
    Ok(())
}

// Puts what is ahead behind a page, of occurrences in their order.
fn put_ahead(
    page: &mut Vec<u8>,
    told: &Outlooks,
    by_hand: &[ByHand],
    occurrences: &[OccurrenceOutlook],
) -> Result<(), AllocError>
    ensures { OnOk result (page.new.items ≡ page.old.items ++ bytes (ahead_parts told.now by_hand.now occurrences.now)) }
{
    let late = late(*page.allocator(), occurrences)?;
    let running = running(*page.allocator(), &told.operations)?;
    put_table::<LateRows, _>(page, told, LATE_HEAD, &late, MOST_LISTED)?;
    put_table::<ByHandRows, _>(page, told, BY_HAND_HEAD, by_hand, MOST_LISTED)?;
    put_table::<RunningRows, _>(page, told, RUNNING_HEAD, &running, MOST_RUNNING)?;
    Ok(())
}

// Puts the hours of the axis behind a page.
#[tactic(auto, using(html_pages::proofs::Bytes::bytes_append))]
fn put_ticks(page: &mut Vec<u8>, told: &Outlooks) -> Result<(), AllocError>
    ensures { OnOk result (page.new.items ≡ page.old.items ++ bytes (ticks_parts told.now)) }
{
    for count in 0..8 {
        put_tick(page, told, count)?;
    }
    Ok(())
}

// Puts occurrences in their order behind a page, each with its bar.
fn put_occurrences(
    page: &mut Vec<u8>,
    told: &Outlooks,
    occurrences: &[OccurrenceOutlook],
) -> Result<(), AllocError>
    ensures { OnOk result (page.new.items ≡ page.old.items ++ bytes (occurrences_part told.now occurrences.now)) }
{
    put(page, OCCURRENCES_HEAD, &[])?;
    put_ticks(page, told)?;
    put_table::<OccurrenceRows, _>(page, told, AXIS_END, occurrences, MOST_BARS)?;
    Ok(())
}

// Puts behind a page of how many it isn't known since when they are going, if of any.
fn put_unknown(page: &mut Vec<u8>, count: usize) -> Result<(), AllocError>
    ensures { OnOk result (page.new.items ≡ page.old.items ++ bytes (unknown_parts count)) }
{
    if count == 0 {
        return Ok(());
    }
    put(
        page,
        ". Going since an unknown moment: <b>~</b>, each taken to begin at the clock and to last its whole duration",
        &[Number(count as u64)],
    )
}

// Puts the foot behind a page.
fn put_foot(page: &mut Vec<u8>, told: &Outlooks) -> Result<(), AllocError>
    ensures { OnOk result (page.new.items ≡ page.old.items ++ bytes (foot_parts told.now)) }
{
    put(
        page,
        "</main>\n<footer>Forecast to ~ ~",
        &[Date(told.to), Hour(told.to)],
    )?;
    put_unknown(page, going_since_unknown(&told.operations))?;
    put(page, ".</footer>\n</body>\n</html>\n", &[])?;
    Ok(())
}

// Puts all that comes after its head behind a page, what needs somebody and the occurrences in their orders.
fn put_body(
    page: &mut Vec<u8>,
    told: &Outlooks,
    watch: &Option<Watch>,
    needing: &[Standstill],
    by_hand: &[ByHand],
    occurrences: &[OccurrenceOutlook],
) -> Result<(), AllocError>
    ensures { OnOk result (page.new.items ≡ page.old.items ++ bytes (body_parts told.now watch.now needing.now by_hand.now occurrences.now)) }
{
    put_trouble(page, told, watch, needing)?;
    put_ahead(page, told, by_hand, occurrences)?;
    put_occurrences(page, told, occurrences)?;
    put_foot(page, told)?;
    Ok(())
}

/// The board's page of what a forecast tells, looked at so at a desk that knows this, where so many operations of the plan are
/// complete: HTML in UTF-8. It fails for want of memory only.
pub fn board_page(
    alloc: Global,
    told: &Outlooks,
    complete: usize,
    view: View,
    watch: &Option<Watch>,
) -> Result<Vec<u8>, AllocError>
    ensures { IfOk result (λ page. IsBoardPage told.now complete view watch.now page.items) }
{
    let needing = by_latest(alloc, &told.standstills)?;
    let by_hand = work_by_hand(alloc, told)?;
    let occurrences = by_spare(alloc, &told.occurrences)?;
    let mut page = Vec::new(alloc);
    put_head(&mut page, told, complete, by_hand.len(), view, watch)?;
    put_body(&mut page, told, watch, &needing, &by_hand, &occurrences)?;
    Ok(page)
}
