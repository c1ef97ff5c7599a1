// What looks are shown: replies of the desk's plan, by which nothing changes.
ghost use Rattle.std.specs.Prelude.{◌≡◌, Err, IfErr, IfOk, IsErr, MatchResult, None, option_map};
ghost use Rattle.http_messages.specs.Replies.{text_reply};
ghost use Rattle.plan_reports.specs.plan_shows.specs.Values.{health_data, started_refusal_of, IsStartedText};
ghost use Rattle.plan_reports.specs.Reports.{IsOwed};
ghost use Rattle.plan_basics.specs.declared.Refusal.{Refusal};
ghost use Rattle.serde_json.specs.Written.{compact_text};
ghost use Rattle.desk_serving.specs.Shown.{owed_by, refusal_or, refused_reply, stood_in, value_reply, Shows, ShowsDetail, ShowsPage, ShowsReady, ShowsShow, ShowsStartedOn};

use super::forecasts::{board_shown, forecast_shown};
use super::judging::judged_shown;
use super::keyed::{operations_shown, why_shown};
use super::tables::{dependencies_shown, intervals_shown, reach_shown};
use super::terms::Terms;
use board_pages::Watch;
use html_pages::front_page;
use http_messages::{Detail, Look, Page, Status, page_reply_bytes, reply_bytes, text_reply_bytes};
use plan_basics::{Refusal, WsName};
use plan_records::Reply;
use plan_reports::{
    Desk, Show, errors_made, health_text, late_made, occurrences_made, ready_made, show_made,
    started_text,
};
use sqlite::Alter;
use std::alloc::{AllocError, Global};
use tracker_http::Told;

/// The reply that tells a refusal. It fails for want of memory only.
pub fn refused_shown(alloc: Global, refusal: Refusal) -> Result<Vec<u8>, AllocError>
    ensures { IfOk result (λ output. output.items ≡ refused_reply refusal) }
{
    Told::Answer(Reply::Refused(refusal)).reply(alloc)
}

/// The reply that tells a text, or why there is none. It fails for want of memory only.
pub fn text_shown(alloc: Global, made: Result<Vec<u8>, Refusal>) -> Result<Vec<u8>, AllocError>
    ensures shown { IfOk result (λ output. MatchResult made (λ text. output.items ≡ text_reply text.items) (λ r. output.items ≡ refused_reply r)) }
    ensures memory { made ≡ Err Refusal.Memory → IsErr result }
{
    match made {
        Ok(text) => text_reply_bytes(alloc, &text),
        Err(Refusal::Memory) => Err(AllocError),
        Err(refusal) => refused_shown(alloc, refusal),
    }
}

/// The reply that tells a value by its text, or why there is none. It fails for want of memory only.
pub fn value_shown(alloc: Global, made: Result<Vec<u8>, Refusal>) -> Result<Vec<u8>, AllocError>
    ensures shown { IfOk result (λ output. MatchResult made (λ text. output.items ≡ value_reply text.items) (λ r. output.items ≡ refused_reply r)) }
    ensures memory { made ≡ Err Refusal.Memory → IsErr result }
{
    match made {
        Ok(text) => reply_bytes(alloc, Status::Success, &text),
        Err(Refusal::Memory) => Err(AllocError),
        Err(refusal) => refused_shown(alloc, refusal),
    }
}

/// The refusal that the desk owes to whoever asks for what no plan has.
pub fn refusal_or<S: Alter + Drop>(desk: &Desk<S>, unknown: Refusal) -> Refusal
    ensures { result ≡ refusal_or unknown desk.now.is_usable desk.now.plan }
{
    if !desk.is_usable() {
        Refusal::Reopen
    } else if !desk.plan().is_loaded() {
        Refusal::NotLoaded
    } else {
        unknown
    }
}

// For how many minutes a plan's clock has stood, as far as it is known.
fn stood_in(watch: &Option<Watch>) -> u64
    ensures { result ≡ stood_in watch.now }
{
    match watch {
        Some(watch) => watch.stood,
        None => 0,
    }
}

// How the desk is, whose clock has stood for so many minutes, as JSON, or that it is to be opened again.
fn health_made<S: Alter + Drop>(
    alloc: Global,
    desk: &Desk<S>,
    stood: u64,
) -> Result<Vec<u8>, Refusal>
    ensures text { IfOk result (λ text. text.items ≡ compact_text (health_data stood desk.now.plan)) }
    ensures none_owed { IfOk result (λ text. owed_by desk.now.is_usable None ≡ None) }
    ensures refused { IfErr result (IsOwed (owed_by desk.now.is_usable None)) }
{
    if !desk.is_usable() {
        return Err(Refusal::Reopen);
    }
    Ok(health_text(alloc, desk.plan(), stood)?)
}

// What is started on a workstation, or on any, as JSON, or why there is none.
fn started_made<S: Alter + Drop>(
    alloc: Global,
    desk: &Desk<S>,
    workstation: Option<&WsName>,
) -> Result<Vec<u8>, Refusal>
    ensures text { IfOk result (λ text. IsStartedText (option_map (λ w. w.now) workstation.entry) desk.now.plan text.items) }
    ensures none_owed { IfOk result (λ text. owed_by desk.now.is_usable (started_refusal_of (option_map (λ w. w.now) workstation.entry) desk.now.plan) ≡ None) }
    ensures refused { IfErr result (IsOwed (owed_by desk.now.is_usable (started_refusal_of (option_map (λ w. w.now) workstation.entry) desk.now.plan))) }
{
    if !desk.is_usable() {
        return Err(Refusal::Reopen);
    }
    started_text(alloc, desk.plan(), workstation)
}

/// A show of the desk.
pub fn show_shown<S: Alter + Drop>(
    alloc: Global,
    desk: &Desk<S>,
    show: &Show,
) -> Result<Vec<u8>, AllocError>
    ensures { IfOk result (λ output. ShowsShow show.now desk.now output.items) }
{
    text_shown(alloc, show_made(alloc, desk, show))
}

// What is shown under one path alone.
fn page_shown<S: Alter + Drop>(
    alloc: Global,
    desk: &Desk<S>,
    page: Page,
    terms: &Terms,
) -> Result<Vec<u8>, AllocError>
    ensures { IfOk result (λ output. ShowsPage terms.now page desk.now output.items) }
{
    match page {
        Page::Front => page_reply_bytes(alloc, Status::Success, &front_page(alloc)?),
        Page::Occurrences => text_shown(alloc, occurrences_made(alloc, desk)),
        Page::Errors => text_shown(alloc, errors_made(alloc, desk)),
        Page::Late => text_shown(alloc, late_made(alloc, desk)),
        Page::ShowStarted => show_shown(alloc, desk, &Show::Started),
        Page::ShowResources => show_shown(alloc, desk, &Show::Resources),
        Page::ShowWorkstations => show_shown(alloc, desk, &Show::Workstations),
        Page::ShowTrackers => show_shown(alloc, desk, &Show::Trackers),
        Page::Started => value_shown(alloc, started_made(alloc, desk, None)),
        Page::Health => value_shown(alloc, health_made(alloc, desk, stood_in(&terms.watch))),
        Page::Forecast => forecast_shown(alloc, desk, &terms.known),
    }
}

// What is ready on the workstation of this name, which may be no name.
fn ready_shown<S: Alter + Drop>(
    alloc: Global,
    desk: &Desk<S>,
    name: &[u8],
) -> Result<Vec<u8>, AllocError>
    ensures { IfOk result (λ output. ShowsReady name.now desk.now output.items) }
{
    match WsName::from_text(name) {
        Some(workstation) => text_shown(alloc, ready_made(alloc, desk, &workstation)),
        None => refused_shown(alloc, refusal_or(desk, Refusal::UnknownWorkstation)),
    }
}

// What is started on the workstation of this name, which may be no name.
fn started_shown<S: Alter + Drop>(
    alloc: Global,
    desk: &Desk<S>,
    name: &[u8],
) -> Result<Vec<u8>, AllocError>
    ensures { IfOk result (λ output. ShowsStartedOn name.now desk.now output.items) }
{
    match WsName::from_text(name) {
        Some(workstation) => value_shown(alloc, started_made(alloc, desk, Some(&workstation))),
        None => refused_shown(alloc, refusal_or(desk, Refusal::UnknownWorkstation)),
    }
}

// What is shown of one thing, by its name or its key, which may be none.
fn detail_shown<S: Alter + Drop>(
    alloc: Global,
    desk: &Desk<S>,
    detail: Detail,
    name: &[u8],
) -> Result<Vec<u8>, AllocError>
    ensures { IfOk result (λ output. ShowsDetail detail name.now desk.now output.items) }
{
    match detail {
        Detail::Ready => ready_shown(alloc, desk, name),
        Detail::Why => why_shown(alloc, desk, name, false),
        Detail::WhyPage => why_shown(alloc, desk, name, true),
        Detail::Operations => operations_shown(alloc, desk, name, false),
        Detail::OperationsPage => operations_shown(alloc, desk, name, true),
        Detail::Started => started_shown(alloc, desk, name),
        Detail::Dependencies => dependencies_shown(alloc, desk, name),
        Detail::Reach => reach_shown(alloc, desk, name),
        Detail::Intervals => intervals_shown(alloc, desk, name),
    }
}

/// What a look is shown by these terms. It fails for want of memory only.
pub fn look_shown<S: Alter + Drop>(
    alloc: Global,
    desk: &Desk<S>,
    look: &Look,
    terms: &Terms,
) -> Result<Vec<u8>, AllocError>
    ensures { IfOk result (λ output. Shows terms.now look.now desk.now output.items) }
{
    match look {
        Look::Page(page) => page_shown(alloc, desk, *page, terms),
        Look::Board(query) => board_shown(alloc, desk, &terms.known, *query, &terms.watch),
        Look::Detail(detail, name) => detail_shown(alloc, desk, *detail, name),
        Look::Judged(text) => judged_shown(alloc, desk, text),
    }
}
