// What a request looks at: paths beside the routes, by which nothing changes.
ghost use Rattle.std.specs.Prelude.{◌≡◌, ◌≢◌, ◌<◌, ◌++◌, List, ℕ, length, IfOk, MatchOption};
ghost use Rattle.http_messages.specs.Looks.{IsLookOf, LooksAt, NoLook, detail_path, page_path};
ghost use Rattle.http_messages.specs.declared.looks.Detail.{Detail as DetailValue};
ghost use Rattle.http_messages.specs.declared.looks.Page.{Page as PageValue};

use crate::asking::Rejection;
use crate::bytes::{rest_after, unescaped};
use crate::queries::{BoardQuery, board_query, query_of};
use crate::routes::path_of;
use crate::statuses::Method;
use std::alloc::{AllocError, Global};

/// What is shown under one path alone.
#[derive(Clone, Copy)]
pub enum Page {
    /// The page that leads to all others.
    Front,
    /// The report of occurrences.
    Occurrences,
    /// The report of errors.
    Errors,
    /// The report of what is late.
    Late,
    /// The table of what is started.
    ShowStarted,
    /// The table of special resources and of who holds them.
    ShowResources,
    /// The table of workstations.
    ShowWorkstations,
    /// The table of trackers.
    ShowTrackers,
    /// What is started, as JSON.
    Started,
    /// Whether a plan is loaded, and its clock.
    Health,
    /// The forecast of the night.
    Forecast,
}

/// What is shown of one thing, by its name or its key.
#[derive(Clone, Copy)]
pub enum Detail {
    /// The report of what is ready on a workstation.
    Ready,
    /// Why an operation doesn't go on.
    Why,
    /// The same as a page of a browser.
    WhyPage,
    /// The table of an occurrence's operations.
    Operations,
    /// The same as a page of a browser.
    OperationsPage,
    /// What is started on a workstation, as JSON.
    Started,
    /// The table of an occurrence's dependencies.
    Dependencies,
    /// The table of what a rerun of an operation reaches.
    Reach,
    /// The table of a workstation's open intervals.
    Intervals,
}

/// What a request looks at.
#[derive(Drop)]
pub enum Look {
    /// What is shown under one path alone.
    Page(Page),
    /// The forecast of the night as a page of a browser, as its query asks for it.
    Board(BoardQuery),
    /// What is shown of one thing, by the bytes of its name or key, which may be none.
    Detail(Detail, Vec<u8>),
    /// What is wrong with this text of a request, which isn't asked.
    Judged(Vec<u8>),
}

// The page of a path, if it has one.
fn page_of(path: &[u8]) -> Option<Page>
    ensures { MatchOption result ((p : PageValue) → path.now ≢ page_path p) (λ p. path.now ≡ page_path p) }
{
    if path == "/".as_bytes() {
        return Some(Page::Front);
    }
    if path == "/report/occurrences".as_bytes() {
        return Some(Page::Occurrences);
    }
    if path == "/report/errors".as_bytes() {
        return Some(Page::Errors);
    }
    if path == "/report/late".as_bytes() {
        return Some(Page::Late);
    }
    if path == "/show/started".as_bytes() {
        return Some(Page::ShowStarted);
    }
    if path == "/show/resources".as_bytes() {
        return Some(Page::ShowResources);
    }
    if path == "/show/workstations".as_bytes() {
        return Some(Page::ShowWorkstations);
    }
    if path == "/show/trackers".as_bytes() {
        return Some(Page::ShowTrackers);
    }
    if path == "/started".as_bytes() {
        return Some(Page::Started);
    }
    if path == "/health".as_bytes() {
        return Some(Page::Health);
    }
    if path == "/forecast".as_bytes() {
        return Some(Page::Forecast);
    }
    None
}

// What is shown of one thing under a path, and the name or key that the path goes on with.
fn detail_of(path: &[u8]) -> Option<(Detail, &[u8])>
    ensures { MatchOption result ((d : DetailValue) (rest : List ℕ) → 0 < length rest → path.now ≢ detail_path d ++ rest) (λ found. (0 < length found.1.now) × (path.now ≡ detail_path found.0 ++ found.1.now)) }
{
    if let Some(rest) = rest_after(path, b"/report/ready/") {
        return Some((Detail::Ready, rest));
    }
    if let Some(rest) = rest_after(path, b"/why/") {
        return Some((Detail::Why, rest));
    }
    if let Some(rest) = rest_after(path, b"/page/why/") {
        return Some((Detail::WhyPage, rest));
    }
    if let Some(rest) = rest_after(path, b"/show/operations/") {
        return Some((Detail::Operations, rest));
    }
    if let Some(rest) = rest_after(path, b"/page/show/operations/") {
        return Some((Detail::OperationsPage, rest));
    }
    if let Some(rest) = rest_after(path, b"/started/") {
        return Some((Detail::Started, rest));
    }
    if let Some(rest) = rest_after(path, b"/show/dependencies/") {
        return Some((Detail::Dependencies, rest));
    }
    if let Some(rest) = rest_after(path, b"/show/reach/") {
        return Some((Detail::Reach, rest));
    }
    if let Some(rest) = rest_after(path, b"/show/intervals/") {
        return Some((Detail::Intervals, rest));
    }
    None
}

// What a target lets look at, if it does.
fn look_of(alloc: Global, target: &[u8]) -> Result<Option<Look>, AllocError>
    ensures { IfOk result (λ found. MatchOption found (NoLook target.now) (λ look. IsLookOf look target.now)) }
{
    let path = path_of(target);
    if let Some(page) = page_of(path) {
        return Ok(Some(Look::Page(page)));
    }
    if path == "/board".as_bytes() {
        return Ok(Some(Look::Board(board_query(alloc, query_of(target))?)));
    }
    match detail_of(path) {
        Some((detail, rest)) => Ok(Some(Look::Detail(detail, unescaped(alloc, rest)?))),
        None => Ok(None),
    }
}

/// What the first line of a request looks at, or that it does so by another method; none where its path is no look's.
pub(crate) fn look_of_line(
    alloc: Global,
    method: &[u8],
    target: &[u8],
) -> Result<Option<Result<Look, Rejection>>, AllocError>
    ensures { IfOk result (λ found. MatchOption found (NoLook target.now) (LooksAt method.now target.now)) }
{
    let Some(look) = look_of(alloc, target)? else {
        return Ok(None);
    };
    if method != Method::Get.as_str().as_bytes() {
        return Ok(Some(Err(Rejection::OtherMethod(Method::Get))));
    }
    Ok(Some(Ok(look)))
}
