// What the looks ahead of a desk are shown: the text of its plan's forecast from the clock on, and the board's page of it. The
// forecast runs in a copy of the plan.
ghost use Rattle.std.specs.Prelude.{◌≡◌, Err, IfErr, IfOk, IsErr, MatchResult, None, Some};
ghost use Rattle.board_pages.specs.Boards.{IsBoard};
ghost use Rattle.board_pages.specs.forecast_texts.specs.Texts.{IsForecastText};
ghost use Rattle.board_pages.specs.forecast_texts.specs.plan_outlooks.specs.forecasting.specs.Known.{since_in};
ghost use Rattle.http_messages.specs.Replies.{page_reply};
ghost use Rattle.http_messages.specs.declared.statuses.Status.{Status};
ghost use Rattle.plan_basics.specs.declared.Refusal.{Refusal};
ghost use Rattle.plan_reports.specs.Reports.{IsOwed, refusal_of};
ghost use Rattle.desk_serving.specs.Shown.{board_refusal_of, moment_of, refused_page_reply, until_refusal_of, view_of, ShowsBoard, ShowsForecast};

use super::showing::text_shown;
use board_pages::{KnownStarts, View, Watch, board_made, forecast_made};
use html_pages::refused_page;
use http_messages::{BoardQuery, Status, Until, page_reply_bytes};
use plan_basics::{Moment, Refusal};
use plan_records::Reply;
use plan_reports::{Desk, loaded_plan};
use sqlite::Alter;
use std::alloc::{AllocError, Global};
use tracker_http::Told;

// The text of the forecast of a desk's plan. Refused as the desk owes it, or else as `Memory`.
fn forecast_ahead<S: Alter + Drop>(desk: &Desk<S>, known: &KnownStarts) -> Result<Vec<u8>, Refusal>
    ensures text { IfOk result (λ text. IsForecastText desk.now.plan (since_in known.now) desk.now.plan.clock None text.items) }
    ensures none_owed { IfOk result (λ text. refusal_of desk.now.is_usable desk.now.plan ≡ None) }
    ensures refused { IfErr result (IsOwed (refusal_of desk.now.is_usable desk.now.plan)) }
{
    let plan = loaded_plan(desk)?;
    forecast_made(plan, known, plan.clock(), None)
}

// The moment up to which the board is asked to tell at this clock, if it is one. Refused where it is none, or before the clock.
fn until_asked(until: Until, clock: Moment) -> Result<Option<Moment>, Refusal>
    ensures moment { IfOk result (λ moment. moment ≡ moment_of until) }
    ensures none_owed { IfOk result (λ moment. until_refusal_of clock until ≡ None) }
    ensures refused { IfErr result (λ r. until_refusal_of clock until ≡ Some r) }
{
    match until {
        Until::End => Ok(None),
        Until::NoMoment => Err(Refusal::MomentRange),
        Until::Moment(moment) => {
            if moment < clock {
                return Err(Refusal::Past);
            }
            Ok(Some(moment))
        }
    }
}

// The board's page of the forecast of a desk's plan, as it is asked for. Refused as the desk owes it, or else as `Memory`.
fn board_ahead<S: Alter + Drop>(
    desk: &Desk<S>,
    known: &KnownStarts,
    query: BoardQuery,
    watch: &Option<Watch>,
) -> Result<Vec<u8>, Refusal>
    ensures page { IfOk result (λ page. IsBoard desk.now.plan (since_in known.now) desk.now.plan.clock (view_of query) watch.now page.items) }
    ensures none_owed { IfOk result (λ page. board_refusal_of desk.now.is_usable desk.now.plan query.until ≡ None) }
    ensures refused { IfErr result (IsOwed (board_refusal_of desk.now.is_usable desk.now.plan query.until)) }
{
    let plan = loaded_plan(desk)?;
    let until = until_asked(query.until, plan.clock())?;
    let view = View {
        is_still: query.is_still,
        until,
    };
    board_made(plan, known, plan.clock(), view, watch)
}

/// The text of the forecast of a desk's plan, or why there is none. It fails for want of memory only.
pub fn forecast_shown<S: Alter + Drop>(
    alloc: Global,
    desk: &Desk<S>,
    known: &KnownStarts,
) -> Result<Vec<u8>, AllocError>
    ensures { IfOk result (λ output. ShowsForecast (since_in known.now) desk.now output.items) }
{
    text_shown(alloc, forecast_ahead(desk, known))
}

// The reply that tells as a page why there is no board, which loads again unless it is to be still. It fails for want of memory only.
fn refusal_told(alloc: Global, refusal: Refusal, is_still: bool) -> Result<Vec<u8>, AllocError>
    ensures { IfOk result (λ output. output.items ≡ refused_page_reply is_still refusal) }
{
    let page = refused_page(alloc, refusal, is_still)?;
    page_reply_bytes(alloc, Told::Answer(Reply::Refused(refusal)).status(), &page)
}

// The reply that tells a page, or why there is none. It fails for want of memory only.
fn page_told(
    alloc: Global,
    made: Result<Vec<u8>, Refusal>,
    is_still: bool,
) -> Result<Vec<u8>, AllocError>
    ensures shown { IfOk result (λ output. MatchResult made (λ page. output.items ≡ page_reply Status.Success page.items) (λ r. output.items ≡ refused_page_reply is_still r)) }
    ensures memory { made ≡ Err Refusal.Memory → IsErr result }
{
    match made {
        Ok(page) => page_reply_bytes(alloc, Status::Success, &page),
        Err(Refusal::Memory) => Err(AllocError),
        Err(refusal) => refusal_told(alloc, refusal, is_still),
    }
}

/// The board's page of the forecast of a desk's plan, as it is asked for, or why there is none. It fails for want of memory only.
pub fn board_shown<S: Alter + Drop>(
    alloc: Global,
    desk: &Desk<S>,
    known: &KnownStarts,
    query: BoardQuery,
    watch: &Option<Watch>,
) -> Result<Vec<u8>, AllocError>
    ensures { IfOk result (λ output. ShowsBoard (since_in known.now) query watch.now desk.now output.items) }
{
    let is_still = query.is_still;
    page_told(alloc, board_ahead(desk, known, query, watch), is_still)
}
