// The board's page of a forecast of a plan.
ghost use Rattle.std.specs.Prelude.{◌≡◌, ◌⊎◌, IfErr, IfOk, filter};
ghost use Rattle.board_pages.specs.Boards.{IsBoard, IsCompleteCount, is_complete};
ghost use Rattle.plan_basics.specs.declared.Refusal.{Refusal};
ghost use Rattle.forecast_texts.specs.plan_outlooks.specs.plan_forecast.specs.Ahead.{tick};
ghost use Rattle.forecast_texts.specs.plan_outlooks.specs.forecasting.specs.Known.{since_in};
ghost use Rattle.forecast_texts.specs.plan_outlooks.specs.plan_records.specs.Answer.{refused};
ghost use Rattle.forecast_texts.specs.plan_outlooks.specs.plan_records.specs.Step.{Step};

use super::pages::board_page;
use super::views::{View, Watch};
use forecast_texts::{KnownStarts, OpView, Ops, Plan, outlooks};
use plan_basics::{Moment, Refusal};
use status_rules::Status;
use std::alloc::{AllocError, Global};

// Whether a status is complete.
fn is_complete(status: Status) -> bool
    ensures { result ≡ is_complete status }
{
    matches!(status, Status::Complete)
}

// Those of these operations that are complete.
fn complete_among(alloc: Global, ops: Ops<'_>) -> Result<Vec<OpView>, AllocError>
    ensures { IfOk result (λ views. views.items ≡ filter (λ v. is_complete v.status) ops.entry) }
{
    ops.filter(|view| is_complete(view.status)).collect(alloc)
}

// How many operations of a plan are complete.
fn complete_count(alloc: Global, plan: &Plan) -> Result<usize, AllocError>
    ensures { IfOk result (IsCompleteCount plan.now.plan.contents) }
{
    let complete = complete_among(alloc, plan.ops())?;
    Ok(complete.len())
}

/// The board's page of a forecast of a plan, looked at so at a desk that knows this, by what is known of starts, from a moment on. The
/// plan stays as it is. Refused as a tick at the first moment is, else as `Memory`.
pub fn board_made(
    plan: &Plan,
    known: &KnownStarts,
    from: Moment,
    view: View,
    watch: &Option<Watch>,
) -> Result<Vec<u8>, Refusal>
    ensures page { IfOk result (λ page. IsBoard plan.now.plan (since_in known.now) from view watch.now page.items) }
    ensures refused { IfErr result (λ r. (r ≡ Refusal.Memory) ⊎ Step plan.now.plan (tick from) (refused r) plan.now.plan) }
{
    let told = outlooks(plan, known, from, view.until)?;
    let alloc = plan.alloc();
    let complete = complete_count(alloc, plan)?;
    Ok(board_page(alloc, &told, complete, view, watch)?)
}
