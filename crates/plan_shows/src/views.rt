// Lists of operations, in key order.
ghost use Rattle.std.specs.Prelude.{◌≡◌, IfOk, filter};
ghost use Rattle.plan_shows.specs.Views.{AreViewsOf, IsOfOccurrence, IsStarted, IsStartedOn, is_of_occurrence, is_started, is_started_on};

use plan_basics::{OccKey, WsName};
use plan_reasons::{OpView, Ops, Plan};
use status_rules::Status;
use std::alloc::{AllocError, Global};

// Whether a status is started.
fn is_started(status: Status) -> bool
    ensures { result ≡ is_started status }
{
    matches!(status, Status::Started)
}

// Whether an operation is started on a workstation.
fn is_started_on(workstation: &WsName, view: &OpView) -> bool
    ensures { result ≡ is_started_on workstation.now view.now }
{
    is_started(view.status) && view.workstation.cmp(workstation).is_eq()
}

// Whether an operation is one of an occurrence.
fn is_of_occurrence(occurrence: &OccKey, view: &OpView) -> bool
    ensures { result ≡ is_of_occurrence occurrence.now view.now }
{
    view.key.occurrence.order(occurrence).is_eq()
}

// Those of these operations that are started.
fn started_among(alloc: Global, ops: Ops<'_>) -> Result<Vec<OpView>, AllocError>
    ensures { IfOk result (λ views. views.items ≡ filter (λ v. is_started v.status) ops.entry) }
{
    ops.filter(|view| is_started(view.status)).collect(alloc)
}

// Those of them that are on a workstation.
fn started_on_among(
    alloc: Global,
    ops: Ops<'_>,
    workstation: &WsName,
) -> Result<Vec<OpView>, AllocError>
    ensures { IfOk result (λ views. views.items ≡ filter (is_started_on workstation.now) ops.entry) }
{
    ops.filter(|view| is_started_on(workstation, view))
        .collect(alloc)
}

// Those of these operations that are of an occurrence.
fn of_occurrence_among(
    alloc: Global,
    ops: Ops<'_>,
    occurrence: &OccKey,
) -> Result<Vec<OpView>, AllocError>
    ensures { IfOk result (λ views. views.items ≡ filter (is_of_occurrence occurrence.now) ops.entry) }
{
    ops.filter(|view| is_of_occurrence(occurrence, view))
        .collect(alloc)
}

/// The operations of a plan that are started, in key order. It fails for want of memory only.
pub(crate) fn started_views(alloc: Global, plan: &Plan) -> Result<Vec<OpView>, AllocError>
    ensures { IfOk result (λ views. AreViewsOf plan.now.plan.contents (IsStarted plan.now.plan.contents) views.items) }
{
    let _ = plan.clock();
    let views = started_among(alloc, plan.ops())?;
    Ok(views)
}

/// Those that are on a workstation.
pub(crate) fn started_views_on(
    alloc: Global,
    plan: &Plan,
    workstation: &WsName,
) -> Result<Vec<OpView>, AllocError>
    ensures { IfOk result (λ views. AreViewsOf plan.now.plan.contents (IsStartedOn plan.now.plan.contents workstation.now) views.items) }
{
    let _ = plan.clock();
    let views = started_on_among(alloc, plan.ops(), workstation)?;
    Ok(views)
}

/// The operations of an occurrence, in key order. It fails for want of memory only.
pub(crate) fn operation_views(
    alloc: Global,
    plan: &Plan,
    occurrence: &OccKey,
) -> Result<Vec<OpView>, AllocError>
    ensures { IfOk result (λ views. AreViewsOf plan.now.plan.contents (IsOfOccurrence plan.now.plan.contents occurrence.now) views.items) }
{
    let _ = plan.clock();
    let views = of_occurrence_among(alloc, plan.ops(), occurrence)?;
    Ok(views)
}
