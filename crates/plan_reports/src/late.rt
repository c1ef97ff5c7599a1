// The operations that are late.
ghost use Rattle.std.specs.Prelude.{◌≡◌, IfOk, filter};
ghost use Rattle.plan_reports.specs.Late.{AreLateViews, is_late};

use desk_tables::{OpView, Ops, Plan};
use plan_basics::Moment;
use std::alloc::{AllocError, Global};

// Whether an operation waits, is arriving or ready, and its latest start is before the clock.
fn is_late(clock: Moment, view: &OpView) -> bool
    ensures { result ≡ is_late clock view.now }
{
    view.status.is_waiting_or_ready() && view.latest < clock.minute()
}

// Those of these operations that are late.
fn late_among(alloc: Global, ops: Ops<'_>, clock: Moment) -> Result<Vec<OpView>, AllocError>
    ensures { IfOk result (λ late. late.items ≡ filter (is_late clock) ops.entry) }
{
    ops.filter(|view| is_late(clock, view)).collect(alloc)
}

/// The operations of a plan that are late, by latest start and then key. It fails for want of memory only.
pub(crate) fn late_views(alloc: Global, plan: &Plan) -> Result<Vec<OpView>, AllocError>
    ensures { IfOk result (λ late. AreLateViews plan.now.plan late.items) }
{
    let mut late = late_among(alloc, plan.ops(), plan.clock())?;
    late.sort_by_key(|view| (view.latest, view.key))?;
    Ok(late)
}
