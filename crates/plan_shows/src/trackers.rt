// Trackers, each with the last of its requests that was accepted.
ghost use Rattle.std.specs.Prelude.{IfOk};
ghost use Rattle.plan_shows.specs.Trackers.{AreTrackerViews, IsAskedBy, IsTrackerView};

use plan_basics::TrackerName;
use request_json::{Request, read_report};
use std::alloc::{AllocError, Global};
use tracker_receipts::{Receipt, Receipts};

/// A tracker, with the last of its requests that was accepted.
#[derive(Drop)]
pub struct TrackerView {
    pub tracker: TrackerName,
    /// The number that the tracker gave to it.
    pub number: u64,
    /// What it asks; `None` where its text is no report.
    pub request: Option<Request>,
}

// What a text asks as the report of a tracker, if it is one.
fn asked_by(alloc: Global, text: &[u8]) -> Result<Option<Request>, AllocError>
    ensures { IfOk result (IsAskedBy text.now) }
{
    match read_report(alloc, text) {
        Ok(Some(numbered)) => Ok(Some(numbered.request)),
        Ok(None) => Ok(None),
        Err(_) => Err(AllocError),
    }
}

// What is shown of a tracker.
fn tracker_view(alloc: Global, row: &(TrackerName, Receipt)) -> Result<TrackerView, AllocError>
    ensures { IfOk result (IsTrackerView row.now) }
{
    Ok(TrackerView {
        tracker: row.0,
        number: row.1.number(),
        request: asked_by(alloc, row.1.text())?,
    })
}

/// All trackers that have a receipt, by name. It fails for want of memory only.
pub(crate) fn tracker_views(
    alloc: Global,
    receipts: &Receipts,
) -> Result<Vec<TrackerView>, AllocError>
    ensures { IfOk result (λ views. AreTrackerViews receipts.now views.items) }
{
    let mut views = Vec::new(alloc);
    for row in receipts.rows() {
        views.push(tracker_view(alloc, row)?)?;
    }
    Ok(views)
}
