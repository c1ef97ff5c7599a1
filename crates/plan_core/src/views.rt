// What is read off the plan for one operation or one occurrence.
ghost use Rattle.std.specs.Prelude.{◌≡◌, ◌<◌, Some, length, slice_get};
ghost use Rattle.std.specs.FinMap.{entries};
ghost use Rattle.plan_opening.specs.plan_rows.specs.Sources.{IsSource};
ghost use Rattle.plan_core.specs.Views.{op_views, occ_views};

use plan_basics::{Moment, OccKey, OpKey, WsName};
use plan_opening::{RowSource, occurrence_status_with};
use status_rules::{Mark, OccStatus, Status};

/// An operation of the plan, with what is read off the plan for it.
#[derive(Clone, Copy)]
pub struct OpView {
    pub key: OpKey,
    pub workstation: WsName,
    /// In minutes.
    pub duration: u16,
    /// How much of the fixed resource R1 it takes.
    pub r1: u8,
    /// How much of the fixed resource R2 it takes.
    pub r2: u8,
    /// It doesn't start before this moment.
    pub not_before: Moment,
    pub deadline: Moment,
    pub mark: Mark,
    /// An operator holds it.
    pub held: bool,
    /// It is a no-operation.
    pub nop: bool,
    /// Its occurrence's priority, from 1 (low) to 9 (urgent).
    pub priority: u8,
    pub status: Status,
    /// In minutes from 1972-01-01T00:00; it may lie before that. To end by its deadline and leave time for all that comes
    /// after it, the operation has to start by then.
    pub latest: i64,
    /// How many of its predecessors are neither deleted nor satisfied.
    pub waiting: u32,
}

/// An occurrence of the plan, with what is read off the plan for it.
#[derive(Clone, Copy)]
pub struct OccView {
    pub key: OccKey,
    /// From 1 (low) to 9 (urgent).
    pub priority: u8,
    pub deadline: Moment,
    pub status: OccStatus,
    /// How many operations it has.
    pub operations: u32,
    /// How many of them are complete.
    pub complete: u32,
}

/// The view of the operation at an index.
pub(crate) fn op_view(source: RowSource<'_>, place: usize) -> OpView
    requires source { IsSource source }
    requires within { place < length (entries source.contents.now.operations) }
    ensures { slice_get (op_views source.entry) place ≡ Some result }
{
    let (key, operation) = source.contents.operations()[place];
    let occurrence = source.contents.occurrence(&key.occurrence).unwrap();
    OpView {
        key,
        workstation: operation.workstation,
        duration: operation.duration,
        r1: operation.r1,
        r2: operation.r2,
        not_before: operation.not_before,
        deadline: operation.deadline,
        mark: operation.mark,
        held: operation.held,
        nop: operation.nop,
        priority: occurrence.priority,
        status: source.statuses[place],
        latest: source.latest.of(place),
        waiting: source.standings[place].waiting,
    }
}

/// The view of the occurrence at an index.
pub(crate) fn occ_view(source: RowSource<'_>, place: usize) -> OccView
    requires source { IsSource source }
    requires within { place < length (entries source.contents.now.occurrences) }
    ensures { slice_get (occ_views source.entry) place ≡ Some result }
{
    let (key, terms) = source.contents.occurrences()[place];
    let counts = source.tallies[place];
    OccView {
        key,
        priority: terms.priority,
        deadline: terms.deadline,
        status: occurrence_status_with(counts),
        operations: counts.all,
        complete: counts.complete,
    }
}
