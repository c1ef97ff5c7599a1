// Snapshots of what is kept by place.
ghost use Rattle.std.specs.Prelude.{◌≡◌, ◌<◌, All, IfOk, length};
ghost use Rattle.std.specs.FinMap.{entries};
ghost use Rattle.plan_model.specs.Contents.{Contents};
ghost use Rattle.plan_checks.specs.derived_figures.specs.Entries.{CanBeRelisted};
ghost use Rattle.small_requests.specs.Columns.{AreAlike, AreSizedBy, GoesByStatuses, IsSnapshotOf, MakesOf};
ghost use Rattle.small_requests.specs.declared.columns.FigureColumns.{FigureColumns as FigureColumnsValue};

use super::columns::FigureColumns;
use super::values::{occurrences_at, put_at, values_at};
use plan_checks::{Standing, UncountedContents, relist_all};
use ready_list::{ReadyEntry, ReadyList};
use satisfaction::WaitState;
use status_rules::{Counts, Status};
use std::alloc::{AllocError, Global};

/// What columns have at some places of operations, and at those of their occurrences.
// Right columns of two plans agree where nothing is touched: so what stands at touched places leads there and back.
#[derive(Drop)]
pub struct Snapshot {
    pub wait_states: Vec<(usize, WaitState)>,
    pub standings: Vec<(usize, Standing)>,
    pub statuses: Vec<(usize, Status)>,
    pub tallies: Vec<(usize, Counts)>,
}

/// What the columns, which have a row for each operation and each occurrence of the plan, have at these places.
pub fn snapshot_of(
    alloc: Global,
    uncounted: &UncountedContents<'_>,
    columns: &FigureColumns,
    places: &[usize],
) -> Result<Snapshot, AllocError>
    requires sized { AreSizedBy uncounted.now.contents.now columns.now }
    requires within { All (λ i. i < length (entries uncounted.now.contents.now.operations)) places.now }
    ensures { IfOk result (IsSnapshotOf uncounted.now.contents.now places.now columns.now) }
{
    let occurrences = occurrences_at(alloc, uncounted, places)?;
    Ok(Snapshot {
        wait_states: values_at(alloc, &columns.wait_states, places)?,
        standings: values_at(alloc, &columns.standings, places)?,
        statuses: values_at(alloc, &columns.statuses, places)?,
        tallies: values_at(alloc, &columns.tallies, &occurrences)?,
    })
}

/// Writes a snapshot into columns; the ready list, which goes by the statuses, follows by the entries of the operations whose
/// statuses these are. Nothing of the plan is looked at, and it takes no memory.
pub fn put_snapshot(
    columns: &mut FigureColumns,
    ready: &mut ReadyList,
    snapshot: &Snapshot,
    entries: &[ReadyEntry],
)
    requires makes { (to : FigureColumnsValue) × MakesOf snapshot.now columns.old to }
    requires listed { (P : Contents) × CanBeRelisted P columns.old.statuses.items ready.old snapshot.now.statuses.items entries.now }
    ensures alike { (to : FigureColumnsValue) → MakesOf snapshot.now columns.old to → AreAlike columns.new to }
    ensures ready { (P : Contents) → CanBeRelisted P columns.old.statuses.items ready.old snapshot.now.statuses.items entries.now → GoesByStatuses P columns.new.statuses.items ready.new }
{
    put_at(&mut columns.wait_states, &snapshot.wait_states);
    put_at(&mut columns.standings, &snapshot.standings);
    relist_all(&mut columns.statuses, ready, &snapshot.statuses, entries);
    put_at(&mut columns.tallies, &snapshot.tallies);
}
