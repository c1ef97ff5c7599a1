// What is worked out of an edit before the figures are written.
ghost use Rattle.std.specs.Prelude.{◌≡◌, ◌≤◌, ℤ, List, [], IfErr, IfOk, OnOk, length, vec_capacity};
ghost use Rattle.plan_basics.specs.declared.Refusal.{Refusal};
ghost use Rattle.plan_basics.specs.declared.keys.OpKey.{OpKey as OpKeyValue};
ghost use Rattle.plan_rows.specs.Touched.{IsFacilityChange};
ghost use Rattle.small_requests.specs.Revisions.{written};
ghost use Rattle.plan_model.specs.Contents.{Contents};
ghost use Rattle.plan_checks.specs.derived_figures.specs.Overwritten.{overwritten};
ghost use Rattle.small_requests.specs.Columns.{AreAlike, AreAllocationsOf, figures_of};
ghost use Rattle.small_requests.specs.Edits.{WasEdited};
ghost use Rattle.small_requests.specs.Groundworks.{IsCounted, IsGroundwork};
ghost use Rattle.ready_list.specs.Entries.{ReadyEntries};

use super::columns::{Allocations, FigureColumns};
use super::edits::Edit;
use super::snapshots::{Snapshot, snapshot_of};
use super::wait_changes::{WaitChange, recount};
use operation_graph::Graph;
use plan_basics::Refusal;
use plan_checks::{CountedRecords, retake};
use plan_rows::FacilityChange;
use ready_list::ReadyEntry;
use satisfaction::WaitState;
use std::alloc::Global;

/// What is worked out of an edit before columns are written.
#[derive(Drop)]
pub struct Groundwork {
    /// The indices, ascending, of the operations that it touches.
    pub touched: Vec<usize>,
    /// What is to be kept of them.
    pub wait_states: Vec<(usize, WaitState)>,
    /// What the columns have there before.
    pub old: Snapshot,
    /// What it may change beside operations.
    pub facilities: FacilityChange,
}

/// What is worked out of an edit before columns are written, with room for an entry of each operation that it touches: the columns
/// are then as they were, and what is given out and held is what it is after the edit. It takes two looks at each edit, and those
/// of the cascades. The error is always `Memory`.
pub fn groundwork_of(
    alloc: Global,
    graph: &Graph,
    records: &mut CountedRecords,
    edit: &Edit,
    columns: &mut FigureColumns,
    allocations: &mut Allocations,
) -> Result<(Groundwork, Vec<ReadyEntry>), Refusal>
    requires { (P : Contents) × (starts : List ℤ) × (ready : ReadyEntries) × WasEdited P records.old.contents edit.now graph.now starts (figures_of columns.old ready allocations.old) }
    ensures unchanged { AreAlike columns.new columns.old }
    ensures groundwork { IfOk result (λ g. IsGroundwork records.old.contents edit.now.places.items columns.new g.0) }
    ensures facilities { IfOk result (λ g. (keys : List OpKeyValue) (P : Contents) → IsFacilityChange g.0.facilities P (written keys edit.now.revision P)) }
    ensures none_noted { IfOk result (λ g. g.1.items ≡ []) }
    ensures space { IfOk result (λ g. length g.0.touched.items ≤ vec_capacity g.1) }
    ensures allocations { OnOk result (AreAllocationsOf records.old.contents allocations.new) }
    ensures contents { records.new.contents ≡ records.old.contents }
    ensures fewest { records.old.looks ≤ records.new.looks }
    ensures counted { IfOk result (λ g. IsCounted records.old.contents edit.now 2 columns.new.wait_states.items (overwritten g.0.wait_states.items columns.new.wait_states.items) g.0.touched.items records.old.looks records.new.looks) }
    ensures refused { IfErr result (λ r. r ≡ Refusal.Memory) }
{
    let WaitChange {
        touched,
        wait_states,
    } = recount(alloc, graph, records, edit, &mut columns.wait_states)?;
    retake(
        records,
        &mut allocations.given,
        &mut allocations.holdings,
        &edit.places,
        &edit.marks,
    )?;
    let old = snapshot_of(alloc, &records.uncounted(), columns, &touched)?;
    let entries = Vec::with_capacity(alloc, touched.len())?;
    let groundwork = Groundwork {
        touched,
        wait_states,
        old,
        facilities: edit.revision.facility_change(),
    };
    Ok((groundwork, entries))
}
