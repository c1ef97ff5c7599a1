// What follows from an edit that is written, worked out in what is kept by place.
ghost use Rattle.std.specs.Prelude.{◌≡◌, ◌≤◌, ℕ, List, [], IfErr, IfOk, length, vec_capacity};
ghost use Rattle.plan_basics.specs.declared.Refusal.{Refusal};
ghost use Rattle.plan_model.specs.Contents.{Contents};
ghost use Rattle.plan_model.specs.Ready.{IsChosen, named as named_in};
ghost use Rattle.plan_checks.specs.derived_figures.specs.Figures.{KeepsFrame};
ghost use Rattle.small_requests.specs.StepLooks.{IsStepLooked};
ghost use Rattle.plan_rows.specs.Notes.{operations_noted};
ghost use Rattle.small_requests.specs.Columns.{AreAlike, AreAllocationsOf, IsReadyListOf};
ghost use Rattle.small_requests.specs.Effects.{IsMovedStepOf, WasEditedIn};
ghost use Rattle.small_requests.specs.Groundworks.{HasGroundwork};
ghost use Rattle.small_requests.specs.Naming.{AreStepNotes};
ghost use Rattle.small_requests.specs.FigureChanges.{IsFigureChange};

use super::column_moves::move_columns;
use super::columns::{Allocations, FigureColumns};
use super::edits::Edit;
use super::groundwork::{Groundwork, groundwork_of};
use super::named_steps::{SmallStep, named_step};
use super::snapshots::put_snapshot;
use super::step_context::{StepContext, TouchedByEdit};
use plan_basics::Refusal;
use plan_checks::CountedRecords;
use ready_list::{ReadyEntry, ReadyList};

// What follows from an edit of which this was worked out, with room for the entries of what it touched: columns and the ready list are
// moved on by a look at each of these places, and back then. It gives the same back, by which columns stay, and the ready list is that
// of the plan before. The error is always `Memory`.
fn moved_step(
    context: &StepContext<'_>,
    after: CountedRecords,
    columns: &mut FigureColumns,
    ready: &mut ReadyList,
    allocations: Allocations,
    groundwork_with_room: (Groundwork, Vec<ReadyEntry>),
) -> (CountedRecords, Result<SmallStep, Refusal>)
    requires groundwork { (P : Contents) × (edits : List ℕ) × HasGroundwork P after.contents edits context.now.latest.now.starts columns.old ready.old groundwork_with_room.0 }
    requires allocations { AreAllocationsOf after.contents allocations }
    requires none_noted { groundwork_with_room.1.items ≡ [] }
    requires space { length groundwork_with_room.0.touched.items ≤ vec_capacity groundwork_with_room.1 }
    ensures contents { result.0.contents ≡ after.contents }
    ensures unchanged { AreAlike columns.new columns.old }
    ensures ready { (P : Contents) (edits : List ℕ) → HasGroundwork P after.contents edits context.now.latest.now.starts columns.old ready.old groundwork_with_room.0 → IsReadyListOf P ready.new }
    ensures step { IfOk result.1 (IsMovedStepOf after.contents context.now.at groundwork_with_room.0.touched.items groundwork_with_room.0.facilities after.looks result.0.looks) }
    ensures refused { IfErr result.1 (λ r. r ≡ Refusal.Memory) }
{
    let (groundwork, mut entries) = groundwork_with_room;
    let mut moved = after;
    move_columns(
        &mut moved,
        context.latest,
        columns,
        ready,
        &groundwork,
        &mut entries,
    );
    let edited = TouchedByEdit {
        places: &groundwork.touched,
        entries: &entries,
        facilities: groundwork.facilities,
    };
    let (same, step) = named_step(context, moved, columns, ready, allocations, edited);
    put_snapshot(columns, ready, &groundwork.old, &entries);
    (same, step)
}

/// What follows once an edit has made these records of those of a plan, whose columns these are, which stay. It gives the same back, and
/// the ready list is that of the plan before still. The error is always `Memory`.
pub fn step_after(
    context: &StepContext<'_>,
    after: CountedRecords,
    columns: &mut FigureColumns,
    ready: &mut ReadyList,
    allocations: Allocations,
    edit: &Edit,
) -> (CountedRecords, Result<SmallStep, Refusal>)
    requires { (P : Contents) × WasEditedIn P after.contents edit.now context.now columns.old ready.old allocations }
    ensures contents { result.0.contents ≡ after.contents }
    ensures unchanged { AreAlike columns.new columns.old }
    ensures ready { (P : Contents) → WasEditedIn P after.contents edit.now context.now columns.old ready.old allocations → IsReadyListOf P ready.new }
    ensures chosen { IfOk result.1 (λ s. IsChosen after.contents context.now.at s.named.items) }
    ensures figure_change { IfOk result.1 (λ s. (P : Contents) → WasEditedIn P after.contents edit.now context.now columns.old ready.old allocations → IsFigureChange P (named_in s.named.items after.contents) s.figure_change) }
    ensures frame { IfOk result.1 (λ s. (P : Contents) → WasEditedIn P after.contents edit.now context.now columns.old ready.old allocations → KeepsFrame P (named_in s.named.items after.contents)) }
    ensures notes { IfOk result.1 (λ s. (P : Contents) → WasEditedIn P after.contents edit.now context.now columns.old ready.old allocations → AreStepNotes P (named_in s.named.items after.contents) s.notes) }
    ensures looked { IfOk result.1 (λ s. (P : Contents) → WasEditedIn P after.contents edit.now context.now columns.old ready.old allocations → IsStepLooked P after.contents edit.now.is_rerun edit.now.places.items s.named.items (operations_noted s.notes) after.looks result.0.looks) }
    ensures refused { IfErr result.1 (λ r. r ≡ Refusal.Memory) }
{
    let mut allocations = allocations;
    let mut records = after;
    let StepContext { alloc, graph, .. } = *context;
    match groundwork_of(alloc, graph, &mut records, edit, columns, &mut allocations) {
        Ok(groundwork_with_room) => moved_step(
            context,
            records,
            columns,
            ready,
            allocations,
            groundwork_with_room,
        ),
        Err(refusal) => (records, Err(refusal)),
    }
}
