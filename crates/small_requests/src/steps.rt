// What a small request leads to, worked out in the plan's own contents and figures.
ghost use Rattle.std.specs.Prelude.{◌≡◌, IfErr, IfOk};
ghost use Rattle.plan_basics.specs.declared.Refusal.{Refusal};
ghost use Rattle.plan_checks.specs.start_choice.specs.Choices.{AreLatestStarts};
ghost use Rattle.plan_drafts.specs.PlanGraphs.{IsGraphFor};
ghost use Rattle.plan_model.specs.Contents.{Contents};
ghost use Rattle.plan_model.specs.Ready.{IsChosen, named as named_in};
ghost use Rattle.plan_checks.specs.derived_figures.specs.Figures.{AreFigures, KeepsFrame};
ghost use Rattle.small_requests.specs.StepLooks.{IsStepLooked};
ghost use Rattle.plan_rows.specs.Notes.{operations_noted};
ghost use Rattle.small_requests.specs.Columns.{AreAlike, AreAllocationsOf, IsReadyListOf, figures_of};
ghost use Rattle.small_requests.specs.Edits.{IsEditFor, WasEdited, edited};
ghost use Rattle.small_requests.specs.Naming.{AreStepNotes};
ghost use Rattle.small_requests.specs.Revisions.{PutsBack};
ghost use Rattle.small_requests.specs.FigureChanges.{IsFigureChange};

use super::columns::{Allocations, FigureColumns, figures_with, parts_of};
use super::edits::Edit;
use super::moved_steps::step_after;
use super::named_steps::SmallStep;
use super::revisions::{Revision, standing};
use super::step_context::StepContext;
use super::writing::{with_revision, without_edit};
use plan_basics::Refusal;
use plan_checks::{CountedRecords, Figures};
use ready_list::ReadyList;
use std::alloc::Global;

// What is written for a trial, what puts back what stood beside operations, and what is given out and held.
#[derive(Drop)]
struct Undo {
    forth: Revision,
    back: Revision,
    allocations: Allocations,
}

// All that it takes to write an edit and to take it back. The error is always `Memory`.
fn undo_of(
    alloc: Global,
    records: &CountedRecords,
    allocations: &Allocations,
    edit: &Edit,
) -> Result<Undo, Refusal>
    requires edit { IsEditFor records.now.contents edit.now }
    requires allocations { AreAllocationsOf records.now.contents allocations.now }
    ensures forth { IfOk result (λ t. t.forth ≡ edit.now.revision) }
    ensures back { IfOk result (λ t. PutsBack records.now.contents edit.now.revision t.back) }
    ensures allocations { IfOk result (λ t. AreAllocationsOf records.now.contents t.allocations) }
    ensures refused { IfErr result (λ r. r ≡ Refusal.Memory) }
{
    let forth = edit.revision.try_clone()?;
    let back = standing(records, &edit.revision)?;
    let allocations = allocations.try_clone(alloc)?;
    Ok(Undo {
        forth,
        back,
        allocations,
    })
}

// What an edit leads to, with these columns, which stay. It gives the same back, and the ready list is that of the plan still. The
// error is always `Memory`.
fn tried_step(
    context: &StepContext<'_>,
    records: CountedRecords,
    columns: &mut FigureColumns,
    ready: &mut ReadyList,
    allocations: &Allocations,
    edit: &Edit,
) -> (CountedRecords, Result<SmallStep, Refusal>)
    requires graph { IsGraphFor records.contents context.now.graph.now }
    requires latest { AreLatestStarts records.contents context.now.latest.now.starts }
    requires figures { AreFigures records.contents (figures_of columns.old ready.old allocations.now) }
    requires edit { IsEditFor records.contents edit.now }
    ensures contents { result.0.contents ≡ records.contents }
    ensures unchanged { AreAlike columns.new columns.old }
    ensures ready { IsReadyListOf records.contents ready.new }
    ensures chosen { IfOk result.1 (λ s. IsChosen (edited edit.now records.contents) context.now.at s.named.items) }
    ensures figure_change { IfOk result.1 (λ s. IsFigureChange records.contents (named_in s.named.items (edited edit.now records.contents)) s.figure_change) }
    ensures frame { IfOk result.1 (λ s. KeepsFrame records.contents (named_in s.named.items (edited edit.now records.contents))) }
    ensures notes { IfOk result.1 (λ s. AreStepNotes records.contents (named_in s.named.items (edited edit.now records.contents)) s.notes) }
    ensures looked { IfOk result.1 (λ s. IsStepLooked records.contents (edited edit.now records.contents) edit.now.is_rerun edit.now.places.items s.named.items (operations_noted s.notes) records.looks result.0.looks) }
    ensures refused { IfErr result.1 (λ r. r ≡ Refusal.Memory) }
{
    match undo_of(context.alloc, &records, allocations, edit) {
        Ok(undo) => {
            let Undo {
                forth,
                back,
                allocations,
            } = undo;
            let after = with_revision(records, &edit.keys, forth);
            let (same, step) = step_after(context, after, columns, ready, allocations, edit);
            (without_edit(same, edit, back), step)
        }
        Err(refusal) => (records, Err(refusal)),
    }
}

/// What an edit of a plan leads to, which is made of these records, with these figures: at the moment the operations that are chosen are
/// named. It gives the same contents back, and figures of them, whether or not there was memory. The error is always `Memory`.
pub fn small_step(
    context: &StepContext<'_>,
    records: CountedRecords,
    figures: Figures,
    edit: &Edit,
) -> (CountedRecords, Figures, Result<SmallStep, Refusal>)
    requires graph { IsGraphFor records.contents context.now.graph.now }
    requires latest { AreLatestStarts records.contents context.now.latest.now.starts }
    requires figures { AreFigures records.contents figures }
    requires edit { IsEditFor records.contents edit.now }
    ensures contents { result.0.contents ≡ records.contents }
    ensures figures { AreFigures records.contents result.1 }
    ensures chosen { IfOk result.2 (λ s. IsChosen (edited edit.now records.contents) context.now.at s.named.items) }
    ensures figure_change { IfOk result.2 (λ s. IsFigureChange records.contents (named_in s.named.items (edited edit.now records.contents)) s.figure_change) }
    ensures frame { IfOk result.2 (λ s. KeepsFrame records.contents (named_in s.named.items (edited edit.now records.contents))) }
    ensures notes { IfOk result.2 (λ s. AreStepNotes records.contents (named_in s.named.items (edited edit.now records.contents)) s.notes) }
    ensures looked { IfOk result.2 (λ s. IsStepLooked records.contents (edited edit.now records.contents) edit.now.is_rerun edit.now.places.items s.named.items (operations_noted s.notes) records.looks result.0.looks) }
    ensures refused { IfErr result.2 (λ r. r ≡ Refusal.Memory) }
{
    let (mut columns, mut ready, allocations) = parts_of(figures);
    let (same, step) = tried_step(
        context,
        records,
        &mut columns,
        &mut ready,
        &allocations,
        edit,
    );
    (same, figures_with(columns, ready, allocations), step)
}
