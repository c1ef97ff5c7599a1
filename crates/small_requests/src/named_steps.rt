// What is named once an edit is written and the figures have moved on, and what is noted then.
ghost use Rattle.std.specs.Prelude.{◌≡◌, ◌+◌, ◌≤◌, ◌⊎◌, ℕ, List, IfErr, IfOk, length};
ghost use Rattle.plan_basics.specs.declared.Refusal.{Refusal};
ghost use Rattle.plan_checks.specs.start_choice.specs.Choices.{AreLatestStarts};
ghost use Rattle.plan_model.specs.Ready.{named as named_in};
ghost use Rattle.plan_checks.specs.derived_figures.specs.Entries.{AreEntriesAt};
ghost use Rattle.plan_rows.specs.Notes.{operations_noted};
ghost use Rattle.small_requests.specs.Columns.{AreAlike, AreColumnsOf, AreAllocationsOf, IsReadyListOf};
ghost use Rattle.small_requests.specs.Edits.{ArePlacesIn};
ghost use Rattle.small_requests.specs.Effects.{AreNamingEffects};
ghost use Rattle.small_requests.specs.Naming.{AreNotesOf, IsStepOf};
ghost use Rattle.small_requests.specs.FigureChanges.{HasColumnsAt};

use super::columns::{Allocations, FigureColumns};
use super::figure_changes::FigureChange;
use super::naming_effects::{NamingEffects, naming_effects};
use super::namings::Naming;
use super::step_context::{StepContext, TouchedByEdit};
use super::step_notes::{StepNotes, note};
use super::writing::{with_named, without_named};
use plan_basics::{OpKey, Refusal};
use plan_checks::CountedRecords;
use plan_rows::{FacilityChange, Notes};
use ready_list::ReadyList;

/// What a small request leads to.
#[derive(Drop)]
pub struct SmallStep {
    /// The operations that are named, in order.
    pub named: Vec<OpKey>,
    /// What changes in the figures of the plan.
    pub figure_change: FigureChange,
    /// The rows of all that is touched.
    pub notes: Notes,
}

// What is named, with what was noted then, is a step.
fn step_of(effects: NamingEffects, noted: StepNotes) -> SmallStep
    ensures named { result.named ≡ effects.naming.named }
    ensures allocations { result.figure_change.allocations ≡ effects.naming.allocations }
    ensures entries { result.figure_change.entries ≡ effects.entries }
    ensures columns { result.figure_change.columns ≡ noted.columns }
    ensures notes { result.notes ≡ noted.notes }
{
    let NamingEffects {
        naming,
        entries,
        ..
    } = effects;
    let Naming {
        named,
        allocations,
        ..
    } = naming;
    let StepNotes { notes, columns } = noted;
    let figure_change = FigureChange {
        columns,
        entries,
        allocations,
    };
    SmallStep {
        named,
        figure_change,
        notes,
    }
}

// What is noted once what follows is named, by a look at each place that is touched. It gives the same back, and leaves the columns;
// the ready list is that of the plan still. The error is always `Memory`.
fn note_step(
    context: &StepContext<'_>,
    records: CountedRecords,
    columns: &mut FigureColumns,
    ready: &mut ReadyList,
    effects: NamingEffects,
    facilities: FacilityChange,
) -> (CountedRecords, Result<SmallStep, Refusal>)
    requires latest { AreLatestStarts records.contents context.now.latest.now.starts }
    requires columns { AreColumnsOf records.contents columns.old }
    requires ready { IsReadyListOf records.contents ready.old }
    requires effects { (at : ℕ) × (edited : List ℕ) × ArePlacesIn records.contents edited × AreNamingEffects records.contents at edited columns.old effects }
    ensures contents { result.0.contents ≡ records.contents }
    ensures unchanged { AreAlike columns.new columns.old }
    ensures ready { IsReadyListOf records.contents ready.new }
    ensures named { IfOk result.1 (λ s. s.named ≡ effects.naming.named) }
    ensures allocations { IfOk result.1 (λ s. s.figure_change.allocations ≡ effects.naming.allocations) }
    ensures entries { IfOk result.1 (λ s. s.figure_change.entries ≡ effects.entries) }
    ensures columns_then { IfOk result.1 (λ s. HasColumnsAt (named_in effects.naming.named.items records.contents) effects.touched.items s.figure_change.columns) }
    ensures notes { IfOk result.1 (λ s. AreNotesOf (named_in effects.naming.named.items records.contents) facilities effects.touched.items s.notes) }
    ensures all_noted { IfOk result.1 (λ s. operations_noted s.notes ≡ length effects.touched.items) }
    ensures most { result.0.looks ≤ records.looks + length effects.touched.items }
    ensures least { IfOk result.1 (λ s. (18446744073709551615 ≤ result.0.looks) ⊎ (records.looks + length effects.touched.items ≤ result.0.looks)) }
    ensures refused { IfErr result.1 (λ r. r ≡ Refusal.Memory) }
{
    let mut after = with_named(records, &effects.naming.named);
    let noted = note(context, &mut after, columns, ready, &effects, facilities);
    let same = without_named(after, &effects.naming.named);
    match noted {
        Ok(noted) => (same, Ok(step_of(effects, noted))),
        Err(refusal) => (same, Err(refusal)),
    }
}

/// What follows in a plan that an edit made, with these figures. It gives the same back, and leaves the columns; the ready list is that
/// of the plan still. The error is always `Memory`.
pub fn named_step(
    context: &StepContext<'_>,
    records: CountedRecords,
    columns: &mut FigureColumns,
    ready: &mut ReadyList,
    allocations: Allocations,
    edited: TouchedByEdit<'_>,
) -> (CountedRecords, Result<SmallStep, Refusal>)
    requires latest { AreLatestStarts records.contents context.now.latest.now.starts }
    requires columns { AreColumnsOf records.contents columns.old }
    requires ready { IsReadyListOf records.contents ready.old }
    requires allocations { AreAllocationsOf records.contents allocations }
    requires edited { ArePlacesIn records.contents edited.places.now }
    requires known { AreEntriesAt records.contents edited.places.now edited.entries.now }
    ensures contents { result.0.contents ≡ records.contents }
    ensures unchanged { AreAlike columns.new columns.old }
    ensures ready { IsReadyListOf records.contents ready.new }
    ensures step { IfOk result.1 (IsStepOf records.contents context.now.at edited.entry.places.now edited.entry.facilities records.looks result.0.looks) }
    ensures refused { IfErr result.1 (λ r. r ≡ Refusal.Memory) }
{
    let (same, effects) = naming_effects(context, records, columns, ready, allocations, edited);
    match effects {
        Ok(effects) => note_step(context, same, columns, ready, effects, edited.facilities),
        Err(refusal) => (same, Err(refusal)),
    }
}
