// The rows that a step leaves, noted of the plan after it and then compared with the plan before.
ghost use Rattle.std.specs.Prelude.{◌≡◌, ◌⊎◌, ◌+◌, ◌<◌, ◌≤◌, ℕ, Contains, IfOk, OnOk, Some, count_by, length};
ghost use Rattle.std.specs.FinMap.{entries};
ghost use Rattle.std.specs.List.Sorted.{IsStrictlySortedBy};
ghost use Rattle.std.specs.Ordering.{nat_cmp};
ghost use Rattle.plan_model.specs.Contents.{Contents};
ghost use Rattle.plan_model.specs.Plan.{plan_held};
ghost use Rattle.plan_records.specs.Rows.{AreChanges};
ghost use Rattle.plan_rows.specs.Notes.{AreNotes, AreNotedFacilities, IsNotedStep, NotesFacilities, is_operation, operations_noted};
ghost use Rattle.plan_rows.specs.Sources.{IsSource, source_with};
ghost use Rattle.plan_rows.specs.Tables.{AddsChanges};
ghost use Rattle.plan_rows.specs.declared.row_sources.RowSource.{RowSource as RowSourceValue};

use super::columns::SourceColumns;
use super::intervals::{intervals_of, push_noted_intervals};
use super::keyed::push_noted_resources;
use super::meta::push_meta;
use super::noted_rows::NotedRow;
use super::occurrences::{note_occurrences, push_noted_occurrences};
use super::operations::{note_operations, push_noted_operations};
use derived_figures::CountedRecords;
use plan_basics::{Interval, Moment, ResName, WsName};
use plan_model::Stock;
use plan_records::Changes;
use std::alloc::{AllocError, Global};

/// What may differ beside operations.
#[derive(Clone, Copy)]
pub enum FacilityChange {
    Nothing,
    /// Which special resources are available.
    Resources,
    /// When workstations are open.
    Workstations,
}

/// What is noted beside operations and occurrences.
#[derive(Drop)]
pub enum NotedFacilities {
    Nothing,
    /// All special resources by name, each with whether it is available and how much of it there is.
    Resources(Vec<(ResName, Stock)>),
    /// The intervals of all workstations, each under its workstation's name and its first minute.
    Intervals(Vec<((WsName, Moment), Interval)>),
}

/// The rows of the operations and occurrences that a step touched, as they are after it, and what changed beside them.
#[derive(Drop)]
pub struct Notes {
    operations: Vec<NotedRow>,
    occurrences: Vec<NotedRow>,
    facilities: NotedFacilities,
}

// Notes what may differ beside operations.
fn note_facilities(
    alloc: Global,
    records: &CountedRecords,
    facilities: FacilityChange,
) -> Result<NotedFacilities, AllocError>
    ensures { IfOk result (AreNotedFacilities records.now.contents facilities) }
{
    let kept = records.uncounted();
    match facilities {
        FacilityChange::Nothing => Ok(NotedFacilities::Nothing),
        FacilityChange::Resources => Ok(NotedFacilities::Resources(Vec::from_slice(
            alloc,
            kept.resources(),
        )?)),
        FacilityChange::Workstations => Ok(NotedFacilities::Intervals(intervals_of(
            alloc,
            kept.workstations(),
        )?)),
    }
}

/// Notes rows of the plan of these records: those of the operations at these indices, which ascend, of their occurrences, and
/// what may differ beside them. It takes a look at each of these operations.
pub fn notes_of(
    alloc: Global,
    records: &mut CountedRecords,
    columns: SourceColumns<'_>,
    facilities: FacilityChange,
    touched: &[usize],
) -> Result<Notes, AllocError>
    requires source { IsSource (source_with records.old.contents columns) }
    requires ascend { IsStrictlySortedBy nat_cmp touched.now }
    requires within { (i : ℕ) → Contains touched.now i → i < length (entries records.old.contents.operations) }
    ensures notes { IfOk result (AreNotes (source_with records.old.contents columns.entry) facilities touched.now) }
    ensures noted { IfOk result (λ n. operations_noted n ≡ length touched.now) }
    ensures contents { records.new.contents ≡ records.old.contents }
    ensures fewest { records.old.looks ≤ records.new.looks }
    ensures most { records.new.looks ≤ records.old.looks + length touched.now }
    ensures least { OnOk result ((18446744073709551615 ≤ records.new.looks) ⊎ (records.old.looks + length touched.now ≤ records.new.looks)) }
{
    let operations = note_operations(alloc, records, columns, touched)?;
    let occurrences = note_occurrences(alloc, records, columns, touched)?;
    let facilities = note_facilities(alloc, records, facilities)?;
    Ok(Notes {
        operations,
        occurrences,
        facilities,
    })
}

// Adds what changes in the tables of intervals and of special resources.
fn push_noted_facilities(
    alloc: Global,
    records: &CountedRecords,
    noted: &NotedFacilities,
    changes: &mut Changes,
) -> Result<(), AllocError>
    requires noted { (after : RowSourceValue) × IsSource after × NotesFacilities records.now.contents after.contents.now noted.now }
    ensures { (before after : RowSourceValue) → before.contents.now ≡ records.now.contents → IsSource before → IsSource after → NotesFacilities records.now.contents after.contents.now noted.now → AddsChanges 2 4 (Some before) (Some after) result changes.old changes.new }
{
    let kept = records.uncounted();
    match noted {
        NotedFacilities::Nothing => Ok(()),
        NotedFacilities::Resources(rows) => push_noted_resources(
            alloc,
            kept.resources(),
            rows,
            changes,
        ),
        NotedFacilities::Intervals(rows) => push_noted_intervals(
            alloc,
            kept.workstations(),
            rows,
            changes,
        ),
    }
}

/// Which rows of the tables change from a plan at its clock, whose records these are, to one of which these are notes, at this
/// clock. It takes a look for each operation that is noted.
pub fn noted_changes(
    alloc: Global,
    records: &mut CountedRecords,
    columns: SourceColumns<'_>,
    was: Moment,
    clock: Moment,
    notes: &Notes,
) -> Result<Changes, AllocError>
    requires source { IsSource (source_with records.old.contents columns) }
    requires step { (Q : Contents) × IsNotedStep (Some (source_with records.old.contents columns)) Q notes.now }
    ensures changes { (Q : Contents) → IsNotedStep (Some (source_with records.old.contents columns.entry)) Q notes.now → IfOk result (λ c. AreChanges (plan_held was (Some records.old.contents)) (plan_held clock (Some Q)) c.rows.items c.gone.items) }
    ensures operations { IfOk result (λ c. count_by is_operation c.rows.items ≤ operations_noted notes.now) }
    ensures contents { records.new.contents ≡ records.old.contents }
    ensures fewest { records.old.looks ≤ records.new.looks }
    ensures most { records.new.looks ≤ records.old.looks + operations_noted notes.now }
{
    let mut changes = Changes {
        rows: Vec::new(alloc),
        gone: Vec::new(alloc),
    };
    push_meta(true, was, true, clock, &mut changes)?;
    push_noted_facilities(alloc, records, &notes.facilities, &mut changes)?;
    push_noted_occurrences(records, columns, &notes.occurrences, &mut changes)?;
    push_noted_operations(records, columns, &notes.operations, &mut changes)?;
    Ok(changes)
}
