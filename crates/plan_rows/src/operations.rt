// The table of operations.
ghost use Rattle.std.specs.Prelude.{◌≡◌, ◌⊎◌, ◌↔◌, ◌+◌, ◌<◌, ◌≤◌, ℕ, Contains, Decides, Some, IfOk, IsTrue, OnOk, option_map, count_by, length, refl, slice_get};
ghost use Rattle.std.specs.FinMap.{entries};
ghost use Rattle.plan_basics.specs.Keys.{operation_cmp-IsAntisymmetric};
ghost use Rattle.plan_model.specs.Contents.{Contents};
ghost use Rattle.plan_records.specs.plan_drafts.specs.declared.RowKey.TheVariants as key;
ghost use Rattle.plan_rows.specs.Kept.{AreKnownAlike, KeepsRecords};
ghost use Rattle.plan_rows.specs.Notes.{AddsNotedOperations, AreNotedAt, AreWithin, is_operation};
ghost use Rattle.plan_rows.specs.Rows.{keyed_operations, rows_of};
ghost use Rattle.plan_rows.specs.Sources.{IsSource, IsSourceIfAny, contents_if_any, source_with, source_if_any};
ghost use Rattle.plan_rows.specs.Tables.{AddsChanges};

use super::columns::SourceColumns;
use super::kept_tables::{Tabled, push_kept};
use super::noted_rows::{Noted, NotedRow, note_rows, push_noted};
use super::row_sources::TableSource;
use derived_figures::{CountedRecords, Standing};
use plan_basics::OpKey;
use plan_model::{Latest, OperationRecord};
use plan_records::{Changes, OperationRow, PlanRow, RowKey};
use status_rules::Status;
use std::alloc::{AllocError, Global};

// The row of an operation, from its record and what is known of the operation at its index.
fn row_of(
    op: OpKey,
    operation: &OperationRecord,
    columns: SourceColumns<'_>,
    place: usize,
) -> PlanRow
    requires { (P : Contents) × IsSource (source_with P columns) × (slice_get (entries P.operations) place ≡ Some (op, operation.now)) }
    ensures { (P : Contents) → IsSource (source_with P columns.entry) → slice_get (entries P.operations) place ≡ Some (op, operation.now) → slice_get (rows_of (keyed_operations (source_with P columns.entry))) place ≡ Some result }
{
    PlanRow::Operation(OperationRow {
        op,
        ws: operation.workstation,
        duration: operation.duration,
        r1: operation.r1,
        r2: operation.r2,
        not_before: operation.not_before,
        deadline: operation.deadline,
        mark: operation.mark,
        held: operation.held,
        nop: operation.nop,
        status: columns.statuses[place],
        latest: columns.latest.of(place),
        waiting: columns.standings[place].waiting,
    })
}

// Whether two statuses are one.
fn is_one_status(before: Status, after: Status) -> bool
    ensures { Decides result (before ≡ after) }
{
    before == after
}

// Whether two latest starts are one.
fn is_one_start(before: i64, after: i64) -> bool
    ensures { Decides result (before ≡ after) }
{
    before == after
}

// Whether two numbers of waiting predecessors are one.
fn is_one_number(before: u32, after: u32) -> bool
    ensures { Decides result (before ≡ after) }
{
    before == after
}

// Whether operations have one status at these indices.
fn have_one_status(before: &[Status], after: &[Status], old: usize, new: usize) -> bool
    requires old { old < length before.now }
    requires new { new < length after.now }
    ensures { Decides result (slice_get before.now old ≡ slice_get after.now new) }
{
    is_one_status(before[old], after[new])
}

// Whether operations have one latest start at these indices.
fn have_one_start(before: &Latest, after: &Latest, old: usize, new: usize) -> bool
    requires old { old < length before.now.starts }
    requires new { new < length after.now.starts }
    ensures { Decides result (slice_get before.now.starts old ≡ slice_get after.now.starts new) }
{
    is_one_start(before.of(old), after.of(new))
}

// Whether operations wait for as many predecessors at these indices.
fn have_one_number(before: &[Standing], after: &[Standing], old: usize, new: usize) -> bool
    requires old { old < length before.now }
    requires new { new < length after.now }
    ensures { Decides result (option_map (λ s. s.waiting) (slice_get before.now old) ≡ option_map (λ s. s.waiting) (slice_get after.now new)) }
{
    is_one_number(before[old].waiting, after[new].waiting)
}

// Whether what is known of the operations at these indices is the same: their status, latest start and number of waiting predecessors.
fn are_known_alike(
    before: SourceColumns<'_>,
    after: SourceColumns<'_>,
    old: usize,
    new: usize,
) -> bool
    requires before { (P : Contents) × IsSource (source_with P before) × (old < length (entries P.operations)) }
    requires after { (Q : Contents) × IsSource (source_with Q after) × (new < length (entries Q.operations)) }
    ensures { IsTrue result ↔ AreKnownAlike before.entry after.entry old new }
{
    if !have_one_status(before.statuses, after.statuses, old, new) {
        return false;
    }
    if !have_one_start(before.latest, after.latest, old, new) {
        return false;
    }
    have_one_number(before.standings, after.standings, old, new)
}

impl Tabled for OperationRecord {
    type Key = OpKey;

    ghost name = { key.Operation };

    ghost keyed = { keyed_operations };

    fn named(key: OpKey) -> RowKey {
        RowKey::Operation(key)
    }

    fn count(source: TableSource<'_>) -> usize {
        source.uncounted.operation_count()
    }

    fn key_at(source: TableSource<'_>, place: usize) -> OpKey {
        *source.uncounted.operation_key(place)
    }

    fn is_alike(before: TableSource<'_>, after: TableSource<'_>, old: usize, new: usize) -> bool {
        are_known_alike(before.columns, after.columns, old, new)
    }

    ghost in_order = { λ a b. refl };

    ghost exact = { operation_cmp-IsAntisymmetric };
}

/// Adds what changes in the table of operations, where these records keep the operations of the plan before: a look at each that is
/// told. Of any other its status, latest start and number of waiting predecessors are those before, and so is its record.
pub fn push_operations(
    alloc: Global,
    before: Option<TableSource<'_>>,
    records: &mut CountedRecords,
    columns: SourceColumns<'_>,
    changes: &mut Changes,
) -> Result<(), AllocError>
    requires before { IsSourceIfAny (source_if_any before) }
    requires source { IsSource (source_with records.old.contents columns) }
    requires kept { KeepsRecords (contents_if_any (source_if_any before)) records.old.contents }
    ensures changes { AddsChanges 5 6 (source_if_any before.entry) (Some (source_with records.old.contents columns.entry)) result changes.old changes.new }
    ensures contents { records.new.contents ≡ records.old.contents }
    ensures fewest { records.old.looks ≤ records.new.looks }
    ensures most { records.new.looks ≤ records.old.looks + length (entries records.old.contents.operations) }
{
    push_kept::<OperationRecord>(alloc, before, records, columns, changes)
}

impl Noted for OperationRecord {
    ghost looks = { 1 };

    fn seen(records: &mut CountedRecords, columns: SourceColumns<'_>, place: usize) -> PlanRow {
        let seen = records.see(place);
        row_of(*seen.key, seen.operation, columns, place)
    }
}

/// Notes the rows of the operations at these places: a look at each.
pub fn note_operations(
    alloc: Global,
    records: &mut CountedRecords,
    columns: SourceColumns<'_>,
    touched: &[usize],
) -> Result<Vec<NotedRow>, AllocError>
    requires source { IsSource (source_with records.old.contents columns) }
    requires within { (i : ℕ) → Contains touched.now i → i < length (entries records.old.contents.operations) }
    ensures notes { IfOk result (λ v. AreNotedAt (rows_of (keyed_operations (source_with records.old.contents columns.entry))) touched.now v.items) }
    ensures contents { records.new.contents ≡ records.old.contents }
    ensures fewest { records.old.looks ≤ records.new.looks }
    ensures most { records.new.looks ≤ records.old.looks + length touched.now }
    ensures least { OnOk result ((18446744073709551615 ≤ records.new.looks) ⊎ (records.old.looks + length touched.now ≤ records.new.looks)) }
{
    note_rows::<OperationRecord>(alloc, records, columns, touched)
}

/// Adds what changes in the table of operations, from the rows of touched operations that are noted: a look for each.
pub fn push_noted_operations(
    records: &mut CountedRecords,
    columns: SourceColumns<'_>,
    notes: &[NotedRow],
    changes: &mut Changes,
) -> Result<(), AllocError>
    requires source { IsSource (source_with records.old.contents columns) }
    requires within { AreWithin (length (entries records.old.contents.operations)) notes.now }
    ensures told { AddsNotedOperations (source_with records.old.contents columns.entry) notes.now result changes.old changes.new }
    ensures operations { OnOk result (count_by is_operation changes.new.rows.items ≤ count_by is_operation changes.old.rows.items + length notes.now) }
    ensures contents { records.new.contents ≡ records.old.contents }
    ensures fewest { records.old.looks ≤ records.new.looks }
    ensures most { records.new.looks ≤ records.old.looks + length notes.now }
{
    push_noted::<OperationRecord>(records, columns, notes, &mut changes.rows)
}
