// The table of occurrences.
ghost use Rattle.std.specs.Prelude.{◌≡◌, ◌<◌, ℕ, List, Contains, Some, IfOk, length, refl, slice_get};
ghost use Rattle.std.specs.FinMap.{entries};
ghost use Rattle.std.specs.List.Sorted.{IsStrictlySortedBy};
ghost use Rattle.std.specs.Map.{keys_of};
ghost use Rattle.std.specs.Ordering.{nat_cmp};
ghost use Rattle.plan_basics.specs.Keys.{occurrence_cmp-IsAntisymmetric};
ghost use Rattle.plan_records.specs.plan_drafts.specs.declared.RowKey.TheVariants as key;
ghost use Rattle.plan_rows.specs.Kept.{KeepsRecords};
ghost use Rattle.plan_rows.specs.Notes.{AddsNotedOccurrences, AreNotedAt, AreWithin};
ghost use Rattle.plan_rows.specs.Rows.{keyed_occurrences, rows_of};
ghost use Rattle.plan_rows.specs.Sources.{IsSource, IsSourceIfAny, contents_if_any, source_with, source_if_any, source_of};
ghost use Rattle.plan_rows.specs.Tables.{AddsChanges};
ghost use Rattle.plan_rows.specs.Touched.{AreOccurrencesOf};
ghost use Rattle.plan_rows.specs.declared.row_sources.RowSource.{RowSource as RowSourceValue};

use super::columns::SourceColumns;
use super::kept_tables::{Tabled, push_kept};
use super::noted_rows::{Noted, NotedRow, note_rows, push_noted};
use super::occurrence_places::occurrence_places;
use super::row_sources::TableSource;
use derived_figures::{CountedRecords, occurrence_status_with};
use plan_basics::OccKey;
use plan_model::Occurrence;
use plan_records::{Changes, PlanRow, RowKey};
use status_rules::Counts;
use std::alloc::{AllocError, Global};

// The row of the occurrence at an index, by the numbers of its operations there.
fn row_of(occurrences: &[(OccKey, Occurrence)], tallies: &[Counts], place: usize) -> PlanRow
    requires terms { place < length occurrences.now }
    requires numbers { place < length tallies.now }
    ensures { (s : RowSourceValue) → IsSource s → occurrences.now ≡ entries s.contents.now.occurrences → tallies.now ≡ s.tallies.now → slice_get (rows_of (keyed_occurrences s)) place ≡ Some result }
{
    let (occurrence, terms) = occurrences[place];
    PlanRow::Occurrence {
        occurrence,
        priority: terms.priority,
        deadline: terms.deadline,
        status: occurrence_status_with(tallies[place]),
    }
}

// The key of the occurrence at an index.
fn key_of(occurrences: &[(OccKey, Occurrence)], place: usize) -> OccKey
    requires { place < length occurrences.now }
    ensures { slice_get (keys_of occurrences.now) place ≡ Some result }
{
    occurrences[place].0
}

// The row of the occurrence at an index.
fn source_row(source: TableSource<'_>, place: usize) -> PlanRow
    requires source { IsSource (source_of source) }
    requires within { place < length (entries source.uncounted.contents.now.occurrences) }
    ensures { slice_get (rows_of (keyed_occurrences (source_of source.entry))) place ≡ Some result }
{
    row_of(
        source.uncounted.occurrences(),
        source.columns.tallies,
        place,
    )
}

impl Tabled for Occurrence {
    type Key = OccKey;

    ghost name = { key.Occurrence };

    ghost keyed = { keyed_occurrences };

    fn named(key: OccKey) -> RowKey {
        RowKey::Occurrence(key)
    }

    fn count(source: TableSource<'_>) -> usize {
        source.uncounted.occurrences().len()
    }

    fn key_at(source: TableSource<'_>, place: usize) -> OccKey {
        key_of(source.uncounted.occurrences(), place)
    }

    fn is_alike(before: TableSource<'_>, after: TableSource<'_>, old: usize, new: usize) -> bool {
        source_row(before, old) == source_row(after, new)
    }

    ghost in_order = { λ a b. refl };

    ghost exact = { occurrence_cmp-IsAntisymmetric };
}

/// Adds what changes in the table of occurrences: no look is taken.
pub fn push_occurrences(
    alloc: Global,
    before: Option<TableSource<'_>>,
    records: &mut CountedRecords,
    columns: SourceColumns<'_>,
    changes: &mut Changes,
) -> Result<(), AllocError>
    requires before { IsSourceIfAny (source_if_any before) }
    requires source { IsSource (source_with records.old.contents columns) }
    requires kept { KeepsRecords (contents_if_any (source_if_any before)) records.old.contents }
    ensures changes { AddsChanges 4 5 (source_if_any before.entry) (Some (source_with records.old.contents columns.entry)) result changes.old changes.new }
    ensures unchanged { records.new ≡ records.old }
{
    push_kept::<Occurrence>(alloc, before, records, columns, changes)
}

impl Noted for Occurrence {
    ghost looks = { 0 };

    fn seen(records: &mut CountedRecords, columns: SourceColumns<'_>, place: usize) -> PlanRow {
        row_of(records.uncounted().occurrences(), columns.tallies, place)
    }
}

/// Notes the rows of the occurrences to which the operations at these places belong.
pub fn note_occurrences(
    alloc: Global,
    records: &mut CountedRecords,
    columns: SourceColumns<'_>,
    touched: &[usize],
) -> Result<Vec<NotedRow>, AllocError>
    requires source { IsSource (source_with records.old.contents columns) }
    requires ascend { IsStrictlySortedBy nat_cmp touched.now }
    requires within { (i : ℕ) → Contains touched.now i → i < length (entries records.old.contents.operations) }
    ensures notes { IfOk result (λ v. (places : List ℕ) × AreOccurrencesOf records.old.contents touched.now places × AreNotedAt (rows_of (keyed_occurrences (source_with records.old.contents columns.entry))) places v.items) }
    ensures unchanged { records.new ≡ records.old }
{
    let places = occurrence_places(alloc, records, touched)?;
    note_rows::<Occurrence>(alloc, records, columns, &places)
}

/// Adds what changes in the table of occurrences, from the rows of those that are noted.
pub fn push_noted_occurrences(
    records: &mut CountedRecords,
    columns: SourceColumns<'_>,
    notes: &[NotedRow],
    changes: &mut Changes,
) -> Result<(), AllocError>
    requires source { IsSource (source_with records.old.contents columns) }
    requires within { AreWithin (length (entries records.old.contents.occurrences)) notes.now }
    ensures told { AddsNotedOccurrences (source_with records.old.contents columns.entry) notes.now result changes.old changes.new }
    ensures unchanged { records.new ≡ records.old }
{
    push_noted::<Occurrence>(records, columns, notes, &mut changes.rows)
}
