// Tables with a row for each entry of what is kept, told with what is known of it.
ghost use Rattle.std.specs.Prelude.{◌≡◌, ◌↔◌, ◌+◌, ◌*◌, ◌<◌, ◌≤◌, ◌++◌, ℕ, List, Contains, IsTrue, OnOk, Some, length, map, slice_get};
ghost use Rattle.std.specs.FinMap.{IsAntisymmetric};
ghost use Rattle.std.specs.List.Sorted.{IsStrictlySortedBy};
ghost use Rattle.std.specs.Map.{keys_of};
ghost use Rattle.plan_records.specs.plan_drafts.specs.declared.RowKey.{RowKey as RowKeyValue};
ghost use Rattle.plan_records.specs.Rows.{row_cmp};
ghost use Rattle.plan_records.specs.declared.PlanRow.{PlanRow as PlanRowValue};
ghost use Rattle.plan_rows.specs.Kept.{KeepsRecords};
ghost use Rattle.plan_rows.specs.Rows.{if_any, rows_of};
ghost use Rattle.plan_rows.specs.Sources.{IsSource, IsSourceIfAny, contents_if_any, plan_if_any, source_with, source_if_any, source_of};
ghost use Rattle.plan_rows.specs.Tables.{AreChangesBelow, AreRowsOf};
ghost use Rattle.plan_rows.specs.declared.row_sources.RowSource.{RowSource as RowSourceValue};
ghost use Rattle.row_differences.specs.Changes.{AreAt};
ghost use Rattle.row_differences.specs.Differences.{HaveOneKey};

use super::columns::SourceColumns;
use super::noted_rows::Noted;
use super::row_sources::TableSource;
use derived_figures::CountedRecords;
use plan_records::{Changes, PlanRow, RowKey};
use row_differences::{TwoTables, differences};
use std::alloc::{AllocError, Global};
use std::cmp::Ordering;
use std::marker::{Model, PhantomData};

/// What is kept by key, with a row of its own in a table.
pub trait Tabled: Sized {
    type Key: Ord + Copy;

    /// The key of a row, by the table's key columns.
    ghost name: { Self.Key → RowKeyValue };

    /// The rows of a source, under their keys.
    ghost keyed: { RowSourceValue → List (Self.Key × PlanRowValue) };

    /// The key of a row, by the table's key columns.
    fn named(key: Self::Key) -> RowKey
        ensures { result ≡ name key };

    /// How many rows there are.
    fn count(source: TableSource<'_>) -> usize
        requires { IsSource (source_of source) }
        ensures { result ≡ length (keys_of (keyed (source_of source.entry))) };

    /// The key of the row at an index.
    fn key_at(source: TableSource<'_>, place: usize) -> Self::Key
        requires source { IsSource (source_of source) }
        requires within { place < length (keys_of (keyed (source_of source))) }
        ensures { slice_get (keys_of (keyed (source_of source.entry))) place ≡ Some result };

    /// Whether two rows of one key are the same, where the plan after keeps the operations of the one before: no record is looked at.
    fn is_alike(before: TableSource<'_>, after: TableSource<'_>, old: usize, new: usize) -> bool
        requires before { IsSource (source_of before) }
        requires after { IsSource (source_of after) }
        requires kept { KeepsRecords before.uncounted.contents.now after.uncounted.contents.now }
        requires one_key { HaveOneKey (keys_of (keyed (source_of before))) (keys_of (keyed (source_of after))) old new }
        ensures { IsTrue result ↔ (slice_get (rows_of (keyed (source_of before.entry))) old ≡ slice_get (rows_of (keyed (source_of after.entry))) new) };

    /// Rows are in the order of their keys.
    ghost in_order: { (a b : Self.Key) → row_cmp (name a) (name b) ≡ Self.Key.cmp a b };

    /// Only equal keys tie.
    ghost exact: { IsAntisymmetric Self.Key.cmp };
}

// How many rows there are; none where no plan is loaded.
fn count<T: Tabled>(source: Option<TableSource<'_>>) -> usize
    requires { IsSourceIfAny (source_if_any source) }
    ensures { result ≡ length (keys_of (if_any T.keyed (source_if_any source.entry))) }
{
    match source {
        Some(source) => T::count(source),
        None => 0,
    }
}

// The key at an index.
fn key<T: Tabled>(source: Option<TableSource<'_>>, place: usize) -> T::Key
    requires source { IsSourceIfAny (source_if_any source) }
    requires within { place < length (keys_of (if_any T.keyed (source_if_any source))) }
    ensures { slice_get (keys_of (if_any T.keyed (source_if_any source.entry))) place ≡ Some result }
{
    T::key_at(source.unwrap(), place)
}

/// Such a table before and after. Contracts see the rows under their keys.
#[derive(Drop)]
pub struct KeptTables<'a, 'b, T: Tabled> {
    pub table: PhantomData<T>,
    pub before: Option<TableSource<'a>>,
    pub after: TableSource<'b>,
}

impl<'a, 'b, T: Tabled> Model for KeptTables<'a, 'b, T> {
    ghost use Rattle.std.specs.Prelude.{List};
    ghost use Rattle.plan_records.specs.declared.PlanRow.{PlanRow};
    ghost use Rattle.plan_rows.specs.Kept.{KeepsRecords};
    ghost use Rattle.plan_rows.specs.Rows.{if_any};
    ghost use Rattle.plan_rows.specs.Sources.{IsSource, IsSourceIfAny, contents_if_any, source_if_any, source_of};

    ghost Value = { List (T.Key × PlanRow) × List (T.Key × PlanRow) };

    ghost view = { λ t. (if_any T.keyed (source_if_any t.before), T.keyed (source_of t.after)) };

    ghost invariant = { λ t. IsSourceIfAny (source_if_any t.before) × IsSource (source_of t.after) × KeepsRecords (contents_if_any (source_if_any t.before)) t.after.uncounted.contents.now };
}

impl<'a, 'b, T: Tabled> TwoTables for KeptTables<'a, 'b, T> {
    type Key = T::Key;

    ghost before = { λ t. keys_of t.0 };

    ghost after = { λ t. keys_of t.1 };

    ghost IsAlike = { λ t i j. slice_get (rows_of t.0) i ≡ slice_get (rows_of t.1) j };

    fn rows_before(&self) -> usize {
        count::<T>(self.before)
    }

    fn rows_after(&self) -> usize {
        T::count(self.after)
    }

    fn order(&self, old: usize, new: usize) -> Ordering {
        key::<T>(self.before, old).cmp(&T::key_at(self.after, new))
    }

    fn is_alike(&self, old: usize, new: usize) -> bool {
        T::is_alike(self.before.unwrap(), self.after, old, new)
    }
}

// Adds the rows at these places.
fn push_rows<T: Noted>(
    records: &mut CountedRecords,
    columns: SourceColumns<'_>,
    places: &[usize],
    rows: &mut Vec<PlanRow>,
) -> Result<(), AllocError>
    requires source { IsSource (source_with records.old.contents columns) }
    requires within { (i : ℕ) → Contains places.now i → i < length (keys_of (T.keyed (source_with records.old.contents columns))) }
    ensures rows { OnOk result ((more : List PlanRowValue) × AreAt (rows_of (T.keyed (source_with records.old.contents columns.entry))) places.now more × (rows.new.items ≡ rows.old.items ++ more)) }
    ensures contents { records.new.contents ≡ records.old.contents }
    ensures fewest { records.old.looks ≤ records.new.looks }
    ensures most { records.new.looks ≤ records.old.looks + T.looks * length places.now }
{
    for place in places {
        rows.push(T::seen(records, columns, *place))?;
    }
    Ok(())
}

// Adds the keys of the rows at these places.
fn push_keys<T: Tabled>(
    source: Option<TableSource<'_>>,
    places: &[usize],
    keys: &mut Vec<RowKey>,
) -> Result<(), AllocError>
    requires source { IsSourceIfAny (source_if_any source) }
    requires within { (i : ℕ) → Contains places.now i → i < length (keys_of (if_any T.keyed (source_if_any source))) }
    ensures { OnOk result ((more : List RowKeyValue) × AreAt (map T.name (keys_of (if_any T.keyed (source_if_any source.entry)))) places.now more × (keys.new.items ≡ keys.old.items ++ more)) }
{
    for place in places {
        keys.push(T::named(key::<T>(source, *place)))?;
    }
    Ok(())
}

/// Adds what changes in such a table from the plan before to that of these records, which keeps its operations: the rows that are told
/// take their looks, and no others do.
pub fn push_kept<T: Noted>(
    alloc: Global,
    before: Option<TableSource<'_>>,
    records: &mut CountedRecords,
    columns: SourceColumns<'_>,
    changes: &mut Changes,
) -> Result<(), AllocError>
    requires before { IsSourceIfAny (source_if_any before) }
    requires source { IsSource (source_with records.old.contents columns) }
    requires kept { KeepsRecords (contents_if_any (source_if_any before)) records.old.contents }
    requires before_in_order { IsStrictlySortedBy T.Key.cmp (keys_of (if_any T.keyed (source_if_any before))) }
    requires in_order { IsStrictlySortedBy T.Key.cmp (keys_of (T.keyed (source_with records.old.contents columns))) }
    ensures changes { (n clock now : ℕ) → (let P = plan_if_any clock (source_if_any before.entry) in let Q = plan_if_any now (Some (source_with records.old.contents columns.entry)) in AreRowsOf T.name n P (keys_of (if_any T.keyed (source_if_any before.entry))) (rows_of (if_any T.keyed (source_if_any before.entry))) → AreRowsOf T.name n Q (keys_of (T.keyed (source_with records.old.contents columns.entry))) (rows_of (T.keyed (source_with records.old.contents columns.entry))) → AreChangesBelow n P Q changes.old → OnOk result (AreChangesBelow (n + 1) P Q changes.new)) }
    ensures contents { records.new.contents ≡ records.old.contents }
    ensures fewest { records.old.looks ≤ records.new.looks }
    ensures most { records.new.looks ≤ records.old.looks + T.looks * length (keys_of (T.keyed (source_with records.old.contents columns.entry))) }
{
    let found = differences(
        alloc,
        &KeptTables {
            table: PhantomData::<T>,
            before,
            after: TableSource {
                uncounted: records.uncounted(),
                columns,
            },
        },
    )?;
    push_rows::<T>(records, columns, &found.changed, &mut changes.rows)?;
    push_keys::<T>(before, &found.gone, &mut changes.gone)
}
