// Rows of a table that are noted, and compared with those of the table before.
ghost use Rattle.std.specs.Prelude.{◌≡◌, ◌⊎◌, ◌+◌, ◌*◌, ◌<◌, ◌≤◌, ◌++◌, ℕ, Bool, List, Contains, Some, IfOk, OnOk, count_by, length, slice_get};
ghost use Rattle.std.specs.List.Sorted.{IsStrictlySortedBy};
ghost use Rattle.std.specs.Map.{keys_of};
ghost use Rattle.std.specs.Ordering.{nat_cmp};
ghost use Rattle.plan_records.specs.declared.PlanRow.{PlanRow as PlanRowValue};
ghost use Rattle.plan_rows.specs.Notes.{AreNotedAt, AreWithin};
ghost use Rattle.plan_rows.specs.Rows.{rows_of};
ghost use Rattle.plan_rows.specs.Sources.{IsSource, source_with};
ghost use Rattle.plan_rows.specs.Touched.{AreDifferentAmong};
ghost use Rattle.row_differences.specs.Changes.{AreAt};

use super::columns::SourceColumns;
use super::kept_tables::Tabled;
use derived_figures::CountedRecords;
use plan_records::PlanRow;
use std::alloc::{AllocError, Global};

/// A row of a table, and its place there.
#[derive(Clone, Copy)]
pub struct NotedRow {
    pub place: usize,
    pub row: PlanRow,
}

/// A table of which rows are noted, each read off a plan whose records are counted.
pub trait Noted: Tabled {
    /// How many looks at records a row takes.
    ghost looks: { ℕ };

    /// The row at an index.
    fn seen(records: &mut CountedRecords, columns: SourceColumns<'_>, place: usize) -> PlanRow
        requires source { IsSource (source_with records.old.contents columns) }
        requires within { place < length (keys_of (Self.keyed (source_with records.old.contents columns))) }
        ensures row { slice_get (rows_of (Self.keyed (source_with records.old.contents columns.entry))) place ≡ Some result }
        ensures contents { records.new.contents ≡ records.old.contents }
        ensures fewest { records.old.looks ≤ records.new.looks }
        ensures most { records.new.looks ≤ records.old.looks + looks }
        ensures least { (18446744073709551615 ≤ records.new.looks) ⊎ (records.old.looks + looks ≤ records.new.looks) };
}

/// Notes the rows at these places.
pub fn note_rows<T: Noted>(
    alloc: Global,
    records: &mut CountedRecords,
    columns: SourceColumns<'_>,
    places: &[usize],
) -> Result<Vec<NotedRow>, AllocError>
    requires source { IsSource (source_with records.old.contents columns) }
    requires within { (i : ℕ) → Contains places.now i → i < length (keys_of (T.keyed (source_with records.old.contents columns))) }
    ensures notes { IfOk result (λ v. AreNotedAt (rows_of (T.keyed (source_with records.old.contents columns.entry))) places.now v.items) }
    ensures contents { records.new.contents ≡ records.old.contents }
    ensures fewest { records.old.looks ≤ records.new.looks }
    ensures most { records.new.looks ≤ records.old.looks + T.looks * length places.now }
    ensures least { OnOk result ((18446744073709551615 ≤ records.new.looks) ⊎ (records.old.looks + T.looks * length places.now ≤ records.new.looks)) }
{
    let mut notes = Vec::new(alloc);
    for place in places {
        let row = T::seen(records, columns, *place);
        notes.push(NotedRow { place: *place, row })?;
    }
    Ok(notes)
}

/// Adds the rows that are noted and aren't as they are in a table.
pub fn push_noted<T: Noted>(
    records: &mut CountedRecords,
    columns: SourceColumns<'_>,
    notes: &[NotedRow],
    rows: &mut Vec<PlanRow>,
) -> Result<(), AllocError>
    requires source { IsSource (source_with records.old.contents columns) }
    requires within { AreWithin (length (keys_of (T.keyed (source_with records.old.contents columns)))) notes.now }
    ensures told { (news : List PlanRowValue) (places : List ℕ) → IsStrictlySortedBy nat_cmp places → AreNotedAt news places notes.now → OnOk result ((different : List ℕ) × (more : List PlanRowValue) × AreDifferentAmong (rows_of (T.keyed (source_with records.old.contents columns.entry))) news places different × AreAt news different more × (rows.new.items ≡ rows.old.items ++ more)) }
    ensures count { (p : PlanRowValue → Bool) → OnOk result (count_by p rows.new.items ≤ count_by p rows.old.items + length notes.now) }
    ensures contents { records.new.contents ≡ records.old.contents }
    ensures fewest { records.old.looks ≤ records.new.looks }
    ensures most { records.new.looks ≤ records.old.looks + T.looks * length notes.now }
{
    for note in notes {
        let noted = note.row;
        if T::seen(records, columns, note.place) != noted {
            rows.push(noted)?;
        }
    }
    Ok(())
}
