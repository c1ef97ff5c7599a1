// A table of the plan before and after, and what changes in it.
ghost use Rattle.std.specs.Prelude.{◌≡◌, ◌↔◌, ◌<◌, ◌+◌, ℕ, List, Some, OnOk, length, slice_get};
ghost use Rattle.std.specs.FinMap.{IsAntisymmetric};
ghost use Rattle.std.specs.List.Sorted.{IsStrictlySortedBy};
ghost use Rattle.plan_records.specs.plan_drafts.specs.declared.RowKey.{RowKey as RowKeyValue};
ghost use Rattle.plan_model.specs.Plan.{Plan};
ghost use Rattle.plan_records.specs.Rows.{row_cmp};
ghost use Rattle.plan_records.specs.declared.PlanRow.{PlanRow as PlanRowValue};
ghost use Rattle.plan_rows.specs.Tables.{AreChangesBelow, AreRowsOf};
ghost use Rattle.row_differences.specs.Differences.{HaveOneKey};

use plan_records::{Changes, PlanRow, RowKey};
use row_differences::{TwoTables, differences, push_made};
use std::alloc::{AllocError, Global};

/// A table as it was and as it is. Contracts see its rows.
pub trait PlanTable: TwoTables {
    /// The key of a row, by the table's key columns.
    ghost name: { Self.Key → RowKeyValue };

    /// The rows before.
    ghost olds: { Self → List PlanRowValue };

    /// The rows after.
    ghost news: { Self → List PlanRowValue };

    /// The key of the row at an index before.
    fn key_before(&self, old: usize) -> RowKey
        requires { old < length (Self.before self.now) }
        ensures { (k : Self.Key) → slice_get (Self.before self.now) old ≡ Some k → result ≡ name k };

    /// The row at an index after.
    fn row_after(&self, new: usize) -> PlanRow
        requires { new < length (Self.after self.now) }
        ensures { slice_get (news self.now) new ≡ Some result };

    /// Rows are in the order of their keys.
    ghost in_order: { (a b : Self.Key) → row_cmp (name a) (name b) ≡ Self.Key.cmp a b };

    /// Only equal keys tie.
    ghost exact: { IsAntisymmetric Self.Key.cmp };

    /// Two rows of one key are alike where they are the same.
    ghost alike: { (t : Self) (i j : ℕ) → HaveOneKey (Self.before t) (Self.after t) i j → Self.IsAlike t i j ↔ (slice_get (olds t) i ≡ slice_get (news t) j) };
}

/// Adds what changes in a table to what changes in those before it.
pub fn push_changes<T: PlanTable>(
    alloc: Global,
    tables: &T,
    changes: &mut Changes,
) -> Result<(), AllocError>
    requires before { IsStrictlySortedBy T.Key.cmp (T.before tables.now) }
    requires after { IsStrictlySortedBy T.Key.cmp (T.after tables.now) }
    ensures { (n : ℕ) (P Q : Plan) → AreRowsOf T.name n P (T.before tables.now) (T.olds tables.now) → AreRowsOf T.name n Q (T.after tables.now) (T.news tables.now) → AreChangesBelow n P Q changes.old → OnOk result (AreChangesBelow (n + 1) P Q changes.new) }
{
    let found = differences(alloc, tables)?;
    push_made(
        &mut changes.rows,
        &found.changed,
        |new|
            requires { new < length (T.after tables.now) }
            ensures { slice_get (T.news tables.entry.now) new ≡ Some result }
        { tables.row_after(new) },
    )?;
    push_made(
        &mut changes.gone,
        &found.gone,
        |old|
            requires { old < length (T.before tables.now) }
            ensures { (k : T.Key) → slice_get (T.before tables.entry.now) old ≡ Some k → result ≡ T.name k }
        { tables.key_before(old) },
    )
}
