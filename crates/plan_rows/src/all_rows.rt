// What changes from all rows of a plan to all rows of another, whatever they hold.
ghost use Rattle.std.specs.Prelude.{◌≡◌, ◌<◌, Some, IfOk, length, map, slice_get};
ghost use Rattle.std.specs.List.Sorted.{IsStrictlySortedBy};
ghost use Rattle.plan_records.specs.Rows.{AreChanges, AreRows, key_of, row_cmp};
ghost use Rattle.plan_model.specs.Plan.{Plan};

use plan_records::{Changes, PlanRow, RowKey};
use row_differences::{TwoTables, differences, push_made};
use std::alloc::{AllocError, Global};
use std::cmp::Ordering;

// How many rows there are.
fn count(rows: &[PlanRow]) -> usize
    ensures { result ≡ length (map key_of rows.now) }
{
    rows.len()
}

// The row at an index.
fn row_at(rows: &[PlanRow], place: usize) -> &PlanRow
    requires { place < length (map key_of rows.now) }
    ensures { slice_get rows.now place ≡ Some result.now }
{
    &rows[place]
}

// The key of the row at an index.
fn key_at(rows: &[PlanRow], place: usize) -> RowKey
    requires { place < length (map key_of rows.now) }
    ensures { slice_get (map key_of rows.now) place ≡ Some result }
{
    row_at(rows, place).key()
}

/// All rows before and after, of all tables.
#[derive(Clone, Copy)]
struct AllRows<'a, 'b> {
    before: &'a [PlanRow],
    after: &'b [PlanRow],
}

impl<'a, 'b> TwoTables for AllRows<'a, 'b> {
    type Key = RowKey;

    ghost before = { λ t. map key_of t.before.now };

    ghost after = { λ t. map key_of t.after.now };

    ghost IsAlike = { λ t i j. slice_get t.before.now i ≡ slice_get t.after.now j };

    fn rows_before(&self) -> usize {
        count(self.before)
    }

    fn rows_after(&self) -> usize {
        count(self.after)
    }

    fn order(&self, old: usize, new: usize) -> Ordering {
        key_at(self.before, old).cmp(&key_at(self.after, new))
    }

    fn is_alike(&self, old: usize, new: usize) -> bool {
        row_at(self.before, old) == row_at(self.after, new)
    }
}

/// Which rows change from all rows of a plan, in key order, to all rows of another.
pub fn changed_rows(
    alloc: Global,
    before: &[PlanRow],
    after: &[PlanRow],
) -> Result<Changes, AllocError>
    requires before { IsStrictlySortedBy row_cmp (map key_of before.now) }
    requires after { IsStrictlySortedBy row_cmp (map key_of after.now) }
    ensures { IfOk result (λ c. (P Q : Plan) → AreRows P before.now → AreRows Q after.now → AreChanges P Q c.rows.items c.gone.items) }
{
    let found = differences(alloc, &AllRows { before, after })?;
    let mut changes = Changes {
        rows: Vec::new(alloc),
        gone: Vec::new(alloc),
    };
    push_made(
        &mut changes.rows,
        &found.changed,
        |new|
            requires { new < length (map key_of after.now) }
            ensures { slice_get after.entry.now new ≡ Some result }
        { *row_at(after, new) },
    )?;
    push_made(
        &mut changes.gone,
        &found.gone,
        |old|
            requires { old < length (map key_of before.now) }
            ensures { slice_get (map key_of before.entry.now) old ≡ Some result }
        { key_at(before, old) },
    )?;
    Ok(changes)
}
