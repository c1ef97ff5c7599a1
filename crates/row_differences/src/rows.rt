// Rows of a key and a value each.
ghost use Rattle.std.specs.Prelude.{◌≡◌, ◌++◌, ℕ, List, Contains, Some, slice_get, OnOk};
ghost use Rattle.std.specs.Map.{keys_of};
ghost use Rattle.row_differences.specs.Changes.{AreAt};
ghost use Rattle.row_differences.specs.Rows.{HaveEqualValues};

use super::TwoTables;
use std::alloc::AllocError;
use std::cmp::Ordering;

/// Rows of a key and a value each, before and after. Two are alike where their values are equal.
#[derive(Clone, Copy)]
pub struct KeyedRows<'a, 'b, K, X> {
    pub before: &'a [(K, X)],
    pub after: &'b [(K, X)],
}

impl<'a, 'b, K: Ord, X: PartialEq> TwoTables for KeyedRows<'a, 'b, K, X> {
    type Key = K;

    ghost before = { λ rows. keys_of rows.before.now };

    ghost after = { λ rows. keys_of rows.after.now };

    ghost IsAlike = { λ rows. HaveEqualValues X.eq rows.before.now rows.after.now };

    fn rows_before(&self) -> usize {
        self.before.len()
    }

    fn rows_after(&self) -> usize {
        self.after.len()
    }

    fn order(&self, old: usize, new: usize) -> Ordering {
        self.before[old].0.cmp(&self.after[new].0)
    }

    fn is_alike(&self, old: usize, new: usize) -> bool {
        self.before[old].1 == self.after[new].1
    }
}

/// Adds what is made at each of these indices, in order. At an error a part of it may be added.
pub fn push_made<Row: Drop, F: Fn(usize) -> Row>(
    rows: &mut Vec<Row>,
    places: &[usize],
    make: F,
) -> Result<(), AllocError>
    requires { (i : ℕ) → Contains places.now i → F.pre make i }
    ensures { (all : List Row) → ((i : ℕ) (r : Row) → Contains places.now i → F.post make i r → slice_get all i ≡ Some r) → OnOk result ((more : List Row) × AreAt all places.now more × (rows.new.items ≡ rows.old.items ++ more)) }
{
    for place in places {
        rows.push(make(*place))?;
    }
    Ok(())
}
