//! Which rows of a table differ from those of the table before.
#![tactic(auto)]

ghost use Rattle.std.specs.Prelude.{◌≡◌, ◌<◌, ◌≤◌, ◌+◌, ◌↔◌, ℕ, List, Some, IfOk, IsTrue, length, slice_get};
ghost use Rattle.std.specs.FinMap.{IsAntisymmetric};
ghost use Rattle.std.specs.List.Sorted.{IsStrictlySortedBy};
ghost use Rattle.std.specs.declared.cmp.Ordering.TheVariants.{Less, Equal, Greater};
ghost use Rattle.row_differences.specs.Differences.{AreDifferences, HaveOneKey};
ghost use Rattle.row_differences.specs.Fronts.{IsFirst};

mod rows;

pub use rows::{KeyedRows, push_made};
use std::alloc::{AllocError, Global};
use std::cmp::Ordering;

/// A table as it was and as it is. Contracts see the keys of its rows.
pub trait TwoTables {
    type Key: Ord;

    /// The keys of the rows before.
    ghost before: { Self → List Self.Key };

    /// The keys of the rows after.
    ghost after: { Self → List Self.Key };

    /// The row at an index before and the row at an index after are alike.
    ghost IsAlike: { Self → ℕ → ℕ → Type 0 };

    /// How many rows there were.
    fn rows_before(&self) -> usize
        ensures { result ≡ length (before self.now) };

    /// How many rows there are.
    fn rows_after(&self) -> usize
        ensures { result ≡ length (after self.now) };

    /// How the key of a row before compares with that of a row after.
    fn order(&self, old: usize, new: usize) -> Ordering
        requires old { old < length (before self.now) }
        requires new { new < length (after self.now) }
        ensures { (k l : Self.Key) → slice_get (before self.now) old ≡ Some k → slice_get (after self.now) new ≡ Some l → result ≡ Self.Key.cmp k l };

    /// Whether a row before and a row after, which have one key, are alike.
    fn is_alike(&self, old: usize, new: usize) -> bool
        requires old { old < length (before self.now) }
        requires new { new < length (after self.now) }
        requires one_key { HaveOneKey (before self.now) (after self.now) old new }
        ensures { IsTrue result ↔ IsAlike self.now old new };
}

/// The rows that differ, by their indices in ascending order.
#[derive(Drop)]
pub struct DifferentRows {
    /// In the table after: what is new, or isn't like the row of its key before.
    pub changed: Vec<usize>,
    /// In the table before: what has a key that no row has after.
    pub gone: Vec<usize>,
}

// Which of the next rows has the first key. A table of which no row is left comes last.
fn first<T: TwoTables>(tables: &T, old: usize, new: usize) -> Ordering
    requires exact { IsAntisymmetric T.Key.cmp }
    requires before { IsStrictlySortedBy T.Key.cmp (T.before tables.now) }
    requires after { IsStrictlySortedBy T.Key.cmp (T.after tables.now) }
    requires old { old ≤ length (T.before tables.now) }
    requires new { new ≤ length (T.after tables.now) }
    requires left { old + new < length (T.before tables.now) + length (T.after tables.now) }
    ensures less { result ≡ Less → IsFirst T.Key.cmp (T.before tables.now) (T.after tables.now) old new }
    ensures equal { result ≡ Equal → HaveOneKey (T.before tables.now) (T.after tables.now) old new }
    ensures greater { result ≡ Greater → IsFirst T.Key.cmp (T.after tables.now) (T.before tables.now) new old }
{
    if old == tables.rows_before() {
        Ordering::Greater
    } else if new == tables.rows_after() {
        Ordering::Less
    } else {
        tables.order(old, new)
    }
}

/// What differs between a table before and after.
pub fn differences<T: TwoTables>(alloc: Global, tables: &T) -> Result<DifferentRows, AllocError>
    requires exact { IsAntisymmetric T.Key.cmp }
    requires before { IsStrictlySortedBy T.Key.cmp (T.before tables.now) }
    requires after { IsStrictlySortedBy T.Key.cmp (T.after tables.now) }
    ensures { IfOk result (λ d. AreDifferences (T.before tables.now) (T.after tables.now) (T.IsAlike tables.now) d.changed.items d.gone.items) }
{
    let rows_before = tables.rows_before();
    let rows_after = tables.rows_after();
    let mut changed = Vec::new(alloc);
    let mut gone = Vec::new(alloc);
    let mut old = 0;
    let mut new = 0;
    while old < rows_before || new < rows_after {
        match first(tables, old, new) {
            Ordering::Less => {
                gone.push(old)?;
                old += 1;
            }
            Ordering::Greater => {
                changed.push(new)?;
                new += 1;
            }
            Ordering::Equal => {
                let alike = tables.is_alike(old, new);
                if !alike {
                    changed.push(new)?;
                }
                old += 1;
                new += 1;
            }
        }
    }
    Ok(DifferentRows { changed, gone })
}
