// Rows in any order: whether they are those of a list in key order.

ghost use Rattle.std.specs.Prelude.{◌≡◌, ◌↔◌, map, IfOk, IsTrue};
ghost use Rattle.std.specs.List.Sorted.{IsStrictlySortedBy};
ghost use Rattle.plan_records.specs.Rows.{key_of, row_cmp};
ghost use Rattle.plan_opening.specs.These.{AreThese};

use plan_denotation::in_key_order;
use plan_records::PlanRow;
use std::alloc::{AllocError, Global};

// Whether two lists are the same, each row in all its columns.
fn are_same(rows: &[PlanRow], others: &[PlanRow]) -> bool
    ensures { IsTrue result ↔ (rows.now ≡ others.now) }
{
    rows == others
}

/// Whether rows, in any order, are all rows of a list in key order, each once.
pub fn are_these(alloc: Global, rows: &[PlanRow], all: &[PlanRow]) -> Result<bool, AllocError>
    requires { IsStrictlySortedBy row_cmp (map key_of all.now) }
    ensures { IfOk result (λ told. IsTrue told ↔ AreThese rows.now all.now) }
{
    let rows = Vec::from_slice(alloc, rows)?;
    let Some(ordered) = in_key_order(rows, |row| row.key())? else {
        return Ok(false);
    };
    Ok(are_same(&ordered, all))
}
