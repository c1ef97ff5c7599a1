// Lists of places, ascending.
ghost use Rattle.std.specs.Prelude.{◌≡◌, ◌↔◌, ◌⊎◌, ℕ, map, Contains, IfOk};
ghost use Rattle.std.specs.List.Sorted.{IsStrictlySortedBy};
ghost use Rattle.std.specs.Ordering.{nat_cmp};

use satisfaction::WaitState;
use std::alloc::{AllocError, Global};

/// The places at which a journal has writes, in its order.
pub fn noted(alloc: Global, journal: &[(usize, WaitState)]) -> Result<Vec<usize>, AllocError>
    ensures { IfOk result (λ places. places.items ≡ map (λ e. e.0) journal.now) }
{
    let mut places = Vec::with_capacity(alloc, journal.len())?;
    for entry in journal {
        places.push(entry.0)?;
    }
    Ok(places)
}

/// The places of both lists, ascending, each once.
pub fn joined(alloc: Global, first: &[usize], second: &[usize]) -> Result<Vec<usize>, AllocError>
    ensures ascend { IfOk result (λ all. IsStrictlySortedBy nat_cmp all.items) }
    ensures both { IfOk result (λ all. (i : ℕ) → Contains all.items i ↔ (Contains first.now i ⊎ Contains second.now i)) }
{
    let mut all = Vec::from_slice(alloc, first)?;
    all.extend_from_slice(second)?;
    all.sort_unstable();
    all.dedup();
    Ok(all)
}
