// The occurrences of touched operations.
ghost use Rattle.std.specs.Prelude.{◌<◌, ℕ, Contains, IfOk, length};
ghost use Rattle.std.specs.FinMap.{entries};
ghost use Rattle.std.specs.List.Sorted.{IsStrictlySortedBy};
ghost use Rattle.std.specs.Ordering.{nat_cmp};
ghost use Rattle.plan_rows.specs.Touched.{AreOccurrencesOf, BelongsAt};

use derived_figures::CountedRecords;
use std::alloc::{AllocError, Global};

// The index of the occurrence to which the operation at an index belongs.
fn occurrence_place(records: &CountedRecords, place: usize) -> usize
    requires { place < length (entries records.now.contents.operations) }
    ensures { BelongsAt records.now.contents place result }
{
    let uncounted = records.uncounted();
    let operation = uncounted.operation_key(place);
    uncounted.occurrence_place_of(operation, place)
}

/// The indices of the occurrences to which the operations at these indices belong, each once, in order. It looks at no record.
pub fn occurrence_places(
    alloc: Global,
    records: &CountedRecords,
    touched: &[usize],
) -> Result<Vec<usize>, AllocError>
    requires ascend { IsStrictlySortedBy nat_cmp touched.now }
    requires within { (i : ℕ) → Contains touched.now i → i < length (entries records.now.contents.operations) }
    ensures { IfOk result (λ v. AreOccurrencesOf records.now.contents touched.now v.items) }
{
    let mut places = Vec::new(alloc);
    for place in touched {
        places.push(occurrence_place(records, *place))?;
    }
    places.dedup();
    Ok(places)
}
