// What lists have at some places, read and written.
ghost use Rattle.std.specs.Prelude.{◌≡◌, ◌<◌, ℕ, All, Contains, IfOk, length, map};
ghost use Rattle.std.specs.FinMap.{entries};
ghost use Rattle.plan_rows.specs.Touched.{BelongsAt, HasOneOf};
ghost use Rattle.plan_checks.specs.derived_figures.specs.Overwritten.{overwritten};
ghost use Rattle.small_requests.specs.Values.{AreValuesAt};

use plan_checks::UncountedContents;
use std::alloc::{AllocError, Global};

/// What stands at these places, in their order.
pub fn values_at<T: Copy>(
    alloc: Global,
    list: &[T],
    places: &[usize],
) -> Result<Vec<(usize, T)>, AllocError>
    requires { All (λ i. i < length list.now) places.now }
    ensures values { IfOk result (λ values. AreValuesAt list.now (Contains places.now) values.items) }
    ensures in_order { IfOk result (λ values. map (λ e. e.0) values.items ≡ places.now) }
{
    let mut values = Vec::with_capacity(alloc, places.len())?;
    for place in places {
        values.push((*place, list[*place]))?;
    }
    Ok(values)
}

/// Writes these values at their places. It takes no memory.
pub fn put_at<T: Copy>(list: &mut [T], values: &[(usize, T)])
    requires { All (λ e. e.0 < length list.old) values.now }
    ensures { list.new ≡ overwritten values.now list.old }
{
    for value in values {
        list[value.0] = value.1;
    }
}

// The index of the occurrence to which the operation at an index belongs.
fn occurrence_at(uncounted: &UncountedContents<'_>, place: usize) -> usize
    requires { place < length (entries uncounted.now.contents.now.operations) }
    ensures within { result < length (entries uncounted.now.contents.now.occurrences) }
    ensures belongs { BelongsAt uncounted.now.contents.now place result }
{
    uncounted.occurrence_place_of(uncounted.operation_key(place), place)
}

/// The indices of the occurrences to which the operations at these indices belong.
pub fn occurrences_at(
    alloc: Global,
    uncounted: &UncountedContents<'_>,
    places: &[usize],
) -> Result<Vec<usize>, AllocError>
    requires { All (λ i. i < length (entries uncounted.now.contents.now.operations)) places.now }
    ensures within { IfOk result (λ all. All (λ p. p < length (entries uncounted.now.contents.now.occurrences)) all.items) }
    ensures each { IfOk result (λ all. (p : ℕ) → HasOneOf uncounted.now.contents.now places.now p → Contains all.items p) }
{
    let mut all = Vec::with_capacity(alloc, places.len())?;
    for place in places {
        all.push(occurrence_at(uncounted, *place))?;
    }
    Ok(all)
}
