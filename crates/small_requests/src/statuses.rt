// The statuses of operations once some are named.
ghost use Rattle.std.specs.Prelude.{◌≡◌, ◌<◌, All, Contains, IfOk, MatchOption, Some, length, slice_get};
ghost use Rattle.std.specs.List.Sorted.{IsStrictlySortedBy};
ghost use Rattle.std.specs.Ordering.{nat_cmp};
ghost use Rattle.small_requests.specs.Effects.{AreStatusesOnceNamed, IsStatusOnceNamed};

use status_rules::Status;
use std::alloc::{AllocError, Global};

// The index of a place among places in order, by a search.
fn searched(places: &[usize], place: usize) -> Option<usize>
    requires { IsStrictlySortedBy nat_cmp places.now }
    ensures { MatchOption result (¬ Contains places.now place) (λ k. slice_get places.now k ≡ Some place) }
{
    places.binary_search(&place).ok()
}

// The status of the operation at a place once those at these other places, which ascend, are named.
fn status_once_named(statuses: &[Status], place: usize, named: &[usize]) -> Status
    requires within { place < length statuses.now }
    requires ascend { IsStrictlySortedBy nat_cmp named.now }
    ensures { IsStatusOnceNamed statuses.now named.now (place, result) }
{
    match searched(named, place) {
        Some(_) => Status::Started,
        None => statuses[place],
    }
}

/// The statuses of the operations at these places once those at these other places, which ascend, are named.
pub fn statuses_once_named(
    alloc: Global,
    statuses: &[Status],
    places: &[usize],
    named: &[usize],
) -> Result<Vec<(usize, Status)>, AllocError>
    requires within { All (λ i. i < length statuses.now) places.now }
    requires ascend { IsStrictlySortedBy nat_cmp named.now }
    ensures { IfOk result (λ values. AreStatusesOnceNamed statuses.now places.now named.now values.items) }
{
    let mut values = Vec::with_capacity(alloc, places.len())?;
    for place in places {
        values.push((*place, status_once_named(statuses, *place, named)))?;
    }
    Ok(values)
}
