// The indices of operations.
ghost use Rattle.std.specs.Prelude.{◌≡◌, All, IfOk, Some, slice_get};
ghost use Rattle.std.specs.FinMap.{keys as keys_in};
ghost use Rattle.plan_model.specs.Contents.{IsInPlan};
ghost use Rattle.plan_drafts.specs.PlanGraphs.{StandAt};
ghost use Rattle.small_requests.specs.RequestEdits.{ArePlacesOf};

use plan_basics::OpKey;
use plan_checks::UncountedContents;
use std::alloc::{AllocError, Global};

// The index of an operation of the plan.
fn place_of(uncounted: &UncountedContents<'_>, key: &OpKey) -> usize
    requires { IsInPlan uncounted.now.contents.now key.now }
    ensures { slice_get (keys_in uncounted.now.contents.now.operations) result ≡ Some key.now }
{
    uncounted.known_operation_place(key)
}

// The index of each of these operations, in their order.
fn each_place(
    alloc: Global,
    uncounted: &UncountedContents<'_>,
    keys: &[OpKey],
) -> Result<Vec<usize>, AllocError>
    requires { All (IsInPlan uncounted.now.contents.now) keys.now }
    ensures { IfOk result (λ places. StandAt (keys_in uncounted.now.contents.now.operations) places.items keys.now) }
{
    let mut places = Vec::with_capacity(alloc, keys.len())?;
    for key in keys {
        places.push(place_of(uncounted, key))?;
    }
    Ok(places)
}

/// The indices of these operations, which the plan has, ascending, each once. It is an error where a growth was refused.
pub fn places_of(
    alloc: Global,
    uncounted: &UncountedContents<'_>,
    keys: &[OpKey],
) -> Result<Vec<usize>, AllocError>
    requires { All (IsInPlan uncounted.now.contents.now) keys.now }
    ensures { IfOk result (λ places. ArePlacesOf uncounted.now.contents.now keys.now places.items) }
{
    let mut places = each_place(alloc, uncounted, keys)?;
    places.sort_unstable();
    places.dedup();
    Ok(places)
}
