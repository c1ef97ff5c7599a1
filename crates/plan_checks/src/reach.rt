// What an operation reaches.
ghost use Rattle.std.specs.Prelude.{◌≡◌, ◌↔◌, ◌<◌, true, All, Some, length, map, slice_get, IfOk, IfErr};
ghost use Rattle.std.specs.FinMap.{entries, keys as keys_in};
ghost use Rattle.plan_basics.specs.declared.Refusal.{Refusal};
ghost use Rattle.plan_basics.specs.declared.keys.OpKey.{OpKey as OpKeyValue};
ghost use Rattle.plan_drafts.specs.PlanGraphs.{StandAt};
ghost use Rattle.plan_model.specs.Contents.{IsInPlan};
ghost use Rattle.plan_model.specs.Starts.{Reaches};
ghost use Rattle.plan_model.specs.ready_list.specs.Choice.{is_among};
ghost use Rattle.plan_checks.specs.Reach.{is_live_status};

use derived_figures::{Outline, UncountedContents};
use plan_basics::{OpKey, Refusal};
use status_rules::Status;
use std::alloc::{AllocError, Global};

// Which operations aren't deleted, by their statuses.
fn live_of(alloc: Global, statuses: &[Status]) -> Result<Vec<bool>, AllocError>
    ensures { IfOk result (λ live. live.items ≡ map is_live_status statuses.now) }
{
    let mut live = Vec::with_capacity(alloc, statuses.len())?;
    for status in statuses {
        live.push(is_live(status))?;
    }
    Ok(live)
}

// Whether an operation of this status isn't deleted.
fn is_live(status: &Status) -> bool
    ensures { result ≡ is_live_status status.now }
{
    !matches!(status, Status::Deleted)
}

/// The key of the operation at an index.
pub fn key_at(uncounted: &UncountedContents<'_>, place: usize) -> OpKey
    requires { place < length (entries uncounted.now.contents.now.operations) }
    ensures { slice_get (keys_in uncounted.now.contents.now.operations) place ≡ Some result }
{
    *uncounted.operation_key(place)
}

/// The keys of the operations at these indices. It takes no look at a record.
pub fn keys_at(
    alloc: Global,
    uncounted: &UncountedContents<'_>,
    places: &[usize],
) -> Result<Vec<OpKey>, AllocError>
    requires { All (λ place. place < length (entries uncounted.now.contents.now.operations)) places.now }
    ensures { IfOk result (λ keys. StandAt (keys_in uncounted.now.contents.now.operations) places.now keys.items) }
{
    let mut keys = Vec::with_capacity(alloc, places.len())?;
    for place in places {
        keys.push(key_at(uncounted, *place))?;
    }
    Ok(keys)
}

/// An operation of the plan, and all that some path from it reaches that enters no deleted operation. It takes no look at a
/// record. The error is always `Memory`.
pub fn reached_keys(
    alloc: Global,
    outline: &Outline<'_>,
    key: &OpKey,
) -> Result<Vec<OpKey>, Refusal>
    requires { IsInPlan outline.now key.now }
    ensures reached { IfOk result (λ keys. (o : OpKeyValue) → (is_among keys.items o ≡ true) ↔ Reaches outline.now key.now o) }
    ensures refused { IfErr result (λ r. r ≡ Refusal.Memory) }
{
    let uncounted = outline.uncounted();
    let place = uncounted.known_operation_place(key);
    let live = live_of(alloc, outline.statuses())?;
    let places = outline.graph().reach(place, &live)?;
    Ok(keys_at(alloc, &uncounted, &places)?)
}
