// Where what is going stands, from one request to the next.
ghost use Rattle.std.specs.Prelude.{IfOk, OnOk};
ghost use Rattle.forecasting.specs.Following.{AddsGoing, AreAll, AreGoingAmong, ArePlaces};

use super::going::is_going_at;
use derived_figures::LoadedPlan;
use plan_core::Plan;
use std::alloc::{AllocError, Global};

/// The indices of so many operations.
pub(crate) fn every_place(alloc: Global, count: usize) -> Result<Vec<usize>, AllocError>
    ensures { IfOk result (λ places. AreAll count places.items) }
{
    let mut places = Vec::with_capacity(alloc, count)?;
    for place in 0..count {
        places.push(place)?;
    }
    Ok(places)
}

// Adds those of these indices at which an operation is going.
fn add_going(
    going: &mut Vec<usize>,
    loaded: &LoadedPlan,
    places: &[usize],
) -> Result<(), AllocError>
    requires { ArePlaces loaded.now places.now }
    ensures { OnOk result (AddsGoing loaded.now places.now going.old.items going.new.items) }
{
    for place in places {
        if is_going_at(loaded, *place) {
            going.push(*place)?;
        }
    }
    Ok(())
}

// Those of these indices and of others at which an operation is going.
fn going_among(
    alloc: Global,
    loaded: &LoadedPlan,
    going: &[usize],
    places: &[usize],
) -> Result<Vec<usize>, AllocError>
    requires going { ArePlaces loaded.now going.now }
    requires places { ArePlaces loaded.now places.now }
    ensures { IfOk result (λ next. AreGoingAmong loaded.now going.now places.now next.items) }
{
    let mut next = Vec::with_capacity(alloc, going.len())?;
    add_going(&mut next, loaded, going)?;
    add_going(&mut next, loaded, places)?;
    Ok(next)
}

/// Leaves of these indices those at which an operation of a plan is going, and adds those of others at which one is.
pub(crate) fn follow_going(
    plan: &Plan,
    going: &mut Vec<usize>,
    places: &[usize],
) -> Result<(), AllocError>
    requires going { ArePlaces plan.now.plan.contents going.old.items }
    requires places { ArePlaces plan.now.plan.contents places.now }
    ensures { OnOk result (AreGoingAmong plan.now.plan.contents going.old.items places.now going.new.items) }
{
    if let Some(loaded) = plan.loaded() {
        let next = going_among(plan.alloc(), loaded, going, places)?;
        *going = next;
    }
    Ok(())
}
