// The dependencies of an occurrence, each with the statuses of its ends.
ghost use Rattle.std.specs.Prelude.{◌≡◌, IfOk, All, filter};
ghost use Rattle.std.specs.List.{AllZip};
ghost use Rattle.plan_shows.specs.Dependencies.{AreDependencyViews, AreInPlan, IsDependencyView, has_end_in};

use super::resources::status_of;
use plan_basics::{OccKey, OpKey};
use plan_reasons::{LoadedPlan, Plan};
use status_rules::Status;
use std::alloc::{AllocError, Global};

/// A dependency, with the statuses of its ends.
#[derive(Clone, Copy)]
pub struct DependencyView {
    pub predecessor: OpKey,
    pub predecessor_status: Status,
    pub successor: OpKey,
    pub successor_status: Status,
}

// Whether an end of a pair is in an occurrence.
fn has_end_in(occurrence: &OccKey, pair: &(OpKey, OpKey)) -> bool
    ensures { result ≡ has_end_in occurrence.now pair.now }
{
    pair.0.occurrence.order(occurrence).is_eq() || pair.1.occurrence.order(occurrence).is_eq()
}

// Those of these pairs that have an end in an occurrence.
fn pairs_with_end_in(
    alloc: Global,
    pairs: &[(OpKey, OpKey)],
    occurrence: &OccKey,
) -> Result<Vec<(OpKey, OpKey)>, AllocError>
    ensures { IfOk result (λ found. found.items ≡ filter (has_end_in occurrence.now) pairs.now) }
{
    pairs
        .iter()
        .copied()
        .filter(|pair| has_end_in(occurrence, pair))
        .collect(alloc)
}

// What is shown of a pair of operations of the plan.
fn dependency_view(loaded: &LoadedPlan, pair: &(OpKey, OpKey)) -> DependencyView
    requires { AreInPlan loaded.now pair.now }
    ensures { IsDependencyView loaded.now pair.now result }
{
    DependencyView {
        predecessor: pair.0,
        predecessor_status: status_of(loaded, &pair.0),
        successor: pair.1,
        successor_status: status_of(loaded, &pair.1),
    }
}

// What is shown of these pairs of operations of the plan, in their order.
fn views_of(
    alloc: Global,
    loaded: &LoadedPlan,
    pairs: &[(OpKey, OpKey)],
) -> Result<Vec<DependencyView>, AllocError>
    requires { All (AreInPlan loaded.now) pairs.now }
    ensures { IfOk result (λ views. AllZip (IsDependencyView loaded.now) pairs.now views.items) }
{
    let mut views = Vec::with_capacity(alloc, pairs.len())?;
    for pair in pairs {
        views.push(dependency_view(loaded, pair))?;
    }
    Ok(views)
}

// The dependencies of an occurrence of a loaded plan.
fn views_in(
    alloc: Global,
    loaded: &LoadedPlan,
    occurrence: &OccKey,
) -> Result<Vec<DependencyView>, AllocError>
    ensures { IfOk result (λ views. AreDependencyViews loaded.now occurrence.now views.items) }
{
    let pairs = pairs_with_end_in(alloc, loaded.contents().pairs(), occurrence)?;
    views_of(alloc, loaded, &pairs)
}

/// The dependencies of an occurrence, by predecessor, then successor; none before a plan is loaded. It fails for want of
/// memory only.
pub(crate) fn dependency_views(
    alloc: Global,
    plan: &Plan,
    occurrence: &OccKey,
) -> Result<Vec<DependencyView>, AllocError>
    ensures { IfOk result (λ views. AreDependencyViews plan.now.plan.contents occurrence.now views.items) }
{
    match plan.loaded() {
        Some(loaded) => views_in(alloc, loaded, occurrence),
        None => Ok(Vec::new(alloc)),
    }
}
