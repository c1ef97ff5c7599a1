// What an operation waits for, and the roots of that chain.
ghost use Rattle.std.specs.Prelude.{◌≡◌, ◌<◌, ◌↔◌, ℕ, All, Contains, IfOk, IfErr, filter, length, map, slice_get};
ghost use Rattle.std.specs.FinMap.{entries};
ghost use Rattle.graph_paths.specs.Upstream.{AreAscending};
ghost use Rattle.operation_graph.specs.Graphs.{HasEdge, IsGraph, IsSet};
ghost use Rattle.plan_basics.specs.declared.Refusal.{Refusal};
ghost use Rattle.plan_basics.specs.declared.keys.OpKey.{OpKey};
ghost use Rattle.plan_model.specs.Contents.{Operation};
ghost use Rattle.plan_model.specs.Status.{HasStatus};
ghost use Rattle.plan_model.specs.Valid.{IsSound};
ghost use Rattle.plan_reasons.specs.Parts.{AreOfKind};
ghost use Rattle.plan_reasons.specs.Places.{AreAt, IsAt, is_unsatisfied_at, unsatisfied_flags};
ghost use Rattle.plan_reasons.specs.Whys.{AreRoots};

use super::reasons::{Reason, Unsatisfied};
use graph_paths::sources;
use operation_graph::Graph;
use plan_basics::Refusal;
use plan_core::LoadedPlan;
use status_rules::Status;
use std::alloc::{AllocError, Global};

/// Which operations aren't satisfied, by their statuses.
pub fn unsatisfied_flags(alloc: Global, statuses: &[Status]) -> Result<Vec<bool>, AllocError>
    ensures { IfOk result (λ flags. flags.items ≡ unsatisfied_flags statuses.now) }
{
    let mut flags = Vec::with_capacity(alloc, statuses.len())?;
    for status in statuses {
        flags.push(!status.is_satisfied())?;
    }
    Ok(flags)
}

// The operation at an index, with its status.
fn unsatisfied_at(loaded: &LoadedPlan, place: usize) -> Unsatisfied
    requires { place < length (entries loaded.now.operations) }
    ensures at { IsAt loaded.now place result.op }
    ensures status { HasStatus loaded.now result.op result.status }
{
    Unsatisfied {
        op: loaded.contents().operations()[place].0,
        status: loaded.status_at(place),
    }
}

// The operations at these indices, with their statuses.
fn unsatisfied_at_each(
    alloc: Global,
    loaded: &LoadedPlan,
    places: &[usize],
) -> Result<Vec<Unsatisfied>, AllocError>
    requires { All (λ place. place < length (entries loaded.now.operations)) places.now }
    ensures { IfOk result (λ found. AreAt loaded.now places.now found.items) }
{
    let mut found = Vec::with_capacity(alloc, places.len())?;
    for place in places {
        found.push(unsatisfied_at(loaded, *place))?;
    }
    Ok(found)
}

// The reason to wait for this one.
fn reason_to_wait(unsatisfied: &Unsatisfied) -> Reason
    ensures { result ≡ Reason.WaitsFor unsatisfied.now }
{
    Reason::WaitsFor(*unsatisfied)
}

// The reasons to wait for these.
fn reasons_to_wait(alloc: Global, found: &[Unsatisfied]) -> Result<Vec<Reason>, AllocError>
    ensures { IfOk result (λ reasons. reasons.items ≡ map (λ x. Reason.WaitsFor x) found.now) }
{
    let mut reasons = Vec::with_capacity(alloc, found.len())?;
    for unsatisfied in found {
        reasons.push(reason_to_wait(unsatisfied))?;
    }
    Ok(reasons)
}

/// The plan is looked at for the proof alone, which learns that what it holds is sound.
pub fn read_for_proof(loaded: &LoadedPlan)
    ensures { IsSound loaded.now }
{
    let _ = loaded.contents().valid();
}

// Whether there is an operation at an index that isn't satisfied, by the statuses of all.
fn is_unsatisfied_at(statuses: &[Status], place: usize) -> bool
    ensures { result ≡ is_unsatisfied_at statuses.now place }
{
    match statuses.get(place) {
        Some(status) => !status.is_satisfied(),
        None => false,
    }
}

// Those of these operations that aren't satisfied, by the statuses of all, in their order.
fn unsatisfied_of(
    alloc: Global,
    statuses: &[Status],
    places: &[usize],
) -> Result<Vec<usize>, AllocError>
    ensures { IfOk result (λ found. found.items ≡ filter (is_unsatisfied_at statuses.now) places.now) }
{
    let mut found = Vec::new(alloc);
    for place in places {
        if is_unsatisfied_at(statuses, *place) {
            found.push(*place)?;
        }
    }
    Ok(found)
}

// The predecessors of a node, from the least up.
fn preds_in_order(alloc: Global, graph: &Graph, node: usize) -> Result<Vec<usize>, AllocError>
    requires { node < graph.now.nodes }
    ensures in_order { IfOk result (λ preds. AreAscending preds.items) }
    ensures nodes { IfOk result (λ preds. (p : ℕ) → Contains preds.items p ↔ HasEdge graph.now p node) }
    ensures graph { IsGraph graph.now }
{
    let mut preds = Vec::from_slice(alloc, graph.preds(node))?;
    preds.sort_unstable();
    Ok(preds)
}

// The predecessors of a node that aren't satisfied, by the statuses of all, from the least up. The error is always `Memory`.
fn unsatisfied_preds(
    alloc: Global,
    graph: &Graph,
    statuses: &[Status],
    node: usize,
) -> Result<Vec<usize>, Refusal>
    requires { node < graph.now.nodes }
    ensures in_order { IfOk result (λ found. AreAscending found.items) }
    ensures nodes { IfOk result (λ found. (p : ℕ) → Contains found.items p ↔ (HasEdge graph.now p node × IsSet (unsatisfied_flags statuses.now) p)) }
    ensures refused { IfErr result (λ r. r ≡ Refusal.Memory) }
{
    let preds = preds_in_order(alloc, graph, node)?;
    Ok(unsatisfied_of(alloc, statuses, &preds)?)
}

// The operations that the waiting operation at an index waits for, in key order. The error is always `Memory`.
fn waited_for(alloc: Global, loaded: &LoadedPlan, place: usize) -> Result<Vec<Reason>, Refusal>
    requires place { place < length (entries loaded.now.operations) }
    requires waits { (o : OpKey) → IsAt loaded.now place o → HasStatus loaded.now o Status.Waiting }
    ensures reasons { IfOk result (λ found. (o : OpKey) (op : Operation) (m : ℕ) → slice_get (entries loaded.now.operations) place ≡ Some (o, op) → AreOfKind loaded.now o op m 1 found.items) }
    ensures refused { IfErr result (λ r. r ≡ Refusal.Memory) }
{
    read_for_proof(loaded);
    let places = unsatisfied_preds(alloc, loaded.graph(), loaded.statuses(), place)?;
    let found = unsatisfied_at_each(alloc, loaded, &places)?;
    Ok(reasons_to_wait(alloc, &found)?)
}

/// The reasons that the operation at an index waits for its predecessors, in key order. The error is always `Memory`.
pub fn waits(alloc: Global, loaded: &LoadedPlan, place: usize) -> Result<Vec<Reason>, Refusal>
    requires { place < length (entries loaded.now.operations) }
    ensures reasons { IfOk result (λ found. (o : OpKey) (op : Operation) (m : ℕ) → slice_get (entries loaded.now.operations) place ≡ Some (o, op) → AreOfKind loaded.now o op m 1 found.items) }
    ensures refused { IfErr result (λ r. r ≡ Refusal.Memory) }
{
    read_for_proof(loaded);
    match loaded.status_at(place) {
        Status::Waiting => waited_for(alloc, loaded, place),
        _ => Ok(Vec::new(alloc)),
    }
}

// Where the chain begins that the waiting operation at an index waits for, in key order. The error is always `Memory`.
fn beginnings(alloc: Global, loaded: &LoadedPlan, place: usize) -> Result<Vec<Unsatisfied>, Refusal>
    requires place { place < length (entries loaded.now.operations) }
    requires waits { (o : OpKey) → IsAt loaded.now place o → HasStatus loaded.now o Status.Waiting }
    ensures roots { IfOk result (λ found. (o : OpKey) → IsAt loaded.now place o → AreRoots loaded.now o found.items) }
    ensures refused { IfErr result (λ r. r ≡ Refusal.Memory) }
{
    read_for_proof(loaded);
    let flags = unsatisfied_flags(alloc, loaded.statuses())?;
    let places = sources(alloc, loaded.graph(), &flags, place)?;
    Ok(unsatisfied_at_each(alloc, loaded, &places)?)
}

/// The roots of the operation at an index, in key order: where it waits, what is upstream of it and itself waits for
/// nothing. The error is always `Memory`. Beside looking at each operation's status it takes the time to sort what is
/// upstream, and time linear in the pairs that lead there.
pub fn roots(alloc: Global, loaded: &LoadedPlan, place: usize) -> Result<Vec<Unsatisfied>, Refusal>
    requires { place < length (entries loaded.now.operations) }
    ensures roots { IfOk result (λ found. (o : OpKey) → IsAt loaded.now place o → AreRoots loaded.now o found.items) }
    ensures refused { IfErr result (λ r. r ≡ Refusal.Memory) }
{
    read_for_proof(loaded);
    match loaded.status_at(place) {
        Status::Waiting => beginnings(alloc, loaded, place),
        _ => Ok(Vec::new(alloc)),
    }
}
