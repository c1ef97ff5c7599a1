// A path of dependencies that returns.
ghost use Rattle.std.specs.Prelude.{◌<◌, ◌+◌, ℕ, All, length, IfOk, OnOk, MatchOption};
ghost use Rattle.std.specs.List.{AllZip};
ghost use Rattle.plan_basics.specs.declared.keys.OpKey.{OpKey};
ghost use Rattle.record_faults.specs.Circles.{AreEdgesBelow, IsEdgeAt, IsEdgeOfKeys, IsDependencyOf, StandsAt, IsClosing, IsCircle, NoCircle};
ghost use Rattle.record_faults.specs.Sayings.{PlacedKeys, IsIndex};

use super::index::{Index, first_place};
use graph_paths::returning_path;
use plan_basics::OpKey;
use plan_drafts::RowKey;
use std::alloc::{AllocError, Global};

// From the place of an operation to that of another that comes after it, where a key says so and both have a place.
fn edge_of(keys: &[Option<RowKey>], index: &Index, place: usize) -> Option<(usize, usize)>
    requires index { IsIndex keys.now index.now }
    requires place { place < length keys.now }
    ensures { IsEdgeAt keys.now place result }
{
    let Some(RowKey::Dependency(before, after)) = keys[place] else {
        return None;
    };
    let from = first_place(index, &RowKey::Operation(before))?;
    let to = first_place(index, &RowKey::Operation(after))?;
    Some((from, to))
}

// An edge more, if there is one.
fn add_edge(edges: &mut Vec<(usize, usize)>, edge: Option<(usize, usize)>) -> Result<(), AllocError>
    ensures { OnOk result ((keys : PlacedKeys) → (n : ℕ) → IsEdgeAt keys n edge → AreEdgesBelow keys n edges.old.items → AreEdgesBelow keys (n + 1) edges.new.items) }
{
    let Some(edge) = edge else {
        return Ok(());
    };
    edges.extend_from_slice(&[edge])?;
    Ok(())
}

// All of these.
fn edges_of_keys(
    alloc: Global,
    keys: &[Option<RowKey>],
    index: &Index,
) -> Result<Vec<(usize, usize)>, AllocError>
    requires { IsIndex keys.now index.now }
    ensures { IfOk result (λ edges. AreEdgesBelow keys.now (length keys.now) edges.items) }
{
    let mut edges = Vec::new(alloc);
    for place in 0..keys.len() {
        add_edge(&mut edges, edge_of(keys, index, place))?;
    }
    Ok(edges)
}

// The operation of which a place gives the key.
fn operation_at(keys: &[Option<RowKey>], place: usize) -> OpKey
    requires { (o : OpKey) × StandsAt keys.now place o }
    ensures { StandsAt keys.now place result }
{
    match keys[place] {
        Some(RowKey::Operation(key)) => key,
        _ => unreachable!("the place gives an operation's key"),
    }
}

// The operations of which these places give the keys.
fn operations_at(
    alloc: Global,
    keys: &[Option<RowKey>],
    places: &[usize],
) -> Result<Vec<OpKey>, AllocError>
    requires { All (λ place. (o : OpKey) × StandsAt keys.now place o) places.now }
    ensures { IfOk result (λ v. AllZip (StandsAt keys.now) places.now v.items) }
{
    let mut operations = Vec::new(alloc);
    for number in 0..places.len() {
        operations.extend_from_slice(&[operation_at(keys, places[number])])?;
    }
    Ok(operations)
}

// The dependency of which an edge joins the places of the operations.
fn dependency_of(keys: &[Option<RowKey>], edge: (usize, usize)) -> RowKey
    requires { IsEdgeOfKeys keys.now edge }
    ensures { IsDependencyOf keys.now edge result }
{
    RowKey::Dependency(operation_at(keys, edge.0), operation_at(keys, edge.1))
}

// The place that says that the operation at an edge's end comes after that at its start.
fn closing(keys: &[Option<RowKey>], index: &Index, edge: (usize, usize)) -> usize
    requires index { IsIndex keys.now index.now }
    requires edge { IsEdgeOfKeys keys.now edge }
    ensures { (first : OpKey) → StandsAt keys.now edge.0 first → IsClosing keys.now edge result first }
{
    first_place(index, &dependency_of(keys, edge)).unwrap()
}

/// A dependency that closes a path, and the way back.
#[derive(Drop)]
pub struct Circle {
    /// The place of the dependency's record.
    pub place: usize,
    /// Its predecessor.
    pub first: OpKey,
    /// From there on each operation comes before the one that is told before it; the last is the dependency's successor.
    pub way: Vec<OpKey>,
}

// A path of dependencies that returns, where one does.
pub fn circle_of(
    alloc: Global,
    keys: &[Option<RowKey>],
    index: &Index,
) -> Result<Option<Circle>, AllocError>
    requires { IsIndex keys.now index.now }
    ensures { IfOk result (λ found. MatchOption found (NoCircle keys.now) (λ c. IsCircle keys.now c.place c.first c.way.items)) }
{
    let edges = edges_of_keys(alloc, keys, index)?;
    let Some(found) = returning_path(alloc, keys.len(), &edges)? else {
        return Ok(None);
    };
    let way = operations_at(alloc, keys, &found.way)?;
    let edge = edges[found.place];
    let place = closing(keys, index, edge);
    let first = operation_at(keys, edge.0);
    Ok(Some(Circle { place, first, way }))
}
