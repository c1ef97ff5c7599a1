// The graph of what a plan holds: its nodes are the indices of the operations' keys, its edges come from the pairs.
ghost use Rattle.std.specs.Prelude.{◌≡◌, Some, Contains, slice_get, IfOk, MatchOption};
ghost use Rattle.std.specs.FinSet.{from_list};
ghost use Rattle.std.specs.List.Sorted.{IsStrictlySortedBy};
ghost use Rattle.plan_basics.specs.Keys.{operation_cmp};
ghost use Rattle.plan_model.specs.Contents.{pair_cmp};
ghost use Rattle.plan_model.specs.Valid.{IsAcyclic};
ghost use Rattle.plan_drafts.specs.PlanGraphs.{AreAmong, AreAtPlaces, IsGraphOf};

use super::hints::Hints;
use plan_basics::OpKey;
use plan_model::{EdgeFault, Graph};
use std::alloc::{AllocError, Global};

// The index of a key among keys in order, by a search.
fn searched_place(keys: &[OpKey], key: &OpKey) -> Option<usize>
    requires { IsStrictlySortedBy operation_cmp keys.now }
    ensures { MatchOption result (¬ Contains keys.now key.now) (λ i. slice_get keys.now i ≡ Some key.now) }
{
    keys.binary_search(key).ok()
}

// The index of a key among keys in order: this one, or by a search.
fn place_near(keys: &[OpKey], near: usize, key: &OpKey) -> Option<usize>
    requires { IsStrictlySortedBy operation_cmp keys.now }
    ensures { MatchOption result (¬ Contains keys.now key.now) (λ i. slice_get keys.now i ≡ Some key.now) }
{
    if near < keys.len() && keys[near].order(key).is_eq() {
        return Some(near);
    }
    searched_place(keys, key)
}

// The index of a key among keys in order: where a hint says, or by a search.
fn place_by(keys: &[OpKey], hints: &Hints, key: &OpKey) -> Option<usize>
    requires { IsStrictlySortedBy operation_cmp keys.now }
    ensures { MatchOption result (¬ Contains keys.now key.now) (λ i. slice_get keys.now i ≡ Some key.now) }
{
    place_near(keys, hints.near(key), key)
}

// An edge for each pair, from the index of the predecessor to that of the successor; `None` where an end isn't among the keys.
// Pairs that follow one another mostly have one predecessor; a successor is looked for where a hint says first.
fn edges_among(
    alloc: Global,
    keys: &[OpKey],
    pairs: &[(OpKey, OpKey)],
) -> Result<Option<Vec<(usize, usize)>>, AllocError>
    requires { IsStrictlySortedBy operation_cmp keys.now }
    ensures { IfOk result (λ found. MatchOption found (¬ AreAmong keys.now pairs.now) (λ edges. AreAtPlaces keys.now pairs.now edges.items)) }
{
    let hints = Hints::of(alloc, keys)?;
    let mut edges = Vec::with_capacity(alloc, pairs.len())?;
    let mut near = 0;
    for pair in pairs {
        let Some(before) = place_near(keys, near, &pair.0) else {
            return Ok(None);
        };
        let Some(after) = place_by(keys, &hints, &pair.1) else {
            return Ok(None);
        };
        edges.push((before, after))?;
        near = before;
    }
    Ok(Some(edges))
}

/// The graph of these pairs between operations of these keys; `None` where an end of a pair isn't among the keys, or some path of
/// pairs returns to its start.
///
/// A node is the index of a key. It is an error where a growth was refused. It takes time linear in keys and pairs,
/// beside a search among the keys for each end where no hint is right.
pub fn graph_among(
    alloc: Global,
    keys: &[OpKey],
    pairs: &[(OpKey, OpKey)],
) -> Result<Option<Graph>, AllocError>
    requires keys { IsStrictlySortedBy operation_cmp keys.now }
    requires pairs { IsStrictlySortedBy pair_cmp pairs.now }
    ensures { IfOk result (λ found. MatchOption found (¬ (AreAmong keys.now pairs.now × IsAcyclic (from_list pairs.now))) (λ g. IsGraphOf keys.now (from_list pairs.now) g × AreAmong keys.now pairs.now × IsAcyclic (from_list pairs.now))) }
{
    let Some(edges) = edges_among(alloc, keys, pairs)? else {
        return Ok(None);
    };
    match Graph::build(alloc, keys.len(), &edges) {
        Ok(graph) => Ok(Some(graph)),
        Err(EdgeFault::Cycle) => Ok(None),
        Err(EdgeFault::Memory) => Err(AllocError),
        Err(EdgeFault::Duplicate) => unreachable!("no pair stands twice"),
    }
}

/// The graph of these pairs between operations of these keys; `None` where some path of pairs returns to its start.
///
/// A node is the index of a key. It is an error where a growth was refused. It takes time linear in keys and pairs,
/// beside a search among the keys for each end where no hint is right.
pub fn graph_of(
    alloc: Global,
    keys: &[OpKey],
    pairs: &[(OpKey, OpKey)],
) -> Result<Option<Graph>, AllocError>
    requires keys { IsStrictlySortedBy operation_cmp keys.now }
    requires pairs { IsStrictlySortedBy pair_cmp pairs.now }
    requires ends { AreAmong keys.now pairs.now }
    ensures { IfOk result (λ found. MatchOption found (¬ IsAcyclic (from_list pairs.now)) (λ g. IsGraphOf keys.now (from_list pairs.now) g × IsAcyclic (from_list pairs.now))) }
{
    graph_among(alloc, keys, pairs)
}
