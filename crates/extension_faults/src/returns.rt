// A path that returns, in a list of pairs of operations.
ghost use Rattle.std.specs.Prelude.{◌≡◌, true, All, IfOk, MatchOption, is_some};
ghost use Rattle.std.specs.List.{AllZip};
ghost use Rattle.plan_basics.specs.declared.keys.OpKey.{OpKey};
ghost use Rattle.plan_drafts.specs.declared.RowKey.{RowKey};
ghost use Rattle.plan_drafts.specs.plan_model.specs.operation_graph.specs.Paths.{IsAcyclicBy};
ghost use Rattle.record_faults.specs.Sayings.{IsGiven};
ghost use Rattle.extension_faults.specs.Whole.{ends_of, number_in, AreNumbered, ClosesAt, IsEdgeFor, IsListed};

use graph_paths::returning_path;
use plan_basics::OpKey;
use plan_drafts::RowKey;
use record_faults::{Index, first_place, index_of};
use std::alloc::{AllocError, Global};

/// A path that returns.
#[derive(Drop)]
pub struct ReturningPath {
    /// The place in the list of the pair that closes it.
    pub place: usize,
    /// From that pair's predecessor on each operation comes before the one that is told before it; the last is the pair's
    /// successor.
    pub way: Vec<OpKey>,
}

// Both ends of each pair, as keys.
fn ends_of(alloc: Global, pairs: &[(OpKey, OpKey)]) -> Result<Vec<Option<RowKey>>, AllocError>
    ensures { IfOk result (λ ends. ends.items ≡ ends_of pairs.now) }
{
    let mut ends = Vec::new(alloc);
    for pair in pairs {
        let before = RowKey::Operation(pair.0);
        let after = RowKey::Operation(pair.1);
        ends.extend_from_slice(&[Some(before), Some(after)])?;
    }
    Ok(ends)
}

// The number of an operation that has one.
fn number_of(numbers: &Index, key: &OpKey) -> usize
    requires { is_some (number_in numbers.now key.now) ≡ true }
    ensures { number_in numbers.now key.now ≡ Some result }
{
    first_place(numbers, &RowKey::Operation(*key)).unwrap()
}

// The edge of a pair, from number to number.
fn edge_of(numbers: &Index, pair: &(OpKey, OpKey)) -> (usize, usize)
    requires { AreNumbered numbers.now pair.now }
    ensures { IsEdgeFor numbers.now pair.now result }
{
    (number_of(numbers, &pair.0), number_of(numbers, &pair.1))
}

// The edge of each pair.
fn edges_of(
    alloc: Global,
    numbers: &Index,
    pairs: &[(OpKey, OpKey)],
) -> Result<Vec<(usize, usize)>, AllocError>
    requires { All (AreNumbered numbers.now) pairs.now }
    ensures { IfOk result (λ edges. AllZip (IsEdgeFor numbers.now) pairs.now edges.items) }
{
    let mut edges = Vec::new(alloc);
    for place in 0..pairs.len() {
        edges.extend_from_slice(&[edge_of(numbers, &pairs[place])])?;
    }
    Ok(edges)
}

// The operation whose key is at a place.
fn operation_at(ends: &[Option<RowKey>], place: usize) -> OpKey
    requires { (o : OpKey) × IsGiven ends.now (RowKey.Operation o) place }
    ensures { IsGiven ends.now (RowKey.Operation result) place }
{
    match ends[place] {
        Some(RowKey::Operation(key)) => key,
        _ => unreachable!("the key at the place is an operation's"),
    }
}

// The operations whose keys are at these places.
fn operations_at(
    alloc: Global,
    ends: &[Option<RowKey>],
    places: &[usize],
) -> Result<Vec<OpKey>, AllocError>
    requires { All (λ place. (o : OpKey) × IsGiven ends.now (RowKey.Operation o) place) places.now }
    ensures { IfOk result (λ v. AllZip (λ place o. IsGiven ends.now (RowKey.Operation o) place) places.now v.items) }
{
    let mut operations = Vec::new(alloc);
    for number in 0..places.len() {
        operations.extend_from_slice(&[operation_at(ends, places[number])])?;
    }
    Ok(operations)
}

/// A path of these pairs that returns, where one does. The pair that closes it is the first with which one does. It fails
/// for want of memory only.
pub fn returning_pair(
    alloc: Global,
    pairs: &[(OpKey, OpKey)],
) -> Result<Option<ReturningPath>, AllocError>
    ensures { IfOk result (λ found. MatchOption found (IsAcyclicBy (IsListed pairs.now)) (λ path. ClosesAt pairs.now path.place path.way.items)) }
{
    let ends = ends_of(alloc, pairs)?;
    let numbers = index_of(alloc, &ends)?;
    let edges = edges_of(alloc, &numbers, pairs)?;
    let Some(found) = returning_path(alloc, ends.len(), &edges)? else {
        return Ok(None);
    };
    let way = operations_at(alloc, &ends, &found.way)?;
    Ok(Some(ReturningPath {
        place: found.place,
        way,
    }))
}
