// The first edge of a list with which a path returns.
ghost use Rattle.std.specs.Prelude.{◌≡◌, ◌↔◌, ◌<◌, ℕ, All, Contains, length, IfOk, MatchOption};
ghost use Rattle.operation_graph.specs.Graphs.{AreDifferent};
ghost use Rattle.graph_paths.specs.Returns.{NoneReturns, IsFirstToReturn};
ghost use Rattle.graph_paths.specs.Reached.{IsGraphOf};

use operation_graph::{EdgeFault, Graph};
use std::alloc::{AllocError, Global};

/// The listed edges, each once.
fn each_once(alloc: Global, edges: &[(usize, usize)]) -> Result<Vec<(usize, usize)>, AllocError>
    ensures different { IfOk result (λ once. AreDifferent once.items) }
    ensures same { IfOk result (λ once. (e : ℕ × ℕ) → Contains once.items e ↔ Contains edges.now e) }
{
    let mut once = Vec::from_slice(alloc, edges)?;
    once.sort_unstable();
    once.dedup();
    Ok(once)
}

/// The graph of these edges, of which repeated ones are left out first; `None` where a path of them returns.
fn graph_of_each(
    alloc: Global,
    nodes: usize,
    edges: &[(usize, usize)],
) -> Result<Option<Graph>, AllocError>
    requires { All (λ e. (e.0 < nodes) × (e.1 < nodes)) edges.now }
    ensures { IfOk result (λ found. MatchOption found (¬ NoneReturns edges.now) (IsGraphOf nodes edges.now)) }
{
    let once = each_once(alloc, edges)?;
    match Graph::build(alloc, nodes, &once) {
        Ok(graph) => Ok(Some(graph)),
        Err(EdgeFault::Cycle) => Ok(None),
        Err(EdgeFault::Memory) => Err(AllocError),
        Err(EdgeFault::Duplicate) => unreachable!("each edge stands once"),
    }
}

/// The graph of these edges; `None` where a path of them returns. It takes time linear in nodes and edges, and where an edge
/// is repeated the time to sort them, too.
pub fn graph_of(
    alloc: Global,
    nodes: usize,
    edges: &[(usize, usize)],
) -> Result<Option<Graph>, AllocError>
    requires { All (λ e. (e.0 < nodes) × (e.1 < nodes)) edges.now }
    ensures { IfOk result (λ found. MatchOption found (¬ NoneReturns edges.now) (IsGraphOf nodes edges.now)) }
{
    match Graph::build(alloc, nodes, edges) {
        Ok(graph) => Ok(Some(graph)),
        Err(EdgeFault::Cycle) => Ok(None),
        Err(EdgeFault::Memory) => Err(AllocError),
        Err(EdgeFault::Duplicate) => graph_of_each(alloc, nodes, edges),
    }
}

/// The place of the first edge with which a path returns, where one does. It is sought by halves.
pub fn first_to_return(
    alloc: Global,
    nodes: usize,
    edges: &[(usize, usize)],
) -> Result<usize, AllocError>
    requires within { All (λ e. (e.0 < nodes) × (e.1 < nodes)) edges.now }
    requires returns { ¬ NoneReturns edges.now }
    ensures there { IfOk result (λ place. place < length edges.now) }
    ensures first { IfOk result (IsFirstToReturn edges.now) }
{
    let mut low = 0;
    let mut high = edges.len();
    while low + 1 < high {
        let middle = low + (high - low) / 2;
        if graph_of(alloc, nodes, &edges[..middle])?.is_some() {
            low = middle;
        } else {
            high = middle;
        }
    }
    Ok(low)
}
