// A path of edges that returns to its start is found in a list of edges.

ghost use Rattle.std.specs.Prelude.{◌≡◌, ◌<◌, All, IfOk, IfSome, MatchOption};
ghost use Rattle.graph_paths.specs.Returns.{NoneReturns, IsFirstToReturn, IsReturn};

mod first;
mod way;

use first::{first_to_return, graph_of};
use std::alloc::{AllocError, Global};
use way::way_back;

/// A path of edges that returns to its start, told by the edge that closes it.
#[derive(Drop)]
pub struct Return {
    /// The index of that edge in the list.
    pub place: usize,
    /// The rest of the path from its end: from the start of that edge backwards, each node with an edge to the one before
    /// it, and the last is where that edge ends. It is empty where the edge joins a node to itself.
    pub way: Vec<usize>,
}

/// A path of these edges that returns to its start; `None` where none does. The ends of the edges are below the number of
/// nodes, and an edge may be listed twice.
///
/// The edge that closes the path is the first with which a path returns. An error is a growth that was refused. It takes
/// time linear in nodes and edges, where a path returns once for each halving of the list; and where an edge is repeated
/// the time to sort them, too.
pub fn returning_path(
    alloc: Global,
    nodes: usize,
    edges: &[(usize, usize)],
) -> Result<Option<Return>, AllocError>
    requires { All (λ e. (e.0 < nodes) × (e.1 < nodes)) edges.now }
    ensures found { IfOk result (λ found. MatchOption found (NoneReturns edges.now) (λ r. IsReturn edges.now r.place r.way.items)) }
    ensures first { IfOk result (λ found. IfSome found (λ r. IsFirstToReturn edges.now r.place)) }
{
    if graph_of(alloc, nodes, edges)?.is_some() {
        return Ok(None);
    }
    let place = first_to_return(alloc, nodes, edges)?;
    let Some(graph) = graph_of(alloc, nodes, &edges[..place])? else {
        unreachable!("without this edge no path returns");
    };
    let (start, end) = edges[place];
    let way = way_back(alloc, &graph, end, start)?;
    Ok(Some(Return { place, way }))
}
