// Graphs that are built at once.
ghost use Rattle.std.specs.Prelude.{◌<◌, All, IfOk, IfErr};
ghost use Rattle.operation_graph.specs.Graphs.{IsBuiltOf, IsFaultIn};

use super::ranking::ranks_of;
use super::rows::{Lists, stand_once};
use super::{EdgeFault, Graph};
use std::alloc::Global;

impl Graph {
    /// The graph of so many nodes with these edges, whose ends are below that number.
    ///
    /// Refused as `Duplicate` where an edge is repeated, as `Cycle` where some path returns to its start (where both
    /// hold, as either), and as `Memory` where a growth was refused. It takes time linear in nodes and edges.
    pub fn build(alloc: Global, nodes: usize, edges: &[(usize, usize)]) -> Result<Graph, EdgeFault>
        requires { All (λ e. (e.0 < nodes) × (e.1 < nodes)) edges.now }
        ensures built { IfOk result (IsBuiltOf nodes edges.now) }
        ensures refused { IfErr result (IsFaultIn edges.now) }
    {
        let lists = Lists::of_edges(alloc, nodes, edges)?;
        if !stand_once(alloc, &lists.succs)? {
            return Err(EdgeFault::Duplicate);
        }
        match ranks_of(alloc, &lists.succs, &lists.preds)? {
            Some(ranks) => Ok(Graph {
                alloc,
                lists,
                ranks,
            }),
            None => Err(EdgeFault::Cycle),
        }
    }
}
