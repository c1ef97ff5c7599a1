// What can be reached from a node.
ghost use Rattle.std.specs.Prelude.{◌≡◌, ◌<◌, ◌+◌, ℕ, IfOk, OnOk, length};
ghost use Rattle.operation_graph.specs.Graphs.{AreExactly};
ghost use Rattle.operation_graph.specs.Adjacency.{rows_of};
ghost use Rattle.operation_graph.specs.Walks.{AreNodes, IsReached, IsWalkTo};

use super::rows::row_of;
use std::alloc::{AllocError, Global};

/// The nodes that were found so far, and which nodes these are.
#[derive(Drop)]
pub struct Walk {
    seen: Vec<bool>,
    found: Vec<usize>,
}

impl Walk {
    /// The start alone is found.
    fn begun(
        alloc: Global,
        succs: &[Vec<usize>],
        from: usize,
        live: &[bool],
    ) -> Result<Walk, AllocError>
        requires from { from < length succs.now }
        requires live { length live.now ≡ length succs.now }
        requires nodes { AreNodes (rows_of succs.now) }
        ensures { IfOk result (λ w. IsWalkTo (rows_of succs.now) live.now from w 0) }
    {
        let mut seen = vec![in alloc; false; succs.len()]?;
        seen[from] = true;
        let mut found = Vec::new(alloc);
        found.push(from)?;
        Ok(Walk { seen, found })
    }

    /// The live successors of the node at an index are found, too.
    fn visit(&mut self, succs: &[Vec<usize>], live: &[bool], place: usize) -> Result<(), AllocError>
        requires place { place < length self.old.found.items }
        requires walk { (from : ℕ) × IsWalkTo (rows_of succs.now) live.now from self.old place }
        ensures { OnOk result ((from : ℕ) → IsWalkTo (rows_of succs.now) live.now from self.old place → IsWalkTo (rows_of succs.now) live.now from self.new (place + 1)) }
    {
        let node = self.found[place];
        for next in row_of(succs, node) {
            if live[*next] && !self.seen[*next] {
                self.seen[*next] = true;
                self.found.push(*next)?;
            }
        }
        Ok(())
    }
}

/// The start, and what a path reaches from it along live nodes, each once. Beside clearing a flag of each node it takes time
/// linear in what it reaches and the edges from there.
pub fn reached(
    alloc: Global,
    succs: &[Vec<usize>],
    from: usize,
    live: &[bool],
) -> Result<Vec<usize>, AllocError>
    requires from { from < length succs.now }
    requires live { length live.now ≡ length succs.now }
    requires nodes { AreNodes (rows_of succs.now) }
    ensures { IfOk result (λ found. AreExactly (IsReached (rows_of succs.now) live.now from) found.items) }
{
    let mut walk = Walk::begun(alloc, succs, from, live)?;
    let mut place = 0;
    while place < walk.found.len() {
        walk.visit(succs, live, place)?;
        place += 1;
    }
    Ok(walk.found)
}
