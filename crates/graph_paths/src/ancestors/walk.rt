// A walk over what is reached backwards from a node.
ghost use Rattle.std.specs.Prelude.{◌≡◌, ◌<◌, ◌+◌, ℕ, IfOk, OnOk, length};
ghost use Rattle.operation_graph.specs.Graphs.{IsGraph};
ghost use Rattle.graph_paths.specs.Walking.{IsWalkBack};

use operation_graph::Graph;
use std::alloc::{AllocError, Global};

/// The nodes that were found so far, and which nodes these are.
#[derive(Drop)]
pub struct Walk {
    seen: Vec<bool>,
    pub found: Vec<usize>,
}

impl Walk {
    /// The start alone is found.
    pub fn begun(
        alloc: Global,
        graph: &Graph,
        flags: &[bool],
        from: usize,
    ) -> Result<Walk, AllocError>
        requires from { from < graph.now.nodes }
        requires flags { length flags.now ≡ graph.now.nodes }
        ensures walk { IfOk result (λ w. IsWalkBack graph.now flags.now from w 0) }
        ensures graph { IsGraph graph.now }
    {
        // The rank is looked at for the proof alone, which learns that edges join nodes.
        let _ = graph.rank(from);
        let mut seen = vec![in alloc; false; graph.nodes()]?;
        seen[from] = true;
        let mut found = Vec::new(alloc);
        found.push(from)?;
        Ok(Walk { seen, found })
    }

    /// The predecessors of the node at an index whose flags are set are found, too.
    pub fn visit(&mut self, graph: &Graph, flags: &[bool], place: usize) -> Result<(), AllocError>
        requires place { place < length self.old.found.items }
        requires walk { (from : ℕ) × IsWalkBack graph.now flags.now from self.old place }
        ensures { OnOk result ((from : ℕ) → IsWalkBack graph.now flags.now from self.old place → IsWalkBack graph.now flags.now from self.new (place + 1)) }
    {
        let node = self.found[place];
        for pred in graph.preds(node) {
            if flags[*pred] && !self.seen[*pred] {
                self.seen[*pred] = true;
                self.found.push(*pred)?;
            }
        }
        Ok(())
    }
}
