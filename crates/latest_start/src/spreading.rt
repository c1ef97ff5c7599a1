// Latest starts after a change, along the predecessors of nodes whose starts change.
ghost use Rattle.std.specs.Prelude.{◌≡◌, ◌<◌, ◌≤◌, ◌∷◌, [], ℕ, ℤ, List, length, IfOk, IfErr, OnOk};
ghost use Rattle.std.specs.BinaryHeap.{heap_items};
ghost use Rattle.plan_basics.specs.declared.Refusal.{Refusal};
ghost use Rattle.operation_graph.specs.Graphs.{IsGraph};
ghost use Rattle.latest_start.specs.declared.Item.{Item as ItemValue};
ghost use Rattle.latest_start.specs.NodeStarts.{AreLatestStartsOf, AreNewStarts, IsAscending, OthersAreAsBefore};
ghost use Rattle.latest_start.specs.Spread.{AreConsistent, HasSize, IsBegun, IsPut, IsSpreadOver, IsSpreadTo, IsTaken, steps_left};

use super::Item;
use super::changes::has_start;
use super::passes::latest_start;
use operation_graph::Graph;
use plan_basics::Refusal;
use std::alloc::{AllocError, Global};
use std::collections::BinaryHeap;

/// The starts of all nodes as far as they are known, which nodes were queued, which of these still wait to be computed
/// anew, by rank, and the nodes with a new or another start so far.
#[derive(Drop)]
pub struct Spread {
    starts: Vec<i64>,
    queued: Vec<bool>,
    waiting: BinaryHeap<(usize, usize)>,
    values: Vec<(usize, i64)>,
}

impl Spread {
    // A copy of the old starts, any start for the new nodes, and nothing queued. It takes time linear in nodes.
    fn begun(alloc: Global, old: &[i64], nodes: usize) -> Result<Spread, AllocError>
        requires { length old.now ≤ nodes }
        ensures { IfOk result (IsBegun nodes old.now) }
    {
        let mut starts = Vec::from_slice(alloc, old)?;
        starts.resize(nodes, 0)?;
        Ok(Spread {
            starts,
            queued: vec![in alloc; false; nodes]?,
            waiting: BinaryHeap::new(alloc),
            values: Vec::new(alloc),
        })
    }

    // Queues a node, unless it was queued before or is none of the graph's.
    fn queue(&mut self, graph: &Graph, node: usize) -> Result<(), AllocError>
        requires size { HasSize graph.now.nodes self.old }
        ensures size { OnOk result (HasSize graph.now.nodes self.new) }
        ensures step { OnOk result ((items : List ItemValue) (old : List ℤ) (rest : List ℕ) (top : ℕ) → IsSpreadTo graph.now items old self.old (node ∷ rest) top → IsSpreadTo graph.now items old self.new rest top) }
        ensures nearer { OnOk result (steps_left self.new ≤ steps_left self.old) }
    {
        if node < self.queued.len() && !self.queued[node] {
            let rank = graph.rank(node);
            self.waiting.push((rank, node))?;
            self.queued[node] = true;
        }
        Ok(())
    }

    // Queues these nodes.
    fn queue_all(&mut self, graph: &Graph, nodes: &[usize]) -> Result<(), AllocError>
        requires size { HasSize graph.now.nodes self.old }
        ensures size { OnOk result (HasSize graph.now.nodes self.new) }
        ensures step { OnOk result ((items : List ItemValue) (old : List ℤ) (top : ℕ) → IsSpreadTo graph.now items old self.old nodes.now top → IsSpreadTo graph.now items old self.new [] top) }
        ensures nearer { OnOk result (steps_left self.new ≤ steps_left self.old) }
    {
        for node in nodes {
            self.queue(graph, *node)?;
        }
        Ok(())
    }

    // Puts a start in at a node, and lists it.
    fn put(&mut self, node: usize, start: i64) -> Result<(), AllocError>
        requires { node < length self.old.starts.items }
        ensures { OnOk result (IsPut self.old node start self.new) }
    {
        self.starts[node] = start;
        self.values.push((node, start))?;
        Ok(())
    }

    // Computes the start of a node that was taken from the heap anew. Where it isn't the old one, it is put in, and the
    // node's predecessors are queued.
    fn restart(
        &mut self,
        graph: &Graph,
        items: &[Item],
        old: &[i64],
        node: usize,
    ) -> Result<(), Refusal>
        requires node { node < graph.now.nodes }
        requires items { length items.now ≡ graph.now.nodes }
        requires size { HasSize graph.now.nodes self.old }
        ensures size { OnOk result (HasSize graph.now.nodes self.new) }
        ensures step { OnOk result ((before : List (ℕ × ℕ)) (top rank : ℕ) → IsTaken before rank node (heap_items self.old.waiting) → IsSpreadOver graph.now items.now old.now before self.old [] top → IsSpreadTo graph.now items.now old.now self.new [] rank) }
        ensures nearer { OnOk result (steps_left self.new ≤ steps_left self.old) }
        ensures refused { IfErr result (λ r. r ≡ Refusal.Memory) }
    {
        let start = latest_start(graph, items, &self.starts, node)?;
        if !has_start(old, node, start) {
            self.put(node, start)?;
            self.queue_all(graph, graph.preds(node))?;
        }
        Ok(())
    }

    // Computes the starts of the nodes that wait anew, from the greatest rank down, until none waits. A predecessor's
    // rank is less than its successors', so that each node is taken once, after all of its successors that change.
    fn settle(&mut self, graph: &Graph, items: &[Item], old: &[i64]) -> Result<(), Refusal>
        requires items { length items.now ≡ graph.now.nodes }
        requires nodes { length old.now ≤ graph.now.nodes }
        requires spread { (top : ℕ) × IsSpreadTo graph.now items.now old.now self.old [] top }
        ensures size { OnOk result (HasSize graph.now.nodes self.new) }
        ensures consistent { OnOk result (AreConsistent graph.now items.now self.new.starts.items) }
        ensures values { OnOk result (AreNewStarts old.now self.new.starts.items self.new.values.items) }
        ensures refused { IfErr result (λ r. r ≡ Refusal.Memory) }
    {
        while let Some((_, node)) = self.waiting.pop() {
            self.restart(graph, items, old, node)?;
        }
        Ok(())
    }
}

// What is so of each graph that has nodes; a call of it shows that. It is for proofs alone.
fn known_graph(graph: &Graph, nodes: usize)
    requires { nodes ≡ graph.now.nodes }
    ensures { 0 < nodes → IsGraph graph.now }
{
    if nodes > 0 {
        graph.rank(0);
    }
}

/// The nodes with a new or another latest start, in their order, and that start.
///
/// Only the starts of `changed`, and of the predecessors of each node in the result, are computed anew, each once and
/// in time linear in its successors; until then these nodes wait in a heap, by rank, and the result is sorted. Beside
/// that it copies the old starts, and clears a flag of each node.
///
/// Refused as `Memory` where a growth was refused, or where a start lies too far back.
pub fn changed_starts(
    alloc: Global,
    graph: &Graph,
    items: &[Item],
    old: &[i64],
    changed: &[usize],
) -> Result<Vec<(usize, i64)>, Refusal>
    requires items { length items.now ≡ graph.now.nodes }
    requires nodes { length old.now ≤ graph.now.nodes }
    requires changed { OthersAreAsBefore old.now graph.now items.now changed.now }
    ensures values { IfOk result (λ values. (starts : List ℤ) × AreNewStarts old.now starts values.items × AreLatestStartsOf graph.now items.now starts) }
    ensures order { IfOk result (λ values. IsAscending values.items) }
    ensures refused { IfErr result (λ r. r ≡ Refusal.Memory) }
{
    known_graph(graph, items.len());
    let mut spread = Spread::begun(alloc, old, items.len())?;
    spread.queue_all(graph, changed)?;
    spread.settle(graph, items, old)?;
    let mut values = spread.values;
    values.sort_unstable_by_key(|value| value.0);
    Ok(values)
}
