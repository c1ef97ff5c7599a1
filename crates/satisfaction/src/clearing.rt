// What a rerun takes back.
ghost use Rattle.std.specs.Prelude.{◌≡◌, ◌⊎◌, ◌+◌, ◌<◌, ◌≤◌, ℕ, [], ◌∷◌, ◌++◌, List, All, Contains, length, OnOk};
ghost use Rattle.operation_graph.specs.Graphs.{Digraph, HasEdge, IsGraph};
ghost use Rattle.satisfaction.specs.Counters.{AreRight, wait_state_at, waiting_at, waiting_count, with_one_more};
ghost use Rattle.satisfaction.specs.Changes.{AreAround, HoldFollowers, IsClearing, IsRerun};
ghost use Rattle.satisfaction.specs.declared.nodes.WaitState.{WaitState as WaitStateValue};
ghost use Rattle.satisfaction.specs.declared.nodes.Rule.{Rule as RuleValue};
ghost use Rattle.satisfaction.specs.Journal.{IsJournaled};

use super::journal::write;
use super::nodes::WaitState;
use super::rules::Rules;
use super::settling::settle;
use operation_graph::Graph;
use std::alloc::{AllocError, Global};

/// One predecessor more to wait for.
pub fn raise(
    wait_states: &mut [WaitState],
    journal: &mut Vec<(usize, WaitState)>,
    node: usize,
) -> Result<(), AllocError>
    requires node { node < length wait_states.old }
    requires below { waiting_at wait_states.old node < length wait_states.old }
    ensures wait_states { OnOk result (wait_states.new ≡ with_one_more wait_states.old node) }
    ensures noted { OnOk result (journal.new.items ≡ journal.old.items ++ (node, wait_state_at wait_states.old node) ∷ []) }
    ensures journaled { IsJournaled wait_states.old journal.old.items wait_states.new journal.new.items }
{
    let old = wait_states[node];
    let new = WaitState {
        waiting: old.waiting + 1,
        ..old
    };
    write(wait_states, journal, node, new)
}

/// A node isn't satisfied any more, where it was, and its successors have one more to wait for.
fn clear(
    graph: &Graph,
    wait_states: &mut [WaitState],
    journal: &mut Vec<(usize, WaitState)>,
    node: usize,
) -> Result<(), AllocError>
    requires node { node < graph.now.nodes }
    requires cleared { (start : List WaitState) × (gone : List ℕ) × IsClearing graph.now start gone wait_states.old [] }
    ensures places { OnOk result ((e : ℕ × WaitStateValue) → Contains journal.new.items e → Contains journal.old.items e ⊎ ((e.0 ≡ node) ⊎ HasEdge graph.now node e.0)) }
    ensures step { OnOk result ((start : List WaitState) (gone : List ℕ) → IsClearing graph.now start gone wait_states.old [] → IsClearing graph.now start (node ∷ gone) wait_states.new []) }
    ensures journaled { IsJournaled wait_states.old journal.old.items wait_states.new journal.new.items }
{
    let old = wait_states[node];
    if old.satisfied {
        let new = WaitState {
            satisfied: false,
            ..old
        };
        write(wait_states, journal, node, new)?;
        for succ in graph.succs(node) {
            raise(wait_states, journal, *succ)?;
        }
    }
    Ok(())
}

/// After a rerun of these nodes, from each of which all that follows is among them too, or is satisfied whatever precedes it: what
/// is kept was right by the rules before, and is right by the rules as they are now. A node that had passed by itself is
/// satisfied again only where all its predecessors are.
///
/// Refused where a growth was refused. Then as on success the journal leads back to what stood before. It takes a look at each
/// of these nodes at most, one more at each of them that has a predecessor, and one at each node that comes to wait for none.
pub fn rerun<R: Rules>(
    alloc: Global,
    graph: &Graph,
    rules: &mut R,
    wait_states: &mut [WaitState],
    journal: &mut Vec<(usize, WaitState)>,
    reached: &[usize],
) -> Result<(), AllocError>
    requires graph { IsGraph graph.now }
    requires rerun { (before : List RuleValue) × AreRight graph.now before wait_states.old × IsRerun graph.now before reached.now (R.listed rules.old) }
    ensures right { OnOk result (AreRight graph.now (R.listed rules.old) wait_states.new) }
    ensures rules { R.listed rules.new ≡ R.listed rules.old }
    ensures source { R.source rules.new ≡ R.source rules.old }
    ensures fewest { R.looks rules.old ≤ R.looks rules.new }
    ensures most { OnOk result ((followers : List ℕ) → HoldFollowers graph.now reached.now followers → R.looks rules.new + waiting_count wait_states.new ≤ R.looks rules.old + length reached.now + length followers + waiting_count wait_states.old) }
    ensures places { OnOk result (AreAround graph.now reached.now wait_states.old journal.old.items wait_states.new journal.new.items) }
    ensures journaled { IsJournaled wait_states.old journal.old.items wait_states.new journal.new.items }
{
    for node in reached {
        clear(graph, wait_states, journal, *node)?;
    }
    settle(alloc, graph, rules, wait_states, journal, reached)
}
