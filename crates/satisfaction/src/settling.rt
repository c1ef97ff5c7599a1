// What a change satisfies, and what follows from that.
ghost use Rattle.std.specs.Prelude.{◌≡◌, ◌⊎◌, ◌+◌, ◌*◌, ◌<◌, ◌≤◌, ℕ, [], ◌∷◌, List, All, length, vec_len, true, false, OnOk, Decides};
ghost use Rattle.operation_graph.specs.Graphs.{Digraph, IsGraph};
ghost use Rattle.satisfaction.specs.Counters.{AreRight, IsCascade, IsPassing, waiting_at, waiting_count, unsatisfied_count};
ghost use Rattle.satisfaction.specs.Changes.{IsLowering, IsUpward};
ghost use Rattle.satisfaction.specs.declared.nodes.Rule.{Rule as RuleValue};
ghost use Rattle.satisfaction.specs.Journal.{IsJournaled};

use super::journal::write;
use super::nodes::{Rule, WaitState};
use super::rules::Rules;
use operation_graph::Graph;
use std::alloc::{AllocError, Global};

/// Whether its rule says that a node is satisfied which waits for so many predecessors.
fn is_due(rule: Rule, waiting: usize) -> bool
    ensures { Decides result ((rule.given ≡ true) ⊎ ((rule.passing ≡ true) × (waiting ≡ 0))) }
{
    rule.given || rule.passing && waiting == 0
}

/// Takes up a node that was changed: where its rule says that it is satisfied, it is so from now on, and put to work.
fn take_up<R: Rules>(
    rules: &mut R,
    wait_states: &mut [WaitState],
    journal: &mut Vec<(usize, WaitState)>,
    work: &mut Vec<usize>,
    node: usize,
) -> Result<(), AllocError>
    requires node { node < length wait_states.old }
    requires rules { length (R.listed rules.old) ≡ length wait_states.old }
    ensures step { OnOk result ((g : Digraph) (pending : List ℕ) → IsGraph g → IsCascade g (R.listed rules.old) (node ∷ pending) wait_states.old work.old.items [] → IsCascade g (R.listed rules.old) pending wait_states.new work.new.items []) }
    ensures rules { R.listed rules.new ≡ R.listed rules.old }
    ensures source { R.source rules.new ≡ R.source rules.old }
    ensures fewest { R.looks rules.old ≤ R.looks rules.new }
    ensures most { OnOk result (R.looks rules.new + waiting_count wait_states.new ≤ R.looks rules.old + 1 + waiting_count wait_states.old) }
    ensures places { OnOk result (IsLowering (node ∷ []) wait_states.old journal.old.items wait_states.new journal.new.items) }
    ensures journaled { IsJournaled wait_states.old journal.old.items wait_states.new journal.new.items }
{
    let old = wait_states[node];
    if old.satisfied {
        return Ok(());
    }
    let rule = rules.rule_of(node);
    if is_due(rule, old.waiting) {
        let new = WaitState {
            satisfied: true,
            ..old
        };
        write(wait_states, journal, node, new)?;
        work.push(node)?;
    }
    Ok(())
}

/// Whether a node passes by itself that waits for so many predecessors. Its rule is asked for only where that decides it: where
/// it isn't satisfied, and waits for none.
fn passes_now<R: Rules>(rules: &mut R, node: usize, satisfied: bool, waiting: usize) -> bool
    requires node { node < length (R.listed rules.old) }
    ensures passes { Decides result ((satisfied ≡ false) × (waiting ≡ 0) × IsPassing (R.listed rules.old) node) }
    ensures rules { R.listed rules.new ≡ R.listed rules.old }
    ensures source { R.source rules.new ≡ R.source rules.old }
    ensures fewest { R.looks rules.old ≤ R.looks rules.new }
    ensures most { R.looks rules.new ≤ R.looks rules.old + 1 }
    ensures none { (satisfied ≡ true) ⊎ (0 < waiting) → R.looks rules.new ≡ R.looks rules.old }
{
    if satisfied || waiting > 0 {
        return false;
    }
    rules.rule_of(node).passing
}

/// One predecessor less to wait for. Where that was the last, and the node passes by itself, it is satisfied from now on, and put
/// to work.
fn lower<R: Rules>(
    rules: &mut R,
    wait_states: &mut [WaitState],
    journal: &mut Vec<(usize, WaitState)>,
    work: &mut Vec<usize>,
    node: usize,
) -> Result<(), AllocError>
    requires node { node < length wait_states.old }
    requires rules { length (R.listed rules.old) ≡ length wait_states.old }
    requires waits { 0 < waiting_at wait_states.old node }
    ensures step { OnOk result ((g : Digraph) (rest : List ℕ) → IsGraph g → IsCascade g (R.listed rules.old) [] wait_states.old work.old.items (node ∷ rest) → IsCascade g (R.listed rules.old) [] wait_states.new work.new.items rest) }
    ensures nearer { OnOk result (2 * unsatisfied_count wait_states.new + vec_len work.new ≤ 2 * unsatisfied_count wait_states.old + vec_len work.old) }
    ensures rules { R.listed rules.new ≡ R.listed rules.old }
    ensures source { R.source rules.new ≡ R.source rules.old }
    ensures fewest { R.looks rules.old ≤ R.looks rules.new }
    ensures most { OnOk result (R.looks rules.new + waiting_count wait_states.new ≤ R.looks rules.old + waiting_count wait_states.old) }
    ensures places { OnOk result (IsLowering [] wait_states.old journal.old.items wait_states.new journal.new.items) }
    ensures journaled { IsJournaled wait_states.old journal.old.items wait_states.new journal.new.items }
{
    let old = wait_states[node];
    let waiting = old.waiting - 1;
    let passes = passes_now(rules, node, old.satisfied, waiting);
    let new = WaitState {
        satisfied: old.satisfied || passes,
        waiting,
    };
    write(wait_states, journal, node, new)?;
    if passes {
        work.push(node)?;
    }
    Ok(())
}

/// One predecessor less to wait for, for each of these nodes.
fn lower_all<R: Rules>(
    rules: &mut R,
    wait_states: &mut [WaitState],
    journal: &mut Vec<(usize, WaitState)>,
    work: &mut Vec<usize>,
    nodes: &[usize],
) -> Result<(), AllocError>
    requires rules { length (R.listed rules.old) ≡ length wait_states.old }
    requires cascade { (g : Digraph) × IsGraph g × IsCascade g (R.listed rules.old) [] wait_states.old work.old.items nodes.now }
    ensures step { OnOk result ((g : Digraph) → IsGraph g → IsCascade g (R.listed rules.old) [] wait_states.old work.old.items nodes.now → IsCascade g (R.listed rules.old) [] wait_states.new work.new.items []) }
    ensures nearer { OnOk result (2 * unsatisfied_count wait_states.new + vec_len work.new ≤ 2 * unsatisfied_count wait_states.old + vec_len work.old) }
    ensures rules { R.listed rules.new ≡ R.listed rules.old }
    ensures source { R.source rules.new ≡ R.source rules.old }
    ensures fewest { R.looks rules.old ≤ R.looks rules.new }
    ensures most { OnOk result (R.looks rules.new + waiting_count wait_states.new ≤ R.looks rules.old + waiting_count wait_states.old) }
    ensures places { OnOk result (IsLowering [] wait_states.old journal.old.items wait_states.new journal.new.items) }
    ensures journaled { IsJournaled wait_states.old journal.old.items wait_states.new journal.new.items }
{
    for node in nodes {
        lower(rules, wait_states, journal, work, *node)?;
    }
    Ok(())
}

// Tells the successors of all nodes at work, and of those that pass by that, until none is left: what is kept is right then. It
// takes a look at each node that comes to wait for no predecessor.
//
// Refused where a growth was refused. Then as on success the journal leads back to what stood before.
//
// Work is done in no order: a node is satisfied once, so a count of those that aren't bounds it, and no rank is needed. Looks
// are bounded by a potential, how many aren't satisfied and wait for some predecessor.
fn spread<R: Rules>(
    graph: &Graph,
    rules: &mut R,
    wait_states: &mut [WaitState],
    journal: &mut Vec<(usize, WaitState)>,
    work: &mut Vec<usize>,
) -> Result<(), AllocError>
    requires graph { IsGraph graph.now }
    requires begun { IsCascade graph.now (R.listed rules.old) [] wait_states.old work.old.items [] }
    ensures right { OnOk result (AreRight graph.now (R.listed rules.old) wait_states.new) }
    ensures rules { R.listed rules.new ≡ R.listed rules.old }
    ensures source { R.source rules.new ≡ R.source rules.old }
    ensures fewest { R.looks rules.old ≤ R.looks rules.new }
    ensures most { OnOk result (R.looks rules.new + waiting_count wait_states.new ≤ R.looks rules.old + waiting_count wait_states.old) }
    ensures places { OnOk result (IsLowering [] wait_states.old journal.old.items wait_states.new journal.new.items) }
    ensures journaled { IsJournaled wait_states.old journal.old.items wait_states.new journal.new.items }
{
    while let Some(node) = work.pop() {
        lower_all(rules, wait_states, journal, work, graph.succs(node))?;
    }
    Ok(())
}

/// After a change of some nodes' rules: where what is kept is right but for these nodes, which may be satisfied by their rules
/// and not be kept so, it is right afterwards.
///
/// Refused where a growth was refused. Then as on success the journal leads back to what stood before. It takes a look at each
/// changed node at most, and at each node that comes to wait for no predecessor.
pub fn settle<R: Rules>(
    alloc: Global,
    graph: &Graph,
    rules: &mut R,
    wait_states: &mut [WaitState],
    journal: &mut Vec<(usize, WaitState)>,
    changed: &[usize],
) -> Result<(), AllocError>
    requires graph { IsGraph graph.now }
    requires changed { All (λ n. n < length wait_states.old) changed.now }
    requires begun { IsCascade graph.now (R.listed rules.old) changed.now wait_states.old [] [] }
    ensures right { OnOk result (AreRight graph.now (R.listed rules.old) wait_states.new) }
    ensures rules { R.listed rules.new ≡ R.listed rules.old }
    ensures source { R.source rules.new ≡ R.source rules.old }
    ensures fewest { R.looks rules.old ≤ R.looks rules.new }
    ensures most { OnOk result (R.looks rules.new + waiting_count wait_states.new ≤ R.looks rules.old + length changed.now + waiting_count wait_states.old) }
    ensures places { OnOk result (IsLowering changed.now wait_states.old journal.old.items wait_states.new journal.new.items) }
    ensures journaled { IsJournaled wait_states.old journal.old.items wait_states.new journal.new.items }
{
    let mut work = Vec::new(alloc);
    for node in changed {
        take_up(rules, wait_states, journal, &mut work, *node)?;
    }
    spread(graph, rules, wait_states, journal, &mut work)
}

/// After a change of some nodes' rules by which none stops being satisfied, as where operations are deleted, or one is completed,
/// released or made a no-operation: what is kept was right by the rules before, and is right by the rules as they are now.
///
/// Refused where a growth was refused. Then as on success the journal leads back to what stood before. It takes no more looks than
/// `settle`.
pub fn settle_up<R: Rules>(
    alloc: Global,
    graph: &Graph,
    rules: &mut R,
    wait_states: &mut [WaitState],
    journal: &mut Vec<(usize, WaitState)>,
    changed: &[usize],
) -> Result<(), AllocError>
    requires graph { IsGraph graph.now }
    requires up { (before : List RuleValue) × AreRight graph.now before wait_states.old × IsUpward graph.now before wait_states.old changed.now (R.listed rules.old) }
    ensures right { OnOk result (AreRight graph.now (R.listed rules.old) wait_states.new) }
    ensures rules { R.listed rules.new ≡ R.listed rules.old }
    ensures source { R.source rules.new ≡ R.source rules.old }
    ensures fewest { R.looks rules.old ≤ R.looks rules.new }
    ensures most { OnOk result (R.looks rules.new + waiting_count wait_states.new ≤ R.looks rules.old + length changed.now + waiting_count wait_states.old) }
    ensures places { OnOk result (IsLowering changed.now wait_states.old journal.old.items wait_states.new journal.new.items) }
    ensures journaled { IsJournaled wait_states.old journal.old.items wait_states.new journal.new.items }
{
    settle(alloc, graph, rules, wait_states, journal, changed)
}
