// What is kept of a plan's operations, moved as marks and flags change.
ghost use Rattle.std.specs.Prelude.{◌≡◌, ◌+◌, ◌≤◌, ℕ, List, OnOk, length};
ghost use Rattle.start_choice.specs.satisfaction.specs.Changes.{AreAround, HoldFollowers, IsLowering};
ghost use Rattle.start_choice.specs.satisfaction.specs.Counters.{waiting_count};
ghost use Rattle.start_choice.specs.satisfaction.specs.Journal.{IsJournaled};
ghost use Rattle.plan_model.specs.Contents.{Contents};
ghost use Rattle.start_choice.specs.plan_drafts.specs.PlanGraphs.{IsGraphFor};
ghost use Rattle.derived_figures.specs.WaitingChanges.{IsRisen, IsTakenBack};
ghost use Rattle.derived_figures.specs.WaitStates.{AreWaitStates};

use plan_model::Graph;
use start_choice::{CountedRecords, WaitState, rerun, settle_up};
use std::alloc::{AllocError, Global};

/// After a change of marks and flags at these places, of which none was satisfied, as where one is completed, released or made a
/// no-operation: what was right before is right for the plan as it is now, with all that is satisfied by the change.
///
/// It takes a look at each place at most, and at each operation that comes to wait for no predecessor. Refused where a growth was
/// refused. Then as on success the journal leads back to what stood before.
pub fn satisfy(
    alloc: Global,
    graph: &Graph,
    records: &mut CountedRecords,
    wait_states: &mut [WaitState],
    journal: &mut Vec<(usize, WaitState)>,
    places: &[usize],
) -> Result<(), AllocError>
    requires graph { IsGraphFor records.old.contents graph.now }
    requires moved { (before : Contents) × IsRisen before records.old.contents wait_states.old places.now }
    ensures wait_states { OnOk result (AreWaitStates records.old.contents wait_states.new) }
    ensures contents { records.new.contents ≡ records.old.contents }
    ensures fewest { records.old.looks ≤ records.new.looks }
    ensures most { OnOk result (records.new.looks + waiting_count wait_states.new ≤ records.old.looks + length places.now + waiting_count wait_states.old) }
    ensures places { OnOk result (IsLowering places.now wait_states.old journal.old.items wait_states.new journal.new.items) }
    ensures journaled { IsJournaled wait_states.old journal.old.items wait_states.new journal.new.items }
{
    settle_up(alloc, graph, records, wait_states, journal, places)
}

/// After a rerun at these places, which are all that it reaches: what was right before is right for the plan as it is now.
/// Operations that it reaches aren't satisfied any more, but those that pass by themselves once all before them are.
///
/// It takes a look at each place at most, one more at each of them that has a predecessor, and one at each operation that comes to
/// wait for none. Refused where a growth was refused. Then as on success the journal leads back to what stood before.
// A rerun alone takes back: no other small request edits what is satisfied, so one cascade serves them all (`satisfy`).
pub fn unsatisfy(
    alloc: Global,
    graph: &Graph,
    records: &mut CountedRecords,
    wait_states: &mut [WaitState],
    journal: &mut Vec<(usize, WaitState)>,
    places: &[usize],
) -> Result<(), AllocError>
    requires graph { IsGraphFor records.old.contents graph.now }
    requires moved { (before : Contents) × IsTakenBack before records.old.contents graph.now wait_states.old places.now }
    ensures wait_states { OnOk result (AreWaitStates records.old.contents wait_states.new) }
    ensures contents { records.new.contents ≡ records.old.contents }
    ensures fewest { records.old.looks ≤ records.new.looks }
    ensures most { OnOk result ((followers : List ℕ) → HoldFollowers graph.now places.now followers → records.new.looks + waiting_count wait_states.new ≤ records.old.looks + length places.now + length followers + waiting_count wait_states.old) }
    ensures places { OnOk result (AreAround graph.now places.now wait_states.old journal.old.items wait_states.new journal.new.items) }
    ensures journaled { IsJournaled wait_states.old journal.old.items wait_states.new journal.new.items }
{
    rerun(alloc, graph, records, wait_states, journal, places)
}
