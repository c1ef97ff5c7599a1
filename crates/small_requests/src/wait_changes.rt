// Which operations are satisfied and how many predecessors each waits for, once some are edited.
ghost use Rattle.std.specs.Prelude.{◌≡◌, ◌≤◌, [], length, map, IfOk, OnOk};
ghost use Rattle.satisfaction.specs.Journal.{IsJournaled};
ghost use Rattle.plan_model.specs.Contents.{Contents};
ghost use Rattle.plan_checks.specs.derived_figures.specs.WaitStates.{AreWaitStates};
ghost use Rattle.small_requests.specs.StepLooks.{IsKeptElsewhere};
ghost use Rattle.plan_checks.specs.derived_figures.specs.Overwritten.{overwritten};
ghost use Rattle.small_requests.specs.Edits.{AreBelow, IsKeptBefore};
ghost use Rattle.small_requests.specs.Groundworks.{IsCounted, IsWaitChange};

use super::edits::Edit;
use super::places::{joined, noted};
use super::values::values_at;
use operation_graph::Graph;
use plan_checks::{CountedRecords, satisfy, unsatisfy};
use satisfaction::{WaitState, take_back};
use std::alloc::{AllocError, Global};

/// What follows from an edit for what is kept of operations.
#[derive(Drop)]
pub struct WaitChange {
    /// The indices, ascending, of the operations that are touched.
    pub touched: Vec<usize>,
    /// What is kept of them then.
    pub wait_states: Vec<(usize, WaitState)>,
}

// Moves what is kept of operations on by the cascades that follow from an edit; the journal gets what stood there. It takes a look at
// each edit, and those of the cascades.
fn cascade(
    alloc: Global,
    graph: &Graph,
    records: &mut CountedRecords,
    edit: &Edit,
    wait_states: &mut [WaitState],
    journal: &mut Vec<(usize, WaitState)>,
) -> Result<(), AllocError>
    requires before { (P : Contents) × IsKeptBefore P records.old.contents edit.now graph.now wait_states.old }
    requires journal { journal.old.items ≡ [] }
    ensures journaled { IsJournaled wait_states.old journal.old.items wait_states.new journal.new.items }
    ensures wait_states { OnOk result (AreWaitStates records.old.contents wait_states.new) }
    ensures noted { OnOk result (IsKeptElsewhere (map (λ e. e.0) journal.new.items) wait_states.old wait_states.new) }
    ensures within { OnOk result (AreBelow (length wait_states.old) (map (λ e. e.0) journal.new.items)) }
    ensures contents { records.new.contents ≡ records.old.contents }
    ensures fewest { records.old.looks ≤ records.new.looks }
    ensures counted { OnOk result (IsCounted records.old.contents edit.now 1 wait_states.old wait_states.new (map (λ e. e.0) journal.new.items) records.old.looks records.new.looks) }
{
    if edit.is_rerun {
        unsatisfy(alloc, graph, records, wait_states, journal, &edit.places)
    } else {
        satisfy(alloc, graph, records, wait_states, journal, &edit.places)
    }
}

// Moves what is kept on to what follows from an edit, and reads it off at the places that are touched by then.
fn counted(
    alloc: Global,
    graph: &Graph,
    records: &mut CountedRecords,
    edit: &Edit,
    wait_states: &mut [WaitState],
    journal: &mut Vec<(usize, WaitState)>,
) -> Result<WaitChange, AllocError>
    requires before { (P : Contents) × IsKeptBefore P records.old.contents edit.now graph.now wait_states.old }
    requires journal { journal.old.items ≡ [] }
    ensures journaled { IsJournaled wait_states.old journal.old.items wait_states.new journal.new.items }
    ensures kept_then { IfOk result (IsWaitChange records.old.contents edit.now.places.items wait_states.old) }
    ensures contents { records.new.contents ≡ records.old.contents }
    ensures fewest { records.old.looks ≤ records.new.looks }
    ensures counted { IfOk result (λ k. IsCounted records.old.contents edit.now 1 wait_states.old (overwritten k.wait_states.items wait_states.old) k.touched.items records.old.looks records.new.looks) }
{
    cascade(alloc, graph, records, edit, wait_states, journal)?;
    let noted = noted(alloc, journal)?;
    let touched = joined(alloc, &edit.places, &noted)?;
    let wait_states = values_at(alloc, wait_states, &touched)?;
    Ok(WaitChange {
        touched,
        wait_states,
    })
}

/// What follows from an edit for what is kept of operations, which is then as it was.
pub fn recount(
    alloc: Global,
    graph: &Graph,
    records: &mut CountedRecords,
    edit: &Edit,
    wait_states: &mut [WaitState],
) -> Result<WaitChange, AllocError>
    requires { (P : Contents) × IsKeptBefore P records.old.contents edit.now graph.now wait_states.old }
    ensures unchanged { wait_states.new ≡ wait_states.old }
    ensures kept_then { IfOk result (IsWaitChange records.old.contents edit.now.places.items wait_states.old) }
    ensures contents { records.new.contents ≡ records.old.contents }
    ensures fewest { records.old.looks ≤ records.new.looks }
    ensures counted { IfOk result (λ k. IsCounted records.old.contents edit.now 1 wait_states.old (overwritten k.wait_states.items wait_states.old) k.touched.items records.old.looks records.new.looks) }
{
    let mut journal = Vec::new(alloc);
    let kept_then = counted(alloc, graph, records, edit, wait_states, &mut journal);
    take_back(wait_states, &mut journal);
    kept_then
}
