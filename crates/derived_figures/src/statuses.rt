// The statuses of a plan's operations.
ghost use Rattle.std.specs.Prelude.{◌≡◌, ◌+◌, ◌<◌, ◌≤◌, None, Some, IfErr, IfOk, IfSome, IsNone, length, slice_get};
ghost use Rattle.std.specs.FinMap.{entries, get, len};
ghost use Rattle.plan_basics.specs.declared.Refusal.{Refusal};
ghost use Rattle.plan_basics.specs.declared.keys.OpKey.{OpKey as OpKeyValue};
ghost use Rattle.start_choice.specs.plan_drafts.specs.Places.{AreStatuses};
ghost use Rattle.start_choice.specs.plan_drafts.specs.PlanGraphs.{IsGraphFor};
ghost use Rattle.plan_model.specs.Contents.{Operation};
ghost use Rattle.plan_model.specs.Valid.{IsSound};
ghost use Rattle.derived_figures.specs.Reports.{IsOfStatus};

use plan_basics::{OpKey, Refusal};
use plan_model::Graph;
use start_choice::{CountedRecords, UncountedContents, standings_of, statuses_of};
use status_rules::Status;
use std::alloc::Global;
use std::marker::Model;

/// What stands beside the records of a plan's operations, with the status of each operation. Contracts see it as what the plan
/// holds.
#[derive(Drop)]
pub struct Statuses<'a> {
    uncounted: UncountedContents<'a>,
    statuses: &'a [Status],
}

impl<'a> Model for Statuses<'a> {
    ghost use Rattle.plan_model.specs.Contents.{Contents};
    ghost use Rattle.plan_model.specs.Code.{contents_code};
    ghost use Rattle.start_choice.specs.plan_drafts.specs.Places.{AreStatuses};

    ghost Value = { Contents };

    ghost coded = { contents_code };

    ghost view = { λ p. p.uncounted.contents.now };

    ghost invariant = { λ p. AreStatuses p.uncounted.contents.now p.statuses.now };
}

impl<'a> Statuses<'a> {
    /// The statuses of the plan beside whose records this stands, in key order.
    pub fn of(uncounted: UncountedContents<'a>, statuses: &'a [Status]) -> Statuses<'a>
        requires { AreStatuses uncounted.contents.now statuses.now }
        ensures { result ≡ uncounted.entry.contents.now }
    {
        Statuses {
            uncounted,
            statuses,
        }
    }

    /// What stands beside its records.
    pub fn uncounted(&self) -> UncountedContents<'a>
        ensures contents { result.contents.now ≡ self.now }
        ensures sound { IsSound self.now }
    {
        self.uncounted.are_sound();
        self.uncounted
    }

    /// The index of the operation of a key, if there is one.
    pub fn place_of(&self, key: &OpKey) -> Option<usize>
        ensures found { IfSome result (λ i. (op : Operation) × (slice_get (entries self.now.operations) i ≡ Some (key.now, op))) }
        ensures absent { IsNone result → get self.now.operations key.now ≡ None }
    {
        self.uncounted.operation_place(key)
    }

    /// The status of the operation at an index.
    pub fn status_at(&self, place: usize) -> Status
        requires { place < length (entries self.now.operations) }
        ensures { (o : OpKeyValue) → (op : Operation) → slice_get (entries self.now.operations) place ≡ Some (o, op) → IsOfStatus self.now o result }
    {
        self.uncounted.are_sound();
        self.statuses[place]
    }

    /// The status of the operation of a key, if there is one.
    pub fn status_of(&self, key: &OpKey) -> Option<Status>
        ensures found { IfSome result (IsOfStatus self.now key.now) }
        ensures absent { IsNone result → get self.now.operations key.now ≡ None }
    {
        match self.place_of(key) {
            Some(place) => Some(self.status_at(place)),
            None => None,
        }
    }
}

/// The status of each operation of the plan of these records, which has this graph, in key order: by a look at each. The error is always
/// `Memory`.
pub fn statuses_of_records(
    alloc: Global,
    records: &mut CountedRecords,
    graph: &Graph,
) -> Result<Vec<Status>, Refusal>
    requires { IsGraphFor records.old.contents graph.now }
    ensures statuses { IfOk result (λ found. AreStatuses records.old.contents found.items) }
    ensures contents { records.new.contents ≡ records.old.contents }
    ensures most { records.new.looks ≤ records.old.looks + len records.old.contents.operations }
    ensures refused { IfErr result (λ r. r ≡ Refusal.Memory) }
{
    records.uncounted().are_sound();
    let summaries = records.summaries_of(alloc)?;
    let standings = standings_of(alloc, &summaries, graph)?;
    Ok(statuses_of(alloc, &summaries, &standings)?)
}
