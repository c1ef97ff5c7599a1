// What is kept of a plan beside what it holds, and what is told by that without a look at a record.
ghost use Rattle.std.specs.Prelude.{◌≡◌, ◌<◌, true, None, Some, IfSome, IsNone, IsSome, length, slice_get};
ghost use Rattle.std.specs.FinMap.{contains_key, entries, get};
ghost use Rattle.plan_basics.specs.declared.keys.OpKey.{OpKey as OpKeyValue};
ghost use Rattle.start_choice.specs.Choices.{AreHeldIn};
ghost use Rattle.start_choice.specs.plan_drafts.specs.Places.{AreStatuses};
ghost use Rattle.start_choice.specs.plan_drafts.specs.PlanGraphs.{IsGraphFor};
ghost use Rattle.plan_model.specs.Contents.{Operation};
ghost use Rattle.plan_model.specs.Holdings.{given_out};
ghost use Rattle.plan_model.specs.Status.{HasOccurrenceStatus};
ghost use Rattle.plan_model.specs.Valid.{IsSound};
ghost use Rattle.derived_figures.specs.DerivedRefs.{AreDerivedOf};
ghost use Rattle.derived_figures.specs.Reports.{IsOfStatus, IsReported};

use super::figures::Figures;
use super::statuses::Statuses;
use plan_basics::{Attr, OccKey, OpKey};
use plan_model::{Graph, Latest, OperationRecord};
use special_resources::Holdings;
use start_choice::{UncountedContents, occurrence_status_with};
use status_rules::{OccStatus, Status};
use std::marker::Model;
use workstations::Capacity;

/// What is derived of a plan, lent: the graph of its pairs, the latest start of each operation, and the figures.
#[derive(Clone, Copy)]
pub struct DerivedRefs<'a> {
    pub graph: &'a Graph,
    pub latest: &'a Latest,
    pub figures: &'a Figures,
}

/// An operation of which something is reported, with what is read off the plan for it.
#[derive(Clone, Copy)]
pub struct ReportedOperation<'a> {
    pub operation: &'a OperationRecord,
    /// The index at which its row stood: what it names is looked for by that first.
    pub place: usize,
    /// How its workstation reports.
    pub attribute: Attr,
    pub status: Status,
}

/// All that is known of a plan without a look at an operation's record: what stands beside the records, with what is kept of the
/// plan. Contracts see it as what the plan holds.
#[derive(Drop)]
pub struct Outline<'a> {
    uncounted: UncountedContents<'a>,
    derived: DerivedRefs<'a>,
}

impl<'a> Model for Outline<'a> {
    ghost use Rattle.plan_model.specs.Contents.{Contents};
    ghost use Rattle.plan_model.specs.Code.{contents_code};

    ghost Value = { Contents };

    ghost coded = { contents_code };

    ghost use Rattle.derived_figures.specs.Outlines.{IsOutline};

    ghost view = { λ p. p.uncounted.contents.now };

    ghost invariant = { IsOutline };
}

impl<'a> Outline<'a> {
    /// What is known of the plan beside whose records this stands, and of which this is kept.
    pub fn of(uncounted: UncountedContents<'a>, derived: DerivedRefs<'a>) -> Outline<'a>
        requires { AreDerivedOf uncounted.contents.now derived }
        ensures { result ≡ uncounted.entry.contents.now }
    {
        Outline { uncounted, derived }
    }

    /// What stands beside its records.
    pub fn uncounted(&self) -> UncountedContents<'a>
        ensures contents { result.contents.now ≡ self.now }
        ensures sound { IsSound self.now }
    {
        self.uncounted.are_sound();
        self.uncounted
    }

    /// The graph of its operations and pairs: a node is the index of an operation.
    pub fn graph(&self) -> &'a Graph
        ensures { IsGraphFor self.now result.now }
    {
        self.derived.graph
    }

    /// The status of each operation, in key order.
    pub fn statuses(&self) -> &'a [Status]
        ensures { AreStatuses self.now result.now }
    {
        &self.derived.figures.statuses
    }

    /// The statuses of its operations, to be found by their keys.
    pub fn known(&self) -> Statuses<'a>
        ensures { result ≡ self.now }
    {
        Statuses::of(self.uncounted, self.statuses())
    }

    /// Who holds what of special resources.
    pub fn holdings(&self) -> &'a Holdings
        ensures { AreHeldIn self.now result.now.held }
    {
        &self.derived.figures.holdings
    }

    /// The index of the operation of a key, if there is one.
    pub fn place_of(&self, key: &OpKey) -> Option<usize>
        ensures found { IfSome result (λ i. (op : Operation) × (slice_get (entries self.now.operations) i ≡ Some (key.now, op))) }
        ensures absent { IsNone result → get self.now.operations key.now ≡ None }
    {
        self.known().place_of(key)
    }

    /// The status of the operation at an index.
    pub fn status_at(&self, place: usize) -> Status
        requires { place < length (entries self.now.operations) }
        ensures { (o : OpKeyValue) → (op : Operation) → slice_get (entries self.now.operations) place ≡ Some (o, op) → IsOfStatus self.now o result }
    {
        self.known().status_at(place)
    }

    /// The status of the operation of a key, if there is one.
    pub fn status_of(&self, key: &OpKey) -> Option<Status>
        ensures found { IfSome result (IsOfStatus self.now key.now) }
        ensures absent { IsNone result → get self.now.operations key.now ≡ None }
    {
        self.known().status_of(key)
    }

    /// The status of the occurrence of a key, if there is one.
    pub fn occurrence_status(&self, key: &OccKey) -> Option<OccStatus>
        ensures known { IsSome result → contains_key self.now.occurrences key.now ≡ true }
        ensures found { IfSome result (HasOccurrenceStatus self.now key.now) }
        ensures absent { IsNone result → get self.now.occurrences key.now ≡ None }
    {
        match self.uncounted.occurrence_place(key) {
            Some(place) => Some(occurrence_status_with(self.derived.figures.tallies[place])),
            None => None,
        }
    }

    /// What the workstation of an operation of the plan has given out.
    pub fn given_out_at(&self, operation: &OperationRecord) -> Capacity
        requires { (o : OpKeyValue) × (get self.now.operations o ≡ Some operation.now) }
        ensures { given_out self.now operation.now.workstation ≡ result }
    {
        let place = self.uncounted.workstation_place_of(operation);
        self.derived.figures.given[place]
    }

    /// The operation at an index, with what is read off the plan for it.
    pub fn reported<'b>(
        &self,
        key: &OpKey,
        operation: &'b OperationRecord,
        place: usize,
    ) -> ReportedOperation<'b>
        requires { slice_get (entries self.now.operations) place ≡ Some (key.now, operation.now) }
        ensures { IsReported self.now key.now result }
    {
        ReportedOperation {
            operation,
            place,
            attribute: self.uncounted.attribute_of(operation, place),
            status: self.status_at(place),
        }
    }
}
