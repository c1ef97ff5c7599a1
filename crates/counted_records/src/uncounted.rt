// All of a plan but its operations' records.
ghost use Rattle.std.specs.Prelude.{◌≡◌, ◌<◌, true, None, Some, IfOk, IfSome, IsNone, length, slice_get};
ghost use Rattle.std.specs.FinMap.{contains_key, entries, get};
ghost use Rattle.std.specs.FinSet as set;
ghost use Rattle.std.specs.List.Sorted.{IsStrictlySortedBy};
ghost use Rattle.std.specs.Map.{keys_of};
ghost use Rattle.plan_basics.specs.Keys.{name_cmp, occurrence_cmp};
ghost use Rattle.plan_basics.specs.declared.keys.OpKey.{OpKey as OpKeyValue};
ghost use Rattle.plan_status.specs.Summaries.{IsSummaryOf};
ghost use Rattle.plan_changes.specs.plan_drafts.specs.PlanGraphs.{IsGraphFor};
ghost use Rattle.plan_status.specs.plan_model.specs.Contents.{attribute_at, pair_cmp, HasAttribute, Operation};
ghost use Rattle.plan_status.specs.plan_model.specs.Holdings.{takes};
ghost use Rattle.plan_status.specs.plan_model.specs.declared.Occurrence.{Occurrence as OccurrenceValue};
ghost use Rattle.plan_status.specs.plan_model.specs.Valid.{IsSound};
ghost use Rattle.plan_status.specs.workstations.specs.Workstations.{Workstation as WorkstationValue};

use plan_basics::{Attr, OccKey, OpKey, ResName, WsName};
use plan_status::{
    Occurrence, OperationRecord, OperationSummary, SoundContents, Stock, Workstation,
    attribute_near, graph_for, summary_of,
};
use satisfaction::Graph;
use std::alloc::{AllocError, Global};

/// All that a plan holds beside its operations' records: workstations, special resources, occurrences, pairs, and the keys of
/// operations. No record is looked at by it.
#[derive(Clone, Copy)]
pub struct UncountedContents<'a> {
    contents: &'a SoundContents,
}

impl<'a> UncountedContents<'a> {
    /// What stands beside the records of these contents.
    pub fn of(contents: &'a SoundContents) -> UncountedContents<'a>
        ensures contents { result.contents.now ≡ contents.now }
        ensures sound { IsSound contents.now }
    {
        let _valid = contents.valid();
        UncountedContents { contents }
    }

    /// The law that what these stand beside is sound. It does nothing.
    pub fn are_sound(&self)
        ensures { IsSound self.now.contents.now }
    {
        let _valid = self.contents.valid();
    }

    /// The workstations by name.
    pub fn workstations(&self) -> &'a [Workstation]
        ensures rows { result.now ≡ entries self.now.contents.now.workstations }
        ensures in_order { IsStrictlySortedBy name_cmp (keys_of result.now) }
        ensures sound { IsSound self.now.contents.now }
    {
        self.contents.workstations()
    }

    /// The special resources by name, each with whether it is available and how much of it there is.
    pub fn resources(&self) -> &'a [(ResName, Stock)]
        ensures rows { result.now ≡ entries self.now.contents.now.resources }
        ensures in_order { IsStrictlySortedBy name_cmp (keys_of result.now) }
        ensures sound { IsSound self.now.contents.now }
    {
        let valid = self.contents.valid();
        valid.resources()
    }

    /// The occurrences by key.
    pub fn occurrences(&self) -> &'a [(OccKey, Occurrence)]
        ensures rows { result.now ≡ entries self.now.contents.now.occurrences }
        ensures in_order { IsStrictlySortedBy occurrence_cmp (keys_of result.now) }
        ensures sound { IsSound self.now.contents.now }
    {
        self.contents.occurrences()
    }

    /// The pairs, by predecessor and then successor.
    pub fn pairs(&self) -> &'a [(OpKey, OpKey)]
        ensures pairs { set.from_list result.now ≡ self.now.contents.now.pairs }
        ensures in_order { IsStrictlySortedBy pair_cmp result.now }
        ensures sound { IsSound self.now.contents.now }
    {
        self.contents.pairs()
    }

    /// How many operations there are.
    pub fn operation_count(&self) -> usize
        ensures count { result ≡ length (entries self.now.contents.now.operations) }
        ensures sound { IsSound self.now.contents.now }
    {
        self.contents.operations().len()
    }

    /// The key of the operation at a place.
    pub fn operation_key(&self, place: usize) -> &'a OpKey
        requires { place < length (entries self.now.contents.now.operations) }
        ensures key { (op : Operation) × (slice_get (entries self.now.contents.now.operations) place ≡ Some (result.now, op)) }
        ensures sound { IsSound self.now.contents.now }
    {
        &self.contents.operations()[place].0
    }

    /// The index of the operation of a key, if there is one.
    pub fn operation_place(&self, key: &OpKey) -> Option<usize>
        ensures found { IfSome result (λ i. (value : Operation) × (slice_get (entries self.now.contents.now.operations) i ≡ Some (key.now, value))) }
        ensures absent { IsNone result → get self.now.contents.now.operations key.now ≡ None }
    {
        self.contents.operation_place(key)
    }

    /// The index of the operation of a key, if there is one. It is looked for at an index first, and no search is made where it is
    /// there.
    pub fn operation_place_near(&self, key: &OpKey, near: usize) -> Option<usize>
        ensures found { IfSome result (λ i. (value : Operation) × (slice_get (entries self.now.contents.now.operations) i ≡ Some (key.now, value))) }
        ensures absent { IsNone result → get self.now.contents.now.operations key.now ≡ None }
    {
        self.contents.operation_place_near(key, near)
    }

    /// The index of the occurrence of a key, if there is one.
    pub fn occurrence_place(&self, key: &OccKey) -> Option<usize>
        ensures found { IfSome result (λ i. (value : OccurrenceValue) × (slice_get (entries self.now.contents.now.occurrences) i ≡ Some (key.now, value))) }
        ensures absent { IsNone result → get self.now.contents.now.occurrences key.now ≡ None }
    {
        self.contents.occurrence_place(key)
    }

    /// The index of the operation of a key that is there.
    pub fn known_operation_place(&self, key: &OpKey) -> usize
        requires { contains_key self.now.contents.now.operations key.now ≡ true }
        ensures within { result < length (entries self.now.contents.now.operations) }
        ensures at { (value : Operation) × (slice_get (entries self.now.contents.now.operations) result ≡ Some (key.now, value)) }
    {
        self.contents.known_operation_place(key)
    }

    /// The index of the occurrence of an operation that is there. Where that stands at this place, no search is made.
    pub fn occurrence_place_of(&self, key: &OpKey, place: usize) -> usize
        requires { contains_key self.now.contents.now.operations key.now ≡ true }
        ensures within { result < length (entries self.now.contents.now.occurrences) }
        ensures at { (value : OccurrenceValue) × (slice_get (entries self.now.contents.now.occurrences) result ≡ Some (key.now.occurrence, value)) }
    {
        self.contents.occurrence_place_of(key, place)
    }

    /// The index of the workstation of an operation that is there.
    pub fn workstation_place_of(&self, operation: &OperationRecord) -> usize
        requires { (o : OpKeyValue) × (get self.now.contents.now.operations o ≡ Some operation.now) }
        ensures within { result < length (entries self.now.contents.now.workstations) }
        ensures at { (value : WorkstationValue) × (slice_get (entries self.now.contents.now.workstations) result ≡ Some (operation.now.workstation, value)) }
    {
        self.contents.workstation_place_of(operation)
    }

    /// The index of the workstation of an operation that is there. Where that stands at this place, no search is made.
    pub fn workstation_place_near(&self, operation: &OperationRecord, place: usize) -> usize
        requires { (o : OpKeyValue) × (get self.now.contents.now.operations o ≡ Some operation.now) }
        ensures within { result < length (entries self.now.contents.now.workstations) }
        ensures at { (value : WorkstationValue) × (slice_get (entries self.now.contents.now.workstations) result ≡ Some (operation.now.workstation, value)) }
    {
        self.contents.workstation_place_near(operation, place)
    }

    /// The graph of its operations and pairs: a node is the index of an operation.
    pub fn graph(&self, alloc: Global) -> Result<Graph, AllocError>
        ensures { IfOk result (IsGraphFor self.now.contents.now) }
    {
        graph_for(alloc, self.contents.valid())
    }

    /// The occurrence of a key, if there is one.
    pub fn occurrence(&self, key: &OccKey) -> Option<&'a Occurrence>
        ensures found { IfSome result (λ occurrence. get self.now.contents.now.occurrences key.now ≡ Some occurrence.now) }
        ensures absent { IsNone result → get self.now.contents.now.occurrences key.now ≡ None }
        ensures sound { IsSound self.now.contents.now }
    {
        self.contents.occurrence(key)
    }

    /// The occurrence of a key, if there is one. No search is made where it is that of the operation at this place.
    pub fn occurrence_near(&self, key: &OccKey, place: usize) -> Option<&'a Occurrence>
        ensures found { IfSome result (λ occurrence. get self.now.contents.now.occurrences key.now ≡ Some occurrence.now) }
        ensures absent { IsNone result → get self.now.contents.now.occurrences key.now ≡ None }
        ensures sound { IsSound self.now.contents.now }
    {
        self.contents.occurrence_near(key, place)
    }

    /// The workstation of a name, if there is one.
    pub fn workstation(&self, name: &WsName) -> Option<&'a Workstation>
        ensures found { IfSome result (λ ws. (ws.now.0 ≡ name.now) × (get self.now.contents.now.workstations name.now ≡ Some ws.now.1)) }
        ensures absent { IsNone result → get self.now.contents.now.workstations name.now ≡ None }
        ensures sound { IsSound self.now.contents.now }
    {
        self.contents.workstation(name)
    }

    /// The workstation of a name, if there is one. No search is made where it is that of the operation at this place.
    pub fn workstation_near(&self, name: &WsName, place: usize) -> Option<&'a Workstation>
        ensures found { IfSome result (λ ws. (ws.now.0 ≡ name.now) × (get self.now.contents.now.workstations name.now ≡ Some ws.now.1)) }
        ensures absent { IsNone result → get self.now.contents.now.workstations name.now ≡ None }
        ensures sound { IsSound self.now.contents.now }
    {
        self.contents.workstation_near(name, place)
    }

    /// Whether the special resource of a name is available, if there is one.
    pub fn resource(&self, name: &ResName) -> Option<Stock>
        ensures { result ≡ get self.now.contents.now.resources name.now }
    {
        self.contents.resource(name)
    }

    /// How the workstation of an operation of the plan reports. Where that operation stands at this place, no search is made.
    pub fn attribute_of(&self, operation: &OperationRecord, place: usize) -> Attr
        requires { (o : OpKeyValue) × (get self.now.contents.now.operations o ≡ Some operation.now) }
        ensures { HasAttribute self.now.contents.now operation.now.workstation result }
    {
        attribute_near(self.contents.valid(), operation, place)
    }

    /// The summary of an operation of the plan. Where that operation stands at this place, no search is made.
    pub fn summary_of(&self, operation: &OperationRecord, place: usize) -> OperationSummary
        requires { (o : OpKeyValue) × (get self.now.contents.now.operations o ≡ Some operation.now) }
        ensures { IsSummaryOf self.now.contents.now operation.now result }
    {
        summary_of(self.contents.valid(), operation, place)
    }

    /// Whether starts are known on the workstation of an operation of the plan: there it takes servers and special resources.
    pub fn starts_are_known(&self, operation: &OperationRecord, place: usize) -> bool
        requires { (o : OpKeyValue) × (get self.now.contents.now.operations o ≡ Some operation.now) }
        ensures { result ≡ takes (attribute_at self.now.contents.now operation.now.workstation) }
    {
        self.attribute_of(operation, place).knows_starts()
    }
}
