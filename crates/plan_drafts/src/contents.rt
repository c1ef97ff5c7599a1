// What a loaded plan holds, and an occurrence that is added.
ghost use Rattle.std.specs.Prelude.{◌≡◌, ◌<◌, true, OnOk, Some, None, IfOk, IfSome, IsNone, length, slice_get};
ghost use Rattle.std.specs.FinMap.{contains_key, entries, from_entries, get, insert};
ghost use Rattle.std.specs.FinSet as set;
ghost use Rattle.std.specs.List.Sorted.{IsStrictlySortedBy};
ghost use Rattle.std.specs.Map.{keys_of};
ghost use Rattle.plan_basics.specs.Keys.{name_cmp, occurrence_cmp, operation_cmp};
ghost use Rattle.plan_model.specs.Contents.{pair_cmp, with_availability, Operation};
ghost use Rattle.plan_model.specs.Revise.{revise};
ghost use Rattle.plan_model.specs.Ready.{with_mark};
ghost use Rattle.plan_model.specs.Markings.{with_marking};
ghost use Rattle.plan_model.specs.declared.Occurrence.{Occurrence as OccurrenceValue};
ghost use Rattle.plan_model.specs.workstations.specs.Workstations.{Workstation as WorkstationValue};

use super::found::{Found, Lately, NOTHING_MARKED, found_at, found_of};
use super::places::{
    known_row, known_row_lately, known_row_near, known_workstation, known_workstation_near,
    row_place, row_place_lately, row_place_near, workstation_place, workstation_place_near,
};
use plan_basics::{OccKey, OpKey, ResName, WsName};
use plan_model::{Mark, Marking, Occurrence, OperationRecord, Stock, Workstation};
use std::alloc::{AllocError, Global};
use std::marker::Model;

/// What a loaded plan holds: its workstations and special resources, by name; its occurrences and their operations, in key
/// order; and the pairs of predecessor and successor, by predecessor and then successor. Contracts see it as contents.
#[derive(Drop)]
pub struct PlanContents {
    workstations: Vec<Workstation>,
    // Each with whether it is available and how much of it there is.
    resources: Vec<(ResName, Stock)>,
    // Each with its priority and deadline.
    occurrences: Vec<(OccKey, Occurrence)>,
    operations: Vec<(OpKey, OperationRecord)>,
    pairs: Vec<(OpKey, OpKey)>,
    // Where the occurrence and the workstation of each operation were found, by which they are found again without a search.
    found: Vec<Found>,
    // Where operations were last found that were marked: an operation is looked for there first.
    lately: Lately,
}

impl Model for PlanContents {
    ghost use Rattle.plan_model.specs.Contents.{Contents};
    ghost use Rattle.plan_model.specs.Code.{contents_code};

    ghost Value = { Contents };

    ghost coded = { contents_code };

    ghost use Rattle.plan_drafts.specs.Contents.{held_in, AreInOrder};

    ghost view = { held_in };

    ghost invariant = { AreInOrder };
}

/// Copies of workstations.
pub fn copies_of(
    alloc: Global,
    workstations: &[Workstation],
) -> Result<Vec<Workstation>, AllocError>
    ensures { IfOk result (λ new. new.items ≡ workstations.now) }
{
    let mut copies = Vec::with_capacity(alloc, workstations.len())?;
    for workstation in workstations {
        copies.push(workstation.try_clone()?)?;
    }
    Ok(copies)
}

// The operation of a row is marked so from now on.
fn mark_row(row: &mut (OpKey, OperationRecord), mark: &Mark)
    ensures { row.new ≡ (row.old.0, with_mark mark.now row.old.1) }
{
    row.1.mark = *mark;
}

// The special resource of a row is available from now on, or not.
fn put_available(row: &mut (ResName, Stock), available: bool)
    ensures { row.new ≡ (row.old.0, record row.old.1 { available = available }) }
{
    row.1.available = available;
}

// The operation of a row has this marking from now on.
fn put_marking(row: &mut (OpKey, OperationRecord), marking: &Marking)
    ensures { row.new ≡ (row.old.0, with_marking marking.now row.old.1) }
{
    row.1.mark = marking.mark;
    row.1.held = marking.held;
    row.1.nop = marking.nop;
}

impl PlanContents {
    /// The contents of these rows.
    pub fn of_rows(
        workstations: Vec<Workstation>,
        resources: Vec<(ResName, Stock)>,
        occurrences: Vec<(OccKey, Occurrence)>,
        operations: Vec<(OpKey, OperationRecord)>,
        pairs: Vec<(OpKey, OpKey)>,
    ) -> PlanContents
        requires workstations { IsStrictlySortedBy name_cmp (keys_of workstations.items) }
        requires resources { IsStrictlySortedBy name_cmp (keys_of resources.items) }
        requires occurrences { IsStrictlySortedBy occurrence_cmp (keys_of occurrences.items) }
        requires operations { IsStrictlySortedBy operation_cmp (keys_of operations.items) }
        requires pairs { IsStrictlySortedBy pair_cmp pairs.items }
        ensures { result ≡ record { workstations = from_entries workstations.items; resources = from_entries resources.items; occurrences = from_entries occurrences.items; operations = from_entries operations.items; pairs = set.from_list pairs.items } }
    {
        let found = found_of(
            *operations.allocator(),
            &workstations,
            &occurrences,
            &operations,
        );
        PlanContents {
            workstations,
            resources,
            occurrences,
            operations,
            pairs,
            found,
            lately: NOTHING_MARKED,
        }
    }

    // Where the occurrence and the workstation of the operation at an index were found.
    fn found_at(&self, operation: usize) -> Found {
        found_at(&self.found, operation)
    }

    /// An equal one.
    pub fn try_clone(&self, alloc: Global) -> Result<PlanContents, AllocError>
        ensures { IfOk result (λ new. new ≡ self.now) }
    {
        Ok(PlanContents {
            workstations: copies_of(alloc, &self.workstations)?,
            resources: Vec::from_slice(alloc, &self.resources)?,
            occurrences: Vec::from_slice(alloc, &self.occurrences)?,
            operations: Vec::from_slice(alloc, &self.operations)?,
            pairs: Vec::from_slice(alloc, &self.pairs)?,
            found: Vec::from_slice(alloc, &self.found)?,
            lately: NOTHING_MARKED,
        })
    }

    /// Its workstations by name.
    pub fn workstations(&self) -> &[Workstation]
        ensures rows { result.now ≡ entries self.now.workstations }
        ensures in_order { IsStrictlySortedBy name_cmp (keys_of result.now) }
    {
        &self.workstations
    }

    /// Its special resources by name, each with whether it is available and how much of it there is.
    pub fn resources(&self) -> &[(ResName, Stock)]
        ensures rows { result.now ≡ entries self.now.resources }
        ensures in_order { IsStrictlySortedBy name_cmp (keys_of result.now) }
    {
        &self.resources
    }

    /// Its occurrences by key.
    pub fn occurrences(&self) -> &[(OccKey, Occurrence)]
        ensures rows { result.now ≡ entries self.now.occurrences }
        ensures in_order { IsStrictlySortedBy occurrence_cmp (keys_of result.now) }
    {
        &self.occurrences
    }

    /// Its operations by key.
    pub fn operations(&self) -> &[(OpKey, OperationRecord)]
        ensures rows { result.now ≡ entries self.now.operations }
        ensures in_order { IsStrictlySortedBy operation_cmp (keys_of result.now) }
    {
        &self.operations
    }

    /// Its pairs, by predecessor and then successor.
    pub fn pairs(&self) -> &[(OpKey, OpKey)]
        ensures pairs { set.from_list result.now ≡ self.now.pairs }
        ensures in_order { IsStrictlySortedBy pair_cmp result.now }
    {
        &self.pairs
    }

    /// The index of the operation of a key, if there is one.
    pub fn operation_place(&self, key: &OpKey) -> Option<usize>
        ensures found { IfSome result (λ i. (value : Operation) × (slice_get (entries self.now.operations) i ≡ Some (key.now, value))) }
        ensures absent { IsNone result → get self.now.operations key.now ≡ None }
    {
        row_place_lately(&self.operations, key, self.lately)
    }

    /// The index of the operation of a key, if there is one. It is looked for at an index first, and no search is made where it is
    /// there.
    pub fn operation_place_near(&self, key: &OpKey, near: usize) -> Option<usize>
        ensures found { IfSome result (λ i. (value : Operation) × (slice_get (entries self.now.operations) i ≡ Some (key.now, value))) }
        ensures absent { IsNone result → get self.now.operations key.now ≡ None }
    {
        row_place_near(&self.operations, key, near)
    }

    /// The index of the occurrence of a key, if there is one.
    pub fn occurrence_place(&self, key: &OccKey) -> Option<usize>
        ensures found { IfSome result (λ i. (value : OccurrenceValue) × (slice_get (entries self.now.occurrences) i ≡ Some (key.now, value))) }
        ensures absent { IsNone result → get self.now.occurrences key.now ≡ None }
    {
        row_place(&self.occurrences, key)
    }

    /// The index of the operation of a key that is there.
    pub fn known_operation_place(&self, key: &OpKey) -> usize
        requires { contains_key self.now.operations key.now ≡ true }
        ensures within { result < length (entries self.now.operations) }
        ensures at { (value : Operation) × (slice_get (entries self.now.operations) result ≡ Some (key.now, value)) }
    {
        known_row_lately(&self.operations, key, self.lately)
    }

    /// The index of the occurrence of a key that is there.
    pub fn known_occurrence_place(&self, key: &OccKey) -> usize
        requires { contains_key self.now.occurrences key.now ≡ true }
        ensures within { result < length (entries self.now.occurrences) }
        ensures at { (value : OccurrenceValue) × (slice_get (entries self.now.occurrences) result ≡ Some (key.now, value)) }
    {
        known_row(&self.occurrences, key)
    }

    /// The index of the occurrence of a key that is there. No search is made where it is that of the operation at an index.
    pub fn known_occurrence_place_near(&self, key: &OccKey, operation: usize) -> usize
        requires { contains_key self.now.occurrences key.now ≡ true }
        ensures within { result < length (entries self.now.occurrences) }
        ensures at { (value : OccurrenceValue) × (slice_get (entries self.now.occurrences) result ≡ Some (key.now, value)) }
    {
        let at = self.found_at(operation);
        known_row_near(&self.occurrences, key, at.occurrence)
    }

    /// The index of the workstation of a name that is there.
    pub fn known_workstation_place(&self, name: &WsName) -> usize
        requires { contains_key self.now.workstations name.now ≡ true }
        ensures within { result < length (entries self.now.workstations) }
        ensures at { (value : WorkstationValue) × (slice_get (entries self.now.workstations) result ≡ Some (name.now, value)) }
    {
        known_workstation(&self.workstations, name)
    }

    /// The index of the workstation of a name that is there. No search is made where it is that of the operation at an index.
    pub fn known_workstation_place_near(&self, name: &WsName, operation: usize) -> usize
        requires { contains_key self.now.workstations name.now ≡ true }
        ensures within { result < length (entries self.now.workstations) }
        ensures at { (value : WorkstationValue) × (slice_get (entries self.now.workstations) result ≡ Some (name.now, value)) }
    {
        let at = self.found_at(operation);
        known_workstation_near(&self.workstations, name, at.workstation)
    }

    /// The operation of a key, if there is one.
    pub fn operation(&self, key: &OpKey) -> Option<&OperationRecord>
        ensures found { IfSome result (λ op. get self.now.operations key.now ≡ Some op.now) }
        ensures absent { IsNone result → get self.now.operations key.now ≡ None }
    {
        match row_place_lately(&self.operations, key, self.lately) {
            Some(place) => Some(&self.operations[place].1),
            None => None,
        }
    }

    /// The occurrence of a key, if there is one.
    pub fn occurrence(&self, key: &OccKey) -> Option<&Occurrence>
        ensures found { IfSome result (λ occurrence. get self.now.occurrences key.now ≡ Some occurrence.now) }
        ensures absent { IsNone result → get self.now.occurrences key.now ≡ None }
    {
        match row_place(&self.occurrences, key) {
            Some(place) => Some(&self.occurrences[place].1),
            None => None,
        }
    }

    /// The occurrence of a key, if there is one. No search is made where it is that of the operation at an index.
    pub fn occurrence_near(&self, key: &OccKey, operation: usize) -> Option<&Occurrence>
        ensures found { IfSome result (λ occurrence. get self.now.occurrences key.now ≡ Some occurrence.now) }
        ensures absent { IsNone result → get self.now.occurrences key.now ≡ None }
    {
        let at = self.found_at(operation);
        match row_place_near(&self.occurrences, key, at.occurrence) {
            Some(place) => Some(&self.occurrences[place].1),
            None => None,
        }
    }

    /// Whether the special resource of a name is available and how much of it there is, if there is one.
    pub fn resource(&self, name: &ResName) -> Option<Stock>
        ensures { result ≡ get self.now.resources name.now }
    {
        match row_place(&self.resources, name) {
            Some(place) => Some(self.resources[place].1),
            None => None,
        }
    }

    /// The operation of a key that it has is this one from now on.
    pub fn set_operation(&mut self, key: &OpKey, operation: OperationRecord)
        requires { contains_key self.old.operations key.now ≡ true }
        ensures { self.new ≡ record self.old { operations = insert self.old.operations key.now operation } }
    {
        let place = known_row_lately(&self.operations, key, self.lately);
        self.operations[place] = (*key, operation);
    }

    /// The same, in which an operation, if it is there, is found without a search until two others are marked.
    pub fn seeking(self, key: &OpKey) -> PlanContents
        ensures { result ≡ self }
    {
        let mut same = self;
        if let Some(place) = same.operation_place(key) {
            same.lately = same.lately.then(place);
        }
        same
    }

    /// The operation of a key is marked so from now on, if there is one. No search is made where it is one of
    /// the last two that were marked.
    pub fn set_mark(&mut self, key: &OpKey, mark: &Mark)
        ensures there { (op : Operation) → get self.old.operations key.now ≡ Some op → self.new ≡ record self.old { operations = insert self.old.operations key.now (with_mark mark.now op) } }
        ensures absent { get self.old.operations key.now ≡ None → self.new ≡ self.old }
    {
        if let Some(place) = row_place_lately(&self.operations, key, self.lately) {
            mark_row(&mut self.operations[place], mark);
            self.lately = self.lately.then(place);
        }
    }

    /// The operation of a key has this marking from now on, if there is one. No search is made where it is one of
    /// the last two that were marked.
    pub fn set_marking(&mut self, key: &OpKey, marking: &Marking)
        ensures there { (op : Operation) → get self.old.operations key.now ≡ Some op → self.new ≡ record self.old { operations = insert self.old.operations key.now (with_marking marking.now op) } }
        ensures absent { get self.old.operations key.now ≡ None → self.new ≡ self.old }
    {
        if let Some(place) = row_place_lately(&self.operations, key, self.lately) {
            put_marking(&mut self.operations[place], marking);
            self.lately = self.lately.then(place);
        }
    }

    /// The workstation of a name, if there is one.
    pub fn workstation(&self, name: &WsName) -> Option<&Workstation>
        ensures found { IfSome result (λ ws. (ws.now.0 ≡ name.now) × (get self.now.workstations name.now ≡ Some ws.now.1)) }
        ensures absent { IsNone result → get self.now.workstations name.now ≡ None }
    {
        match workstation_place(&self.workstations, name) {
            Some(place) => Some(&self.workstations[place]),
            None => None,
        }
    }

    /// The workstation of a name, if there is one. No search is made where it is that of the operation at an index.
    pub fn workstation_near(&self, name: &WsName, operation: usize) -> Option<&Workstation>
        ensures found { IfSome result (λ ws. (ws.now.0 ≡ name.now) × (get self.now.workstations name.now ≡ Some ws.now.1)) }
        ensures absent { IsNone result → get self.now.workstations name.now ≡ None }
    {
        let at = self.found_at(operation);
        match workstation_place_near(&self.workstations, name, at.workstation) {
            Some(place) => Some(&self.workstations[place]),
            None => None,
        }
    }

    /// The workstation of a name that it has is this one from now on.
    pub fn set_workstation(&mut self, workstation: Workstation)
        requires { contains_key self.old.workstations workstation.0 ≡ true }
        ensures { self.new ≡ record self.old { workstations = insert self.old.workstations workstation.0 workstation.1 } }
    {
        let name = workstation.name();
        let place = known_workstation(&self.workstations, &name);
        self.workstations[place] = workstation;
    }

    /// A special resource that it has is available from now on, or not. There is as much of it as before.
    pub fn set_available(&mut self, name: &ResName, available: bool)
        requires { contains_key self.old.resources name.now ≡ true }
        ensures { self.new ≡ record self.old { resources = revise (with_availability name.now available) self.old.resources } }
    {
        let place = known_row(&self.resources, name);
        put_available(&mut self.resources[place], available);
    }

    /// One more pair. One that is there already stays.
    pub fn add_pair(&mut self, predecessor: &OpKey, successor: &OpKey) -> Result<(), AllocError>
        ensures { OnOk result (self.new ≡ record self.old { pairs = set.insert self.old.pairs (predecessor.now, successor.now) }) }
    {
        let pair = (*predecessor, *successor);
        if let Err(place) = self.pairs.binary_search(&pair) {
            self.pairs.insert(place, pair)?;
        }
        Ok(())
    }
}

/// Occurrences that are added, in key order, with their operations in key order, and the pairs added with them, by
/// predecessor and then successor.
#[derive(Drop)]
pub struct ExtensionParts {
    pub occurrences: Vec<(OccKey, Occurrence)>,
    pub operations: Vec<(OpKey, OperationRecord)>,
    pub pairs: Vec<(OpKey, OpKey)>,
}
