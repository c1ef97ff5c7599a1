// Contents that are sound.
ghost use Rattle.std.specs.Prelude.{◌≡◌, ◌<◌, true, None, Some, IfSome, IsNone, length, slice_get};
ghost use Rattle.std.specs.FinMap.{contains_key, entries, get};
ghost use Rattle.std.specs.FinSet as set;
ghost use Rattle.std.specs.List.Sorted.{IsStrictlySortedBy};
ghost use Rattle.std.specs.Map.{keys_of};
ghost use Rattle.plan_basics.specs.Keys.{name_cmp, occurrence_cmp, operation_cmp};
ghost use Rattle.plan_basics.specs.declared.keys.OpKey.{OpKey as OpKeyValue};
ghost use Rattle.plan_model.specs.Contents.{pair_cmp, Operation};
ghost use Rattle.plan_model.specs.declared.Occurrence.{Occurrence as OccurrenceValue};
ghost use Rattle.plan_model.specs.workstations.specs.Workstations.{Workstation as WorkstationValue};
ghost use Rattle.plan_model.specs.Valid.{IsSound};

use super::valid::ValidContents;
use plan_basics::{OccKey, OpKey, ResName, WsName};
use plan_laws::PlanContents;
use plan_model::{Occurrence, OperationRecord, Stock, Workstation};
use std::marker::Model;

/// What a loaded plan holds: all that it names is there and in range, no path of pairs returns to its start, the limits
/// hold, and its marks and flags fit together. Contracts see it as what it holds.
#[derive(Drop)]
pub struct SoundContents {
    contents: ValidContents,
}

impl Model for SoundContents {
    ghost use Rattle.plan_model.specs.Contents.{Contents};
    ghost use Rattle.plan_model.specs.Code.{contents_code};

    ghost Value = { Contents };

    ghost coded = { contents_code };

    ghost use Rattle.plan_model.specs.Valid.{IsSound};

    ghost view = { λ c. c.contents };

    ghost invariant = { λ c. IsSound c.contents };
}

impl SoundContents {
    /// These contents, which are sound.
    pub fn of(contents: PlanContents) -> SoundContents
        requires { IsSound contents }
        ensures { result ≡ contents }
    {
        SoundContents {
            contents: ValidContents::of(contents),
        }
    }

    /// These valid contents, which are sound.
    pub fn of_valid(contents: ValidContents) -> SoundContents
        requires { IsSound contents }
        ensures { result ≡ contents }
    {
        SoundContents { contents }
    }

    /// Its rows, to be changed.
    pub fn into_rows(self) -> PlanContents
        ensures contents { result ≡ self }
        ensures sound { IsSound self }
    {
        self.contents.into_rows()
    }

    /// The same, in which an operation, if it is there, is found without a search until two others are marked.
    pub fn seeking(self, key: &OpKey) -> SoundContents
        ensures { result ≡ self }
    {
        let contents = self.into_rows();
        SoundContents::of(contents.seeking(key))
    }

    /// The same, as contents of which no more than that they are valid is known.
    pub fn valid(&self) -> &ValidContents
        ensures contents { result.now ≡ self.now }
        ensures sound { IsSound self.now }
    {
        &self.contents
    }

    /// Its rows, of which others may be made.
    pub fn rows(&self) -> &PlanContents
        ensures contents { result.now ≡ self.now }
        ensures sound { IsSound self.now }
    {
        self.contents.rows()
    }

    /// Its workstations by name.
    pub fn workstations(&self) -> &[Workstation]
        ensures rows { result.now ≡ entries self.now.workstations }
        ensures in_order { IsStrictlySortedBy name_cmp (keys_of result.now) }
        ensures sound { IsSound self.now }
    {
        self.rows().workstations()
    }

    /// Its occurrences by key.
    pub fn occurrences(&self) -> &[(OccKey, Occurrence)]
        ensures rows { result.now ≡ entries self.now.occurrences }
        ensures in_order { IsStrictlySortedBy occurrence_cmp (keys_of result.now) }
        ensures sound { IsSound self.now }
    {
        self.rows().occurrences()
    }

    /// Its operations by key.
    pub fn operations(&self) -> &[(OpKey, OperationRecord)]
        ensures rows { result.now ≡ entries self.now.operations }
        ensures in_order { IsStrictlySortedBy operation_cmp (keys_of result.now) }
        ensures sound { IsSound self.now }
    {
        self.rows().operations()
    }

    /// Its pairs, by predecessor and then successor.
    pub fn pairs(&self) -> &[(OpKey, OpKey)]
        ensures pairs { set.from_list result.now ≡ self.now.pairs }
        ensures in_order { IsStrictlySortedBy pair_cmp result.now }
        ensures sound { IsSound self.now }
    {
        self.rows().pairs()
    }

    /// The index of the operation of a key, if there is one.
    pub fn operation_place(&self, key: &OpKey) -> Option<usize>
        ensures found { IfSome result (λ i. (value : Operation) × (slice_get (entries self.now.operations) i ≡ Some (key.now, value))) }
        ensures absent { IsNone result → get self.now.operations key.now ≡ None }
    {
        self.rows().operation_place(key)
    }

    /// The index of the operation of a key, if there is one. It is looked for at an index first, and no search is made where it is
    /// there.
    pub fn operation_place_near(&self, key: &OpKey, near: usize) -> Option<usize>
        ensures found { IfSome result (λ i. (value : Operation) × (slice_get (entries self.now.operations) i ≡ Some (key.now, value))) }
        ensures absent { IsNone result → get self.now.operations key.now ≡ None }
    {
        self.rows().operation_place_near(key, near)
    }

    /// The index of the occurrence of a key, if there is one.
    pub fn occurrence_place(&self, key: &OccKey) -> Option<usize>
        ensures found { IfSome result (λ i. (value : OccurrenceValue) × (slice_get (entries self.now.occurrences) i ≡ Some (key.now, value))) }
        ensures absent { IsNone result → get self.now.occurrences key.now ≡ None }
    {
        self.rows().occurrence_place(key)
    }

    /// The index of the operation of a key that is there.
    pub fn known_operation_place(&self, key: &OpKey) -> usize
        requires { contains_key self.now.operations key.now ≡ true }
        ensures within { result < length (entries self.now.operations) }
        ensures at { (value : Operation) × (slice_get (entries self.now.operations) result ≡ Some (key.now, value)) }
    {
        self.rows().known_operation_place(key)
    }

    /// The index of the occurrence of an operation that is there. Where that stands at this place, no search is made.
    pub fn occurrence_place_of(&self, key: &OpKey, place: usize) -> usize
        requires { contains_key self.now.operations key.now ≡ true }
        ensures within { result < length (entries self.now.occurrences) }
        ensures at { (value : OccurrenceValue) × (slice_get (entries self.now.occurrences) result ≡ Some (key.now.occurrence, value)) }
    {
        self.rows()
            .known_occurrence_place_near(&key.occurrence, place)
    }

    /// The index of the workstation of an operation that is there.
    pub fn workstation_place_of(&self, operation: &OperationRecord) -> usize
        requires { (o : OpKeyValue) × (get self.now.operations o ≡ Some operation.now) }
        ensures within { result < length (entries self.now.workstations) }
        ensures at { (value : WorkstationValue) × (slice_get (entries self.now.workstations) result ≡ Some (operation.now.workstation, value)) }
    {
        self.rows().known_workstation_place(&operation.workstation)
    }

    /// The index of the workstation of an operation that is there. Where that stands at this place, no search is made.
    pub fn workstation_place_near(&self, operation: &OperationRecord, place: usize) -> usize
        requires { (o : OpKeyValue) × (get self.now.operations o ≡ Some operation.now) }
        ensures within { result < length (entries self.now.workstations) }
        ensures at { (value : WorkstationValue) × (slice_get (entries self.now.workstations) result ≡ Some (operation.now.workstation, value)) }
    {
        self.rows()
            .known_workstation_place_near(&operation.workstation, place)
    }

    /// The operation of a key, if there is one.
    pub fn operation(&self, key: &OpKey) -> Option<&OperationRecord>
        ensures found { IfSome result (λ op. get self.now.operations key.now ≡ Some op.now) }
        ensures absent { IsNone result → get self.now.operations key.now ≡ None }
        ensures sound { IsSound self.now }
    {
        self.rows().operation(key)
    }

    /// The occurrence of a key, if there is one.
    pub fn occurrence(&self, key: &OccKey) -> Option<&Occurrence>
        ensures found { IfSome result (λ occurrence. get self.now.occurrences key.now ≡ Some occurrence.now) }
        ensures absent { IsNone result → get self.now.occurrences key.now ≡ None }
        ensures sound { IsSound self.now }
    {
        self.rows().occurrence(key)
    }

    /// The occurrence of a key, if there is one. No search is made where it is that of the operation at this place.
    pub fn occurrence_near(&self, key: &OccKey, place: usize) -> Option<&Occurrence>
        ensures found { IfSome result (λ occurrence. get self.now.occurrences key.now ≡ Some occurrence.now) }
        ensures absent { IsNone result → get self.now.occurrences key.now ≡ None }
        ensures sound { IsSound self.now }
    {
        self.rows().occurrence_near(key, place)
    }

    /// The workstation of a name, if there is one.
    pub fn workstation(&self, name: &WsName) -> Option<&Workstation>
        ensures found { IfSome result (λ ws. (ws.now.0 ≡ name.now) × (get self.now.workstations name.now ≡ Some ws.now.1)) }
        ensures absent { IsNone result → get self.now.workstations name.now ≡ None }
        ensures sound { IsSound self.now }
    {
        self.rows().workstation(name)
    }

    /// The workstation of a name, if there is one. No search is made where it is that of the operation at this place.
    pub fn workstation_near(&self, name: &WsName, place: usize) -> Option<&Workstation>
        ensures found { IfSome result (λ ws. (ws.now.0 ≡ name.now) × (get self.now.workstations name.now ≡ Some ws.now.1)) }
        ensures absent { IsNone result → get self.now.workstations name.now ≡ None }
        ensures sound { IsSound self.now }
    {
        self.rows().workstation_near(name, place)
    }

    /// Whether the special resource of a name is available and how much of it there is, if there is one.
    pub fn resource(&self, name: &ResName) -> Option<Stock>
        ensures { result ≡ get self.now.resources name.now }
    {
        self.rows().resource(name)
    }
}
