// What is found in the records of what is added.
ghost use Rattle.std.specs.Prelude.{◌≡◌, ◌≢◌, ◌↔◌, ◌⊎◌, ◌≤◌, ◌<◌, [], length, Contains, IfOk, OnOk};
ghost use Rattle.std.specs.List.{AllPairs};
ghost use Rattle.record_faults.specs.Faults.{StayOnce};
ghost use Rattle.record_faults.specs.Sayings.{texts_of, given, AreSayings, IsIndex};
ghost use Rattle.text_faults.specs.AddedFaults.{IsFaultHere, IsFaultOfAdded, DenoteSomeAdded, IsFirstIfAny, IsToldOf, IsToldAt, IsAdditionFaultAt, AreToldBelow};
ghost use Rattle.text_faults.specs.declared.additions.faults.PlacedFault.{PlacedFault};

use super::faults::{AddedFault, AddedText, PlacedFault};
use super::judging::{addition_fault, is_judged};
use super::occurrences::first_occurrence;
use plan_items::Item;
use record_faults::{Fields, Index, RecordFault, faults_of, index_of, keys_given, sayings_of};
use std::alloc::{AllocError, Global};

// A fault of a plan's record goes to the end where it is one of what is added.
fn tell_judged(
    faults: &mut Vec<PlacedFault>,
    added: AddedText,
    said: &[Option<Item>],
    index: &Index,
    found: &RecordFault,
) -> Result<(), AllocError>
    requires { IsIndex (given said.now) index.now }
    ensures told { OnOk result ((f : PlacedFault) → Contains faults.new.items f ↔ (Contains faults.old.items f ⊎ IsToldOf added said.now found.now f)) }
    ensures once { OnOk result (StayOnce (IsToldOf added said.now found.now) faults.old.items faults.new.items) }
{
    if !is_judged(added, said, index, found.place, &found.fault) {
        return Ok(());
    }
    let fault = AddedFault::OfRecord(found.fault);
    faults.extend_from_slice(&[PlacedFault {
        place: found.place,
        fault,
    }])?;
    Ok(())
}

// Those of a plan's faults that are faults of what is added.
fn judged_of(
    alloc: Global,
    added: AddedText,
    found: &[RecordFault],
    said: &[Option<Item>],
    index: &Index,
) -> Result<Vec<PlacedFault>, AllocError>
    requires index { IsIndex (given said.now) index.now }
    requires once { AllPairs (λ a b. a ≢ b) found.now }
    ensures told { IfOk result (λ v. AreToldBelow (IsToldAt added said.now found.now) (length found.now) v.items) }
    ensures once { IfOk result (λ v. AllPairs (λ a b. a ≢ b) v.items) }
{
    let mut faults = Vec::new(alloc);
    for number in 0..found.len() {
        tell_judged(&mut faults, added, said, index, &found[number])?;
    }
    Ok(faults)
}

// What is wrong with the record at a place beside that goes to the end.
fn tell_addition_fault(
    faults: &mut Vec<PlacedFault>,
    added: AddedText,
    said: &[Option<Item>],
    index: &Index,
    first: Option<usize>,
    place: usize,
) -> Result<(), AllocError>
    requires index { IsIndex (given said.now) index.now }
    requires first { IsFirstIfAny said.now first }
    requires place { place < length said.now }
    ensures told { OnOk result ((f : PlacedFault) → Contains faults.new.items f ↔ (Contains faults.old.items f ⊎ IsAdditionFaultAt added said.now place f)) }
    ensures once { OnOk result (StayOnce (IsAdditionFaultAt added said.now place) faults.old.items faults.new.items) }
{
    let Some(fault) = addition_fault(added, said, index, first, place) else {
        return Ok(());
    };
    faults.extend_from_slice(&[PlacedFault { place, fault }])?;
    Ok(())
}

// What is wrong with the records beside that.
fn addition_faults_of(
    alloc: Global,
    added: AddedText,
    said: &[Option<Item>],
    index: &Index,
    first: Option<usize>,
) -> Result<Vec<PlacedFault>, AllocError>
    requires index { IsIndex (given said.now) index.now }
    requires first { IsFirstIfAny said.now first }
    ensures told { IfOk result (λ v. AreToldBelow (IsAdditionFaultAt added said.now) (length said.now) v.items) }
    ensures once { IfOk result (λ v. AllPairs (λ a b. a ≢ b) v.items) }
{
    let mut faults = Vec::new(alloc);
    for place in 0..said.len() {
        tell_addition_fault(&mut faults, added, said, index, first, place)?;
    }
    Ok(faults)
}

// For each key the first place that gives it.
fn index_said(alloc: Global, said: &[Option<Item>]) -> Result<Index, AllocError>
    ensures { IfOk result (IsIndex (given said.now)) }
{
    let keys = keys_given(alloc, said)?;
    index_of(alloc, &keys)
}

// The faults of records that say this.
fn faults_here(
    alloc: Global,
    added: AddedText,
    records: &[Fields],
    said: &[Option<Item>],
) -> Result<Vec<PlacedFault>, AllocError>
    requires { AreSayings (texts_of records.now) said.now }
    ensures exactly { IfOk result (λ v. (f : PlacedFault) → Contains v.items f ↔ IsFaultHere added (texts_of records.now) said.now f.place f.fault) }
    ensures once { IfOk result (λ v. AllPairs (λ a b. a ≢ b) v.items) }
{
    let index = index_said(alloc, said)?;
    let first = first_occurrence(said);
    let found = faults_of(alloc, records)?;
    let mut faults = judged_of(alloc, added, &found, said, &index)?;
    let others = addition_faults_of(alloc, added, said, &index, first)?;
    faults.extend_from_slice(&others)?;
    Ok(faults)
}

/// The faults of the records of a text that is to be an addition, or an extension, in the order of their places, each once;
/// there is none exactly where the records denote one. What is judged with the plan is none: workstations, special
/// resources and operations of other occurrences that are named, the plan's limits, and paths that return. Each record may
/// have any number of fields. It fails for want of memory only.
pub fn faults_of_added(
    alloc: Global,
    added: AddedText,
    records: &[Fields],
) -> Result<Vec<PlacedFault>, AllocError>
    ensures exactly { IfOk result (λ v. (f : PlacedFault) → Contains v.items f ↔ IsFaultOfAdded added (texts_of records.now) f.place f.fault) }
    ensures none { IfOk result (λ v. (v.items ≡ []) ↔ DenoteSomeAdded added (texts_of records.now)) }
    ensures in_order { IfOk result (λ v. AllPairs (λ a b. a.place ≤ b.place) v.items) }
    ensures once { IfOk result (λ v. AllPairs (λ a b. a ≢ b) v.items) }
{
    let said = sayings_of(alloc, records)?;
    let mut faults = faults_here(alloc, added, records, &said)?;
    faults.sort_by_key(|fault| fault.place)?;
    Ok(faults)
}
