// The faults of all places, in their order.
ghost use Rattle.std.specs.Prelude.{◌≡◌, ◌↔◌, ◌⊎◌, ◌<◌, Some, length, Contains, IfOk, OnOk};
ghost use Rattle.record_faults.specs.Faults.{IsUndefined, IsOwnFault, IsMissing, StayOnce, AreFaultsBelow, AreFaults, AreInOrderTo};
ghost use Rattle.record_faults.specs.Groups.{grouped, AreCounts};
ghost use Rattle.record_faults.specs.Readings.{IsReadingOf};
ghost use Rattle.record_faults.specs.Sayings.{texts_of, given, IsIndex};
ghost use Rattle.record_faults.specs.declared.faults.RecordFault.{RecordFault};
ghost use Rattle.record_faults.specs.declared.names.Naming.TheVariants.{First, Second};

use super::faults::{Fault, RecordFault};
use super::finders::{crowd, missing, repetition, silence, undefined, unused};
use super::groups::Group;
use super::names::{Naming, is_to_itself};
use super::overlaps::overlapping;
use super::readings::Reading;
use super::sayings::Fields;
use super::stocks::beyond_stock;
use std::alloc::{AllocError, Global};

// A fault that is found goes to the end.
fn tell(faults: &mut Vec<RecordFault>, place: usize, found: Option<Fault>) -> Result<(), AllocError>
    ensures told { OnOk result ((f : RecordFault) → Contains faults.new.items f ↔ (Contains faults.old.items f ⊎ ((f.place ≡ place) × (found ≡ Some f.fault)))) }
    ensures in_order { OnOk result (AreInOrderTo place faults.old.items → AreInOrderTo place faults.new.items) }
    ensures once { OnOk result (StayOnce (λ (f : RecordFault). (f.place ≡ place) × (found ≡ Some f.fault)) faults.old.items faults.new.items) }
{
    let Some(fault) = found else {
        return Ok(());
    };
    faults.extend_from_slice(&[RecordFault { place, fault }])?;
    Ok(())
}

// What a place names that no record defines goes to the end: once, where both names are one.
fn tell_undefined(
    faults: &mut Vec<RecordFault>,
    reading: &Reading,
    place: usize,
) -> Result<(), AllocError>
    requires index { IsIndex (given reading.now.said.items) reading.now.index }
    requires place { place < length reading.now.said.items }
    ensures told { OnOk result ((f : RecordFault) → Contains faults.new.items f ↔ (Contains faults.old.items f ⊎ ((f.place ≡ place) × (IsUndefined First reading.now.said.items place f.fault ⊎ IsUndefined Second reading.now.said.items place f.fault)))) }
    ensures in_order { OnOk result (AreInOrderTo place faults.old.items → AreInOrderTo place faults.new.items) }
    ensures once { OnOk result (StayOnce (λ (f : RecordFault). (f.place ≡ place) × (IsUndefined First reading.now.said.items place f.fault ⊎ IsUndefined Second reading.now.said.items place f.fault)) faults.old.items faults.new.items) }
{
    let said = reading.said.as_slice();
    let index = &reading.index;
    tell(faults, place, undefined(Naming::First, index, said, place))?;
    if is_to_itself(&said[place]) {
        return Ok(());
    }
    tell(faults, place, undefined(Naming::Second, index, said, place))?;
    Ok(())
}

// The faults of one place go to the end.
fn tell_place(
    faults: &mut Vec<RecordFault>,
    records: &[Fields],
    reading: &Reading,
    place: usize,
) -> Result<(), AllocError>
    requires reading { IsReadingOf (texts_of records.now) reading.now }
    requires place { place < length reading.now.said.items }
    ensures told { OnOk result ((f : RecordFault) → Contains faults.new.items f ↔ (Contains faults.old.items f ⊎ ((f.place ≡ place) × IsOwnFault (texts_of records.now) reading.now.said.items place f.fault))) }
    ensures in_order { OnOk result (AreInOrderTo place faults.old.items → AreInOrderTo place faults.new.items) }
    ensures once { OnOk result (StayOnce (λ (f : RecordFault). f.place ≡ place) faults.old.items faults.new.items) }
{
    let said = reading.said.as_slice();
    let keys = reading.keys.as_slice();
    tell(faults, place, silence(records, said, place))?;
    tell(faults, place, repetition(keys, &reading.index, said, place))?;
    let earlier = reading.earlier.as_slice();
    tell(faults, place, overlapping(earlier, said, place))?;
    tell_undefined(faults, reading, place)?;
    tell(faults, place, unused(keys, &reading.owners, said, place))?;
    let groups = reading.groups.as_slice();
    tell(
        faults,
        place,
        crowd(groups, &reading.counts, earlier, said, place),
    )?;
    tell(faults, place, beyond_stock(&reading.index, said, place))?;
    Ok(())
}

// The faults of the records at all places.
fn faults_of_places(
    alloc: Global,
    records: &[Fields],
    reading: &Reading,
) -> Result<Vec<RecordFault>, AllocError>
    requires { IsReadingOf (texts_of records.now) reading.now }
    ensures { IfOk result (λ faults. AreFaultsBelow (texts_of records.now) reading.now.said.items (length reading.now.said.items) faults.items) }
{
    let mut faults = Vec::new(alloc);
    for place in 0..reading.said.len() {
        tell_place(&mut faults, records, reading, place)?;
    }
    Ok(faults)
}

// That there is none of a group goes to the end.
fn tell_missing(
    faults: &mut Vec<RecordFault>,
    reading: &Reading,
    group: Group,
) -> Result<(), AllocError>
    requires { AreCounts (grouped reading.now.said.items) reading.now.counts }
    ensures told { OnOk result ((f : RecordFault) → Contains faults.new.items f ↔ (Contains faults.old.items f ⊎ IsMissing group reading.now.said.items f.place f.fault)) }
    ensures in_order { OnOk result (AreInOrderTo (length reading.now.said.items) faults.old.items → AreInOrderTo (length reading.now.said.items) faults.new.items) }
    ensures once { OnOk result (StayOnce (λ (f : RecordFault). IsMissing group reading.now.said.items f.place f.fault) faults.old.items faults.new.items) }
{
    let said = reading.said.as_slice();
    tell(faults, said.len(), missing(group, &reading.counts, said))
}

// All faults.
pub fn all_faults(
    alloc: Global,
    records: &[Fields],
    reading: &Reading,
) -> Result<Vec<RecordFault>, AllocError>
    requires { IsReadingOf (texts_of records.now) reading.now }
    ensures { IfOk result (λ faults. AreFaults (texts_of records.now) reading.now.said.items faults.items) }
{
    let mut faults = faults_of_places(alloc, records, reading)?;
    tell_missing(&mut faults, reading, Group::Workstations)?;
    tell_missing(&mut faults, reading, Group::Occurrences)?;
    Ok(faults)
}
