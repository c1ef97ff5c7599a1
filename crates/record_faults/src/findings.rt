// What is found in a list of records.
ghost use Rattle.std.specs.Prelude.{◌≡◌, ◌≢◌, ◌↔◌, ◌≤◌, ℕ, [], All, Contains, IfOk, MatchOption};
ghost use Rattle.std.specs.List.{AllPairs};
ghost use Rattle.record_faults.specs.Faults.{IsFaultAt, IsReturning, IsFaultOfRecord, IsFault, IsCircleOf, NoCircleIn, DenoteSome};
ghost use Rattle.record_faults.specs.Readings.{IsReadingOf};
ghost use Rattle.record_faults.specs.Sayings.{texts_of};
ghost use Rattle.record_faults.specs.declared.faults.Fault.{Fault};
ghost use Rattle.record_faults.specs.declared.faults.RecordFault.{RecordFault};

use super::circles::{Circle, circle_of};
use super::denoting::say_some;
use super::faults::{Fault, RecordFault};
use super::gather::all_faults;
use super::index::index_of;
use super::readings::{Reading, reading_of};
use super::sayings::{Fields, keys_given, sayings_of};
use std::alloc::{AllocError, Global};

// The fault of records of which none has one and that denote no plan: that of the dependency that closes a path.
fn returning(
    alloc: Global,
    records: &[Fields],
    reading: &Reading,
) -> Result<RecordFault, AllocError>
    requires reading { IsReadingOf (texts_of records.now) reading.now }
    requires faultless { (place : ℕ) (f : Fault) → ¬ IsFaultAt (texts_of records.now) reading.now.said.items place f }
    requires no_plan { ¬ DenoteSome (texts_of records.now) }
    ensures { IfOk result (λ f. IsReturning reading.now.said.items f.place f.fault) }
{
    match circle_of(alloc, &reading.keys, &reading.index)? {
        Some(circle) => Ok(RecordFault {
            place: circle.place,
            fault: Fault::Returns,
        }),
        None => unreachable!("records without faults, of which no path returns, denote a plan"),
    }
}

/// The faults of a list of records, in the order of their places, each once; there is none exactly where the records denote
/// a plan. Each record may have any number of fields. It fails for want of memory only. Where the records denote a plan it
/// takes as long as to find that out.
pub fn faults_of(alloc: Global, records: &[Fields]) -> Result<Vec<RecordFault>, AllocError>
    ensures faults { IfOk result (λ v. All (λ f. IsFault (texts_of records.now) f.place f.fault) v.items) }
    ensures each { IfOk result (λ v. (f : RecordFault) → IsFaultOfRecord (texts_of records.now) f.place f.fault → Contains v.items f) }
    ensures none { IfOk result (λ v. (v.items ≡ []) ↔ DenoteSome (texts_of records.now)) }
    ensures in_order { IfOk result (λ v. AllPairs (λ a b. a.place ≤ b.place) v.items) }
    ensures once { IfOk result (λ v. AllPairs (λ a b. a ≢ b) v.items) }
{
    let said = sayings_of(alloc, records)?;
    if say_some(alloc, &said)? {
        return Ok(Vec::new(alloc));
    }
    let reading = reading_of(alloc, said)?;
    let faults = all_faults(alloc, records, &reading)?;
    if faults.is_empty() {
        let fault = returning(alloc, records, &reading)?;
        let alone = Vec::from_slice(alloc, &[fault])?;
        return Ok(alone);
    }
    Ok(faults)
}

/// A path of dependencies of these records that returns, or none where none does: the place of a record that says a
/// dependency and closes the path, and the operations on it. It fails for want of memory only.
pub fn circle_of_records(alloc: Global, records: &[Fields]) -> Result<Option<Circle>, AllocError>
    ensures { IfOk result (λ found. MatchOption found (NoCircleIn (texts_of records.now)) (λ c. IsCircleOf (texts_of records.now) c.place c.first c.way.items)) }
{
    let said = sayings_of(alloc, records)?;
    let keys = keys_given(alloc, &said)?;
    let index = index_of(alloc, &keys)?;
    let found = circle_of(alloc, &keys, &index)?;
    Ok(found)
}
