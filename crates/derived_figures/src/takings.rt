// What workstations have given out and who holds special resources, where some operations got other marks.
ghost use Rattle.std.specs.Prelude.{◌≡◌, ◌+◌, ◌<◌, ◌≤◌, ℕ, Contains, IfErr, OnOk, length};
ghost use Rattle.std.specs.FinMap.{entries};
ghost use Rattle.std.specs.List.Sorted.{IsStrictlySortedBy};
ghost use Rattle.std.specs.Ordering.{nat_cmp};
ghost use Rattle.plan_basics.specs.declared.Refusal.{Refusal};
ghost use Rattle.start_choice.specs.Choices.{AreGivenOut, AreHeldIn};
ghost use Rattle.plan_model.specs.Contents.{Contents};
ghost use Rattle.derived_figures.specs.TakingsBefore.{HasPlanBefore, IsBeforeAt};
ghost use Rattle.derived_figures.specs.Between.{AreGivenBetween, AreHeldBetween};

use super::given::given_anew;
use super::held::retake_needs;
use plan_basics::Refusal;
use plan_model::Marking;
use special_resources::Holdings;
use start_choice::{CountedRecords, SeenOperation};
use workstations::Capacity;

// Moves what is given out and held, where the operation at this place had this marking before.
fn retake_at(
    records: &mut CountedRecords,
    given: &mut [Capacity],
    holdings: &mut Holdings,
    place: usize,
    marking: &Marking,
) -> Result<(), Refusal>
    requires within { place < length (entries records.old.contents.operations) }
    requires stations { length given.old ≡ length (entries records.old.contents.workstations) }
    ensures given { OnOk result ((P : Contents) → IsBeforeAt P records.old.contents place marking.now given.old holdings.old.held → AreGivenBetween P records.old.contents (place + 1) given.new) }
    ensures held { OnOk result ((P : Contents) → IsBeforeAt P records.old.contents place marking.now given.old holdings.old.held → AreHeldBetween P records.old.contents (place + 1) holdings.new.held) }
    ensures contents { records.new.contents ≡ records.old.contents }
    ensures fewest { records.old.looks ≤ records.new.looks }
    ensures most { records.new.looks ≤ records.old.looks + 1 }
    ensures refused { IfErr result (λ r. r ≡ Refusal.Memory) }
{
    let SeenOperation {
        key,
        operation,
        uncounted,
    } = records.see(place);
    if !uncounted.starts_are_known(operation, place) {
        return Ok(());
    }
    let old = marking.put_on(operation);
    let station = uncounted.workstation_place_near(operation, place);
    given[station] = given_anew(&given[station], &old, operation);
    retake_needs(holdings, key, operation)
}

/// Moves what workstations have given out and who holds special resources, where the operations at these places, in ascending
/// order, had these markings before, one for each place. It takes a look at each place at most. The error is always `Memory`: then
/// both may be moved in part.
pub fn retake(
    records: &mut CountedRecords,
    given: &mut [Capacity],
    holdings: &mut Holdings,
    places: &[usize],
    marks: &[Marking],
) -> Result<(), Refusal>
    requires before { HasPlanBefore records.old.contents places.now marks.now given.old holdings.old.held }
    requires ascending { IsStrictlySortedBy nat_cmp places.now }
    requires within { (i : ℕ) → Contains places.now i → i < length (entries records.old.contents.operations) }
    ensures given { OnOk result (AreGivenOut records.old.contents (entries records.old.contents.workstations) given.new) }
    ensures held { OnOk result (AreHeldIn records.old.contents holdings.new.held) }
    ensures contents { records.new.contents ≡ records.old.contents }
    ensures fewest { records.old.looks ≤ records.new.looks }
    ensures most { records.new.looks ≤ records.old.looks + length places.now }
    ensures refused { IfErr result (λ r. r ≡ Refusal.Memory) }
{
    for (index, place) in places.iter().enumerate() {
        retake_at(records, given, holdings, *place, &marks[index])?;
    }
    Ok(())
}
