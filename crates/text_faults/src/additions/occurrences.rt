// The occurrences that are added, and what is of one.
ghost use Rattle.std.specs.Prelude.{◌≡◌, ◌↔◌, IsTrue};
ghost use Rattle.record_faults.specs.Sayings.{Sayings, given, IsIndex};
ghost use Rattle.text_faults.specs.AddedFaults.{IsOccurrence, IsFirstIfAny, IsOwn};

use plan_basics::OpKey;
use plan_drafts::RowKey;
use plan_items::Item;
use record_faults::{Index, first_place};

// Whether an occurrence is said.
pub fn is_occurrence(said: &Option<Item>) -> bool
    ensures { IsTrue result ↔ IsOccurrence said.now }
{
    match *said {
        Some(Item::Occurrence { .. }) => true,
        _ => false,
    }
}

// The place of the first record that says an occurrence.
pub fn first_occurrence(said: &[Option<Item>]) -> Option<usize>
    ensures { IsFirstIfAny said.now result }
{
    for place in 0..said.len() {
        if is_occurrence(&said[place]) {
            return Some(place);
        }
    }
    None
}

// Whether an operation is of an occurrence that is added.
pub fn is_own(index: &Index, operation: &OpKey) -> bool
    ensures { (said : Sayings) → IsIndex (given said) index.now → (IsTrue result ↔ IsOwn said operation.now) }
{
    first_place(index, &RowKey::Occurrence(operation.occurrence)).is_some()
}
