// What of a record's faults is one of what is added, and what such a record may have beside them.
ghost use Rattle.std.specs.Prelude.{◌≡◌, ◌↔◌, ◌<◌, ◌≤◌, ℕ, Some, IfNone, IfSome, IsTrue, length};
ghost use Rattle.special_resources.specs.declared.Need.{Need};
ghost use Rattle.plan_items.specs.declared.Item.TheVariants as item;
ghost use Rattle.plan_drafts.specs.ExtensionItems.{MayComeIn};
ghost use Rattle.record_faults.specs.Sayings.{Sayings, SaysAt, given, IsIndex};
ghost use Rattle.record_faults.specs.declared.faults.Fault.TheVariants as fault;
ghost use Rattle.text_faults.specs.AddedFaults.{IsFirstIfAny, IsJudged, IsAdditionFault, IsElsewhere, SaysNeedOf};
ghost use Rattle.text_faults.specs.declared.additions.faults.AddedText.{AddedText};
ghost use Rattle.text_faults.specs.declared.additions.faults.AddedText.TheVariants as text;
ghost use Rattle.text_faults.specs.declared.additions.faults.AddedFault.{AddedFault};
ghost use Rattle.text_faults.specs.declared.additions.faults.AddedFault.TheVariants as of_added;

use super::faults::{AddedFault, AddedText};
use super::occurrences::{is_occurrence, is_own};
use plan_basics::OpKey;
use plan_drafts::RowKey;
use plan_items::Item;
use record_faults::{Fault, Group, Index};

// Whether there is to be one occurrence.
fn is_of_one(added: AddedText) -> bool
    ensures { IsTrue result ↔ (added ≡ text.Addition) }
{
    match added {
        AddedText::Addition => true,
        AddedText::Extension => false,
    }
}

// Whether a need of the operation is said.
fn is_need_of(said: &Option<Item>, operation: &OpKey) -> bool
    ensures { IsTrue result ↔ ((n : Need) × (said.now ≡ Some (item.Need operation.now n))) }
{
    match *said {
        Some(Item::Need { operation: of, .. }) => of == *operation,
        _ => false,
    }
}

// Whether the record at a place says one.
fn says_need_of(said: &[Option<Item>], place: usize, operation: &OpKey) -> bool
    ensures { IsTrue result ↔ SaysNeedOf said.now place operation.now }
{
    if place >= said.len() {
        return false;
    }
    is_need_of(&said[place], operation)
}

// Whether a name that no record defines can be judged without the plan.
fn is_name_judged(said: &[Option<Item>], index: &Index, place: usize, name: &RowKey) -> bool
    requires { IsIndex (given said.now) index.now }
    ensures { (added : AddedText) → IsTrue result ↔ IsJudged added said.now place (fault.Undefined name.now) }
{
    match *name {
        RowKey::Occurrence(_) => true,
        RowKey::Operation(operation) => {
            says_need_of(said, place, &operation) || is_own(index, &operation)
        }
        _ => false,
    }
}

// Whether a fault of a plan's record is one of what is added.
pub fn is_judged(
    added: AddedText,
    said: &[Option<Item>],
    index: &Index,
    place: usize,
    fault: &Fault,
) -> bool
    requires { IsIndex (given said.now) index.now }
    ensures { IsTrue result ↔ IsJudged added said.now place fault.now }
{
    match *fault {
        Fault::Shape(_) | Fault::Repeated(_, _) | Fault::NoOperation => true,
        Fault::TooMany(Group::NeedsOf(_), _) => true,
        Fault::Missing(Group::Occurrences) => is_of_one(added),
        Fault::Undefined(name) => is_name_judged(said, index, place, &name),
        _ => false,
    }
}

// Whether an item is a workstation, an open interval or a special resource.
fn may_not_come_in(item: &Item) -> bool
    ensures { IsTrue result ↔ ¬ MayComeIn item.now }
{
    match *item {
        Item::Workstation { .. } => true,
        Item::Interval { .. } => true,
        Item::Resource { .. } => true,
        _ => false,
    }
}

// The place of the first occurrence, if it is before another place.
fn where_before(first: Option<usize>, place: usize) -> Option<usize>
    ensures some { IfSome result (λ n. (first ≡ Some n) × (n < place)) }
    ensures none { IfNone result ((n : ℕ) → first ≡ Some n → place ≤ n) }
{
    match first {
        Some(first) if first < place => Some(first),
        _ => None,
    }
}

// Where the first occurrence is said, if the record at the place says another and there is to be one.
fn earlier(
    added: AddedText,
    said: &[Option<Item>],
    first: Option<usize>,
    place: usize,
) -> Option<usize>
    requires first { IsFirstIfAny said.now first }
    requires place { place < length said.now }
    ensures { (n : ℕ) → (result ≡ Some n) ↔ IsAdditionFault added said.now place (of_added.AnotherOccurrence n) }
{
    if !is_of_one(added) {
        return None;
    }
    if !is_occurrence(&said[place]) {
        return None;
    }
    where_before(first, place)
}

// Whether it is a dependency of which no end is in an occurrence that is added.
fn is_elsewhere(index: &Index, item: &Item) -> bool
    ensures { (said : Sayings) (place : ℕ) → IsIndex (given said) index.now → SaysAt said place item.now → IsTrue result ↔ IsElsewhere said place }
{
    match *item {
        Item::Dependency {
            predecessor,
            successor,
        } => !is_own(index, &predecessor) && !is_own(index, &successor),
        _ => false,
    }
}

// What is wrong with a record of what is added beside what may be with a plan's.
pub fn addition_fault(
    added: AddedText,
    said: &[Option<Item>],
    index: &Index,
    first: Option<usize>,
    place: usize,
) -> Option<AddedFault>
    requires index { IsIndex (given said.now) index.now }
    requires first { IsFirstIfAny said.now first }
    requires place { place < length said.now }
    ensures { (f : AddedFault) → (result ≡ Some f) ↔ IsAdditionFault added said.now place f }
{
    let item = said[place]?;
    if may_not_come_in(&item) {
        return Some(AddedFault::NotAdded);
    }
    if let Some(first) = earlier(added, said, first, place) {
        return Some(AddedFault::AnotherOccurrence(first));
    }
    if is_elsewhere(index, &item) {
        return Some(AddedFault::Elsewhere);
    }
    None
}
