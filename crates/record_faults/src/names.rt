// What an item names.
ghost use Rattle.std.specs.Prelude.{◌≡◌, ◌↔◌, IsTrue};
ghost use Rattle.record_faults.specs.Faults.{first_name, second_name, name_of, IsToItself};

use plan_drafts::RowKey;
use plan_items::Item;

/// Which of the two things that an item may name.
#[derive(Clone, Copy, PartialEq, Eq)]
pub enum Naming {
    First,
    Second,
}

// The first thing that an item names, and that some record has to define.
fn first_named(item: &Item) -> Option<RowKey>
    ensures { result ≡ first_name item.now }
{
    match *item {
        Item::Interval { workstation, .. } => Some(RowKey::Workstation(workstation)),
        Item::Operation(operation) => Some(RowKey::Workstation(operation.workstation)),
        Item::Dependency { predecessor, .. } => Some(RowKey::Operation(predecessor)),
        Item::Need { operation, .. } => Some(RowKey::Operation(operation)),
        _ => None,
    }
}

// The second.
fn second_named(item: &Item) -> Option<RowKey>
    ensures { result ≡ second_name item.now }
{
    match *item {
        Item::Operation(operation) => Some(RowKey::Occurrence(operation.key.occurrence)),
        Item::Dependency { successor, .. } => Some(RowKey::Operation(successor)),
        Item::Need { need, .. } => Some(RowKey::Resource(need.name)),
        _ => None,
    }
}

// One of the two.
pub fn named(naming: Naming, item: &Item) -> Option<RowKey>
    ensures { result ≡ name_of naming item.now }
{
    match naming {
        Naming::First => first_named(item),
        Naming::Second => second_named(item),
    }
}

// Whether a dependency from an operation to itself is said: it names that operation twice.
pub fn is_to_itself(said: &Option<Item>) -> bool
    ensures { IsTrue result ↔ IsToItself said.now }
{
    match *said {
        Some(
            Item::Dependency {
                predecessor,
                successor,
            },
        ) => predecessor == successor,
        _ => false,
    }
}
