// Records that are counted together.
ghost use Rattle.std.specs.Prelude.{◌≡◌, IfOk, option_map};
ghost use Rattle.record_faults.specs.Groups.{group_of, grouped, most_of};

use plan_basics::limits::{
    MOST_INTERVALS, MOST_NEEDS, MOST_OCCURRENCES, MOST_OPERATIONS, MOST_PAIRS, MOST_RESOURCES,
    MOST_WORKSTATIONS,
};
use plan_basics::{OpKey, WsName};
use plan_items::Item;
use std::alloc::{AllocError, Global};

/// Records of which a plan may hold so many: those of a kind, the intervals of a workstation, or the needs of an
/// operation.
#[derive(Clone, Copy, PartialEq, Eq, PartialOrd, Ord)]
pub enum Group {
    Workstations,
    IntervalsOf(WsName),
    Resources,
    Occurrences,
    Operations,
    Dependencies,
    NeedsOf(OpKey),
}

// The group of an item.
fn of_item(item: &Item) -> Group
    ensures { result ≡ group_of item.now }
{
    match *item {
        Item::Workstation { .. } => Group::Workstations,
        Item::Interval { workstation, .. } => Group::IntervalsOf(workstation),
        Item::Resource { .. } => Group::Resources,
        Item::Occurrence { .. } => Group::Occurrences,
        Item::Operation(_) => Group::Operations,
        Item::Dependency { .. } => Group::Dependencies,
        Item::Need { operation, .. } => Group::NeedsOf(operation),
    }
}

// The group of what is said, if something is.
fn group_said(said: &Option<Item>) -> Option<Group>
    ensures { result ≡ option_map group_of said.now }
{
    match said {
        Some(item) => Some(of_item(item)),
        None => None,
    }
}

// The groups of what is said.
pub fn groups_said(alloc: Global, said: &[Option<Item>]) -> Result<Vec<Option<Group>>, AllocError>
    ensures { IfOk result (λ v. v.items ≡ grouped said.now) }
{
    let mut groups = Vec::new(alloc);
    for one in said {
        groups.extend_from_slice(&[group_said(one)])?;
    }
    Ok(groups)
}

/// How many of a group a plan may hold.
pub fn most(group: &Group) -> usize
    ensures { result ≡ most_of group.now }
{
    match *group {
        Group::Workstations => MOST_WORKSTATIONS,
        Group::IntervalsOf(_) => MOST_INTERVALS,
        Group::Resources => MOST_RESOURCES,
        Group::Occurrences => MOST_OCCURRENCES,
        Group::Operations => MOST_OPERATIONS,
        Group::Dependencies => MOST_PAIRS,
        Group::NeedsOf(_) => MOST_NEEDS,
    }
}
