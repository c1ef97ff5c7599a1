// Where the occurrence and the workstation of each operation were found, by which they are found again without a search. Nothing is
// promised of these indices: whoever goes by one looks whether it is right, and searches where it isn't.
ghost use Rattle.std.specs.List.Sorted.{IsStrictlySortedBy};
ghost use Rattle.std.specs.Map.{keys_of};
ghost use Rattle.plan_basics.specs.Keys.{name_cmp, occurrence_cmp};

use super::places::{row_place_near, workstation_place};
use plan_basics::{OccKey, OpKey, WsName};
use plan_model::{Occurrence, OperationRecord, Workstation};
use std::alloc::{AllocError, Global};

/// Where an operation's occurrence and workstation were found.
#[derive(Clone, Copy)]
pub struct Found {
    pub occurrence: usize,
    pub workstation: usize,
}

/// Where an operation was last found that was marked, and where the one before it was.
#[derive(Clone, Copy)]
pub struct Lately {
    pub last: usize,
    pub before: usize,
}

/// Nothing was marked yet.
pub const NOTHING_MARKED: Lately = Lately { last: 0, before: 0 };

impl Lately {
    /// The same, once an operation was found at an index.
    pub fn then(self, place: usize) -> Lately {
        if place == self.last {
            return self;
        }
        Lately {
            last: place,
            before: self.last,
        }
    }
}

/// Nothing was found yet.
const NOTHING_FOUND: Found = Found {
    occurrence: 0,
    workstation: 0,
};

// Where an operation's occurrence stands that was found here for the operation before: most often there, or next to it.
fn occurrence_after(occurrences: &[(OccKey, Occurrence)], key: &OccKey, before: usize) -> usize
    requires { IsStrictlySortedBy occurrence_cmp (keys_of occurrences.now) }
{
    match occurrences.get(before) {
        Some(row) if row.0 == *key => before,
        _ => row_place_near(occurrences, key, before.saturating_add(1)).unwrap_or(before),
    }
}

// Where a workstation stands.
fn workstation_found(workstations: &[Workstation], name: &WsName) -> usize
    requires { IsStrictlySortedBy name_cmp (keys_of workstations.now) }
{
    workstation_place(workstations, name).unwrap_or(0)
}

// Where the occurrence and the workstation of each operation stand.
fn all_found(
    alloc: Global,
    workstations: &[Workstation],
    occurrences: &[(OccKey, Occurrence)],
    operations: &[(OpKey, OperationRecord)],
) -> Result<Vec<Found>, AllocError>
    requires workstations { IsStrictlySortedBy name_cmp (keys_of workstations.now) }
    requires occurrences { IsStrictlySortedBy occurrence_cmp (keys_of occurrences.now) }
{
    let mut found = Vec::with_capacity(alloc, operations.len())?;
    let mut occurrence: usize = 0;
    for row in operations {
        occurrence = occurrence_after(occurrences, &row.0.occurrence, occurrence);
        let workstation = workstation_found(workstations, &row.1.workstation);
        found.push(Found {
            occurrence,
            workstation,
        })?;
    }
    Ok(found)
}

/// Where the occurrence and the workstation of each operation stand; nothing where there is no memory, and then they are searched for.
pub fn found_of(
    alloc: Global,
    workstations: &[Workstation],
    occurrences: &[(OccKey, Occurrence)],
    operations: &[(OpKey, OperationRecord)],
) -> Vec<Found>
    requires workstations { IsStrictlySortedBy name_cmp (keys_of workstations.now) }
    requires occurrences { IsStrictlySortedBy occurrence_cmp (keys_of occurrences.now) }
{
    match all_found(alloc, workstations, occurrences, operations) {
        Ok(found) => found,
        Err(_) => Vec::new(alloc),
    }
}

/// Where the occurrence and the workstation of the operation at an index were found.
pub fn found_at(found: &[Found], operation: usize) -> Found {
    match found.get(operation) {
        Some(at) => *at,
        None => NOTHING_FOUND,
    }
}
