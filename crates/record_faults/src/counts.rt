// How many records there are of each group, and which of its group is the one before each of them.
ghost use Rattle.std.specs.Prelude.{◌≡◌, ◌+◌, ◌<◌, ◌≤◌, ◌^◌, ◌++◌, [], ◌∷◌, List, Option, Some, IfOk, OnOk, MatchOption, length, unwrap_or, slice_get};
ghost use Rattle.record_faults.specs.declared.groups.Group.{Group};
ghost use Rattle.record_faults.specs.Groups.{AreCounts, AreLast, AreEarlier, kept_for, most_of};

use super::groups::{Group, most};
use std::alloc::{AllocError, Global};
use std::collections::BTreeMap;

// For each group how many places are of it.
pub type Counts = BTreeMap<Group, usize>;

// How many places are of a group.
pub fn count_in(counts: &Counts, group: &Group) -> usize
    ensures { result ≡ unwrap_or (kept_for counts.now group.now) 0 }
{
    counts.get(group).copied().unwrap_or(0)
}

// How many places are of a group, where these are more than a plan may hold.
pub fn excess(counts: &Counts, group: &Group) -> Option<usize>
    ensures { MatchOption result (unwrap_or (kept_for counts.now group.now) 0 ≤ most_of group.now) (λ n. (n ≡ unwrap_or (kept_for counts.now group.now) 0) × (most_of group.now < n)) }
{
    let count = count_in(counts, group);
    if count <= most(group) {
        return None;
    }
    Some(count)
}

// One place more is of this group, if it is of one.
fn count_one(counts: &mut Counts, group: &Option<Group>) -> Result<(), AllocError>
    requires { (g : Group) → unwrap_or (kept_for counts.old g) 0 + 1 < 2 ^ 64 }
    ensures { OnOk result ((before : List (Option Group)) → AreCounts before counts.old → AreCounts (before ++ group.now ∷ []) counts.new) }
{
    let Some(group) = *group else {
        return Ok(());
    };
    let count = count_in(counts, &group);
    counts.insert(group, count + 1)?;
    Ok(())
}

// For each group how many places are of it.
pub fn counts_of(alloc: Global, groups: &[Option<Group>]) -> Result<Counts, AllocError>
    ensures { IfOk result (AreCounts groups.now) }
{
    let mut counts = BTreeMap::new(alloc);
    for place in 0..groups.len() {
        count_one(&mut counts, &groups[place])?;
    }
    Ok(counts)
}

// The last place of a group, if there was one; from now on this place is the last of its group.
fn relay(
    latest: &mut BTreeMap<Group, usize>,
    group: &Option<Group>,
    place: usize,
) -> Result<Option<usize>, AllocError>
    ensures was { IfOk result (λ last. (g : Group) → group.now ≡ Some g → last ≡ kept_for latest.old g) }
    ensures is { OnOk result ((groups : List (Option Group)) → slice_get groups place ≡ Some group.now → AreLast groups place latest.old → AreLast groups (place + 1) latest.new) }
{
    let Some(group) = *group else {
        return Ok(None);
    };
    let last = latest.get(&group).copied();
    latest.insert(group, place)?;
    Ok(last)
}

// For each place the last before it of the same group.
pub fn earlier_of(alloc: Global, groups: &[Option<Group>]) -> Result<Vec<Option<usize>>, AllocError>
    ensures size { IfOk result (λ v. length v.items ≡ length groups.now) }
    ensures earlier { IfOk result (λ v. AreEarlier groups.now v.items) }
{
    let mut latest = BTreeMap::new(alloc);
    let mut earlier = Vec::new(alloc);
    for (place, group) in groups.iter().enumerate() {
        let last = relay(&mut latest, group, place)?;
        earlier.extend_from_slice(&[last])?;
    }
    Ok(earlier)
}

// For each group the last place of it.
pub fn latest_of(alloc: Global, groups: &[Option<Group>]) -> Result<Counts, AllocError>
    ensures { IfOk result (AreLast groups.now (length groups.now)) }
{
    let mut latest = BTreeMap::new(alloc);
    for (place, group) in groups.iter().enumerate() {
        relay(&mut latest, group, place)?;
    }
    Ok(latest)
}

// The last place of a group, if there is one.
pub fn last_in(latest: &Counts, group: &Group) -> Option<usize>
    ensures { result ≡ kept_for latest.now group.now }
{
    latest.get(group).copied()
}
