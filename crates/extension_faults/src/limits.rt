// The limits of a plan that an extension's records break, with what stays of the plan.
ghost use Rattle.std.specs.Prelude.{◌≡◌, ◌↔◌, ◌⊎◌, ◌+◌, ◌<◌, ◌^◌, true, if◌then◌else◌, Contains, IfOk, OnOk, Some, length, option_map};
ghost use Rattle.std.specs.FinMap.{contains_key};
ghost use Rattle.plan_drafts.specs.plan_model.specs.Contents.{IsInPlan};
ghost use Rattle.record_faults.specs.Groups.{count_of, group_of, grouped, is_of, IsLastIfAny};
ghost use Rattle.record_faults.specs.declared.faults.RecordFault.{RecordFault};
ghost use Rattle.extension_faults.specs.Beside.{OperationStays, Stays};
ghost use Rattle.extension_faults.specs.Limits.{AreExcesses, IsExcess, IsNumberOf};
ghost use Rattle.extension_faults.specs.Whole.{AreAll, StaysThere};

use super::looks::{operation_stays, stays};
use super::staying::{keep, pairs_staying};
use plan_basics::{OccKey, OpKey};
use plan_drafts::keys;
use plan_items::Item;
use plan_reasons::Plan;
use record_faults::{Fault, Group, RecordFault, most};
use std::alloc::{AllocError, Global};

// The group of an item.
fn of_item(item: &Item) -> Group
    ensures { result ≡ group_of item.now }
{
    match *item {
        Item::Workstation { .. } => Group::Workstations,
        Item::Interval { workstation, .. } => Group::IntervalsOf(workstation),
        Item::Resource { .. } => Group::Resources,
        Item::Occurrence { .. } => Group::Occurrences,
        Item::Operation(_) => Group::Operations,
        Item::Dependency { .. } => Group::Dependencies,
        Item::Need { operation, .. } => Group::NeedsOf(operation),
    }
}

// Whether what is said is of the group.
fn is_of(said: &Option<Item>, group: &Group) -> bool
    ensures { result ≡ is_of group.now (option_map group_of said.now) }
{
    match said {
        Some(item) => of_item(item).cmp(group).is_eq(),
        None => false,
    }
}

// One where it is so.
fn one_if(is: bool) -> usize
    ensures { result ≡ (if is then 1 else 0) }
{
    if is { 1 } else { 0 }
}

// How many records are of the group.
fn count_of(said: &[Option<Item>], group: &Group) -> usize
    ensures { result ≡ count_of group.now (grouped said.now) }
{
    let mut count = 0;
    for place in 0..said.len() {
        count += one_if(is_of(&said[place], group));
    }
    count
}

// The place, where it is so; the one that was known before, where it isn't.
fn later(last: Option<usize>, is: bool, place: usize) -> Option<usize>
    ensures { result ≡ (if is then Some place else last) }
{
    if is { Some(place) } else { last }
}

// The last record of the group, if one is of it.
fn last_of(said: &[Option<Item>], group: &Group) -> Option<usize>
    ensures { IsLastIfAny (grouped said.now) (length said.now) group.now result }
{
    let mut last = None;
    for place in 0..said.len() {
        last = later(last, is_of(&said[place], group), place);
    }
    last
}

// The fault of the last record of a group goes to the end, where so many that stay and those that are said are more than a
// plan may hold.
fn limit_told(
    faults: &mut Vec<RecordFault>,
    said: &[Option<Item>],
    group: &Group,
    staying: usize,
) -> Result<(), AllocError>
    requires { staying + length said.now < 2 ^ 64 }
    ensures { OnOk result ((f : RecordFault) → Contains faults.new.items f ↔ (Contains faults.old.items f ⊎ IsExcess said.now group.now staying f)) }
{
    let count = staying + count_of(said, group);
    let Some(place) = last_of(said, group) else {
        return Ok(());
    };
    let most = most(group);
    if count <= most {
        return Ok(());
    }
    let fault = Fault::TooMany(*group, count);
    faults.extend_from_slice(&[RecordFault { place, fault }])?;
    Ok(())
}

// The keys of the plan's occurrences.
fn occurrence_keys(alloc: Global, plan: &Plan) -> Result<Vec<OccKey>, AllocError>
    ensures { IfOk result (λ v. AreAll (λ c. contains_key plan.now.plan.contents.occurrences c ≡ true) v.items) }
{
    let Some(loaded) = plan.loaded() else {
        return Ok(Vec::new(alloc));
    };
    let keys = keys(alloc, loaded.contents().occurrences())?;
    Ok(keys)
}

// Those of these occurrences that stay.
fn occurrences_among(alloc: Global, plan: &Plan, keys: &[OccKey]) -> Result<Vec<OccKey>, AllocError>
    requires { AreAll (λ c. contains_key plan.now.plan.contents.occurrences c ≡ true) keys.now }
    ensures { IfOk result (λ v. AreAll (Stays plan.now.plan.contents) v.items) }
{
    let mut staying = Vec::new(alloc);
    for place in 0..keys.len() {
        let key = keys[place];
        keep(&mut staying, key, stays(plan, &key))?;
    }
    Ok(staying)
}

// How many occurrences of the plan stay.
fn occurrences_staying(alloc: Global, plan: &Plan) -> Result<usize, AllocError>
    ensures number { IfOk result (λ n. IsNumberOf (Stays plan.now.plan.contents) n) }
    ensures small { IfOk result (λ n. n < 2 ^ 63) }
{
    let keys = occurrence_keys(alloc, plan)?;
    let staying = occurrences_among(alloc, plan, &keys)?;
    Ok(staying.len())
}

// The keys of the plan's operations.
fn operation_keys(alloc: Global, plan: &Plan) -> Result<Vec<OpKey>, AllocError>
    ensures { IfOk result (λ v. AreAll (IsInPlan plan.now.plan.contents) v.items) }
{
    let Some(loaded) = plan.loaded() else {
        return Ok(Vec::new(alloc));
    };
    let keys = keys(alloc, loaded.contents().operations())?;
    Ok(keys)
}

// Those of these operations that stay.
fn operations_among(alloc: Global, plan: &Plan, keys: &[OpKey]) -> Result<Vec<OpKey>, AllocError>
    requires { AreAll (IsInPlan plan.now.plan.contents) keys.now }
    ensures { IfOk result (λ v. AreAll (OperationStays plan.now.plan.contents) v.items) }
{
    let mut staying = Vec::new(alloc);
    for place in 0..keys.len() {
        let key = keys[place];
        keep(&mut staying, key, operation_stays(plan, &key))?;
    }
    Ok(staying)
}

// How many operations of the plan stay.
fn operations_staying(alloc: Global, plan: &Plan) -> Result<usize, AllocError>
    ensures number { IfOk result (λ n. IsNumberOf (OperationStays plan.now.plan.contents) n) }
    ensures small { IfOk result (λ n. n < 2 ^ 63) }
{
    let keys = operation_keys(alloc, plan)?;
    let staying = operations_among(alloc, plan, &keys)?;
    Ok(staying.len())
}

// How many pairs of the plan stay.
fn pairs_counted(alloc: Global, plan: &Plan) -> Result<usize, AllocError>
    ensures number { IfOk result (λ n. IsNumberOf (StaysThere plan.now.plan.contents) n) }
    ensures small { IfOk result (λ n. n < 2 ^ 63) }
{
    let staying = pairs_staying(alloc, plan)?;
    Ok(staying.len())
}

/// The limits that the records break: of occurrences, of operations and of pairs. Each is told at the last record of its
/// kind, with how many of it there are. It fails for want of memory only.
pub fn limits_told(
    alloc: Global,
    plan: &Plan,
    said: &[Option<Item>],
) -> Result<Vec<RecordFault>, AllocError>
    requires { length said.now < 2 ^ 63 }
    ensures { IfOk result (λ v. AreExcesses plan.now.plan.contents said.now v.items) }
{
    let occurrences = occurrences_staying(alloc, plan)?;
    let operations = operations_staying(alloc, plan)?;
    let pairs = pairs_counted(alloc, plan)?;
    let mut faults = Vec::new(alloc);
    limit_told(&mut faults, said, &Group::Occurrences, occurrences)?;
    limit_told(&mut faults, said, &Group::Operations, operations)?;
    limit_told(&mut faults, said, &Group::Dependencies, pairs)?;
    Ok(faults)
}
