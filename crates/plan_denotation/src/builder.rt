// From what a list of records says, the contents of the plan that it denotes.
ghost use Rattle.std.specs.Prelude.{◌≡◌, List, IfOk, MatchOption};
ghost use Rattle.std.specs.List.{AllZip, filter_map};
ghost use Rattle.plan_items.specs.declared.Item.{Item};
ghost use Rattle.plan_items.specs.Items.{Says};
ghost use Rattle.plan_drafts.specs.PlanGraphs.{IsGraphFor};
ghost use Rattle.plan_drafts.specs.Records.{records_of};
ghost use Rattle.plan_drafts.specs.PlanItems.{as_workstation, as_interval, as_occurrence, as_operation, as_pair, as_resource, as_need, CanBeLoaded, AreContentsOf};

use super::in_order::{occurrences_in_order, operations_in_order, pairs_in_order};
use super::intervals::workstations_in_order;
use super::needs::{amounts_fit, are_needs_in, needs_in_order, resources_in_order};
use plan_basics::{Attr, Interval, OccKey, OpKey, ResName, WsName};
use plan_drafts::{DraftParts, PlanContents, keys};
use plan_items::{Item, Need, OperationItem, read_item};
use plan_model::{Occurrence, Stock};
use std::alloc::{AllocError, Global};

/// The ten fields of one record of a plan's text.
pub type Record = [Vec<u8>; 10];

/// What each of these records says; `None` where one says nothing.
pub fn read_items(alloc: Global, records: &[Record]) -> Result<Option<Vec<Item>>, AllocError>
    ensures { IfOk result (λ found. MatchOption found ((items : List Item) → ¬ AllZip Says (records_of records.now) items) (λ v. AllZip Says (records_of records.now) v.items)) }
{
    let mut items = Vec::new(alloc);
    for record in records {
        let Some(item) = read_item(record) else {
            return Ok(None);
        };
        items.extend_from_slice(&[item])?;
    }
    Ok(Some(items))
}

fn workstation_of(item: &Item) -> Option<(WsName, Attr)>
    ensures { result ≡ as_workstation item.now }
{
    match *item {
        Item::Workstation { name, attribute } => Some((name, attribute)),
        _ => None,
    }
}

fn interval_of(item: &Item) -> Option<(WsName, Interval)>
    ensures { result ≡ as_interval item.now }
{
    match *item {
        Item::Interval {
            workstation,
            interval,
        } => Some((workstation, interval)),
        _ => None,
    }
}

fn occurrence_of(item: &Item) -> Option<(OccKey, Occurrence)>
    ensures { result ≡ as_occurrence item.now }
{
    match *item {
        Item::Occurrence {
            key,
            priority,
            deadline,
        } => Some((key, Occurrence { priority, deadline })),
        _ => None,
    }
}

fn operation_of(item: &Item) -> Option<OperationItem>
    ensures { result ≡ as_operation item.now }
{
    match *item {
        Item::Operation(operation) => Some(operation),
        _ => None,
    }
}

fn pair_of(item: &Item) -> Option<(OpKey, OpKey)>
    ensures { result ≡ as_pair item.now }
{
    match *item {
        Item::Dependency {
            predecessor,
            successor,
        } => Some((predecessor, successor)),
        _ => None,
    }
}

fn resource_of(item: &Item) -> Option<(ResName, Stock)>
    ensures { result ≡ as_resource item.now }
{
    match *item {
        Item::Resource {
            name,
            available,
            quantity,
        } => Some((
            name,
            Stock {
                available,
                quantity,
            },
        )),
        _ => None,
    }
}

fn need_of(item: &Item) -> Option<(OpKey, Need)>
    ensures { result ≡ as_need item.now }
{
    match *item {
        Item::Need { operation, need } => Some((operation, need)),
        _ => None,
    }
}

fn workstations(alloc: Global, items: &[Item]) -> Result<Vec<(WsName, Attr)>, AllocError>
    ensures { IfOk result (λ v. v.items ≡ filter_map as_workstation items.now) }
{
    items.iter().filter_map(workstation_of).collect(alloc)
}

fn intervals(alloc: Global, items: &[Item]) -> Result<Vec<(WsName, Interval)>, AllocError>
    ensures { IfOk result (λ v. v.items ≡ filter_map as_interval items.now) }
{
    items.iter().filter_map(interval_of).collect(alloc)
}

// What the items say of occurrences.
pub fn occurrences(alloc: Global, items: &[Item]) -> Result<Vec<(OccKey, Occurrence)>, AllocError>
    ensures { IfOk result (λ v. v.items ≡ filter_map as_occurrence items.now) }
{
    items.iter().filter_map(occurrence_of).collect(alloc)
}

// What the items say of operations.
pub fn operations(alloc: Global, items: &[Item]) -> Result<Vec<OperationItem>, AllocError>
    ensures { IfOk result (λ v. v.items ≡ filter_map as_operation items.now) }
{
    items.iter().filter_map(operation_of).collect(alloc)
}

// What the items say of pairs.
pub fn pairs(alloc: Global, items: &[Item]) -> Result<Vec<(OpKey, OpKey)>, AllocError>
    ensures { IfOk result (λ v. v.items ≡ filter_map as_pair items.now) }
{
    items.iter().filter_map(pair_of).collect(alloc)
}

fn resources(alloc: Global, items: &[Item]) -> Result<Vec<(ResName, Stock)>, AllocError>
    ensures { IfOk result (λ v. v.items ≡ filter_map as_resource items.now) }
{
    items.iter().filter_map(resource_of).collect(alloc)
}

// What the items say of needs.
pub fn needs(alloc: Global, items: &[Item]) -> Result<Vec<(OpKey, Need)>, AllocError>
    ensures { IfOk result (λ v. v.items ≡ filter_map as_need items.now) }
{
    items.iter().filter_map(need_of).collect(alloc)
}

/// The contents of the plan whose items these are, with their graph; `None` where they are those of no plan.
pub fn parts_of_plan(alloc: Global, items: &[Item]) -> Result<Option<DraftParts>, AllocError>
    ensures { IfOk result (λ found. MatchOption found (¬ CanBeLoaded items.now) (λ p. AreContentsOf items.now p.contents × IsGraphFor p.contents p.graph)) }
{
    let intervals = intervals(alloc, items)?;
    let Some(workstations) = workstations_in_order(alloc, workstations(alloc, items)?, &intervals)?
    else {
        return Ok(None);
    };
    let Some(resources) = resources_in_order(resources(alloc, items)?)? else {
        return Ok(None);
    };
    let Some(occurrences) = occurrences_in_order(occurrences(alloc, items)?)? else {
        return Ok(None);
    };
    let Some(needs) = needs_in_order(needs(alloc, items)?)? else {
        return Ok(None);
    };
    let said = operations(alloc, items)?;
    let Some(operations) = operations_in_order(alloc, &workstations, &occurrences, &needs, said)?
    else {
        return Ok(None);
    };
    let keys = keys(alloc, &operations)?;
    if !are_needs_in(&keys, &resources, &needs) {
        return Ok(None);
    }
    if !amounts_fit(&resources, &needs) {
        return Ok(None);
    }
    let Some(joined) = pairs_in_order(alloc, &keys, pairs(alloc, items)?)? else {
        return Ok(None);
    };
    let (pairs, graph) = joined;
    let contents = PlanContents::of_rows(workstations, resources, occurrences, operations, pairs);
    Ok(Some(DraftParts { contents, graph }))
}
