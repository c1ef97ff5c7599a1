// What rows say as items of a text, and which items are in range.
ghost use Rattle.std.specs.Prelude.{◌≡◌, ◌↔◌, All, IsTrue, IfOk, Some};
ghost use Rattle.std.specs.List.{filter_map};
ghost use Rattle.std.specs.List.Sorted.{IsStrictlySortedBy};
ghost use Rattle.std.specs.Map.{keys_of};
ghost use Rattle.plan_basics.specs.Keys.{name_cmp, IsOccurrenceKey, IsOperationKey};
ghost use Rattle.plan_drafts.specs.PlanItems.{need_cmp};
ghost use Rattle.plan_items.specs.Items.{IsItem, IsOperationItem};
ghost use Rattle.plan_items.specs.declared.Item.TheVariants as item;
ghost use Rattle.plan_records.specs.declared.PlanRow.TheVariants as plan_row;
ghost use Rattle.special_resources.specs.Holders.{IsAmount};
ghost use Rattle.plan_opening.specs.Restoring.{as_item, operation_item, AreSaid};

use super::said::{Said, amount_by, quantity_by};
use plan_basics::limits::{
    HIGHEST_PRIORITY, LEAST_NUMBER, LONGEST_DURATION, LOWEST_PRIORITY, MOST_FIXED, MOST_QUANTITY,
    SHORTEST_DURATION,
};
use plan_basics::{Moment, OccKey, OpKey, ResName};
use plan_items::{Item, OperationItem};
use plan_records::{OperationRow, PlanRow};
use special_resources::{Mode, Need};
use std::alloc::{AllocError, Global};

// What the row of an operation says was planned of it.
fn operation_of(row: &OperationRow) -> OperationItem
    ensures { result ≡ operation_item row.now }
{
    OperationItem {
        key: row.op,
        workstation: row.ws,
        duration: row.duration,
        r1: row.r1,
        r2: row.r2,
        not_before: row.not_before,
        deadline: Some(row.deadline),
    }
}

// What the row of a special resource says, by these quantities.
fn resource_of(said: &Said, name: ResName, available: bool) -> Item
    requires { IsStrictlySortedBy name_cmp (keys_of said.now.quantities.items) }
    ensures { Some result ≡ as_item said.now (plan_row.Resource name available) }
{
    let quantity = quantity_by(&said.quantities, &name);
    Item::Resource {
        name,
        available,
        quantity,
    }
}

// What the row of an occurrence says.
fn occurrence_of(key: OccKey, priority: u8, deadline: Moment) -> Item
    ensures { result ≡ item.Occurrence key priority deadline }
{
    Item::Occurrence {
        key,
        priority,
        deadline,
    }
}

// What the row of a need says, by these amounts.
fn need_of(said: &Said, operation: OpKey, name: ResName, mode: Mode, keep: bool) -> Item
    requires { IsStrictlySortedBy need_cmp (keys_of said.now.amounts.items) }
    ensures { Some result ≡ as_item said.now (plan_row.Need operation name mode keep) }
{
    let amount = amount_by(&said.amounts, &operation, &name, mode);
    let need = Need {
        name,
        mode,
        amount,
        keep,
    };
    Item::Need { operation, need }
}

// What a row says, by these quantities and amounts; `None` for that of the plan itself, of a quantity or of an amount.
fn item_of(said: &Said, row: &PlanRow) -> Option<Item>
    requires quantities { IsStrictlySortedBy name_cmp (keys_of said.now.quantities.items) }
    requires amounts { IsStrictlySortedBy need_cmp (keys_of said.now.amounts.items) }
    ensures { result ≡ as_item said.now row.now }
{
    match *row {
        PlanRow::Meta { .. } | PlanRow::Quantity { .. } | PlanRow::Amount { .. } => None,
        PlanRow::Workstation { name, attr } => Some(Item::Workstation {
            name,
            attribute: attr,
        }),
        PlanRow::Interval { ws, interval } => Some(Item::Interval {
            workstation: ws,
            interval,
        }),
        PlanRow::Resource { name, available } => Some(resource_of(said, name, available)),
        PlanRow::Occurrence {
            occurrence,
            priority,
            deadline,
            ..
        } => Some(occurrence_of(occurrence, priority, deadline)),
        PlanRow::Operation(ref row) => Some(Item::Operation(operation_of(row))),
        PlanRow::Dependency {
            predecessor,
            successor,
        } => Some(Item::Dependency {
            predecessor,
            successor,
        }),
        PlanRow::Need {
            op,
            resource,
            mode,
            keep,
        } => Some(need_of(said, op, resource, mode, keep)),
    }
}

// What the rows say, by the quantities and amounts among them.
pub fn items_of(alloc: Global, said: &Said, rows: &[PlanRow]) -> Result<Vec<Item>, AllocError>
    requires { AreSaid rows.now said.now }
    ensures { IfOk result (λ v. v.items ≡ filter_map (as_item said.now) rows.now) }
{
    rows.iter()
        .filter_map(
            |row|
                requires quantities { IsStrictlySortedBy name_cmp (keys_of said.now.quantities.items) }
                requires amounts { IsStrictlySortedBy need_cmp (keys_of said.now.amounts.items) }
            { item_of(said, row) },
        )
        .collect(alloc)
}

// The key is looked at for the proof alone, which learns that it is legal.
fn read_for_proof(key: &OccKey)
    ensures { IsOccurrenceKey key.now }
{
    let _ = key.app.as_bytes();
    let _ = key.arrival.minute();
}

// Whether a key may be that of an operation of a plan.
fn is_key_in_range(key: &OpKey) -> bool
    ensures { IsTrue result ↔ IsOperationKey key.now }
{
    read_for_proof(&key.occurrence);
    key.number >= LEAST_NUMBER
}

// Whether the numbers of an operation may be those of one of a plan.
fn is_operation_in_range(operation: &OperationItem) -> bool
    ensures { IsTrue result ↔ IsOperationItem operation.now }
{
    let _ = operation.workstation.as_bytes();
    let _ = operation.not_before.minute();
    if let Some(deadline) = operation.deadline {
        let _ = deadline.minute();
    }
    is_key_in_range(&operation.key)
        && (SHORTEST_DURATION..=LONGEST_DURATION).contains(&operation.duration)
        && operation.r1 <= MOST_FIXED
        && operation.r2 <= MOST_FIXED
}

// Whether a need of this mode may be of this amount.
fn is_amount(mode: Mode, amount: u32) -> bool
    ensures { IsTrue result ↔ IsAmount mode amount }
{
    match mode {
        Mode::Exclusive => amount == 0,
        Mode::Shared => (1..=MOST_QUANTITY).contains(&amount),
    }
}

// Whether the parts of an item are in range. Names, moments and intervals always are; they are looked at for the proof
// alone, which learns that they are legal.
fn is_in_range(item: &Item) -> bool
    ensures { IsTrue result ↔ IsItem item.now }
{
    match item {
        Item::Workstation { name, .. } => {
            let _ = name.as_bytes();
            true
        }
        Item::Interval {
            workstation,
            interval,
        } => {
            let _ = workstation.as_bytes();
            let _ = interval.from();
            true
        }
        Item::Resource { name, quantity, .. } => {
            let _ = name.as_bytes();
            (1..=MOST_QUANTITY).contains(quantity)
        }
        Item::Occurrence {
            key,
            priority,
            deadline,
        } => {
            read_for_proof(key);
            let _ = deadline.minute();
            (LOWEST_PRIORITY..=HIGHEST_PRIORITY).contains(priority)
        }
        Item::Operation(operation) => is_operation_in_range(operation),
        Item::Dependency {
            predecessor,
            successor,
        } => is_key_in_range(predecessor) && is_key_in_range(successor),
        Item::Need { operation, need } => {
            let _ = need.name.as_bytes();
            is_key_in_range(operation) && is_amount(need.mode, need.amount)
        }
    }
}

// Whether the parts of all items are.
pub fn are_in_range(items: &[Item]) -> bool
    ensures { IsTrue result ↔ All IsItem items.now }
{
    items.iter().all(is_in_range)
}
