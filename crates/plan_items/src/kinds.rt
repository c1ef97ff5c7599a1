// The readers of the seven kinds of record. The first field is known to be the kind's letter.
ghost use Rattle.std.specs.Prelude.{◌≡◌, [], slice_index_or, codes};
ghost use Rattle.plan_items.specs.Parts.{IsReading};
ghost use Rattle.plan_items.specs.Items.{fields_of, Says};

use super::fields::{are_empty_from, field};
use super::letters::{read_attribute, read_available};
use super::numbers::{short_number_within, small_number_within};
use super::parts::{
    read_deadline, read_interval, read_moment, read_need, read_not_before, read_occurrence_key,
    read_operation_key, read_quantity,
};
use super::{Item, OperationItem};
use plan_basics::limits::{
    HIGHEST_PRIORITY, LONGEST_DURATION, LOWEST_PRIORITY, MOST_FIXED, SHORTEST_DURATION,
};
use plan_basics::{ResName, WsName};

// A workstation: its name and its attribute.
pub fn read_workstation(fields: &[Vec<u8>; 10]) -> Option<Item>
    requires { slice_index_or (fields_of fields.now) 0 [] ≡ codes "W" }
    ensures { IsReading (Says (fields_of fields.now)) result }
{
    if !are_empty_from(fields, 3) {
        return None;
    }
    let name = WsName::from_text(field(fields, 1))?;
    let attribute = read_attribute(field(fields, 2))?;
    Some(Item::Workstation { name, attribute })
}

// An open interval: its workstation, first minute, end, servers and fixed resources.
pub fn read_interval_item(fields: &[Vec<u8>; 10]) -> Option<Item>
    requires { slice_index_or (fields_of fields.now) 0 [] ≡ codes "I" }
    ensures { IsReading (Says (fields_of fields.now)) result }
{
    if !are_empty_from(fields, 7) {
        return None;
    }
    let workstation = WsName::from_text(field(fields, 1))?;
    let interval = read_interval(
        field(fields, 2),
        field(fields, 3),
        field(fields, 4),
        field(fields, 5),
        field(fields, 6),
    )?;
    Some(Item::Interval {
        workstation,
        interval,
    })
}

// A special resource: its name, whether it is available, and its quantity.
pub fn read_resource(fields: &[Vec<u8>; 10]) -> Option<Item>
    requires { slice_index_or (fields_of fields.now) 0 [] ≡ codes "X" }
    ensures { IsReading (Says (fields_of fields.now)) result }
{
    if !are_empty_from(fields, 4) {
        return None;
    }
    let name = ResName::from_text(field(fields, 1))?;
    let available = read_available(field(fields, 2))?;
    let quantity = read_quantity(field(fields, 3))?;
    Some(Item::Resource {
        name,
        available,
        quantity,
    })
}

// An occurrence: its key, priority and deadline.
pub fn read_occurrence(fields: &[Vec<u8>; 10]) -> Option<Item>
    requires { slice_index_or (fields_of fields.now) 0 [] ≡ codes "O" }
    ensures { IsReading (Says (fields_of fields.now)) result }
{
    if !are_empty_from(fields, 5) {
        return None;
    }
    let key = read_occurrence_key(field(fields, 1), field(fields, 2))?;
    let priority = small_number_within(field(fields, 3), LOWEST_PRIORITY, HIGHEST_PRIORITY)?;
    let deadline = read_moment(field(fields, 4))?;
    Some(Item::Occurrence {
        key,
        priority,
        deadline,
    })
}

// An operation: its key, workstation, duration, fixed resources, not-before and deadline.
pub fn read_operation(fields: &[Vec<u8>; 10]) -> Option<Item>
    requires { slice_index_or (fields_of fields.now) 0 [] ≡ codes "P" }
    ensures { IsReading (Says (fields_of fields.now)) result }
{
    let key = read_operation_key(field(fields, 1), field(fields, 2), field(fields, 3))?;
    let workstation = WsName::from_text(field(fields, 4))?;
    let duration = short_number_within(field(fields, 5), SHORTEST_DURATION, LONGEST_DURATION)?;
    let r1 = small_number_within(field(fields, 6), 0, MOST_FIXED)?;
    let r2 = small_number_within(field(fields, 7), 0, MOST_FIXED)?;
    let not_before = read_not_before(field(fields, 8))?;
    let deadline = read_deadline(field(fields, 9))?;
    Some(Item::Operation(OperationItem {
        key,
        workstation,
        duration,
        r1,
        r2,
        not_before,
        deadline,
    }))
}

// A dependency: the key of the predecessor, then that of the successor.
pub fn read_dependency(fields: &[Vec<u8>; 10]) -> Option<Item>
    requires { slice_index_or (fields_of fields.now) 0 [] ≡ codes "D" }
    ensures { IsReading (Says (fields_of fields.now)) result }
{
    if !are_empty_from(fields, 7) {
        return None;
    }
    let predecessor = read_operation_key(field(fields, 1), field(fields, 2), field(fields, 3))?;
    let successor = read_operation_key(field(fields, 4), field(fields, 5), field(fields, 6))?;
    Some(Item::Dependency {
        predecessor,
        successor,
    })
}

// A need of a special resource: the operation's key, then the need.
pub fn read_need_item(fields: &[Vec<u8>; 10]) -> Option<Item>
    requires { slice_index_or (fields_of fields.now) 0 [] ≡ codes "N" }
    ensures { IsReading (Says (fields_of fields.now)) result }
{
    if !are_empty_from(fields, 8) {
        return None;
    }
    let operation = read_operation_key(field(fields, 1), field(fields, 2), field(fields, 3))?;
    let need = read_need(
        field(fields, 4),
        field(fields, 5),
        field(fields, 6),
        field(fields, 7),
    )?;
    Some(Item::Need { operation, need })
}
