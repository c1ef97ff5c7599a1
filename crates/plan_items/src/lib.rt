//! One record of a plan's text as a typed item.
//!
//! A plan's text is CSV. Each of its records has ten fields and says one item. Its first field is the letter of the
//! item's kind, the fields of the item follow, and those after them are empty:
//!
//! | Letter | Fields 2 and on |
//! |---|---|
//! | W | workstation, attribute (`A`, `S`, `C` or `N`) |
//! | I | workstation, first minute, end, servers, R1, R2 |
//! | X | special resource, `Y` or `N` (available), quantity or empty |
//! | O | application, input arrival, priority, deadline |
//! | P | application, input arrival, number, workstation, duration, R1, R2, not-before or empty, deadline or empty |
//! | D | predecessor: application, input arrival, number; successor: the same three |
//! | N | application, input arrival, number, special resource, `S` or `X` (mode), `K` or `F` (keep or free on error), amount or empty |
//!
//! Whole numbers are decimal digits without sign and without leading zeros, where `0` itself is one. Moments are
//! written `YYYY-MM-DDTHH:MM`. The notions are those of IBM OPC/ESA, Planning and Scheduling the Workload; the format
//! and the ranges are this project's own.
#![tactic(auto)]

ghost use Rattle.std.specs.Prelude.{◌↔◌, IsSome, IfSome};
ghost use Rattle.plan_items.specs.declared.Item.{Item};
ghost use Rattle.plan_items.specs.Parts.{IsReading};
ghost use Rattle.plan_items.specs.Items.{fields_of, Says, OneItem};

mod fields;
mod kinds;
mod letters;
mod numbers;
mod parts;

use fields::{field, letter_of};
use kinds::{
    read_dependency, read_interval_item, read_need_item, read_occurrence, read_operation,
    read_resource, read_workstation,
};
use plan_basics::{Attr, Interval, Moment, OccKey, OpKey, ResName, WsName};
pub use special_resources::{Mode, Need, Needs};

/// What one record of a plan's text says.
#[derive(Clone, Copy)]
pub enum Item {
    /// A workstation and its reporting attribute.
    Workstation {
        name: WsName,
        attribute: Attr,
    },
    /// An open interval of a workstation.
    Interval {
        workstation: WsName,
        interval: Interval,
    },
    /// A special resource, whether it is available, and how much of it there is, 1 to 999,999. An empty quantity means
    /// 999,999.
    Resource {
        name: ResName,
        available: bool,
        quantity: u32,
    },
    /// An occurrence, with its priority, 1 (low) to 9 (urgent), and its deadline.
    Occurrence {
        key: OccKey,
        priority: u8,
        deadline: Moment,
    },
    /// An operation of an occurrence.
    Operation(OperationItem),
    /// A dependency between two operations, of one occurrence or of two.
    Dependency {
        predecessor: OpKey,
        successor: OpKey,
    },
    /// An operation's need of a special resource. Its amount is 1 to 999,999 where it is shared, and an empty one means
    /// 1; it is empty where the need is exclusive, which takes the whole.
    Need {
        operation: OpKey,
        need: Need,
    },
}

/// An operation, as its record says it.
#[derive(Clone, Copy)]
pub struct OperationItem {
    /// Its occurrence, and its number there, 1 to 255.
    pub key: OpKey,
    /// The workstation that it runs on.
    pub workstation: WsName,
    /// How long it runs, in minutes: 1 to 5,999.
    pub duration: u16,
    /// Its need of the fixed resource R1, 0 to 99.
    pub r1: u8,
    /// Its need of the fixed resource R2, 0 to 99.
    pub r2: u8,
    /// The moment before which it doesn't start. An empty field means the first moment, which holds nothing back.
    pub not_before: Moment,
    /// Its own deadline. An empty field is `None`: the deadline of its occurrence is meant.
    // (The item keeps that none was written, since a record says its item whatever other records say.)
    pub deadline: Option<Moment>,
}

/// What a record with these fields says, or `None` if it says nothing: a field isn't of its form, a number or a
/// moment isn't in its range, or a field that isn't used isn't empty. No memory is taken.
///
/// The records, their fields and ranges are this project's own.
pub fn read_item(fields: &[Vec<u8>; 10]) -> Option<Item>
    ensures some { IsSome result ↔ ((item : Item) × Says (fields_of fields.now) item) }
    ensures value { IfSome result (λ item. Says (fields_of fields.now) item) }
{
    read_by_kind(fields)
}

// What a record says, by the letter of its kind.
fn read_by_kind(fields: &[Vec<u8>; 10]) -> Option<Item>
    ensures { IsReading (Says (fields_of fields.now)) result }
{
    match letter_of(field(fields, 0))? {
        b'W' => read_workstation(fields),
        b'I' => read_interval_item(fields),
        b'X' => read_resource(fields),
        b'O' => read_occurrence(fields),
        b'P' => read_operation(fields),
        b'D' => read_dependency(fields),
        b'N' => read_need_item(fields),
        _ => None,
    }
}

/// The law that a record says one item at most. It does nothing.
pub fn one_item()
    ensures { OneItem }
{}
