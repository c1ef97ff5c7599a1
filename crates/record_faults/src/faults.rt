// A fault, and its place.

use super::groups::Group;
use super::kinds::Shape;
use plan_drafts::RowKey;

/// What is wrong with a record.
#[derive(Clone, Copy, PartialEq, Eq)]
pub enum Fault {
    /// It says nothing.
    Shape(Shape),
    /// What it says has a key that was given before, first by the record at this place.
    Repeated(RowKey, usize),
    /// It names what no record defines.
    Undefined(RowKey),
    /// It says an occurrence of which no record says an operation.
    NoOperation,
    /// It says an interval that overlaps another of the same workstation, which the record at this place says.
    Overlaps(usize),
    /// It says a need of more than there is of its resource, which the record at this place says first.
    BeyondStock(usize),
    /// It is the first of its group, of which there are so many: more than a plan may hold.
    TooMany(Group, usize),
    /// There is none of this group, of which a plan has at least one. It stands after all records.
    Missing(Group),
    /// It says a dependency that closes a path which returns to its start. Told where there is no other fault.
    Returns,
}

/// A fault, and the place of its record: how many records are before it.
#[derive(Clone, Copy)]
pub struct RecordFault {
    pub place: usize,
    pub fault: Fault,
}
