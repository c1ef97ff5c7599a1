// What a text is to add, and a fault of its record with its place.

use record_faults::Fault;

/// What a text is to be: an addition is of one occurrence, an extension of any number.
#[derive(Clone, Copy)]
pub enum AddedText {
    Addition,
    Extension,
}

/// What is wrong with a record of what is added.
#[derive(Clone, Copy)]
pub enum AddedFault {
    /// What may be wrong with a plan's record too.
    OfRecord(Fault),
    /// It says a workstation, an open interval or a special resource: none comes in.
    NotAdded,
    /// It says an occurrence, and the record at this place says one before it: an addition is of one.
    AnotherOccurrence(usize),
    /// It says a dependency of which neither end is in an occurrence that is added.
    Elsewhere,
}

/// A fault, and the place of its record: how many records are before it. That there is no occurrence stands after all.
#[derive(Clone, Copy)]
pub struct PlacedFault {
    pub place: usize,
    pub fault: AddedFault,
}
