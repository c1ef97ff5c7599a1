// Changes of marks and flags of some operations, by which all else stays.

ghost use Rattle.std.specs.Prelude.{◌≡◌};
ghost use Rattle.plan_model.specs.Markings.{marking_of, with_marking};

use crate::OperationRecord;
use status_rules::Mark;

/// What a request may change of an operation.
#[derive(Clone, Copy)]
pub struct Marking {
    /// What was reported of it.
    pub mark: Mark,
    /// An operator holds it.
    pub held: bool,
    /// It is a no-operation.
    pub nop: bool,
}

impl Marking {
    /// That of an operation.
    pub fn of(operation: &OperationRecord) -> Marking
        ensures { result ≡ marking_of operation.now }
    {
        Marking {
            mark: operation.mark,
            held: operation.held,
            nop: operation.nop,
        }
    }

    /// The operation with this marking in place of its own.
    pub fn put_on(&self, operation: &OperationRecord) -> OperationRecord
        ensures { result ≡ with_marking self.now operation.now }
    {
        OperationRecord {
            mark: self.mark,
            held: self.held,
            nop: self.nop,
            ..*operation
        }
    }
}
