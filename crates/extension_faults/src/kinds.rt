// A fault of a record of an extension's text, beside the plan.

/// What is wrong with what a record says, beside the plan.
#[derive(Clone, Copy)]
pub enum Wrong {
    /// An occurrence is in the plan already, and stays there.
    There,
    /// The workstation of an operation isn't in the plan.
    NoWorkstation,
    /// The special resource of a need isn't in the plan.
    NoResource,
    /// A need is of more than there is of the special resource.
    BeyondQuantity,
    /// The predecessor of a dependency is neither of an occurrence that the text says nor in what stays of the plan.
    NoPredecessor,
    /// So it is with the successor.
    NoSuccessor,
    /// The predecessor, an operation of the plan, is deleted.
    Deleted,
    /// The successor, an operation of the plan, neither waits nor is ready.
    UnderWay,
}

/// A fault beside the plan, and the place of its record: how many records are before it.
#[derive(Clone, Copy)]
pub struct FaultBeside {
    pub place: usize,
    pub wrong: Wrong,
}
