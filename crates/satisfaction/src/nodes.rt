// What is kept of a node, and when a node is satisfied.

/// What is kept of a node: whether it is satisfied, and how many of its predecessors aren't.
#[derive(Clone, Copy)]
pub struct WaitState {
    pub satisfied: bool,
    pub waiting: usize,
}

/// When a node is satisfied: `given`, whatever precedes it (it is done or deleted); `passing`, once all its predecessors are
/// (it passes by itself). A node for which neither is so isn't satisfied.
#[derive(Clone, Copy)]
pub struct Rule {
    pub given: bool,
    pub passing: bool,
}
