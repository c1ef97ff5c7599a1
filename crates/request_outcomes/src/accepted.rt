// What a request that is accepted leads to.
use plan_basics::OpKey;
use plan_records::Changes;
use small_requests::{FigureChange, LoadedPlan, Revision};

/// What a small request writes into what a plan holds, and what changes in its figures. The graph and the latest starts
/// stay.
#[derive(Drop)]
pub struct Writing {
    /// The operations on which it sets a mark, if that is what it writes.
    pub keys: Vec<OpKey>,
    pub revision: Revision,
    /// With what is named marked so.
    pub figure_change: FigureChange,
}

/// What a request that is accepted makes of a plan.
#[derive(Drop)]
pub enum NextPlan {
    /// All of it anew.
    Whole(LoadedPlan),
    /// The plan with this written into it.
    Small(Writing),
}

/// What a request leads to that is accepted, before its moment and its looks are told.
#[derive(Drop)]
pub struct AcceptedOutcome {
    pub next: NextPlan,
    /// The operations that are named, in order.
    pub named: Vec<OpKey>,
    pub changes: Changes,
}
