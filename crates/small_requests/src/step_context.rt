// What a request is tried with.
use operation_graph::Graph;
use plan_basics::Moment;
use plan_model::Latest;
use plan_rows::FacilityChange;
use ready_list::ReadyEntry;
use std::alloc::Global;

/// What a request is tried with, all of which stays as it is: where memory comes from, the graph of the plan's pairs, the latest start
/// of each operation, and the moment.
#[derive(Clone, Copy)]
pub struct StepContext<'a> {
    pub alloc: Global,
    pub graph: &'a Graph,
    pub latest: &'a Latest,
    pub at: Moment,
}

/// What an edit touched, as far as what is named then needs it.
#[derive(Clone, Copy)]
pub struct TouchedByEdit<'a> {
    /// The indices, ascending, of the operations.
    pub places: &'a [usize],
    /// Their entries.
    pub entries: &'a [ReadyEntry],
    /// What may differ beside operations.
    pub facilities: FacilityChange,
}
