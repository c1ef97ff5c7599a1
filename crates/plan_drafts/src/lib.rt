//! What a plan holds, in key order; a plan to be loaded, an addition to one and an extension of it, as texts denote them.
//! The graph of operations by their pairs.
#![tactic(auto)]

ghost use Rattle.std.specs.Prelude.{◌≡◌};
ghost use Rattle.plan_drafts.specs.RowKeys.{row_cmp};

mod contents;
mod drafts;
mod found;
mod graphs;
mod hints;
mod key_order;
mod places;

pub use contents::{ExtensionParts, PlanContents, copies_of};
pub use drafts::{Addition, DraftParts, Extension, PlanDraft};
pub use graphs::{graph_among, graph_of};
pub use key_order::{ExactKey, keys};
pub use places::{row_place, workstation_place};
use plan_basics::{Moment, OccKey, OpKey, ResName, WsName};
pub use plan_items::{Mode, Need};
pub use plan_model::{Mark, Marking, OccStatus, Occurrence, OperationRecord, Status};
use std::cmp::Ordering;

/// A row's key columns. Ordered by table, in the order of the variants, then by the columns.
#[derive(Clone, Copy, PartialEq, Eq, PartialOrd, Ord)]
pub enum RowKey {
    Meta,
    Workstation(WsName),
    Interval(WsName, Moment),
    Resource(ResName),
    Occurrence(OccKey),
    Operation(OpKey),
    Dependency(OpKey, OpKey),
    Need(OpKey, ResName),
    Quantity(ResName),
    Amount(OpKey, ResName),
}

impl RowKey {
    /// How two keys are ordered: by table, then by the key columns.
    pub fn order(&self, other: &RowKey) -> Ordering
        ensures { result ≡ row_cmp self.now other.now }
    {
        self.cmp(other)
    }
}
