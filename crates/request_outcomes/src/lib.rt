//! What a request leads to in a plan, by its counted records, or where none is loaded. No part of this has a permit: the records are
//! handed in and handed back, so that each look counts.
#![tactic(auto)]

mod accepted;
mod dated_requests;
mod extending;
mod first;
mod graphs;
mod outcomes;
mod rebuilds;
mod rebuilt_parts;
mod remaining;
mod request_outcome;
mod requests;
mod telling;
mod whole;

pub use accepted::{AcceptedOutcome, NextPlan, Writing};
pub use dated_requests::DatedRequest;
pub use first::first_outcome;
pub use operation_graph::Graph;
pub use outcomes::outcome_of;
pub use rebuilds::{Rebuild, Rebuilt};
pub use rebuilt_parts::RebuiltParts;
pub use request_outcome::RequestOutcome;
pub use small_requests::{changed_figures, check_load, stepped};
