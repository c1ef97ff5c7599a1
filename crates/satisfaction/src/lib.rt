//! Which nodes of a graph are satisfied, and how many predecessors each waits for: both kept through changes, by the cascades
//! that follow from them.
#![tactic(auto)]

mod clearing;
mod journal;
mod nodes;
mod rules;
mod settling;

pub use clearing::rerun;
pub use journal::{take_back, write};
pub use nodes::{Rule, WaitState};
pub use operation_graph::Graph;
pub use rules::Rules;
pub use settling::{settle, settle_up};
