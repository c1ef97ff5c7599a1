//! What is read off a loaded plan for its operations and occurrences: their graph, which predecessors they wait for, and
//! their statuses.
#![tactic(auto)]

ghost use Rattle.plan_status.specs.Standings.{NamingKeepsStandings};

mod graphs;
mod sound;
mod standings;
mod statuses;
mod summaries;
mod tallies;
mod valid;

pub use graphs::graph_for;
pub use plan_model::{Marking, Occurrence, OperationRecord, Stock, Workstation};
pub use sound::SoundContents;
pub use standings::{Standing, attribute_near, attribute_of, standings_of};
pub use status_rules::Mark;
pub use statuses::{status_with, statuses_of};
pub use summaries::{OperationSummary, summaries_of, summary_of};
pub use tallies::{count_one, occurrence_status_with};
pub use valid::ValidContents;

/// The law that to name operations that are ready changes nothing of what any operation waits for. It does nothing.
pub fn naming_keeps_standings()
    ensures { NamingKeepsStandings }
{}
