//! What a request sees of a plan: records of operations by one call, which counts, and all that stands beside them; and what it
//! writes into the plan, or takes out of a copy, for which no record is looked at.
#![tactic(auto)]

mod copies;
mod counted;
mod leaving;
mod markings;
mod rules;
mod summaries;
mod uncounted;
mod writing;

pub use copies::RecordCopy;
pub use counted::{CountedRecords, SeenOperation};
pub use leaving::is_one_of;
pub use plan_changes::{PlanContents, mark_all, set_held, set_nop};
pub use plan_status::{
    OperationSummary, SoundContents, Standing, ValidContents, attribute_of, count_one, graph_for,
    occurrence_status_with, standings_of, status_with, statuses_of, summaries_of,
};
pub use satisfaction::{WaitState, rerun, settle_up};
pub use uncounted::UncountedContents;
