//! All that is read off a plan and kept beside it, and how it moves with the plan: the figures of a loaded plan; which operations are
//! satisfied and how many predecessors each waits for; what workstations have given out and who holds special resources; standings,
//! statuses, the numbers of each occurrence's operations, and the ready list.
#![tactic(auto)]

mod afresh;
mod entries;
mod figures;
mod given;
mod held;
mod laws;
mod loaded;
mod outlines;
mod ready_changes;
mod standing_changes;
mod status_changes;
mod statuses;
mod takings;
mod tally_changes;
mod wait_states;
mod waiting;

pub use afresh::{DerivedAfresh, derived_afresh};
pub use entries::{entries_at, entries_by_summaries};
pub use figures::Figures;
pub use laws::naming_keeps_kept;
pub use loaded::{LoadedParts, LoadedPlan};
pub use outlines::{DerivedRefs, Outline, ReportedOperation};
pub use ready_changes::relist_all;
pub use standing_changes::update_standings;
pub use start_choice::{
    Choice, CountedRecords, OperationSummary, RecordCopy, SeenOperation, SoundContents, Standing,
    UncountedContents, ValidContents, attribute_of, check_start, chosen_with, given_out_of,
    graph_for, holdings_in, is_one_of, mark_all, occurrence_status_with, set_held, set_nop,
    standings_of, summaries_of,
};
pub use status_changes::{StatusBasis, set_statuses, update_statuses};
pub use statuses::{Statuses, statuses_of_records};
pub use takings::retake;
pub use wait_states::wait_states_of;
pub use waiting::{satisfy, unsatisfy};
