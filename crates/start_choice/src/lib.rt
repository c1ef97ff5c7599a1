//! What is worked out of a whole plan on the way to what starts: latest starts, the ready list, what is given out, who holds what, and
//! the choice; and the numbers of its occurrences.
#![tactic(auto)]

mod choice;
mod holders;
mod latest;
mod ready;
mod shut;
mod taken;
mod tallies;

pub use choice::{Choice, chosen_with};
pub use counted_records::{
    CountedRecords, OperationSummary, RecordCopy, SeenOperation, SoundContents, Standing,
    UncountedContents, ValidContents, WaitState, attribute_of, count_one, graph_for, is_one_of,
    mark_all, occurrence_status_with, rerun, set_held, set_nop, settle_up, standings_of,
    status_with, statuses_of, summaries_of,
};
pub use holders::{holdings_in, holdings_of, take_marked};
pub use latest::latest_of;
pub use ready::{entry_at, entry_with, ready_of};
pub use taken::{check_start, given_out_of, starts_are_known, with_operation};
pub use tallies::tallies_of;
