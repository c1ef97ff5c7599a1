//! What stands in the way of a request: each line that it has to meet, in the order of their numbers.
#![tactic(auto)]

mod additions;
mod checks;
mod commands;
mod dependencies;
mod ends;
mod growth;
mod known;
mod reach;
mod under_way;

pub use additions::check_records;
pub use checks::{check_load, check_request};
pub use derived_figures::{
    Choice, CountedRecords, Figures, OperationSummary, Outline, RecordCopy, SoundContents,
    Standing, StatusBasis, UncountedContents, chosen_with, entries_at, entries_by_summaries,
    is_one_of, mark_all, relist_all, retake, satisfy, set_held, set_nop, set_statuses, unsatisfy,
    update_standings, update_statuses,
};
pub use reach::{keys_at, reached_keys};
pub use special_resources::Holdings;
