//! The plan of the rows of its tables: from rows, in any order, to the sound plan in memory whose rows they are, or to none.
//! Every column is compared, those that follow from the others too.
#![tactic(auto)]

mod first;
mod lists;
mod opening;
mod restoring;
mod soundness;

pub use lists::are_these;
pub use opening::{OpenedPlan, plan_of_rows};
pub use plan_drafts::DraftParts;
pub use plan_rows::{
    CountedRecords, DerivedAfresh, LoadedParts, LoadedPlan, ReportedOperation, RowSource,
    SoundContents, UncountedContents, chosen_with, derived_afresh, given_out_of, holdings_in,
    occurrence_status_with, summaries_of,
};
pub use restoring::{contents_of_rows, meta_of_rows};
pub use soundness::judged;
