//! What a small request leads to: one by which only marks and flags change, which special resources are available, or when
//! workstations are open. It is written into the records of the plan, what follows is worked out and noted there, and then all is
//! put back. What is kept of the plan moves with it, from the operations that the request edits and those that are named, and is
//! put back too. And laws: what stays where no more than that changes, and that what is looked at is within what is allowed.
#![tactic(auto)]

mod column_moves;
mod columns;
mod edited_places;
mod edits;
mod figure_changes;
mod groundwork;
mod laws;
mod moved_steps;
mod named_steps;
mod naming_afresh;
mod naming_effects;
mod namings;
mod operation_places;
mod places;
mod request_revisions;
mod revisions;
mod snapshots;
mod statuses;
mod step_context;
mod step_notes;
mod steps;
mod trials;
mod values;
mod wait_changes;
mod writing;

pub use edited_places::is_small;
pub use edits::Edit;
pub use figure_changes::{FigureChange, changed_figures};
pub use laws::{
    edits_lead_on, frame_stays, naming_moves, small_requests_move, small_steps_look_few,
    whole_plans_look_few,
};
pub use named_steps::SmallStep;
pub use naming_afresh::{NamedAfresh, name_afresh};
pub use plan_checks::{
    CountedRecords, Figures, Outline, RecordCopy, UncountedContents, check_load, check_records,
    check_request, is_one_of,
};
pub use plan_rows::{
    DerivedAfresh, DerivedRefs, LoadedPlan, PlanBefore, SourceColumns, TableSource, changed_rows,
    changes_between, columns_of, derived_afresh, noted_changes, rows_of,
};
pub use revisions::Revision;
pub use step_context::StepContext;
pub use trials::small_trial;
pub use writing::stepped;
