//! The reports of a desk: what is ready on a workstation, all occurrences, the operations in error, those that are late,
//! and why one doesn't go on, each as lines of text; and the shows.
#![tactic(auto)]

mod late;
mod laws;
mod made;
mod reports;
mod rows;

pub use desk_tables::{Desk, Occs, Plan, Ready, answer_alone, open_again, run_all};
pub use laws::one_text;
pub use made::{
    errors_made, late_made, loaded_plan, occurrences_made, ready_made, show_made, why_made,
};
pub use plan_shows::{Show, health_text, operation_typed, started_text};
pub use reports::{
    ReportFault, error_report, late_report, occurrence_report, ready_report, show_report,
    why_report,
};
