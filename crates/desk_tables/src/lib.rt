//! The desk: a plan and the receipts of trackers, whose rows stand in the tables of a SQLite database, one transaction for
//! each request that is accepted.
//!
//! Requests are answered by the plan in memory (`plan_core`), those of trackers by their receipts first (`numbering`);
//! what a request changes is written before the plan and the receipts in memory take it, so that both agree after each
//! call. The store may be a file or lie in memory.
#![tactic(auto)]

mod again;
mod calls;
mod desk;
mod errors;
mod faults;
mod making;
mod numbering;
mod opening;
mod runs;
mod writing;

pub use again::{connect_again, open_again};
pub use desk::Desk;
pub use errors::{ErrorRow, ErrorRows};
pub use numbering::{NumberedOutcome, NumberedStep, prepare_numbered};
pub use plan_core::{OccView, Occs, OpView, Ops, Plan, Ready, answer_alone};
pub use plan_laws::{every_schedule, faults_leave_as_stops};
pub use runs::run_all;
