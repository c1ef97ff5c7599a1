//! What a forecast of a plan tells: how its occurrences and operations will go, and what never begins, and why.
#![tactic(auto)]

mod lacks;
mod laws;
mod lists;
mod longest;
mod occurrences;
mod operations;
mod overruns;
mod paths;
mod refs;
mod rows;
mod standstills;
mod telling;

pub use forecasting::KnownStarts;
pub use laws::each_has_reason;
pub use plan_reasons::{Beginning, OpView, Ops, Plan, Reason, put_reason};
pub use rows::{
    Cause, OccurrenceOutlook, OperationOutlook, Outlooks, PathMember, Standing, Standstill,
};
pub use telling::outlooks;
