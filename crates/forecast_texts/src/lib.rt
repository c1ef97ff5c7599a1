//! The text of a forecast: how the occurrences and operations of a plan will go, what never begins, what waits for a report, and
//! what people have to do, as lines of a fixed width.
#![tactic(auto)]

mod hands;
mod rows;
mod texts;

pub use hands::{ByHand, Deed, work_by_hand};
pub use plan_outlooks::{
    Beginning, Cause, KnownStarts, OccurrenceOutlook, OpView, OperationOutlook, Ops, Outlooks,
    PathMember, Plan, Standing, Standstill, outlooks,
};
pub use rows::{deed_text, standing_line};
pub use texts::{forecast_made, forecast_text};
