//! The plan in memory: what each request does to it, and what is read off it; and what an empty one answers to a load, of
//! which nothing is kept.
#![tactic(auto)]

mod alone;
mod copying;
mod counted;
mod from_rows;
mod lists;
mod plan;
mod prepared;
mod reads;
mod ready_views;
mod taking;
mod views;

pub use alone::answer_alone;
pub use lists::{Occs, Ops};
pub use plan::Plan;
pub use plan_opening::{
    LoadedPlan, ReportedOperation, SoundContents, UncountedContents, given_out_of, holdings_in,
    summaries_of,
};
pub use prepared::Prepared;
pub use ready_views::Ready;
pub use views::{OccView, OpView};
