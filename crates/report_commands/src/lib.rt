//! The commands that tell how a desk stands and how its night will go, over any store: `report`, `show` and `why`; `forecast`
//! and `board`, of a plan's text too.
#![tactic(auto)]

mod prospects;
mod reasons;
mod reports;
mod shows;

pub use prospects::{Prospect, look_ahead};
pub use reasons::why;
pub use reports::report;
pub use shows::show;
