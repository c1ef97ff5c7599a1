//! The forecast of a plan: its requests, made one after another in the plan itself, and what it asks of that plan: what is going, what
//! is due, what may begin. Who wants to keep the plan forecasts in a copy of it. A table that follows a plan keeps since when operations
//! are going as they do.
#![tactic(auto)]

mod beginning;
mod carrying;
mod complete;
mod due;
mod following;
mod foretelling;
mod going;
mod known;
mod making;
mod next;
mod starting;
mod stepping;
mod timing;
mod turns;
mod work;

pub use foretelling::{Foretold, forecast};
pub use going::is_going;
pub use known::KnownStarts;
pub use timing::counted_start;
