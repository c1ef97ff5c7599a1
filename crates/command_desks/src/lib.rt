//! The desks at which commands do what they do: that of a database, opened by its path and closed at the end, over any store;
//! and one over files in memory, at which a plan is loaded.
#![tactic(auto)]

mod databases;
mod loaded;
mod minutes;

pub use databases::{Database, DatabaseFile, close, close_desk, stored_desk};
pub use desk_tables::{Desk, Plan, answer_alone, run_all};
pub use loaded::loaded_desk;
pub use minutes::minute_of;
