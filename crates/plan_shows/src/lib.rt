//! Shows of a plan: what is started, the operations of an occurrence and its dependencies, what a rerun reaches, special
//! resources and who holds them, workstations and their open intervals, and trackers, each as lines of text; what is started and
//! how the desk is as JSON values; and the key of an operation as it is typed.
#![tactic(auto)]

mod columns;
mod dependencies;
mod intervals;
mod reached;
mod resources;
mod rows;
mod shows;
mod stations;
mod trackers;
mod typed;
mod values;
mod views;

pub use columns::held_text;
pub use plan_reasons::{Plan, why, why_text};
pub use shows::{Show, shown};
pub use typed::operation_typed;
pub use values::{health_text, started_text};
