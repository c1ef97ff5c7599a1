//! What requests change of what a plan holds: marks and flags of operations, open intervals, availability, and what is
//! added.
#![tactic(auto)]

mod additions;
mod commands;
mod mark_rows;
mod markings;

pub use additions::{with_addition, with_pair};
pub use commands::{deleted, set_held, set_nop};
pub use mark_rows::{mark_all, with_marks};
pub use markings::{markings_differ, put_markings};
pub use plan_records::{ExtensionParts, PlanContents, PlanDraft, copies_of, row_place};
