//! Receipts of trackers: the last accepted request of each, by which a repeated request is told from a new one. They are
//! kept in memory, and read from rows of a table. No database is known here.
#![tactic(auto)]

mod judging;
mod kept;
mod replies;
mod stored;

pub use judging::Judged;
pub use kept::{Receipt, Receipts};
pub use plan_laws::{OperationRow, PlanRow, RowKey};
pub use replies::{keys_of_text, reply_text};
pub use stored::{ReceiptRow, receipts_of};
