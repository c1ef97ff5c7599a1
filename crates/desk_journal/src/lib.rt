//! The journal of a desk: a request's line is written before the desk is asked, and its answer's before anybody learns of the
//! answer. So whatever acted stands in it, and a request's line without an answer's says that it may have acted.
#![tactic(auto)]

mod entries;
mod journal;
mod lines;

pub use entries::{Entry, read_entry};
pub use journal::{Journal, JournalFault};
pub use lines::{BRIEF_BYTES, answer_line, request_line};
