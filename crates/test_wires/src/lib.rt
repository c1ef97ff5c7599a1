//! Requests and replies over HTTP as texts, readers that hand them out in pieces, and writers that fail; what the tables of a
//! desk hold, as one text; and a value of which contracts see nothing. For plays alone.
#![tactic(auto)]

mod first;
mod streams;
mod tables;
mod texts;
mod unseen;

pub use first::makes_first_night;
pub use streams::{After, Paper, Pieces, is_written};
pub use tables::{lacks_all, tables_text};
pub use texts::{NIGHT, Report, START, accepted, fault, get, post, reply};
pub use unseen::Unseen;
