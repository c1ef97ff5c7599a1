//! Lines of a fixed width: the fields of a line, a report of rows with its first and its last line, and how a moment stands
//! in a column.
#![tactic(auto)]

mod lines;
mod moments;
mod texts;

pub use lines::{Field, put_line, right};
pub use moments::{latest_text, moment_text};
pub use texts::{Layout, report};
