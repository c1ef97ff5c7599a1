//! Which starts a journal tells, as a desk is opened: of each operation that an accepted request is about, the minute of its
//! start, where it reports that.
#![tactic(auto)]

mod mentions;
mod reading;

pub use reading::mentions_in;
