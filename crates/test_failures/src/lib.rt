//! A desk over two files in memory, one of which fails from some call on, and what is found when it is opened again: while it
//! works, in a request of each kind, between its calls, while it opens tables of the first version, and while it recovers from
//! such a stop; tables that are damaged; desks in want of memory; connections of which the reader, the writer or the journal
//! fails; and how many rows each request writes. What is done is told by scripts, a line for each turn. For the crate of tests alone: each public function plays one
//! matter, and its error is what goes otherwise.
#![tactic(auto)]

mod benches;
mod cases;
mod connections;
mod counted;
mod damages;
mod deeds;
mod disks;
mod exchanges;
mod journals;
mod places;
mod replies;
mod scripts;
mod sweeps;
mod turns;
mod want;
mod written;

pub use damages::damaged_tables_are_not_opened;
pub use disks::End;
pub use journals::a_journal_that_fails_at_each_call;
pub use scripts::{
    CONNECTIONS, DELETED_NIGHT, FAILED_RUN, FIRST_VERSION, LOOKS, REPORTS, WHOLE_NIGHT,
};
pub use sweeps::{
    Stops, each_kind_is_stopped, the_night_is_stopped, the_opening_is_stopped,
    the_power_cut_after_each_step,
};
pub use want::{each_played, played};
pub use written::{none_is_made, rows_that_are_written};

/// What a play fails for where it is no difference.
const FAILED: &str = "no memory";
