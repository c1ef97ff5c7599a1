//! The commands by which a desk is served over HTTP, over databases and journals that are files: `serve`, so many connections,
//! and `desk`, by what the system tells of them.
#![tactic(auto)]

mod following;
mod journals;
mod polling;
mod running;
mod seen;
mod serving;
mod ticks;
mod timed;
mod waiting;

pub use running::run_desk;
pub use serving::serve;
