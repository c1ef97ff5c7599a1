//! Worked nights of which no command of the program shows what is looked at: how many records a request looks at, what is
//! refused in want of memory and made in the end. They are texts that read like an operator's log, requests in turn, each with
//! its answer, and are played by whatever goes by their lines (`Player`). Only crates of tests stand on this one.
#![tactic(auto)]

mod answers;
mod crowds;
mod names;
mod parts;
pub mod plans;
mod playing;
mod requests;
mod sections;
mod words;

pub use answers::is_told;
pub use playing::{Deviation, Player};
pub use requests::request;
pub use words::cut;
