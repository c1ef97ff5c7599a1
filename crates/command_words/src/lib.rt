//! The words of the command line: the commands of the program and their options.
#![tactic(auto)]

mod forms;
mod words;

pub use words::{desk_command, value_of};
