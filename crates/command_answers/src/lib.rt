//! What the words of a command give, the files that they name, their texts line by line, how answers are shown, and how a run
//! ends.
#![tactic(auto)]

mod answers;
mod endings;
mod files;
mod given;
mod lines;

pub use answers::{tell, tell_no_desk, tell_refusal};
pub use endings::{Ending, Fault, NoDesk};
pub use files::{extension_of, extension_of_file, plan_of_file, text_of, text_of_file};
pub use given::{Kind, kind_of, moment_if_given, moment_of, request_of};
pub use lines::{first_line, tell_number};
pub use plan_import::read_plan;
pub use request_json::WireFault;
