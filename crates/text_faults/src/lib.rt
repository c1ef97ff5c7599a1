//! What is wrong with a text, told by the lines of its records: with that of a plan, or with that of an addition or an
//! extension, as far as it can be judged without the plan. And what a plan's text is warned of.
#![tactic(auto)]

mod additions;
mod faults;
mod texts;
mod warnings;

pub use additions::{
    AddedFault, AddedText, AddedTextFaults, PlacedFault, added_fault_text, faults_of_added,
    faults_of_added_text,
};
pub use faults::{TextFaults, faults_of_text};
pub use plan_import::{read_extension, read_occurrence, read_plan};
pub use texts::{fault_text, line_of};
pub use warnings::{TextWarnings, warning_text, warnings_of_text};
