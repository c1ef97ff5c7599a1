// What is wrong with the records of a text that adds to a plan, of an addition's or an extension's, and where, as far as
// that can be judged without the plan.

mod faults;
mod finding;
mod judging;
mod occurrences;
mod texts;

pub use faults::{AddedFault, AddedText, PlacedFault};
pub use finding::faults_of_added;
pub use texts::{AddedTextFaults, added_fault_text, faults_of_added_text};
