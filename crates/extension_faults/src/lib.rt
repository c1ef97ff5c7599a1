//! What is wrong with the text of an extension, or of an addition, beside the plan that it is to extend, and what it is warned of,
//! told by the lines of its records.
#![tactic(auto)]

mod circles;
mod ends;
mod finding;
mod judging;
mod kinds;
mod limits;
mod looks;
mod returns;
mod staying;
mod telling;
mod texts;
mod warning;
mod whole;

pub use finding::{BesideFaults, faults_beside};
pub use judging::judged_beside;
pub use kinds::{FaultBeside, Wrong};
pub use plan_reasons::Plan;
pub use text_faults::AddedText;
pub use texts::beside_text;
pub use warning::warned_beside;
pub use whole::whole_beside;
