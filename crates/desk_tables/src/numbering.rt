// What a tracker's numbered request is told before anything is written: it is judged by the receipts, and a new one is
// prepared over the plan, with its receipt. No database is known here.

mod preparing;
mod steps;

pub use preparing::prepare_numbered;
pub use steps::{NumberedOutcome, NumberedStep};
