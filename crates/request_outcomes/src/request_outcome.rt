// What a request leads to in a plan that is loaded.
use super::accepted::AcceptedOutcome;
use super::rebuilds::Rebuild;

/// What a request leads to in a plan that is loaded.
pub enum RequestOutcome {
    /// It was tried in the plan.
    Small(AcceptedOutcome),
    /// All was worked out afresh, in a plan that was made anew.
    Whole(Rebuild),
}
