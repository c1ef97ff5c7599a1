//! Why an operation doesn't start at a moment: every reason, and what holds the chain that it waits for; and the lines in
//! which that is told.
#![tactic(auto)]

ghost use Rattle.plan_reasons.specs.Laws.{EmptyWhereItMayStart, NoneIsLeftToStart, ReadyHasReason};

mod answer;
mod busy;
mod lacking;
mod lists;
mod other_holders;
mod plan;
mod predecessors;
mod reasons;
mod scarce;
mod single;
mod telling;

pub use answer::{Why, explain, first_reason};
pub use lacking::next_opening;
pub use plan::why;
pub use plan_core::{
    LoadedPlan, OpView, Ops, Plan, Prepared, UncountedContents, given_out_of, holdings_in,
    summaries_of,
};
pub use reasons::{
    Beginning, Closing, Obstacle, OtherHolder, Reason, Rest, Scarcity, Shortage, Supply,
    Unsatisfied,
};
pub use telling::{put_reason, why_text};

/// The law that of an operation on a workstation of attribute A or S no reason is listed exactly where it is allowed to
/// start. It does nothing.
pub fn empty_where_it_may_start()
    ensures { EmptyWhereItMayStart }
{}

/// The law that what an accepted request leaves ready on an automatic workstation isn't allowed to start at its moment.
/// It does nothing.
pub fn none_is_left_to_start()
    ensures { NoneIsLeftToStart }
{}

/// The law that it always has a reason then. It does nothing.
pub fn ready_has_reason()
    ensures { ReadyHasReason }
{}
