// What a call was prepared to do.
ghost use Rattle.std.specs.Prelude.{◌≡◌};
ghost use Rattle.desk_tables.specs.Calls.{named_by, state_after, IsPreparedAt};

use crate::numbering::NumberedStep;
use plan_basics::OpKey;
use plan_core::{Plan, Prepared};
use tracker_receipts::Receipts;

/// A call that is accepted, with all that it takes.
#[derive(Drop)]
pub enum PreparedCall {
    /// A request of an operator.
    Plain(Prepared),
    /// A tracker's numbered request, with its receipt.
    Numbered(NumberedStep),
}

impl PreparedCall {
    /// Takes the step that was prepared, and gives the keys of the operations that are named to start, in order. It takes
    /// no memory.
    pub fn apply(self, plan: &mut Plan, receipts: &mut Receipts) -> Vec<OpKey>
        requires { IsPreparedAt (record { plan = plan.old.plan; receipts = receipts.old }) self }
        ensures named { result.items ≡ named_by self }
        ensures plan { plan.new.plan ≡ (state_after (record { plan = plan.old.plan; receipts = receipts.old }) self).plan }
        ensures receipts { receipts.new ≡ (state_after (record { plan = plan.old.plan; receipts = receipts.old }) self).receipts }
    {
        match self {
            PreparedCall::Plain(prepared) => plan.apply(prepared),
            PreparedCall::Numbered(step) => step.apply(plan, receipts),
        }
    }
}
