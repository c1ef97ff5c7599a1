// A numbered request that isn't refused.
ghost use Rattle.std.specs.Prelude.{◌≡◌};
ghost use Rattle.std.specs.FinMap.{insert};
ghost use Rattle.plan_core.specs.State.{plan_after};
ghost use Rattle.plan_records.specs.Step.{Numbered};
ghost use Rattle.desk_tables.specs.Steps.{IsNumberedStepFor};

use plan_basics::{OpKey, TrackerName};
use plan_core::{Plan, Prepared};
use tracker_receipts::{Receipt, ReceiptRow, Receipts};

/// A tracker's new request that is accepted, with all that it takes: its step of the plan, its receipt, and the row of
/// that.
#[derive(Drop)]
pub struct NumberedStep {
    /// Who asks.
    pub tracker: TrackerName,
    /// The step of the plan.
    pub prepared: Prepared,
    /// What is kept of the request.
    pub receipt: Receipt,
    /// The receipt as a row of its table.
    pub row: ReceiptRow,
}

/// What a numbered request that isn't refused leads to.
#[derive(Drop)]
pub enum NumberedOutcome {
    /// It was accepted before: the keys that its reply named then. Nothing changes.
    Again(Vec<OpKey>),
    /// It is new and accepted.
    New(NumberedStep),
}

impl NumberedStep {
    /// Takes the step that was prepared for this plan and these receipts, and gives the operations that are named to
    /// start, in order. It takes no memory.
    pub fn apply(self, plan: &mut Plan, receipts: &mut Receipts) -> Vec<OpKey>
        requires { (n : Numbered) × IsNumberedStepFor plan.old receipts.old n self }
        ensures plan { plan.new.plan ≡ plan_after plan.old self.prepared }
        ensures receipts { receipts.new ≡ insert receipts.old self.tracker self.receipt }
        ensures named { result.items ≡ self.prepared.named }
    {
        let tracker = self.tracker;
        receipts.put(&tracker, self.receipt);
        plan.apply(self.prepared)
    }
}
