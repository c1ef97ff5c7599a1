// Who holds special resources, as an operation gets another mark.
ghost use Rattle.std.specs.Prelude.{◌≡◌, IfErr, OnOk};
ghost use Rattle.plan_basics.specs.declared.Refusal.{Refusal};
ghost use Rattle.derived_figures.specs.Marked.{HaveReleased, HaveRetaken};

use plan_basics::{OpKey, Refusal};
use plan_model::OperationRecord;
use special_resources::Holdings;
use start_choice::take_marked;
use status_rules::Mark;

// Releases what an operation holds of what it needs and, with this mark, doesn't hold.
fn release_marked(holdings: &mut Holdings, key: &OpKey, operation: &OperationRecord, mark: &Mark)
    ensures { HaveReleased holdings.old.held key.now operation.now.needs mark.now holdings.new.held }
{
    for need in operation.needs.as_slice() {
        if !mark.holds_resource(need.keep) && holdings.claim_of(&need.name, *key).is_some() {
            holdings.release(&need.name, *key);
        }
    }
}

/// Releases what an operation with its mark doesn't hold of what it needs, and takes what it does, unless it holds it already.
/// The error is always `Memory`: then it may have taken a part of it.
pub fn retake_needs(
    holdings: &mut Holdings,
    key: &OpKey,
    operation: &OperationRecord,
) -> Result<(), Refusal>
    ensures retaken { OnOk result (HaveRetaken holdings.old.held key.now operation.now.needs operation.now.mark holdings.new.held) }
    ensures refused { IfErr result (λ r. r ≡ Refusal.Memory) }
{
    release_marked(holdings, key, operation, &operation.mark);
    take_marked(holdings, key, operation, &operation.mark)
}
