// Who holds special resources.
ghost use Rattle.std.specs.Prelude.{◌≡◌, ◌+◌, ◌<◌, ◌≤◌, IfOk, IfErr, OnOk, Some, length, slice_get};
ghost use Rattle.std.specs.FinMap.{entries};
ghost use Rattle.plan_basics.specs.declared.Refusal.{Refusal};
ghost use Rattle.plan_basics.specs.declared.keys.OpKey.{OpKey as OpKeyValue};
ghost use Rattle.status_rules.specs.declared.Mark.{Mark};
ghost use Rattle.counted_records.specs.plan_status.specs.Summaries.{AreSummaries};
ghost use Rattle.plan_model.specs.Contents.{Operation};
ghost use Rattle.start_choice.specs.SummarizedTakings.{holder_count, may_hold};
ghost use Rattle.start_choice.specs.Choices.{AreHeldIn};
ghost use Rattle.start_choice.specs.Takings.{HaveTaken};

use super::taken::starts_are_known;
use counted_records::{CountedRecords, OperationSummary, SeenOperation, ValidContents};
use plan_basics::{OpKey, Refusal};
use plan_model::OperationRecord;
use special_resources::Holdings;
use status_rules::Mark;
use std::alloc::Global;

/// Takes what an operation with this mark holds of what it needs, on a workstation where starts are known, unless it holds it
/// already. The error is always `Memory`: then it may have taken a part of it.
pub fn take_marked(
    holdings: &mut Holdings,
    key: &OpKey,
    operation: &OperationRecord,
    mark: &Mark,
) -> Result<(), Refusal>
    ensures taken { OnOk result (HaveTaken holdings.old.held key.now operation.now.needs mark.now holdings.new.held) }
    ensures refused { IfErr result (λ r. r ≡ Refusal.Memory) }
{
    let needs = operation.needs.as_slice();
    holdings.reserve(needs.len())?;
    for need in needs {
        if mark.holds_resource(need.keep) && holdings.claim_of(&need.name, *key).is_none() {
            holdings.take(need, *key);
        }
    }
    Ok(())
}

/// Takes all that an operation needs of special resources as it starts, unless it holds it already. The error is always
/// `Memory`: then it may have taken a part of it.
pub fn take_needs(
    holdings: &mut Holdings,
    key: &OpKey,
    operation: &OperationRecord,
) -> Result<(), Refusal>
    ensures taken { OnOk result (HaveTaken holdings.old.held key.now operation.now.needs Mark.Named holdings.new.held) }
    ensures refused { IfErr result (λ r. r ≡ Refusal.Memory) }
{
    take_marked(holdings, key, operation, &Mark::Named)
}

/// Who holds what of special resources in contents of which no looks are counted: an operation on a workstation where starts are known
/// that is started, undecided or interrupted holds what it needs; one that ended in error holds what an error keeps. The error is
/// always `Memory`.
pub fn holdings_in(alloc: Global, contents: &ValidContents) -> Result<Holdings, Refusal>
    ensures held { IfOk result (λ found. AreHeldIn contents.now found.held) }
    ensures refused { IfErr result (λ r. r ≡ Refusal.Memory) }
{
    let mut holdings = Holdings::new(alloc);
    for row in contents.operations() {
        let operation = &row.1;
        if starts_are_known(contents, operation) {
            take_marked(&mut holdings, &row.0, operation, &operation.mark)?;
        }
    }
    Ok(holdings)
}

// Whether an operation may hold special resources: starts are known on its workstation, and it is under way or in error.
fn may_hold(summary: &OperationSummary) -> bool
    ensures { result ≡ may_hold summary.now }
{
    summary.starts_are_known() && summary.mark.holds_resource(true)
}

// Takes what the operation at a place holds of what it needs, unless it holds it already, by a look. The error is always `Memory`:
// then it may have taken a part of it.
fn take_at(
    records: &mut CountedRecords,
    holdings: &mut Holdings,
    place: usize,
) -> Result<(), Refusal>
    requires { place < length (entries records.old.contents.operations) }
    ensures taken { OnOk result ((o : OpKeyValue) → (op : Operation) → slice_get (entries records.old.contents.operations) place ≡ Some (o, op) → HaveTaken holdings.old.held o op.needs op.mark holdings.new.held) }
    ensures contents { records.new.contents ≡ records.old.contents }
    ensures fewest { records.old.looks ≤ records.new.looks }
    ensures most { records.new.looks ≤ records.old.looks + 1 }
    ensures refused { IfErr result (λ r. r ≡ Refusal.Memory) }
{
    let SeenOperation {
        key,
        operation,
        uncounted: _,
    } = records.see(place);
    take_marked(holdings, key, operation, &operation.mark)
}

/// Who holds what of special resources: an operation on a workstation where starts are known that is started, undecided or
/// interrupted holds what it needs; one that ended in error holds what an error keeps. By their summaries no others are looked at, and
/// each of these once. The error is always `Memory`.
pub fn holdings_of(
    alloc: Global,
    records: &mut CountedRecords,
    summaries: &[OperationSummary],
) -> Result<Holdings, Refusal>
    requires { AreSummaries records.old.contents summaries.now }
    ensures held { IfOk result (λ found. AreHeldIn records.old.contents found.held) }
    ensures contents { records.new.contents ≡ records.old.contents }
    ensures fewest { records.old.looks ≤ records.new.looks }
    ensures most { records.new.looks ≤ records.old.looks + holder_count summaries.now }
    ensures refused { IfErr result (λ r. r ≡ Refusal.Memory) }
{
    let mut holdings = Holdings::new(alloc);
    for place in 0..summaries.len() {
        if may_hold(&summaries[place]) {
            take_at(records, &mut holdings, place)?;
        }
    }
    Ok(holdings)
}
