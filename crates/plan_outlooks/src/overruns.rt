// Which operations go on longer than planned, and what rests on that.
ghost use Rattle.std.specs.Prelude.{◌≡◌, ◌⊎◌, ◌<◌, ◌↔◌, ℕ, All, Contains, length, slice_get, Some, Decides, IfOk, IfErr};
ghost use Rattle.std.specs.FinMap.{entries};
ghost use Rattle.plan_model.specs.operation_graph.specs.Graphs.{IsSet};
ghost use Rattle.plan_basics.specs.declared.Refusal.{Refusal};
ghost use Rattle.plan_basics.specs.declared.keys.OpKey.{OpKey};
ghost use Rattle.plan_model.specs.Contents.{Operation};
ghost use Rattle.plan_reasons.specs.Places.{unsatisfied_flags};
ghost use Rattle.forecasting.specs.Known.{since_in};
ghost use Rattle.plan_outlooks.specs.Overruns.{AreTaken, IsOverBy, RunsOver, planned_end};

use super::refs::{key_at, minutes_after, read_for_proof};
use forecasting::{KnownStarts, counted_start, is_going};
use plan_basics::{Moment, Refusal};
use plan_model::OperationRecord;
use plan_reasons::LoadedPlan;
use status_rules::Status;
use std::alloc::{AllocError, Global};

/// By how many minutes an operation goes on longer than planned at a moment, by what is known of its start, if it does.
pub(crate) fn over_by(operation: &OperationRecord, known: Option<Moment>, at: Moment) -> Option<u64>
    ensures { IsOverBy (planned_end operation.now known) at result }
{
    match counted_start(operation, known) {
        Some(begun) => minutes_after(at, begun.minute() + i64::from(operation.duration)),
        None => None,
    }
}

// Whether the operation at an index goes on longer than planned at a moment, by what is known of starts.
fn runs_over(loaded: &LoadedPlan, known: &KnownStarts, at: Moment, place: usize) -> bool
    requires { place < length (entries loaded.now.operations) }
    ensures { (o : OpKey) (op : Operation) → slice_get (entries loaded.now.operations) place ≡ Some (o, op) → Decides result (RunsOver loaded.now (since_in known.now) at o) }
{
    read_for_proof(loaded);
    let reported = loaded.reported_at(place);
    if !is_going(&reported) {
        return false;
    }
    over_by(
        reported.operation,
        known.start_of(&key_at(loaded, place)),
        at,
    )
    .is_some()
}

// Which operations aren't satisfied, by their statuses.
fn waiting_flags(alloc: Global, statuses: &[Status]) -> Result<Vec<bool>, AllocError>
    ensures { IfOk result (λ flags. flags.items ≡ unsatisfied_flags statuses.now) }
{
    let mut flags = Vec::with_capacity(alloc, statuses.len())?;
    for status in statuses {
        flags.push(!status.is_satisfied())?;
    }
    Ok(flags)
}

// Sets the flags at these indices.
fn set_flags(flags: &mut Vec<bool>, places: &[usize])
    requires { All (λ place. place < length flags.old.items) places.now }
    ensures size { length flags.new.items ≡ length flags.old.items }
    ensures set { (i : ℕ) → IsSet flags.new.items i ↔ (IsSet flags.old.items i ⊎ Contains places.now i) }
{
    for place in places {
        flags[*place] = true;
    }
}

/// Of which operations of a plan the times are only taken at a moment, by what is known of starts: of those that go on longer than
/// planned, and of what waits for them. The error is always `Memory`.
pub(crate) fn taken_of(
    alloc: Global,
    loaded: &LoadedPlan,
    known: &KnownStarts,
    at: Moment,
) -> Result<Vec<bool>, Refusal>
    ensures size { IfOk result (λ flags. length flags.items ≡ length (entries loaded.now.operations)) }
    ensures taken { IfOk result (λ flags. AreTaken loaded.now (since_in known.now) at flags.items) }
    ensures memory { IfErr result (λ r. r ≡ Refusal.Memory) }
{
    read_for_proof(loaded);
    let waiting = waiting_flags(alloc, loaded.statuses())?;
    let count = loaded.contents().operations().len();
    let mut taken = vec![in alloc; false; count]?;
    for place in 0..count {
        if runs_over(loaded, known, at, place) {
            let reached = loaded.graph().reach(place, &waiting)?;
            set_flags(&mut taken, &reached);
        }
    }
    Ok(taken)
}
