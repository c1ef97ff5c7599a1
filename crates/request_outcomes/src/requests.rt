// What each request that isn't small makes of what the plan holds.
ghost use Rattle.std.specs.Prelude.{◌≡◌, ℕ, Some, IfOk, IfErr};
ghost use Rattle.plan_basics.specs.Refusals.{NoneRefuses};
ghost use Rattle.plan_basics.specs.declared.Refusal.{Refusal};
ghost use Rattle.plan_drafts.specs.Drafts.{IsAddition};
ghost use Rattle.plan_drafts.specs.PlanGraphs.{IsGraphFor};
ghost use Rattle.plan_model.specs.Contents.{Contents};
ghost use Rattle.plan_model.specs.Valid.{IsSound};
ghost use Rattle.plan_records.specs.Acceptance.{MayBeAdded, MayBeDone, NeedsPlan};
ghost use Rattle.plan_records.specs.Changes.{with_added};
ghost use Rattle.plan_records.specs.declared.What.{What};
ghost use Rattle.request_outcomes.specs.Requested.{AreMadeBy};
ghost use Rattle.small_requests.specs.RequestEdits.{IsSmall};
ghost use Rattle.small_requests.specs.plan_checks.specs.Commands.{Extends};

use operation_graph::Graph;
use plan_basics::Refusal;
use plan_drafts::{Addition, PlanDraft};
use plan_records::What;
use small_requests::RecordCopy;
use std::alloc::{AllocError, Global};

// What is copied with what is added, of whose occurrence there is nothing yet; it is legal.
fn added(alloc: Global, copy: RecordCopy, addition: &Addition) -> Result<RecordCopy, AllocError>
    requires sound { IsSound copy }
    requires new { MayBeAdded copy addition.now Refusal.Duplicate }
    ensures legal { IsAddition addition.now }
    ensures plan { IfOk result (λ new. new ≡ with_added copy addition.now) }
{
    copy.with_addition(alloc, addition.parts())
}

/// What a request makes of a copy of a plan, that is no load and not small and extends nothing, and in whose way nothing stands. The
/// error is always `Memory`.
pub fn changed(alloc: Global, copy: RecordCopy, what: &What) -> Result<RecordCopy, Refusal>
    requires sound { IsSound copy }
    requires needs { NeedsPlan what.now }
    requires whole { ¬ IsSmall what.now }
    requires stays { ¬ Extends what.now }
    requires clear { (at : ℕ) × NoneRefuses (MayBeDone copy at what.now) }
    ensures made { IfOk result (AreMadeBy copy what.now) }
    ensures refused { IfErr result (λ r. r ≡ Refusal.Memory) }
{
    let new = match what {
        What::DeleteOccurrence(key) => copy.deleted(alloc, key),
        What::AddOccurrence(addition) => added(alloc, copy, addition.as_ref().unwrap()),
        What::AddDependency(predecessor, successor) => {
            copy.with_pair(alloc, predecessor, successor)
        }
        _ => unreachable!(),
    };
    Ok(new?)
}

/// A copy of what a draft holds, which a load makes, and its graph. The error is always `Memory`.
pub fn drafted(alloc: Global, draft: &PlanDraft) -> Result<(RecordCopy, Graph), Refusal>
    ensures made { IfOk result (λ new. (P : Contents) → AreMadeBy P (What.Load (Some draft.now)) new.0) }
    ensures graph { IfOk result (λ new. IsGraphFor new.0 new.1) }
    ensures refused { IfErr result (λ r. r ≡ Refusal.Memory) }
{
    let copy = RecordCopy::of_draft(alloc, draft)?;
    let graph = draft.graph().try_clone()?;
    Ok((copy, graph))
}
