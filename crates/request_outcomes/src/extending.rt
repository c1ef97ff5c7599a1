// What an extension leads to: what is over leaves a copy of the plan, and what is added is judged there.
ghost use Rattle.std.specs.Prelude.{◌≡◌, ◌⊎◌, ◌+◌, ◌*◌, ◌≤◌, ◌≤ℤ◌, pos, IfErr, IfOk, OnOk, length, map};
ghost use Rattle.std.specs.FinMap.{entries};
ghost use Rattle.std.specs.List.Sorted.{IsStrictlySortedBy};
ghost use Rattle.plan_basics.specs.Minutes.{IsMoment};
ghost use Rattle.plan_basics.specs.Refusals.{IsLeastRefusal, NoneRefuses};
ghost use Rattle.plan_basics.specs.declared.Refusal.{Refusal};
ghost use Rattle.request_outcomes.specs.Rebuilds.{AreRebuildLooks, IsRebuildOf, AreRebuiltPartsOf, IsToldOf};
ghost use Rattle.request_outcomes.specs.DatedRequests.{plan_asked};
ghost use Rattle.plan_records.specs.Acceptance.{MayBeAdded};
ghost use Rattle.plan_records.specs.Answer.{refused};
ghost use Rattle.plan_records.specs.Changes.{with_added};
ghost use Rattle.plan_records.specs.Rows.{AreRows, key_of, row_cmp};
ghost use Rattle.plan_records.specs.Step.{Step};
ghost use Rattle.plan_records.specs.declared.What.TheVariants as what;
ghost use Rattle.plan_drafts.specs.Contents.{added_of, AreExtensionParts};
ghost use Rattle.plan_drafts.specs.PlanGraphs.{IsGraphFor};
ghost use Rattle.plan_model.specs.Plan.{Plan};
ghost use Rattle.plan_model.specs.Valid.{IsSound};
ghost use Rattle.small_requests.specs.derived_figures.specs.DerivedRefs.{AreDerivedOf};

use super::dated_requests::DatedRequest;
use super::rebuilds::{ChangeBase, Rebuild, rebuilt_plan};
use super::remaining::{RemainingPlan, remaining_of};
use operation_graph::Graph;
use plan_basics::{Moment, Refusal};
use plan_drafts::{Extension, ExtensionParts};
use plan_records::PlanRow;
use small_requests::{CountedRecords, DerivedRefs, check_records, columns_of, rows_of};
use std::alloc::Global;

// What is left of a plan with what is added, in whose way nothing stands, and the graph of both; or that no memory is found.
fn joined(
    alloc: Global,
    left: CountedRecords,
    parts: &ExtensionParts,
) -> (CountedRecords, Result<Graph, Refusal>)
    requires parts { AreExtensionParts parts.now }
    requires clear { NoneRefuses (MayBeAdded left.contents (added_of parts.now)) }
    ensures contents { OnOk result.1 (result.0.contents ≡ with_added left.contents (added_of parts.now)) }
    ensures graph { IfOk result.1 (IsGraphFor result.0.contents) }
    ensures looks { result.0.looks ≡ left.looks }
    ensures refused { IfErr result.1 (λ r. r ≡ Refusal.Memory) }
{
    left.uncounted().are_sound();
    let (records, added) = left.with_addition(alloc, parts);
    if added.is_err() {
        return (records, Err(Refusal::Memory));
    }
    match records.uncounted().graph(alloc) {
        Ok(graph) => (records, Ok(graph)),
        Err(_) => (records, Err(Refusal::Memory)),
    }
}

// What comes at a moment of what is left of a plan, of which these were all rows, once what is added, in whose way nothing stands, has
// come in. It takes four looks at each operation at most.
fn grown(
    alloc: Global,
    rows: &[PlanRow],
    left: CountedRecords,
    parts: &ExtensionParts,
    at: Moment,
) -> Rebuild
    requires in_order { IsStrictlySortedBy row_cmp (map key_of rows.now) }
    requires parts { AreExtensionParts parts.now }
    requires clear { NoneRefuses (MayBeAdded left.contents (added_of parts.now)) }
    ensures rebuilt_parts { IfOk result.rebuilt (λ x. AreRebuiltPartsOf (with_added left.contents (added_of parts.now)) at result.records.contents x.rebuilt_parts) }
    ensures told { IfOk result.rebuilt (λ x. (P : Plan) → AreRows P rows.now → IsToldOf P at result.records.contents x) }
    ensures most { IfOk result.rebuilt (λ x. result.records.looks ≤ left.looks + 4 * length (entries (with_added left.contents (added_of parts.now)).operations)) }
    ensures refused { IfErr result.rebuilt (λ r. r ≡ Refusal.Memory) }
{
    let (records, graph) = joined(alloc, left, parts);
    match graph {
        Ok(graph) => rebuilt_plan(alloc, &ChangeBase::Listed(rows), records, graph, at),
        Err(refusal) => Rebuild {
            records,
            rebuilt: Err(refusal),
        },
    }
}

// What an extension leads to at a moment by what is left of a plan, of which these were all rows: what is added is judged there, by a look
// at each operation, and then four are taken at each that there is, at most.
fn extended(
    alloc: Global,
    rows: &[PlanRow],
    left: RemainingPlan,
    parts: &ExtensionParts,
    at: Moment,
) -> Rebuild
    requires in_order { IsStrictlySortedBy row_cmp (map key_of rows.now) }
    requires sound { IsSound left.copy }
    requires graph { IsGraphFor left.copy left.graph }
    requires parts { AreExtensionParts parts.now }
    ensures clear { OnOk result.rebuilt (NoneRefuses (MayBeAdded left.copy (added_of parts.now))) }
    ensures rebuilt_parts { IfOk result.rebuilt (λ x. AreRebuiltPartsOf (with_added left.copy (added_of parts.now)) at result.records.contents x.rebuilt_parts) }
    ensures told { IfOk result.rebuilt (λ x. (P : Plan) → AreRows P rows.now → IsToldOf P at result.records.contents x) }
    ensures most { IfOk result.rebuilt (λ x. result.records.looks ≤ length (entries left.copy.operations) + 4 * length (entries (with_added left.copy (added_of parts.now)).operations)) }
    ensures refused { IfErr result.rebuilt (λ r. (r ≡ Refusal.Memory) ⊎ IsLeastRefusal (MayBeAdded left.copy (added_of parts.now)) r) }
{
    let RemainingPlan { copy, graph } = left;
    let mut records = copy.into_counted();
    match check_records(alloc, &mut records, &graph, parts) {
        Ok(()) => grown(alloc, rows, records, parts, at),
        Err(refusal) => Rebuild {
            records,
            rebuilt: Err(refusal),
        },
    }
}

/// What an extension that is made at a moment leads to in a plan, none of whose records was looked at; or the least refusal
/// that applies, or that no memory is found. All rows of the plan are listed by two looks at each record, and each is copied by one;
/// what is over leaves the copy, in which what is added is judged and worked out, by a look at each record too.
pub fn extended_outcome(
    alloc: Global,
    records: &mut CountedRecords,
    derived: DerivedRefs<'_>,
    asked: &DatedRequest<'_>,
    extension: &Option<Extension>,
) -> Result<Rebuild, Refusal>
    requires derived { AreDerivedOf records.old.contents derived }
    requires moment { IsMoment asked.now.at }
    requires at { asked.now.request.now.at ≡ pos asked.now.at }
    requires onward { pos asked.now.clock ≤ℤ asked.now.request.now.at }
    requires is { asked.now.request.now.what ≡ what.Extend extension.now }
    requires none { records.old.looks ≡ 0 }
    ensures contents { records.new.contents ≡ records.old.contents }
    ensures rebuild { IfOk result (IsRebuildOf (plan_asked records.old.contents asked.now) asked.now.request.now asked.now.at) }
    ensures looked { IfOk result (λ a. AreRebuildLooks records.old.contents asked.now.request.now.what a records.new.looks) }
    ensures refused { IfErr result (λ r. (r ≡ Refusal.Memory) ⊎ Step (plan_asked records.old.contents asked.now) asked.now.request.now (refused r) (plan_asked records.old.contents asked.now)) }
{
    let extension = extension.as_ref().ok_or(Refusal::BadPlan)?;
    records.uncounted().are_sound();
    let rows = rows_of(alloc, records, columns_of(derived), asked.clock)?;
    let left = remaining_of(alloc, records, derived)?;
    Ok(extended(alloc, &rows, left, extension.parts(), asked.at))
}
