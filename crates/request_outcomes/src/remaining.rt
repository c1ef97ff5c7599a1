// What is left of a plan once the occurrences that are complete or deleted have left it.
ghost use Rattle.std.specs.Prelude.{◌≡◌, ◌⊎◌, ◌+◌, ◌≤◌, ◌↔◌, true, Decides, IfErr, IfOk, OnOk, length, map};
ghost use Rattle.std.specs.FinMap.{entries, keys};
ghost use Rattle.std.specs.List.Sorted.{IsStrictlySortedBy};
ghost use Rattle.std.specs.Map.{keys_of};
ghost use Rattle.plan_basics.specs.Keys.{occurrence_cmp};
ghost use Rattle.plan_basics.specs.declared.Refusal.{Refusal};
ghost use Rattle.plan_basics.specs.declared.keys.OccKey.{OccKey as OccKeyValue};
ghost use Rattle.plan_records.specs.Changes.{IsOver, LeavesOver, with_only};
ghost use Rattle.plan_drafts.specs.PlanGraphs.{IsGraphFor};
ghost use Rattle.plan_model.specs.Valid.{IsSound};
ghost use Rattle.small_requests.specs.derived_figures.specs.DerivedRefs.{AreDerivedOf};
ghost use Rattle.small_requests.specs.counted_records.specs.Leaving.{is_one_of};

use operation_graph::Graph;
use plan_basics::{OccKey, Refusal};
use plan_model::Occurrence;
use small_requests::{
    CountedRecords, DerivedRefs, Outline, RecordCopy, UncountedContents, is_one_of,
};
use std::alloc::{AllocError, Global};

/// What is left of a plan, copied, and its graph.
#[derive(Drop)]
pub struct RemainingPlan {
    pub copy: RecordCopy,
    pub graph: Graph,
}

// Whether an occurrence is in the plan and stays there.
fn stays(outline: &Outline<'_>, key: &OccKey) -> bool
    ensures { Decides result (¬ IsOver outline.now key.now) }
{
    outline.uncounted().are_sound();
    match outline.occurrence_status(key) {
        Some(status) => !status.is_over(),
        None => false,
    }
}

// The occurrences that stay, in key order.
fn staying(alloc: Global, outline: &Outline<'_>) -> Result<Vec<(OccKey, Occurrence)>, AllocError>
    ensures in_order { IfOk result (λ v. IsStrictlySortedBy occurrence_cmp (keys_of v.items)) }
    ensures stay { IfOk result (λ v. (c : OccKeyValue) → (is_one_of v.items c ≡ true) ↔ ¬ IsOver outline.now c) }
{
    let uncounted = outline.uncounted();
    let mut staying = Vec::new(alloc);
    for row in uncounted.occurrences() {
        if stays(outline, &row.0) {
            staying.push(*row)?;
        }
    }
    Ok(staying)
}

// Which operations are of these occurrences, in key order.
fn their_operations(
    alloc: Global,
    uncounted: &UncountedContents<'_>,
    occurrences: &[(OccKey, Occurrence)],
) -> Result<Vec<bool>, AllocError>
    requires { IsStrictlySortedBy occurrence_cmp (keys_of occurrences.now) }
    ensures { IfOk result (λ v. v.items ≡ map (λ o. is_one_of occurrences.now o.occurrence) (keys uncounted.now.contents.now.operations)) }
{
    let count = uncounted.operation_count();
    let mut theirs = Vec::with_capacity(alloc, count)?;
    for place in 0..count {
        let key = uncounted.operation_key(place);
        theirs.push(is_one_of(occurrences, &key.occurrence))?;
    }
    Ok(theirs)
}

// The graph of what is left of a plan, of which this is the graph, once no more than these occurrences stay. The error is always
// `Memory`.
fn graph_left(
    alloc: Global,
    uncounted: &UncountedContents<'_>,
    graph: &Graph,
    staying: &[(OccKey, Occurrence)],
) -> Result<Graph, Refusal>
    requires graph { IsGraphFor uncounted.now.contents.now graph.now }
    requires in_order { IsStrictlySortedBy occurrence_cmp (keys_of staying.now) }
    ensures graph { IfOk result (IsGraphFor (with_only (is_one_of staying.now) uncounted.now.contents.now)) }
    ensures refused { IfErr result (λ r. r ≡ Refusal.Memory) }
{
    let keep = their_operations(alloc, uncounted, staying)?;
    let (graph, _numbers) = graph.rebuilt(&keep)?;
    Ok(graph)
}

/// What is left of these records, of whose plan this is kept, once the occurrences that are complete or deleted have left, all together: by
/// a look at each record. The error is always `Memory`.
pub fn remaining_of(
    alloc: Global,
    records: &mut CountedRecords,
    derived: DerivedRefs<'_>,
) -> Result<RemainingPlan, Refusal>
    requires { AreDerivedOf records.old.contents derived }
    ensures left { IfOk result (λ x. LeavesOver records.old.contents x.copy) }
    ensures graph { IfOk result (λ x. IsGraphFor x.copy x.graph) }
    ensures contents { records.new.contents ≡ records.old.contents }
    ensures most { records.new.looks ≤ records.old.looks + length (entries records.old.contents.operations) }
    ensures least { OnOk result ((18446744073709551615 ≤ records.new.looks) ⊎ (records.old.looks + length (entries records.old.contents.operations) ≤ records.new.looks)) }
    ensures sound { OnOk result (IsSound records.old.contents) }
    ensures refused { IfErr result (λ r. r ≡ Refusal.Memory) }
{
    let staying = staying(alloc, &Outline::of(records.uncounted(), derived))?;
    let graph = graph_left(alloc, &records.uncounted(), derived.graph, &staying)?;
    let copy = records.copied(alloc)?;
    let left = copy.with_only(alloc, &staying)?;
    Ok(RemainingPlan { copy: left, graph })
}
