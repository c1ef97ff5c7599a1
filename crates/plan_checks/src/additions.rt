// What stands in the way of occurrences that are to be added.
ghost use Rattle.std.specs.Prelude.{◌≡◌, ◌⊎◌, ◌+◌, ◌≤◌, Decides, IfErr, OnOk, length};
ghost use Rattle.std.specs.FinMap.{len};
ghost use Rattle.plan_basics.specs.Refusals.{from_on, IsLeastRefusal, NoneRefuses};
ghost use Rattle.plan_basics.specs.declared.Refusal.{Refusal};
ghost use Rattle.plan_model.specs.Valid.{AmountsFit};
ghost use Rattle.plan_records.specs.Acceptance.{MayBeAdded};
ghost use Rattle.plan_drafts.specs.Contents.{added_of, AreExtensionParts};
ghost use Rattle.plan_drafts.specs.PlanGraphs.{IsGraphFor};
ghost use Rattle.plan_checks.specs.Additions.{HasRoomFor};

use super::ends::ends_of_pairs;
use super::growth::{grown_keys, grown_pairs, has_room};
use super::known::{amounts_fit, are_new_occurrences, are_resources_known, are_workstations_known};
use derived_figures::{CountedRecords, Statuses, statuses_of_records};
use operation_graph::Graph;
use plan_basics::{OpKey, Refusal};
use plan_drafts::{ExtensionParts, graph_of};
use std::alloc::Global;

// Whether the plan has room for so many occurrences more, with operations of these keys and these pairs in all, and as much of each
// special resource as is needed.
fn is_within_limits(
    plan: &Statuses<'_>,
    parts: &ExtensionParts,
    keys: &[OpKey],
    pairs: &[(OpKey, OpKey)],
) -> bool
    requires { AreExtensionParts parts.now }
    ensures { Decides result (HasRoomFor plan.now (length parts.now.occurrences.items) (length keys.now) (length pairs.now) × AmountsFit plan.now.resources (added_of parts.now).operations) }
{
    has_room(&plan.uncounted(), parts.occurrences.len(), keys, pairs) && amounts_fit(plan, parts)
}

// With what is added, no path of pairs returns to its start, the plan holds no more than it may, and no need is of more than
// there is.
// What is added is taken in to see whether a path closes, let go, and made anew where it is accepted: so a check changes nothing,
// and a change refuses nothing.
fn check_grown(alloc: Global, plan: &Statuses<'_>, parts: &ExtensionParts) -> Result<(), Refusal>
    requires parts { AreExtensionParts parts.now }
    requires known { MayBeAdded plan.now (added_of parts.now) Refusal.UnknownOperation }
    requires new { MayBeAdded plan.now (added_of parts.now) Refusal.Duplicate }
    ensures ok { OnOk result (NoneRefuses (from_on Refusal.Cycle (MayBeAdded plan.now (added_of parts.now)))) }
    ensures refused { IfErr result (λ r. (r ≡ Refusal.Memory) ⊎ IsLeastRefusal (from_on Refusal.Cycle (MayBeAdded plan.now (added_of parts.now))) r) }
{
    let uncounted = plan.uncounted();
    let keys = grown_keys(alloc, &uncounted, parts)?;
    let pairs = grown_pairs(alloc, &uncounted, parts)?;
    if graph_of(alloc, &keys, &pairs)?.is_none() {
        Err(Refusal::Cycle)
    } else if !is_within_limits(plan, parts, &keys, &pairs) {
        Err(Refusal::Limit)
    } else {
        Ok(())
    }
}

/// Occurrences may be added that aren't in the plan, whose operations find all that they name, precede only what waits
/// or is ready, and close no path, where there is room and as much of each special resource as they need. The error is
/// the first that applies, by number, or `Memory`.
pub fn check_added(
    alloc: Global,
    plan: &Statuses<'_>,
    parts: &ExtensionParts,
) -> Result<(), Refusal>
    requires { AreExtensionParts parts.now }
    ensures ok { OnOk result (NoneRefuses (MayBeAdded plan.now (added_of parts.now))) }
    ensures refused { IfErr result (λ r. (r ≡ Refusal.Memory) ⊎ IsLeastRefusal (MayBeAdded plan.now (added_of parts.now)) r) }
{
    let ends = ends_of_pairs(plan, parts);
    if !ends.are_known {
        Err(Refusal::UnknownOperation)
    } else if !are_workstations_known(plan, parts) {
        Err(Refusal::UnknownWorkstation)
    } else if !are_resources_known(plan, parts) {
        Err(Refusal::UnknownResource)
    } else if !ends.are_open {
        Err(Refusal::WrongStatus)
    } else if !are_new_occurrences(plan, parts) {
        Err(Refusal::Duplicate)
    } else {
        check_grown(alloc, plan, parts)
    }
}

/// The same in the plan of these records, which has this graph, where only the statuses of its operations are worked out: by a look at
/// each.
pub fn check_records(
    alloc: Global,
    records: &mut CountedRecords,
    graph: &Graph,
    parts: &ExtensionParts,
) -> Result<(), Refusal>
    requires graph { IsGraphFor records.old.contents graph.now }
    requires parts { AreExtensionParts parts.now }
    ensures ok { OnOk result (NoneRefuses (MayBeAdded records.old.contents (added_of parts.now))) }
    ensures refused { IfErr result (λ r. (r ≡ Refusal.Memory) ⊎ IsLeastRefusal (MayBeAdded records.old.contents (added_of parts.now)) r) }
    ensures contents { records.new.contents ≡ records.old.contents }
    ensures most { records.new.looks ≤ records.old.looks + len records.old.contents.operations }
{
    let statuses = statuses_of_records(alloc, records, graph)?;
    check_added(alloc, &Statuses::of(records.uncounted(), &statuses), parts)
}
