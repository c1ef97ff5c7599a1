// What a request leads to that isn't small and extends nothing, worked out afresh over a copy of the plan.
ghost use Rattle.std.specs.Prelude.{◌≡◌, ◌+◌, ◌*◌, ◌≤◌, Some, IfErr, IfOk, length};
ghost use Rattle.std.specs.FinMap.{entries};
ghost use Rattle.plan_basics.specs.declared.Refusal.{Refusal};
ghost use Rattle.request_outcomes.specs.Rebuilds.{AreRebuildLooks, IsRebuildOf};
ghost use Rattle.request_outcomes.specs.DatedRequests.{IsAcceptable, plan_asked};
ghost use Rattle.request_outcomes.specs.Requested.{AreMadeBy};
ghost use Rattle.small_requests.specs.RequestEdits.{IsSmall};
ghost use Rattle.small_requests.specs.plan_checks.specs.Commands.{Extends};
ghost use Rattle.small_requests.specs.derived_figures.specs.DerivedRefs.{AreDerivedOf};

use super::dated_requests::DatedRequest;
use super::graphs::graph_after;
use super::rebuilds::{ChangeBase, Rebuild, rebuilt_plan};
use super::requests::changed;
use plan_basics::Refusal;
use small_requests::{
    CountedRecords, DerivedRefs, PlanBefore, TableSource, UncountedContents, columns_of,
    whole_plans_look_few,
};
use std::alloc::Global;

// What comes of these records, which a request that isn't small and extends nothing, and in whose way nothing stands, made anew of the
// plan beside whose records this stands. It takes four looks at each operation at most, but for one at each that there was before.
fn rebuild_of(
    alloc: Global,
    uncounted: &UncountedContents<'_>,
    derived: DerivedRefs<'_>,
    asked: &DatedRequest<'_>,
    new: CountedRecords,
) -> Rebuild
    requires derived { AreDerivedOf uncounted.now.contents.now derived }
    requires acceptable { IsAcceptable uncounted.now.contents.now asked.now }
    requires whole { ¬ IsSmall asked.now.request.now.what }
    requires stays { ¬ Extends asked.now.request.now.what }
    requires made { AreMadeBy uncounted.now.contents.now asked.now.request.now.what new.contents }
    ensures rebuild { IsRebuildOf (plan_asked uncounted.now.contents.now asked.now) asked.now.request.now asked.now.at result }
    ensures operations { IfOk result.rebuilt (λ x. length (entries result.records.contents.operations) ≡ length (entries new.contents.operations)) }
    ensures most { IfOk result.rebuilt (λ x. result.records.looks + length (entries uncounted.now.contents.now.operations) ≤ new.looks + 4 * length (entries new.contents.operations)) }
{
    uncounted.are_sound();
    let DatedRequest { clock, request, at } = *asked;
    let before = PlanBefore {
        clock,
        loaded: Some(TableSource {
            uncounted: *uncounted,
            columns: columns_of(derived),
        }),
    };
    match graph_after(
        alloc,
        uncounted,
        derived.graph,
        &request.what,
        &new.uncounted(),
    ) {
        Ok(graph) => rebuilt_plan(alloc, &ChangeBase::Kept(&before), new, graph, at),
        Err(refusal) => Rebuild {
            records: new,
            rebuilt: Err(refusal),
        },
    }
}

/// What a request that isn't small and extends nothing, and in whose way nothing stands, leads to in a plan, of whose records one
/// at most was looked at: each record is copied by a look, and all is worked out over the copy, by a look at each of its records too.
/// The error is always `Memory`.
pub fn whole_outcome(
    alloc: Global,
    records: &mut CountedRecords,
    derived: DerivedRefs<'_>,
    asked: &DatedRequest<'_>,
) -> Result<Rebuild, Refusal>
    requires derived { AreDerivedOf records.old.contents derived }
    requires acceptable { IsAcceptable records.old.contents asked.now }
    requires whole { ¬ IsSmall asked.now.request.now.what }
    requires stays { ¬ Extends asked.now.request.now.what }
    requires few { records.old.looks ≤ 1 }
    ensures contents { records.new.contents ≡ records.old.contents }
    ensures rebuild { IfOk result (IsRebuildOf (plan_asked records.old.contents asked.now) asked.now.request.now asked.now.at) }
    ensures looked { IfOk result (λ a. AreRebuildLooks records.old.contents asked.now.request.now.what a records.new.looks) }
    ensures refused { IfErr result (λ r. r ≡ Refusal.Memory) }
{
    whole_plans_look_few();
    records.uncounted().are_sound();
    let copy = records.copied(alloc)?;
    let new = changed(alloc, copy, &asked.request.what)?;
    Ok(rebuild_of(
        alloc,
        &records.uncounted(),
        derived,
        asked,
        new.into_counted(),
    ))
}
