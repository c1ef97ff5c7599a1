// A plan that is made anew: its records are counted, and what is kept of it stands beside them.
ghost use Rattle.std.specs.Prelude.{◌≡◌, ◌+◌, ◌*◌, ◌≤◌, IfErr, IfOk, Some, length};
ghost use Rattle.std.specs.FinMap.{entries};
ghost use Rattle.plan_basics.specs.declared.Refusal.{Refusal};
ghost use Rattle.request_outcomes.specs.Rebuilds.{IsChangeBase, IsChangeBaseOnceNamed, ArePartsOf, IsPlanBefore, IsToldOf, AreRebuiltPartsOf, seen_before};
ghost use Rattle.plan_records.specs.Rows.{AreChanges};
ghost use Rattle.plan_drafts.specs.PlanGraphs.{IsGraphFor};
ghost use Rattle.plan_model.specs.Plan.{Plan, plan_held};
ghost use Rattle.small_requests.specs.plan_rows.specs.Sources.{IsSource, source_with};

use super::rebuilt_parts::{RebuiltParts, rebuild_parts};
use operation_graph::Graph;
use plan_basics::{Moment, Refusal};
use plan_records::{Changes, PlanRow};
use small_requests::{
    CountedRecords, DerivedRefs, PlanBefore, SourceColumns, changed_rows, changes_between,
    columns_of, rows_of,
};
use std::alloc::{AllocError, Global};

/// The plan from which it is told what changes.
#[derive(Clone, Copy)]
pub enum ChangeBase<'a> {
    /// What is kept of it, where its operations are kept: no record of it is looked at.
    Kept(&'a PlanBefore<'a>),
    /// All its rows, where operations may go, or come in again under their keys.
    Listed(&'a [PlanRow]),
}

/// What comes of a plan that was made anew: what is named in it, what is kept of it then, and which rows change.
#[derive(Drop)]
pub struct Rebuilt {
    pub rebuilt_parts: RebuiltParts,
    pub changes: Changes,
}

/// The records of a plan that was made anew, and what comes of it. It can't be let go: the records have to be taken apart, and their
/// looks count.
pub struct Rebuild {
    pub records: CountedRecords,
    pub rebuilt: Result<Rebuilt, Refusal>,
}

// Which rows change from the plan before to that of these records, at this moment. It takes two looks at each operation at most, but for
// one at each that is kept.
fn changes_from(
    alloc: Global,
    before: &ChangeBase<'_>,
    records: &mut CountedRecords,
    columns: SourceColumns<'_>,
    at: Moment,
) -> Result<Changes, AllocError>
    requires before { IsChangeBase before.now records.old.contents }
    requires source { IsSource (source_with records.old.contents columns) }
    ensures changes { IfOk result (λ c. (P : Plan) → IsPlanBefore before.now P → AreChanges P (plan_held at (Some records.old.contents)) c.rows.items c.gone.items) }
    ensures contents { records.new.contents ≡ records.old.contents }
    ensures most { IfOk result (λ c. records.new.looks + seen_before before.now ≤ records.old.looks + 2 * length (entries records.old.contents.operations)) }
{
    match before {
        ChangeBase::Kept(before) => changes_between(alloc, *before, records, columns, at),
        ChangeBase::Listed(rows) => {
            let new = rows_of(alloc, records, columns, at)?;
            changed_rows(alloc, *rows, &new)
        }
    }
}

// What comes of these records, in which what is named is marked so and of whose plan this is kept: which rows change from the plan
// before, at this moment. It takes two looks at each operation at most, but for one at each that is kept. The error is always `Memory`.
fn told(
    alloc: Global,
    before: &ChangeBase<'_>,
    records: &mut CountedRecords,
    rebuilt_parts: RebuiltParts,
    at: Moment,
) -> Result<Rebuilt, Refusal>
    requires before { IsChangeBase before.now records.old.contents }
    requires kept { ArePartsOf records.old.contents rebuilt_parts }
    ensures rebuilt_parts { IfOk result (λ x. x.rebuilt_parts ≡ rebuilt_parts) }
    ensures told { IfOk result (λ x. (P : Plan) → IsPlanBefore before.now P → IsToldOf P at records.old.contents x) }
    ensures contents { records.new.contents ≡ records.old.contents }
    ensures most { IfOk result (λ x. records.new.looks + seen_before before.now ≤ records.old.looks + 2 * length (entries records.old.contents.operations)) }
    ensures refused { IfErr result (λ r. r ≡ Refusal.Memory) }
{
    records.uncounted().are_sound();
    let derived = DerivedRefs {
        graph: &rebuilt_parts.graph,
        latest: &rebuilt_parts.latest,
        figures: &rebuilt_parts.figures,
    };
    let changes = changes_from(alloc, before, records, columns_of(derived), at)?;
    Ok(Rebuilt {
        rebuilt_parts,
        changes,
    })
}

/// What comes at a moment of these records, made anew of the plan before, whose plan has this graph. It takes four looks at each
/// operation at most, but for one at each that is kept.
pub fn rebuilt_plan(
    alloc: Global,
    before: &ChangeBase<'_>,
    records: CountedRecords,
    graph: Graph,
    at: Moment,
) -> Rebuild
    requires before { IsChangeBaseOnceNamed before.now records.contents at }
    requires graph { IsGraphFor records.contents graph }
    ensures rebuilt_parts { IfOk result.rebuilt (λ x. AreRebuiltPartsOf records.contents at result.records.contents x.rebuilt_parts) }
    ensures told { IfOk result.rebuilt (λ x. (P : Plan) → IsPlanBefore before.now P → IsToldOf P at result.records.contents x) }
    ensures most { IfOk result.rebuilt (λ x. result.records.looks + seen_before before.now ≤ records.looks + 4 * length (entries records.contents.operations)) }
    ensures refused { IfErr result.rebuilt (λ r. r ≡ Refusal.Memory) }
{
    let (mut records, rebuilt_parts) = rebuild_parts(alloc, records, graph, at);
    match rebuilt_parts {
        Ok(rebuilt_parts) => {
            let rebuilt = told(alloc, before, &mut records, rebuilt_parts, at);
            Rebuild { records, rebuilt }
        }
        Err(refusal) => Rebuild {
            records,
            rebuilt: Err(refusal),
        },
    }
}
