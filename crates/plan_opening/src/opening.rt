// The plan whose rows these are.
ghost use Rattle.std.specs.Prelude.{◌≡◌, Some, ◌↔◌, IfErr, IfOk, IfSome, IsTrue, MatchOption};
ghost use Rattle.plan_basics.specs.Minutes.{IsMoment};
ghost use Rattle.plan_basics.specs.declared.Refusal.{Refusal};
ghost use Rattle.plan_model.specs.Contents.{Contents};
ghost use Rattle.plan_model.specs.Plan.{Plan, plan_held};
ghost use Rattle.plan_model.specs.Valid.{IsSound};
ghost use Rattle.plan_drafts.specs.PlanGraphs.{IsGraphFor};
ghost use Rattle.plan_rows.specs.derived_figures.specs.DerivedRefs.{AreDerivedOf};
ghost use Rattle.plan_opening.specs.Opening.{AreContentsOf, AreOfNoPlan, IsPlanOf};
ghost use Rattle.plan_rows.specs.derived_figures.specs.Afresh.{IsDerivedAfresh};
ghost use Rattle.plan_records.specs.Rows.{AreRows};

use super::first::are_first;
use crate::lists::are_these;
use crate::restoring::{contents_of_rows, meta_of_rows};
use crate::soundness::judged;
use plan_basics::{Moment, Refusal};
use plan_model::Graph;
use plan_records::PlanRow;
use plan_rows::{
    CountedRecords, DerivedAfresh, DerivedRefs, LoadedPlan, SoundContents, ValidContents,
    columns_of, derived_afresh, graph_for, rows_of,
};
use record_permits::granted;
use std::alloc::Global;

/// A plan in memory: its clock, and what it holds, if one is loaded.
#[derive(Drop)]
pub struct OpenedPlan {
    pub clock: Moment,
    pub loaded: Option<LoadedPlan>,
}

// The sound contents of which these may be the rows. The error is always `Memory`.
fn sound_contents_of(alloc: Global, rows: &[PlanRow]) -> Result<Option<SoundContents>, Refusal>
    ensures sound { IfOk result (λ found. IfSome found IsSound) }
    ensures complete { IfOk result (λ found. (P : Plan) → IsSound P.contents → AreRows P rows.now → found ≡ Some P.contents) }
    ensures refused { IfErr result (λ r. r ≡ Refusal.Memory) }
{
    let Some(contents) = contents_of_rows(alloc, rows)? else {
        return Ok(None);
    };
    judged(alloc, ValidContents::of(contents))
}

// Whether these are all rows of the records as a loaded plan at this clock, each once, where this is kept of it. The error is always
// `Memory`.
fn are_rows_of(
    alloc: Global,
    clock: Moment,
    records: &mut CountedRecords,
    derived: DerivedRefs<'_>,
    rows: &[PlanRow],
) -> Result<bool, Refusal>
    requires derived { AreDerivedOf records.old.contents derived }
    ensures told { IfOk result (λ told. IsTrue told ↔ AreRows (plan_held clock (Some records.old.contents)) rows.now) }
    ensures contents { records.new.contents ≡ records.old.contents }
    ensures refused { IfErr result (λ r. r ≡ Refusal.Memory) }
{
    records.uncounted().are_sound();
    let all = rows_of(alloc, records, columns_of(derived), clock)?;
    Ok(are_these(alloc, rows, &all)?)
}

// What is kept of the plan of these records, which has this graph, if these are all of its rows as a loaded plan at this clock. The error
// is always `Memory`.
fn kept_with_rows(
    alloc: Global,
    clock: Moment,
    records: &mut CountedRecords,
    graph: &Graph,
    rows: &[PlanRow],
) -> Result<Option<DerivedAfresh>, Refusal>
    requires graph { IsGraphFor records.old.contents graph.now }
    ensures found { IfOk result (λ found. MatchOption found (¬ AreRows (plan_held clock (Some records.old.contents)) rows.now) (λ w. AreRows (plan_held clock (Some records.old.contents)) rows.now × IsDerivedAfresh records.old.contents w)) }
    ensures contents { records.new.contents ≡ records.old.contents }
    ensures refused { IfErr result (λ r. r ≡ Refusal.Memory) }
{
    let derived_afresh = derived_afresh(alloc, records, graph)?;
    let derived = DerivedRefs {
        graph,
        latest: &derived_afresh.latest,
        figures: &derived_afresh.figures,
    };
    if !are_rows_of(alloc, clock, records, derived, rows)? {
        return Ok(None);
    }
    Ok(Some(derived_afresh))
}

// The loaded plan of these contents, if these are all of its rows at this clock. No look is counted. The error is always `Memory`.
fn loaded_with_rows(
    alloc: Global,
    clock: Moment,
    contents: SoundContents,
    rows: &[PlanRow],
) -> Result<Option<LoadedPlan>, Refusal>
    ensures found { IfOk result (λ found. MatchOption found (¬ AreRows (plan_held clock (Some contents)) rows.now) (λ loaded. AreRows (plan_held clock (Some contents)) rows.now × (loaded ≡ contents))) }
    ensures refused { IfErr result (λ r. r ≡ Refusal.Memory) }
{
    let graph = graph_for(alloc, contents.valid())?;
    let permit = granted();
    let mut records = CountedRecords::of(contents, &permit);
    let kept = kept_with_rows(alloc, clock, &mut records, &graph, rows);
    let (contents, _looks) = records.into_contents(&permit);
    match kept? {
        Some(kept) => Ok(Some(LoadedPlan::of(contents, graph, kept.latest, kept.figures))),
        None => Ok(None),
    }
}

// The loaded plan whose rows these are at this clock. The error is always `Memory`.
fn loaded_of_rows(
    alloc: Global,
    clock: Moment,
    rows: &[PlanRow],
) -> Result<Option<LoadedPlan>, Refusal>
    ensures found { IfOk result (λ found. MatchOption found ((P : Contents) → ¬ AreContentsOf clock rows.now P) (AreContentsOf clock rows.now)) }
    ensures refused { IfErr result (λ r. r ≡ Refusal.Memory) }
{
    let Some(contents) = sound_contents_of(alloc, rows)? else {
        return Ok(None);
    };
    loaded_with_rows(alloc, clock, contents, rows)
}

// The sound plan whose rows these are, where each plan that has them is loaded or not, as told, and has this clock. The
// error is always `Memory`.
fn plan_at(
    alloc: Global,
    is_loaded: bool,
    clock: Moment,
    rows: &[PlanRow],
) -> Result<Option<OpenedPlan>, Refusal>
    requires clock { IsMoment clock }
    requires told { (P : Plan) → AreRows P rows.now → (P.loaded ≡ is_loaded) × (P.clock ≡ clock) }
    ensures opened { IfOk result (λ found. MatchOption found (AreOfNoPlan rows.now) (λ p. IsPlanOf rows.now (plan_held p.clock p.loaded))) }
    ensures refused { IfErr result (λ r. r ≡ Refusal.Memory) }
{
    if is_loaded {
        let Some(loaded) = loaded_of_rows(alloc, clock, rows)? else {
            return Ok(None);
        };
        return Ok(Some(OpenedPlan {
            clock,
            loaded: Some(loaded),
        }));
    }
    if !are_first(rows) {
        return Ok(None);
    }
    Ok(Some(OpenedPlan {
        clock,
        loaded: None,
    }))
}

/// The sound plan whose rows these are, each once and in any order; `None` where there is none. The error is always
/// `Memory`.
pub fn plan_of_rows(alloc: Global, rows: &[PlanRow]) -> Result<Option<OpenedPlan>, Refusal>
    ensures opened { IfOk result (λ found. MatchOption found (AreOfNoPlan rows.now) (λ p. IsPlanOf rows.now (plan_held p.clock p.loaded))) }
    ensures refused { IfErr result (λ r. r ≡ Refusal.Memory) }
{
    let Some(meta) = meta_of_rows(rows) else {
        return Ok(None);
    };
    plan_at(alloc, meta.0, meta.1, rows)
}
