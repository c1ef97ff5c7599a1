// The table that tells whether a plan is loaded, and its clock: one row.
ghost use Rattle.std.specs.Prelude.{◌≡◌, ◌↔◌, ◌++◌, ◌∷◌, [], IsTrue, IfOk, OnOk, Some, is_some};
ghost use Rattle.plan_model.specs.Plan.{Plan};
ghost use Rattle.plan_records.specs.declared.PlanRow.TheVariants as row;
ghost use Rattle.plan_rows.specs.Sources.{plan_if_any, source_if_any};
ghost use Rattle.plan_rows.specs.Tables.{AreChangesBelow};
ghost use Rattle.plan_rows.specs.declared.row_sources.RowSource.{RowSource};

use super::row_sources::{PlanBefore, TableSource};
use plan_basics::Moment;
use plan_records::{Changes, PlanRow};
use row_differences::push_made;
use std::alloc::{AllocError, Global};

// The row of the table.
fn meta_row(loaded: bool, clock: Moment) -> PlanRow
    ensures { result ≡ row.Meta 2 loaded clock }
{
    PlanRow::Meta {
        version: 2,
        loaded,
        clock,
    }
}

// Whether the row stays as it was.
fn stays(was_loaded: bool, was: Moment, loaded: bool, clock: Moment) -> bool
    ensures { IsTrue result ↔ ((was_loaded ≡ loaded) × (was ≡ clock)) }
{
    was_loaded == loaded && was == clock
}

// Adds the row of the table.
fn push_meta_row(loaded: bool, clock: Moment, rows: &mut Vec<PlanRow>) -> Result<(), AllocError>
    ensures { OnOk result (rows.new.items ≡ rows.old.items ++ row.Meta 2 loaded clock ∷ []) }
{
    let only = [0];
    push_made(
        rows,
        &only,
        |_place|
            ensures { result ≡ row.Meta 2 loaded clock }
        { meta_row(loaded, clock) },
    )
}

/// Adds what changes in the table of one row, from whether a plan was loaded and what its clock was to what they are.
pub fn push_meta(
    was_loaded: bool,
    was: Moment,
    loaded: bool,
    clock: Moment,
    changes: &mut Changes,
) -> Result<(), AllocError>
    ensures { (P Q : Plan) → P.loaded ≡ was_loaded → P.clock ≡ was → Q.loaded ≡ loaded → Q.clock ≡ clock → AreChangesBelow 0 P Q changes.old → OnOk result (AreChangesBelow 1 P Q changes.new) }
{
    if stays(was_loaded, was, loaded, clock) {
        return Ok(());
    }
    push_meta_row(loaded, clock, &mut changes.rows)
}

// Whether a plan is loaded.
fn is_loaded(source: Option<TableSource<'_>>) -> bool
    ensures { result ≡ is_some (source_if_any source.entry) }
{
    match source {
        Some(_) => true,
        None => false,
    }
}

/// What changes in the table of one row, from the plan before to one that is loaded at this clock.
pub fn meta_changes(
    alloc: Global,
    before: &PlanBefore<'_>,
    clock: Moment,
) -> Result<Changes, AllocError>
    ensures { (after : RowSource) → IfOk result (AreChangesBelow 1 (plan_if_any before.now.clock (source_if_any before.now.loaded)) (plan_if_any clock (Some after))) }
{
    let mut changes = Changes {
        rows: Vec::new(alloc),
        gone: Vec::new(alloc),
    };
    push_meta(
        is_loaded(before.loaded),
        before.clock,
        true,
        clock,
        &mut changes,
    )?;
    Ok(changes)
}
