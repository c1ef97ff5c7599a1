// All tables together: what changes from one plan to another, and all rows of a plan.
ghost use Rattle.std.specs.Prelude.{◌≡◌, ◌+◌, ◌*◌, ◌≤◌, Some, IfOk, length, map};
ghost use Rattle.std.specs.FinMap.{entries};
ghost use Rattle.std.specs.List.Sorted.{IsStrictlySortedBy};
ghost use Rattle.plan_records.specs.Rows.{AreChanges, AreRows, key_of, row_cmp};
ghost use Rattle.plan_model.specs.Plan.{plan_held};
ghost use Rattle.plan_rows.specs.Kept.{AreNewNeeds, KeepsRecords};
ghost use Rattle.plan_rows.specs.Sources.{IsSource, IsSourceIfAny, contents_if_any, plan_if_any, source_with, source_if_any, source_of};
ghost use Rattle.plan_rows.specs.Tables.{AddsChanges};

use super::columns::SourceColumns;
use super::dependencies::push_dependencies;
use super::intervals::push_intervals;
use super::keyed::push_resources;
use super::meta::meta_changes;
use super::needs::{new_needs, push_amounts, push_needs};
use super::occurrences::push_occurrences;
use super::operations::push_operations;
use super::quantities::push_quantities;
use super::row_sources::{PlanBefore, TableSource};
use super::workplaces::push_workstations;
use derived_figures::CountedRecords;
use plan_basics::{Moment, OpKey};
use plan_records::{Changes, PlanRow};
use special_resources::Need;
use std::alloc::{AllocError, Global};

// Adds what changes in the tables of workstations, of intervals and of special resources.
fn push_stations(
    alloc: Global,
    before: Option<TableSource<'_>>,
    after: TableSource<'_>,
    changes: &mut Changes,
) -> Result<(), AllocError>
    requires before { IsSourceIfAny (source_if_any before) }
    requires after { IsSource (source_of after) }
    ensures { AddsChanges 1 4 (source_if_any before.entry) (Some (source_of after.entry)) result changes.old changes.new }
{
    push_workstations(alloc, before, Some(after), changes)?;
    push_intervals(alloc, before, Some(after), changes)?;
    push_resources(alloc, before, Some(after), changes)
}

// Adds what changes in the tables of dependencies, of needs, of quantities and of amounts, by the needs of the operations that the
// plan before hasn't.
fn push_links(
    alloc: Global,
    before: Option<TableSource<'_>>,
    after: TableSource<'_>,
    needs: &[(OpKey, Need)],
    changes: &mut Changes,
) -> Result<(), AllocError>
    requires kept { KeepsRecords (contents_if_any (source_if_any before)) after.uncounted.contents.now }
    requires needs { AreNewNeeds (contents_if_any (source_if_any before)) after.uncounted.contents.now needs.now }
    ensures { AddsChanges 6 10 (source_if_any before.entry) (Some (source_of after.entry)) result changes.old changes.new }
{
    push_dependencies(alloc, before, Some(after), changes)?;
    push_needs(needs, changes)?;
    push_quantities(alloc, before, Some(after), changes)?;
    push_amounts(needs, changes)
}

/// Which rows of the tables change from the plan before to that of these records at this clock, which keeps its operations. It takes a
/// look at each operation whose row is told, and one at each that there wasn't, for its needs.
pub fn changes_between(
    alloc: Global,
    before: &PlanBefore<'_>,
    records: &mut CountedRecords,
    columns: SourceColumns<'_>,
    clock: Moment,
) -> Result<Changes, AllocError>
    requires before { IsSourceIfAny (source_if_any before.now.loaded) }
    requires source { IsSource (source_with records.old.contents columns) }
    requires kept { KeepsRecords (contents_if_any (source_if_any before.now.loaded)) records.old.contents }
    ensures changes { IfOk result (λ c. AreChanges (plan_if_any before.now.clock (source_if_any before.now.loaded)) (plan_held clock (Some records.old.contents)) c.rows.items c.gone.items) }
    ensures contents { records.new.contents ≡ records.old.contents }
    ensures fewest { records.old.looks ≤ records.new.looks }
    ensures most { IfOk result (λ c. records.new.looks + length (entries (contents_if_any (source_if_any before.now.loaded)).operations) ≤ records.old.looks + 2 * length (entries records.old.contents.operations)) }
{
    let old = before.loaded;
    let mut changes = meta_changes(alloc, before, clock)?;
    let uncounted = records.uncounted();
    push_stations(alloc, old, TableSource { uncounted, columns }, &mut changes)?;
    push_occurrences(alloc, old, records, columns, &mut changes)?;
    push_operations(alloc, old, records, columns, &mut changes)?;
    let needs = new_needs(alloc, old, records)?;
    let uncounted = records.uncounted();
    let new = TableSource { uncounted, columns };
    push_links(alloc, old, new, &needs, &mut changes)?;
    Ok(changes)
}

/// All rows of these records as a loaded plan at this clock, in key order: two looks at each operation.
pub fn rows_of(
    alloc: Global,
    records: &mut CountedRecords,
    columns: SourceColumns<'_>,
    clock: Moment,
) -> Result<Vec<PlanRow>, AllocError>
    requires { IsSource (source_with records.old.contents columns) }
    ensures rows { IfOk result (λ v. AreRows (plan_held clock (Some records.old.contents)) v.items) }
    ensures in_order { IfOk result (λ v. IsStrictlySortedBy row_cmp (map key_of v.items)) }
    ensures contents { records.new.contents ≡ records.old.contents }
    ensures fewest { records.old.looks ≤ records.new.looks }
    ensures most { IfOk result (λ v. records.new.looks ≤ records.old.looks + 2 * length (entries records.old.contents.operations)) }
{
    let nothing = PlanBefore {
        clock,
        loaded: None,
    };
    Ok(changes_between(alloc, &nothing, records, columns, clock)?.rows)
}
