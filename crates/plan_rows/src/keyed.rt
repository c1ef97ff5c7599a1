// The table of special resources: whether each is available.
ghost use Rattle.std.specs.Prelude.{◌≡◌, ◌↔◌, ◌<◌, List, Some, OnOk, length, map, refl, slice_get};
ghost use Rattle.std.specs.FinMap.{entries};
ghost use Rattle.std.specs.List.Sorted.{IsStrictlySortedBy};
ghost use Rattle.std.specs.Map.{keys_of};
ghost use Rattle.plan_basics.specs.Keys.{name_cmp, name_cmp-IsAntisymmetric};
ghost use Rattle.plan_model.specs.Plan.{Plan};
ghost use Rattle.plan_records.specs.plan_drafts.specs.declared.RowKey.TheVariants as key;
ghost use Rattle.plan_rows.specs.Rows.{resource_row};
ghost use Rattle.plan_rows.specs.Sources.{source_if_any};
ghost use Rattle.plan_rows.specs.Tables.{AddsChanges, AreChangesBelow};

use super::row_sources::TableSource;
use super::tables::{PlanTable, push_changes};
use super::uncounted_rows::resources_of;
use plan_basics::ResName;
use plan_model::Stock;
use plan_records::{Changes, PlanRow, RowKey};
use row_differences::TwoTables;
use std::alloc::{AllocError, Global};
use std::cmp::Ordering;

/// The special resources before and after, by name.
#[derive(Drop)]
pub struct Resources<'a, 'b> {
    before: &'a [(ResName, Stock)],
    after: &'b [(ResName, Stock)],
}

impl<'a, 'b> TwoTables for Resources<'a, 'b> {
    type Key = ResName;

    ghost before = { λ t. keys_of t.before.now };

    ghost after = { λ t. keys_of t.after.now };

    ghost IsAlike = { λ t i j. slice_get (map resource_row t.before.now) i ≡ slice_get (map resource_row t.after.now) j };

    fn rows_before(&self) -> usize {
        self.before.len()
    }

    fn rows_after(&self) -> usize {
        self.after.len()
    }

    fn order(&self, old: usize, new: usize) -> Ordering {
        self.before[old].0.cmp(&self.after[new].0)
    }

    fn is_alike(&self, old: usize, new: usize) -> bool {
        self.before[old].1.available == self.after[new].1.available
    }
}

impl<'a, 'b> PlanTable for Resources<'a, 'b> {
    ghost name = { key.Resource };

    ghost olds = { λ t. map resource_row t.before.now };

    ghost news = { λ t. map resource_row t.after.now };

    fn key_before(&self, old: usize) -> RowKey {
        RowKey::Resource(self.before[old].0)
    }

    fn row_after(&self, new: usize) -> PlanRow {
        let (name, stock) = self.after[new];
        PlanRow::Resource {
            name,
            available: stock.available,
        }
    }

    ghost in_order = { λ a b. refl };

    ghost exact = { name_cmp-IsAntisymmetric };

    ghost alike = { λ t i j one. (λ h. h, λ h. h) };
}

/// Adds what changes in the table of special resources, from what there is of them before and after.
pub fn push_noted_resources(
    alloc: Global,
    before: &[(ResName, Stock)],
    after: &[(ResName, Stock)],
    changes: &mut Changes,
) -> Result<(), AllocError>
    requires before { IsStrictlySortedBy name_cmp (keys_of before.now) }
    requires after { IsStrictlySortedBy name_cmp (keys_of after.now) }
    ensures { (P Q : Plan) → before.now ≡ entries P.contents.resources → after.now ≡ entries Q.contents.resources → AreChangesBelow 3 P Q changes.old → OnOk result (AreChangesBelow 4 P Q changes.new) }
{
    push_changes(alloc, &Resources { before, after }, changes)
}

/// Adds what changes in the table of special resources.
pub fn push_resources(
    alloc: Global,
    before: Option<TableSource<'_>>,
    after: Option<TableSource<'_>>,
    changes: &mut Changes,
) -> Result<(), AllocError>
    ensures { AddsChanges 3 4 (source_if_any before.entry) (source_if_any after.entry) result changes.old changes.new }
{
    push_noted_resources(alloc, resources_of(before), resources_of(after), changes)
}
