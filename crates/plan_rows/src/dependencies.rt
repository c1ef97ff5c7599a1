// The table of dependencies.
ghost use Rattle.std.specs.Prelude.{◌≡◌, ◌↔◌, ◌<◌, List, Some, length, map, refl, slice_get};
ghost use Rattle.plan_records.specs.plan_drafts.specs.declared.RowKey.TheVariants as key;
ghost use Rattle.plan_rows.specs.Alike.{pair_exact};
ghost use Rattle.plan_rows.specs.Rows.{dependency_row};
ghost use Rattle.plan_rows.specs.Sources.{source_if_any};
ghost use Rattle.plan_rows.specs.Tables.{AddsChanges};

use super::row_sources::TableSource;
use super::tables::{PlanTable, push_changes};
use super::uncounted_rows::pairs_of;
use plan_basics::OpKey;
use plan_records::{Changes, PlanRow, RowKey};
use row_differences::TwoTables;
use std::alloc::{AllocError, Global};
use std::cmp::Ordering;

/// The pairs before and after, by predecessor and then successor.
#[derive(Drop)]
pub struct Dependencies<'a, 'b> {
    before: &'a [(OpKey, OpKey)],
    after: &'b [(OpKey, OpKey)],
}

impl<'a, 'b> TwoTables for Dependencies<'a, 'b> {
    type Key = (OpKey, OpKey);

    ghost before = { λ t. t.before.now };

    ghost after = { λ t. t.after.now };

    ghost IsAlike = { λ t i j. slice_get (map dependency_row t.before.now) i ≡ slice_get (map dependency_row t.after.now) j };

    fn rows_before(&self) -> usize {
        self.before.len()
    }

    fn rows_after(&self) -> usize {
        self.after.len()
    }

    fn order(&self, old: usize, new: usize) -> Ordering {
        self.before[old].cmp(&self.after[new])
    }

    fn is_alike(&self, _old: usize, _new: usize) -> bool {
        true
    }
}

impl<'a, 'b> PlanTable for Dependencies<'a, 'b> {
    ghost name = { λ x. key.Dependency x.0 x.1 };

    ghost olds = { λ t. map dependency_row t.before.now };

    ghost news = { λ t. map dependency_row t.after.now };

    fn key_before(&self, old: usize) -> RowKey {
        let (predecessor, successor) = self.before[old];
        RowKey::Dependency(predecessor, successor)
    }

    fn row_after(&self, new: usize) -> PlanRow {
        let (predecessor, successor) = self.after[new];
        PlanRow::Dependency {
            predecessor,
            successor,
        }
    }

    ghost in_order = { λ a b. refl };

    ghost exact = { pair_exact };

    ghost alike = { λ t i j one. (λ h. h, λ h. h) };
}

/// Adds what changes in the table of dependencies.
pub fn push_dependencies(
    alloc: Global,
    before: Option<TableSource<'_>>,
    after: Option<TableSource<'_>>,
    changes: &mut Changes,
) -> Result<(), AllocError>
    ensures { AddsChanges 6 7 (source_if_any before.entry) (source_if_any after.entry) result changes.old changes.new }
{
    push_changes(
        alloc,
        &Dependencies {
            before: pairs_of(before),
            after: pairs_of(after),
        },
        changes,
    )
}
