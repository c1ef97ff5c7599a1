// The table of the quantities of special resources: of those of which there isn't the greatest quantity.
ghost use Rattle.std.specs.Prelude.{◌≡◌, ◌↔◌, ◌<◌, List, Some, IfOk, length, map, refl, slice_get};
ghost use Rattle.std.specs.List.{filter_map};
ghost use Rattle.std.specs.Map.{keys_of};
ghost use Rattle.plan_basics.specs.Keys.{name_cmp-IsAntisymmetric};
ghost use Rattle.plan_records.specs.plan_drafts.specs.declared.RowKey.TheVariants as key;
ghost use Rattle.plan_rows.specs.Alike.{quantity_alike};
ghost use Rattle.plan_rows.specs.Rows.{quantity_row, quantity_written};
ghost use Rattle.plan_rows.specs.Sources.{source_if_any};
ghost use Rattle.plan_rows.specs.Tables.{AddsChanges};

use super::row_sources::TableSource;
use super::tables::{PlanTable, push_changes};
use super::uncounted_rows::resources_of;
use super::written::push_written;
use plan_basics::ResName;
use plan_basics::limits::MOST_QUANTITY;
use plan_model::Stock;
use plan_records::{Changes, PlanRow, RowKey};
use row_differences::KeyedRows;
use std::alloc::{AllocError, Global};

impl<'a, 'b> PlanTable for KeyedRows<'a, 'b, ResName, u32> {
    ghost name = { key.Quantity };

    ghost olds = { λ t. map quantity_row t.before.now };

    ghost news = { λ t. map quantity_row t.after.now };

    fn key_before(&self, old: usize) -> RowKey {
        RowKey::Quantity(self.before[old].0)
    }

    fn row_after(&self, new: usize) -> PlanRow {
        let (resource, quantity) = self.after[new];
        PlanRow::Quantity { resource, quantity }
    }

    ghost in_order = { λ a b. refl };

    ghost exact = { name_cmp-IsAntisymmetric };

    ghost alike = { λ t i j one. quantity_alike t.before.now t.after.now i j one };
}

// How much there is of a special resource, where that is written: where it isn't the greatest quantity.
fn written_quantity(row: &(ResName, Stock)) -> Option<(ResName, u32)>
    ensures { result ≡ quantity_written row.now }
{
    if row.1.quantity == MOST_QUANTITY {
        None
    } else {
        Some((row.0, row.1.quantity))
    }
}

// The quantities of special resources that are written, by name.
fn quantities_of(
    alloc: Global,
    resources: &[(ResName, Stock)],
) -> Result<Vec<(ResName, u32)>, AllocError>
    ensures { IfOk result (λ v. v.items ≡ filter_map quantity_written resources.now) }
{
    let mut quantities = Vec::new(alloc);
    push_written(
        &mut quantities,
        resources,
        |row|
            ensures { result ≡ quantity_written row }
        { written_quantity(&row) },
    )?;
    Ok(quantities)
}

/// Adds what changes in the table of quantities.
pub fn push_quantities(
    alloc: Global,
    before: Option<TableSource<'_>>,
    after: Option<TableSource<'_>>,
    changes: &mut Changes,
) -> Result<(), AllocError>
    ensures { AddsChanges 8 9 (source_if_any before.entry) (source_if_any after.entry) result changes.old changes.new }
{
    let old = quantities_of(alloc, resources_of(before))?;
    let new = quantities_of(alloc, resources_of(after))?;
    push_changes(
        alloc,
        &KeyedRows {
            before: &old,
            after: &new,
        },
        changes,
    )
}
