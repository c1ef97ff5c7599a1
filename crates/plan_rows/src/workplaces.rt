// The table of workstations.
ghost use Rattle.std.specs.Prelude.{◌≡◌, ◌↔◌, ◌<◌, List, Some, length, map, refl, slice_get};
ghost use Rattle.std.specs.Map.{keys_of};
ghost use Rattle.plan_basics.specs.Keys.{Name, name_cmp-IsAntisymmetric};
ghost use Rattle.plan_records.specs.plan_drafts.specs.declared.RowKey.TheVariants as key;
ghost use Rattle.plan_rows.specs.Rows.{workstation_row};
ghost use Rattle.plan_rows.specs.Sources.{source_if_any};
ghost use Rattle.plan_rows.specs.Tables.{AddsChanges};

use super::row_sources::TableSource;
use super::tables::{PlanTable, push_changes};
use super::uncounted_rows::workstations_of;
use plan_basics::WsName;
use plan_records::{Changes, PlanRow, RowKey};
use row_differences::TwoTables;
use std::alloc::{AllocError, Global};
use std::cmp::Ordering;
use workstations::Workstation;

// The name of the workstation at an index.
fn name_at(workstations: &[Workstation], place: usize) -> WsName
    requires { place < length (keys_of workstations.now) }
    ensures { (name : Name) → slice_get (keys_of workstations.now) place ≡ Some name → result ≡ name }
{
    workstations[place].name()
}

/// The workstations before and after, by name.
#[derive(Drop)]
pub struct Workplaces<'a, 'b> {
    before: &'a [Workstation],
    after: &'b [Workstation],
}

impl<'a, 'b> TwoTables for Workplaces<'a, 'b> {
    type Key = WsName;

    ghost before = { λ t. keys_of t.before.now };

    ghost after = { λ t. keys_of t.after.now };

    ghost IsAlike = { λ t i j. slice_get (map workstation_row t.before.now) i ≡ slice_get (map workstation_row t.after.now) j };

    fn rows_before(&self) -> usize {
        self.before.len()
    }

    fn rows_after(&self) -> usize {
        self.after.len()
    }

    fn order(&self, old: usize, new: usize) -> Ordering {
        name_at(self.before, old).cmp(&name_at(self.after, new))
    }

    fn is_alike(&self, old: usize, new: usize) -> bool {
        self.before[old].attribute() == self.after[new].attribute()
    }
}

impl<'a, 'b> PlanTable for Workplaces<'a, 'b> {
    ghost name = { key.Workstation };

    ghost olds = { λ t. map workstation_row t.before.now };

    ghost news = { λ t. map workstation_row t.after.now };

    fn key_before(&self, old: usize) -> RowKey {
        RowKey::Workstation(self.before[old].name())
    }

    fn row_after(&self, new: usize) -> PlanRow {
        let workstation = &self.after[new];
        PlanRow::Workstation {
            name: workstation.name(),
            attr: workstation.attribute(),
        }
    }

    ghost in_order = { λ a b. refl };

    ghost exact = { name_cmp-IsAntisymmetric };

    ghost alike = { λ t i j one. (λ h. h, λ h. h) };
}

/// Adds what changes in the table of workstations.
pub fn push_workstations(
    alloc: Global,
    before: Option<TableSource<'_>>,
    after: Option<TableSource<'_>>,
    changes: &mut Changes,
) -> Result<(), AllocError>
    ensures { AddsChanges 1 2 (source_if_any before.entry) (source_if_any after.entry) result changes.old changes.new }
{
    push_changes(
        alloc,
        &Workplaces {
            before: workstations_of(before),
            after: workstations_of(after),
        },
        changes,
    )
}
