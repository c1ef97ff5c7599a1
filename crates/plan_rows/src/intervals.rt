// The table of the intervals of workstations.
ghost use Rattle.std.specs.Prelude.{◌≡◌, ◌↔◌, ◌<◌, ◌++◌, List, Option, Some, IfOk, OnOk, length, map, refl, slice_get};
ghost use Rattle.std.specs.FinMap.{entries};
ghost use Rattle.std.specs.List.Sorted.{IsStrictlySortedBy};
ghost use Rattle.std.specs.Map.{keys_of};
ghost use Rattle.plan_basics.specs.Keys.{name_cmp};
ghost use Rattle.plan_records.specs.plan_drafts.specs.declared.RowKey.TheVariants as key;
ghost use Rattle.plan_rows.specs.Alike.{interval_alike, interval_key_cmp, interval_key_exact};
ghost use Rattle.plan_rows.specs.Rows.{all_intervals, interval_row, intervals_within, under_both};
ghost use Rattle.plan_rows.specs.Sources.{IsSourceIfAny, contents_if_any, source_if_any};
ghost use Rattle.plan_rows.specs.Tables.{AddsChanges};
ghost use Rattle.plan_rows.specs.declared.row_sources.RowSource.{RowSource as RowSourceValue};

use super::row_sources::TableSource;
use super::tables::{PlanTable, push_changes};
use super::uncounted_rows::workstations_of;
use plan_basics::{Interval, Moment, WsName};
use plan_records::{Changes, PlanRow, RowKey};
use row_differences::KeyedRows;
use std::alloc::{AllocError, Global};
use workstations::Workstation;

impl<'a, 'b> PlanTable for KeyedRows<'a, 'b, (WsName, Moment), Interval> {
    ghost name = { λ x. key.Interval x.0 x.1 };

    ghost olds = { λ t. map interval_row t.before.now };

    ghost news = { λ t. map interval_row t.after.now };

    fn key_before(&self, old: usize) -> RowKey {
        let (workstation, from) = self.before[old].0;
        RowKey::Interval(workstation, from)
    }

    fn row_after(&self, new: usize) -> PlanRow {
        let ((ws, _), interval) = self.after[new];
        PlanRow::Interval { ws, interval }
    }

    ghost in_order = { λ a b. refl };

    ghost exact = { interval_key_exact };

    ghost alike = { λ t i j one. interval_alike t.before.now t.after.now i j one };
}

// Adds the intervals of a workstation, each under its name and first minute.
fn push_intervals_of(
    found: &mut Vec<((WsName, Moment), Interval)>,
    workstation: &Workstation,
) -> Result<(), AllocError>
    ensures { OnOk result (found.new.items ≡ found.old.items ++ under_both intervals_within workstation.now) }
{
    let name = workstation.name();
    let intervals = workstation.intervals();
    for interval in intervals {
        found.push(((name, interval.from()), *interval))?;
    }
    Ok(())
}

/// The intervals of all workstations, each under its workstation's name and its first minute.
pub fn intervals_of(
    alloc: Global,
    workstations: &[Workstation],
) -> Result<Vec<((WsName, Moment), Interval)>, AllocError>
    ensures { IfOk result (λ v. v.items ≡ all_intervals workstations.now) }
{
    let mut found = Vec::new(alloc);
    for workstation in workstations {
        push_intervals_of(&mut found, workstation)?;
    }
    Ok(found)
}

/// Adds what changes in the table of intervals, from the workstations before and these rows of it after.
pub fn push_noted_intervals(
    alloc: Global,
    before: &[Workstation],
    after: &[((WsName, Moment), Interval)],
    changes: &mut Changes,
) -> Result<(), AllocError>
    requires before { IsStrictlySortedBy name_cmp (keys_of before.now) }
    requires in_order { IsStrictlySortedBy interval_key_cmp (keys_of after.now) }
    ensures { (was records : Option RowSourceValue) → IsSourceIfAny was → IsSourceIfAny records → before.now ≡ entries (contents_if_any was).workstations → after.now ≡ all_intervals (entries (contents_if_any records).workstations) → AddsChanges 2 3 was records result changes.old changes.new }
{
    let old = intervals_of(alloc, before)?;
    push_changes(
        alloc,
        &KeyedRows {
            before: &old,
            after,
        },
        changes,
    )
}

/// Adds what changes in the table of intervals.
pub fn push_intervals(
    alloc: Global,
    before: Option<TableSource<'_>>,
    after: Option<TableSource<'_>>,
    changes: &mut Changes,
) -> Result<(), AllocError>
    requires before { IsSourceIfAny (source_if_any before) }
    requires after { IsSourceIfAny (source_if_any after) }
    ensures { AddsChanges 2 3 (source_if_any before.entry) (source_if_any after.entry) result changes.old changes.new }
{
    let new = intervals_of(alloc, workstations_of(after))?;
    push_noted_intervals(alloc, workstations_of(before), &new, changes)
}
