// What is kept by place, moved on to that of the plan after an edit.
ghost use Rattle.std.specs.Prelude.{◌≡◌, ◌+◌, ◌≤◌, ℕ, List, [], length, vec_capacity};
ghost use Rattle.plan_model.specs.Contents.{Contents};
ghost use Rattle.plan_checks.specs.derived_figures.specs.Entries.{AreEntriesAt};
ghost use Rattle.small_requests.specs.Columns.{AreColumnsOf, IsReadyListOf, MakesOf};
ghost use Rattle.small_requests.specs.Groundworks.{HasGroundwork};

use super::columns::FigureColumns;
use super::groundwork::Groundwork;
use super::values::put_at;
use plan_checks::{CountedRecords, StatusBasis, update_standings, update_statuses};
use plan_model::Latest;
use ready_list::{ReadyEntry, ReadyList};

/// Moves columns and the ready list on to those of the plan after an edit of which this was worked out, by a look at each operation
/// that it touches, of which the entry is noted. What stood in the columns leads back. It takes no memory.
pub fn move_columns(
    records: &mut CountedRecords,
    latest: &Latest,
    columns: &mut FigureColumns,
    ready: &mut ReadyList,
    groundwork: &Groundwork,
    noted: &mut Vec<ReadyEntry>,
)
    requires groundwork { (P : Contents) × (edits : List ℕ) × HasGroundwork P records.old.contents edits latest.now.starts columns.old ready.old groundwork.now }
    requires none_noted { noted.old.items ≡ [] }
    requires space { length groundwork.now.touched.items ≤ vec_capacity noted.old }
    ensures columns { AreColumnsOf records.old.contents columns.new }
    ensures ready { IsReadyListOf records.old.contents ready.new }
    ensures back { MakesOf groundwork.now.old columns.new columns.old }
    ensures noted { AreEntriesAt records.old.contents groundwork.now.touched.items noted.new.items }
    ensures contents { records.new.contents ≡ records.old.contents }
    ensures fewest { records.old.looks ≤ records.new.looks }
    ensures most { records.new.looks ≤ records.old.looks + length groundwork.now.touched.items }
{
    put_at(&mut columns.wait_states, &groundwork.wait_states);
    update_standings(
        &mut columns.standings,
        &columns.wait_states,
        &groundwork.touched,
    );
    let by = StatusBasis {
        latest,
        standings: &columns.standings,
        places: &groundwork.touched,
    };
    update_statuses(
        records,
        by,
        &mut columns.statuses,
        &mut columns.tallies,
        ready,
        noted,
    );
}
