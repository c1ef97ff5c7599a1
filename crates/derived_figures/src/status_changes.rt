// Statuses worked out again at the places that a change touched, and what goes by them.
ghost use Rattle.std.specs.Prelude.{ℤ, map, ◌≡◌, ◌+◌, ◌<◌, ◌≤◌, ℕ, List, [], Some, length, slice_get, slice_set, vec_capacity, All};
ghost use Rattle.std.specs.FinMap.{entries};
ghost use Rattle.plan_basics.specs.declared.keys.OpKey.{OpKey};
ghost use Rattle.plan_model.specs.Contents.{Contents, Operation};
ghost use Rattle.plan_model.specs.Status.{HasStatus};
ghost use Rattle.start_choice.specs.plan_drafts.specs.Places.{AreStatuses};
ghost use Rattle.plan_model.specs.Moves.{IsMovedAt};
ghost use Rattle.start_choice.specs.plan_status.specs.Standings.{AreStandings, AreTallies};
ghost use Rattle.start_choice.specs.Choices.{AreLatestStarts, AreReadyEntries};
ghost use Rattle.derived_figures.specs.StatusesBefore.{AreReadOff, HasStatusAt, KeepStatus};
ghost use Rattle.derived_figures.specs.ByStatuses.{AreInLine, HasRoomForAll};
ghost use Rattle.derived_figures.specs.Entries.{AreEntriesAt, IsEntryAt};

use super::entries::entry_seen;
use super::ready_changes::relist;
use super::tally_changes::retally;
use plan_model::Latest;
use ready_list::{ReadyEntry, ReadyList};
use start_choice::{CountedRecords, SeenOperation, Standing, UncountedContents, status_with};
use status_rules::{Counts, Status};

// The status of the operation at a place, which is seen, by its standing.
fn status_at(seen: &SeenOperation<'_>, standings: &[Standing], place: usize) -> Status
    requires row { slice_get (entries seen.now.uncounted.contents.now.operations) place ≡ Some (seen.now.key.now, seen.now.operation.now) }
    requires standings { AreStandings seen.now.uncounted.contents.now standings.now }
    ensures { (o : OpKey) (op : Operation) → slice_get (entries seen.now.uncounted.contents.now.operations) place ≡ Some (o, op) → HasStatus seen.now.uncounted.contents.now o result }
{
    let attribute = seen.uncounted.attribute_of(seen.operation, place);
    status_with(seen.operation, attribute, &standings[place])
}

// The operation at a place, of which this is the entry, has this status: what goes by it is brought in line.
fn set_status_at(
    uncounted: &UncountedContents<'_>,
    entry: &ReadyEntry,
    statuses: &mut [Status],
    tallies: &mut [Counts],
    ready: &mut ReadyList,
    to: (usize, Status),
)
    requires entry { IsEntryAt uncounted.now.contents.now to.0 entry.now }
    requires room { HasRoomForAll uncounted.now.contents.now ready.old }
    requires in_line { AreInLine uncounted.now.contents.now statuses.old tallies.old ready.old.entries }
    ensures statuses { statuses.new ≡ slice_set statuses.old to.0 to.1 }
    ensures in_line { AreInLine uncounted.now.contents.now statuses.new tallies.new ready.new.entries }
    ensures room { length ready.new.entries + ready.new.room ≡ length ready.old.entries + ready.old.room }
{
    let old = statuses[to.0];
    if old != to.1 {
        retally(uncounted, &entry.key.op, to.0, tallies, old, to.1);
        relist(ready, entry, old, to.1);
        statuses[to.0] = to.1;
    }
}

/// By what statuses are worked out again, and where.
#[derive(Clone, Copy)]
pub struct StatusBasis<'a> {
    pub latest: &'a Latest,
    pub standings: &'a [Standing],
    /// The indices of the operations that a change touched.
    pub places: &'a [usize],
}

/// At each of the places the status is worked out again, by the standings, which are those of the contents. Where it differs, the
/// numbers of its occurrence and the ready list follow. It takes a look at each place at most, and notes the entry of the operation
/// there, by which the list is led back without one. It takes no memory.
///
/// What was kept before is that of a plan from which these contents differ in marks and flags alone, with the same statuses at
/// all other places; then what is kept is that of these contents.
// The list has room for an entry of each operation: so this can't fail, and what is prepared holds no list.
pub fn update_statuses(
    records: &mut CountedRecords,
    by: StatusBasis<'_>,
    statuses: &mut [Status],
    tallies: &mut [Counts],
    ready: &mut ReadyList,
    noted: &mut Vec<ReadyEntry>,
)
    requires within { All (λ i. i < length (entries records.old.contents.operations)) by.places.now }
    requires standings { AreStandings records.old.contents by.standings.now }
    requires latest { AreLatestStarts records.old.contents by.latest.now.starts }
    requires room { HasRoomForAll records.old.contents ready.old }
    requires before { (P : Contents) × (moved : List ℕ) × IsMovedAt P records.old.contents moved × AreReadOff P by.latest.now.starts statuses.old tallies.old ready.old.entries × KeepStatus P records.old.contents by.places.now }
    requires none_noted { noted.old.items ≡ [] }
    requires space { length by.places.now ≤ vec_capacity noted.old }
    ensures statuses { AreStatuses records.old.contents statuses.new }
    ensures tallies { AreTallies records.old.contents tallies.new }
    ensures ready { AreReadyEntries records.old.contents ready.new.entries }
    ensures room { length ready.new.entries + ready.new.room ≡ length ready.old.entries + ready.old.room }
    ensures noted { AreEntriesAt records.old.contents by.entry.places.now noted.new.items }
    ensures contents { records.new.contents ≡ records.old.contents }
    ensures fewest { records.old.looks ≤ records.new.looks }
    ensures most { records.new.looks ≤ records.old.looks + length by.entry.places.now }
{
    let StatusBasis {
        latest,
        standings,
        places,
    } = by;
    records.uncounted().are_sound();
    for place in places {
        let seen = records.see(*place);
        let status = status_at(&seen, standings, *place);
        let entry = entry_seen(&seen, latest, *place);
        set_status_at(
            &seen.uncounted,
            &entry,
            statuses,
            tallies,
            ready,
            (*place, status),
        );
        noted.push_reserved(entry);
    }
}

/// Gives the operations at these places these statuses, which are those that they have; the numbers of their occurrences and the
/// ready list follow. For each there is its entry, so nothing is looked at. It takes no memory.
///
/// What was kept before is that of a plan from which these contents differ in marks and flags alone, with the same statuses at
/// all other places; then what is kept is that of these contents.
pub fn set_statuses(
    uncounted: &UncountedContents<'_>,
    statuses: &mut [Status],
    tallies: &mut [Counts],
    ready: &mut ReadyList,
    to: &[(usize, Status)],
    listed: &[ReadyEntry],
)
    requires listed { AreEntriesAt uncounted.now.contents.now (map (λ value. value.0) to.now) listed.now }
    requires right { All (HasStatusAt uncounted.now.contents.now) to.now }
    requires room { HasRoomForAll uncounted.now.contents.now ready.old }
    requires before { (P : Contents) × (moved : List ℕ) × (starts : List ℤ) × IsMovedAt P uncounted.now.contents.now moved × AreLatestStarts uncounted.now.contents.now starts × AreReadOff P starts statuses.old tallies.old ready.old.entries × KeepStatus P uncounted.now.contents.now (map (λ value. value.0) to.now) }
    ensures statuses { AreStatuses uncounted.now.contents.now statuses.new }
    ensures tallies { AreTallies uncounted.now.contents.now tallies.new }
    ensures ready { AreReadyEntries uncounted.now.contents.now ready.new.entries }
    ensures room { length ready.new.entries + ready.new.room ≡ length ready.old.entries + ready.old.room }
{
    uncounted.are_sound();
    for (index, value) in to.iter().enumerate() {
        set_status_at(uncounted, &listed[index], statuses, tallies, ready, *value);
    }
}
