// The entries of operations at some places, noted.
ghost use Rattle.std.specs.Prelude.{◌≡◌, ◌+◌, ◌<◌, ◌≤◌, ℕ, [], ◌∷◌, All, Contains, IfOk, MatchOption, Some, length, slice_get, vec_capacity};
ghost use Rattle.std.specs.FinMap.{entries};
ghost use Rattle.std.specs.List.Sorted.{IsStrictlySortedBy};
ghost use Rattle.std.specs.Ordering.{nat_cmp};
ghost use Rattle.start_choice.specs.Choices.{AreLatestStarts};
ghost use Rattle.start_choice.specs.plan_status.specs.Summaries.{AreSummaries};
ghost use Rattle.derived_figures.specs.UnknownPlaces.{unknown_places};
ghost use Rattle.derived_figures.specs.Entries.{AreEntriesAt, IsEntryAt};

use plan_model::Latest;
use ready_list::ReadyEntry;
use start_choice::{
    CountedRecords, OperationSummary, SeenOperation, UncountedContents, entry_at, entry_with,
};
use std::alloc::{AllocError, Global};

/// The entry of the operation at a place, which is seen.
pub fn entry_seen(seen: &SeenOperation<'_>, latest: &Latest, place: usize) -> ReadyEntry
    requires row { slice_get (entries seen.now.uncounted.contents.now.operations) place ≡ Some (seen.now.key.now, seen.now.operation.now) }
    requires latest { AreLatestStarts seen.now.uncounted.contents.now latest.now.starts }
    ensures { IsEntryAt seen.now.uncounted.contents.now place result }
{
    entry_with(
        &seen.uncounted,
        seen.key,
        seen.operation,
        latest.of(place),
        place,
    )
}

// The index of a place among places in order, by a search.
fn searched(places: &[usize], place: usize) -> Option<usize>
    requires { IsStrictlySortedBy nat_cmp places.now }
    ensures { MatchOption result (¬ Contains places.now place) (λ k. slice_get places.now k ≡ Some place) }
{
    places.binary_search(&place).ok()
}

// The entry of the operation at a place: the one that is known, or else by a look.
fn entry_of(
    records: &mut CountedRecords,
    latest: &Latest,
    place: usize,
    known_at: &[usize],
    known: &[ReadyEntry],
) -> ReadyEntry
    requires within { place < length (entries records.old.contents.operations) }
    requires latest { AreLatestStarts records.old.contents latest.now.starts }
    requires known { AreEntriesAt records.old.contents known_at.now known.now }
    requires ascending { IsStrictlySortedBy nat_cmp known_at.now }
    ensures entry { IsEntryAt records.old.contents place result }
    ensures contents { records.new.contents ≡ records.old.contents }
    ensures fewest { records.old.looks ≤ records.new.looks }
    ensures most { records.new.looks ≤ records.old.looks + length (unknown_places known_at.now (place ∷ [])) }
{
    match searched(known_at, place) {
        Some(index) => known[index],
        None => {
            let seen = records.see(place);
            entry_seen(&seen, latest, place)
        }
    }
}

/// Notes the entry of the operation at each of these places: the one that is known, or else by a look. It takes no memory.
pub fn entries_at(
    records: &mut CountedRecords,
    latest: &Latest,
    places: &[usize],
    known_at: &[usize],
    known: &[ReadyEntry],
    noted: &mut Vec<ReadyEntry>,
)
    requires within { All (λ i. i < length (entries records.old.contents.operations)) places.now }
    requires latest { AreLatestStarts records.old.contents latest.now.starts }
    requires known { AreEntriesAt records.old.contents known_at.now known.now }
    requires ascending { IsStrictlySortedBy nat_cmp known_at.now }
    requires none_noted { noted.old.items ≡ [] }
    requires space { length places.now ≤ vec_capacity noted.old }
    ensures noted { AreEntriesAt records.old.contents places.now noted.new.items }
    ensures contents { records.new.contents ≡ records.old.contents }
    ensures fewest { records.old.looks ≤ records.new.looks }
    ensures most { records.new.looks ≤ records.old.looks + length (unknown_places known_at.now places.now) }
{
    for place in places {
        let entry = entry_of(records, latest, *place, known_at, known);
        noted.push_reserved(entry);
    }
}

// The entry of the operation at a place, by its summary.
fn entry_by_summary(
    uncounted: &UncountedContents<'_>,
    summaries: &[OperationSummary],
    latest: &Latest,
    place: usize,
) -> ReadyEntry
    requires within { place < length (entries uncounted.now.contents.now.operations) }
    requires summaries { AreSummaries uncounted.now.contents.now summaries.now }
    requires latest { AreLatestStarts uncounted.now.contents.now latest.now.starts }
    ensures { IsEntryAt uncounted.now.contents.now place result }
{
    entry_at(uncounted, summaries, latest, place)
}

/// The entry of the operation at each of these places, by the summaries of all operations: nothing is looked at.
pub fn entries_by_summaries(
    alloc: Global,
    uncounted: &UncountedContents<'_>,
    summaries: &[OperationSummary],
    latest: &Latest,
    places: &[usize],
) -> Result<Vec<ReadyEntry>, AllocError>
    requires within { All (λ i. i < length (entries uncounted.now.contents.now.operations)) places.now }
    requires summaries { AreSummaries uncounted.now.contents.now summaries.now }
    requires latest { AreLatestStarts uncounted.now.contents.now latest.now.starts }
    ensures { IfOk result (λ found. AreEntriesAt uncounted.now.contents.now places.now found.items) }
{
    let mut found = Vec::with_capacity(alloc, places.len())?;
    for place in places {
        found.push(entry_by_summary(uncounted, summaries, latest, *place))?;
    }
    Ok(found)
}
