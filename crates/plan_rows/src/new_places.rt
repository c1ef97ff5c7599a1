// The operations that the plan before doesn't have.
ghost use Rattle.std.specs.Prelude.{◌≡◌, ◌+◌, ◌<◌, ◌≤◌, ⊤, IfOk, Some, length, slice_get};
ghost use Rattle.std.specs.FinMap.{entries, keys};
ghost use Rattle.plan_rows.specs.Kept.{AreNewPlaces, KeepsRecords};
ghost use Rattle.plan_rows.specs.Sources.{contents_if_any, source_if_any};

use super::row_sources::TableSource;
use derived_figures::UncountedContents;
use plan_basics::OpKey;
use row_differences::{TwoTables, differences};
use std::alloc::{AllocError, Global};
use std::cmp::Ordering;

// How many operations there are; none where no plan is loaded.
fn operation_count(source: Option<TableSource<'_>>) -> usize
    ensures { result ≡ length (keys (contents_if_any (source_if_any source.entry)).operations) }
{
    match source {
        Some(source) => source.uncounted.operation_count(),
        None => 0,
    }
}

// The key of the operation at a place.
fn key_at(uncounted: &UncountedContents<'_>, place: usize) -> OpKey
    requires { place < length (keys uncounted.now.contents.now.operations) }
    ensures { slice_get (keys uncounted.now.contents.now.operations) place ≡ Some result }
{
    *uncounted.operation_key(place)
}

// The key of the operation at a place, of a plan that is loaded since it has one.
fn known_key_at(source: Option<TableSource<'_>>, place: usize) -> OpKey
    requires { place < length (keys (contents_if_any (source_if_any source)).operations) }
    ensures { slice_get (keys (contents_if_any (source_if_any source.entry)).operations) place ≡ Some result }
{
    key_at(&source.unwrap().uncounted, place)
}

/// The operations of a plan before and after, by their keys alone.
#[derive(Clone, Copy)]
struct OperationKeys<'a, 'b> {
    before: Option<TableSource<'a>>,
    after: UncountedContents<'b>,
}

impl<'a, 'b> TwoTables for OperationKeys<'a, 'b> {
    type Key = OpKey;

    ghost before = { λ t. keys (contents_if_any (source_if_any t.before)).operations };

    ghost after = { λ t. keys t.after.contents.now.operations };

    ghost IsAlike = { λ t i j. ⊤ };

    fn rows_before(&self) -> usize {
        operation_count(self.before)
    }

    fn rows_after(&self) -> usize {
        self.after.operation_count()
    }

    fn order(&self, old: usize, new: usize) -> Ordering {
        known_key_at(self.before, old).cmp(&key_at(&self.after, new))
    }

    fn is_alike(&self, _old: usize, _new: usize) -> bool {
        true
    }
}

/// The places of the operations that the plan before doesn't have, where it keeps all that that has: as many as there are more of them.
pub fn new_places(
    alloc: Global,
    before: Option<TableSource<'_>>,
    after: &UncountedContents<'_>,
) -> Result<Vec<usize>, AllocError>
    requires { KeepsRecords (contents_if_any (source_if_any before)) after.now.contents.now }
    ensures places { IfOk result (λ places. AreNewPlaces (contents_if_any (source_if_any before.entry)) after.now.contents.now places.items) }
    ensures few { IfOk result (λ places. length places.items + length (entries (contents_if_any (source_if_any before.entry)).operations) ≤ length (entries after.now.contents.now.operations)) }
{
    let keys = OperationKeys {
        before,
        after: *after,
    };
    let found = differences(alloc, &keys)?;
    Ok(found.changed)
}
