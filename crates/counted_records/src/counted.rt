// Records of a plan's operations, looked at one by one and counted.
ghost use Rattle.std.specs.Prelude.{◌≡◌, ◌+◌, ◌<◌, ◌≤◌, Some, length, slice_get};
ghost use Rattle.std.specs.Borrow.{sem};
ghost use Rattle.std.specs.FinMap.{entries};
ghost use Rattle.counted_records.specs.Looks.{TakesOneLook};
ghost use Rattle.plan_status.specs.plan_model.specs.Valid.{IsSound};

use super::uncounted::UncountedContents;
use plan_basics::OpKey;
use plan_changes::PlanContents;
use plan_status::{OperationRecord, SoundContents};
use record_permits::Permit;
use std::marker::Model;

/// What a plan holds, of which an operation's record is looked at by one call alone, which counts. It is made and taken apart by a
/// permit alone, and can't be let go: a part to which it is handed can't get at what it holds, and has to hand it back with its count.
/// Contracts see what it holds, and how many looks were taken.
pub struct CountedRecords {
    contents: SoundContents,
    looks: u64,
}

impl Model for CountedRecords {
    ghost use Rattle.counted_records.specs.States.{CountedState, counted_code};

    ghost Value = { CountedState };

    ghost coded = { counted_code };

    ghost view = { λ s. record { contents = s.contents; looks = s.looks } };
}

/// The key and the record of an operation, and all that stands beside records.
// What stands beside the record is lent with it, since nothing can be asked of `CountedRecords` that are lent.
#[derive(Clone, Copy)]
pub struct SeenOperation<'a> {
    pub key: &'a OpKey,
    pub operation: &'a OperationRecord,
    pub uncounted: UncountedContents<'a>,
}

impl CountedRecords {
    /// These contents, of which nothing was looked at.
    pub fn of(contents: SoundContents, _permit: &Permit) -> CountedRecords
        ensures { result ≡ record { contents = contents; looks = 0 } }
    {
        CountedRecords { contents, looks: 0 }
    }

    /// What it holds, and how many looks were taken.
    pub fn into_contents(self, _permit: &Permit) -> (SoundContents, u64)
        ensures contents { result.0 ≡ self.contents }
        ensures looks { result.1 ≡ self.looks }
        ensures sound { IsSound self.contents }
    {
        let CountedRecords { contents, looks } = self;
        (contents, looks)
    }

    // Its rows, of which others are made here, and how many looks were taken.
    pub(crate) fn into_rows(self) -> (PlanContents, u64)
        ensures contents { result.0 ≡ self.contents }
        ensures looks { result.1 ≡ self.looks }
    {
        let CountedRecords { contents, looks } = self;
        (contents.into_rows(), looks)
    }

    // These rows, of which this many looks were taken.
    pub(crate) fn of_rows(rows: PlanContents, looks: u64) -> CountedRecords
        requires { IsSound rows }
        ensures { result ≡ record { contents = rows; looks = looks } }
    {
        CountedRecords {
            contents: SoundContents::of(rows),
            looks,
        }
    }

    /// All but the records.
    pub fn uncounted(&self) -> UncountedContents<'_>
        ensures contents { result.contents.now ≡ self.now.contents }
        ensures sound { IsSound self.now.contents }
    {
        UncountedContents::of(&self.contents)
    }

    /// The operation at a place, which takes a look.
    // The count stays at its end, so that a look can't fail.
    pub fn see(&mut self, place: usize) -> SeenOperation<'_>
        requires { place < length (entries self.old.contents.operations) }
        ensures* counts { sem 𝓛 (TakesOneLook self.entry) }
        ensures row { slice_get (entries self.old.contents.operations) place ≡ Some (result.key.now, result.operation.now) }
        ensures uncounted { result.uncounted.contents.now ≡ self.old.contents }
        ensures sound { IsSound self.old.contents }
    {
        self.looks = self.looks.saturating_add(1);
        let contents = &self.contents;
        let row = &contents.operations()[place];
        SeenOperation {
            key: &row.0,
            operation: &row.1,
            uncounted: UncountedContents::of(contents),
        }
    }
}
