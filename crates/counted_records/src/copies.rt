// A copy of counted records, of which nothing is looked at until it is counted itself.
ghost use Rattle.std.specs.Prelude.{◌≡◌, ◌⊎◌, ◌+◌, ◌<◌, ◌≤◌, IfOk, OnOk, Some, length, slice_get};
ghost use Rattle.std.specs.FinMap.{entries};
ghost use Rattle.std.specs.List.Sorted.{IsStrictlySortedBy};
ghost use Rattle.std.specs.Map.{keys_of};
ghost use Rattle.plan_basics.specs.Keys.{occurrence_cmp};
ghost use Rattle.plan_changes.specs.Additions.{HasNothingOf};
ghost use Rattle.plan_status.specs.plan_model.specs.Valid.{IsSound};
ghost use Rattle.plan_changes.specs.plan_drafts.specs.Contents.{added_of, AreExtensionParts};
ghost use Rattle.plan_changes.specs.plan_records.specs.Changes.{Changes, with_added, with_only as only_those, with_pair as with_pair_of};
ghost use Rattle.plan_changes.specs.plan_records.specs.declared.What.TheVariants as what;
ghost use Rattle.counted_records.specs.Leaving.{is_one_of};

use super::counted::CountedRecords;
use super::leaving::with_only;
use plan_basics::{OccKey, OpKey};
use plan_changes::{
    ExtensionParts, PlanContents, PlanDraft, copies_of, deleted, with_addition, with_pair,
};
use plan_status::{Occurrence, OperationRecord};
use std::alloc::{AllocError, Global};
use std::marker::Model;

/// A copy of what a plan holds. None of its records is looked at: it is written to, and then becomes counted records. Contracts see it
/// as what it holds.
#[derive(Drop)]
pub struct RecordCopy {
    contents: PlanContents,
}

impl Model for RecordCopy {
    ghost use Rattle.plan_status.specs.plan_model.specs.Contents.{Contents};
    ghost use Rattle.plan_status.specs.plan_model.specs.Code.{contents_code};

    ghost Value = { Contents };

    ghost coded = { contents_code };

    ghost view = { λ c. c.contents };
}

impl RecordCopy {
    /// What a draft holds.
    pub fn of_draft(alloc: Global, draft: &PlanDraft) -> Result<RecordCopy, AllocError>
        ensures { IfOk result (λ copy. copy ≡ draft.now) }
    {
        let contents = draft.contents().try_clone(alloc)?;
        Ok(RecordCopy { contents })
    }

    /// The same, with all operations of an occurrence marked deleted.
    pub fn deleted(self, alloc: Global, occurrence: &OccKey) -> Result<RecordCopy, AllocError>
        ensures { IfOk result (λ new. Changes self (what.DeleteOccurrence occurrence.now) new) }
    {
        let contents = deleted(alloc, &self.contents, occurrence)?;
        Ok(RecordCopy { contents })
    }

    /// The same, with one more pair. One that is there already stays.
    pub fn with_pair(
        self,
        alloc: Global,
        predecessor: &OpKey,
        successor: &OpKey,
    ) -> Result<RecordCopy, AllocError>
        ensures { IfOk result (λ new. new ≡ with_pair_of self predecessor.now successor.now) }
    {
        let contents = with_pair(alloc, &self.contents, predecessor, successor)?;
        Ok(RecordCopy { contents })
    }

    /// The same, with what is added, of which there is nothing yet.
    pub fn with_addition(
        self,
        alloc: Global,
        parts: &ExtensionParts,
    ) -> Result<RecordCopy, AllocError>
        requires in_order { AreExtensionParts parts.now }
        requires apart { HasNothingOf self (added_of parts.now) }
        ensures { IfOk result (λ new. new ≡ with_added self (added_of parts.now)) }
    {
        let contents = with_addition(alloc, &self.contents, parts)?;
        Ok(RecordCopy { contents })
    }

    /// The same, with these occurrences alone of those that there are, with their operations and the pairs that name no others.
    pub fn with_only(
        self,
        alloc: Global,
        staying: &[(OccKey, Occurrence)],
    ) -> Result<RecordCopy, AllocError>
        requires { IsStrictlySortedBy occurrence_cmp (keys_of staying.now) }
        ensures { IfOk result (λ new. new ≡ only_those (is_one_of staying.now) self) }
    {
        let contents = with_only(alloc, &self.contents, staying)?;
        Ok(RecordCopy { contents })
    }

    /// What it holds, which is sound, as counted records: nothing was looked at.
    // It asks for no permit: what it gives can't be let go, so its count comes back.
    pub fn into_counted(self) -> CountedRecords
        requires { IsSound self }
        ensures { result ≡ record { contents = self; looks = 0 } }
    {
        CountedRecords::of_rows(self.contents, 0)
    }
}

impl CountedRecords {
    // The row of the operation at a place: a look.
    fn row_at(&mut self, place: usize) -> (OpKey, OperationRecord)
        requires { place < length (entries self.old.contents.operations) }
        ensures row { slice_get (entries self.old.contents.operations) place ≡ Some result }
        ensures contents { self.new.contents ≡ self.old.contents }
        ensures most { self.new.looks ≤ self.old.looks + 1 }
        ensures least { (18446744073709551615 ≤ self.new.looks) ⊎ (self.old.looks + 1 ≤ self.new.looks) }
    {
        let seen = self.see(place);
        (*seen.key, *seen.operation)
    }

    // The rows of all operations, in key order: a look at each.
    fn rows_of(&mut self, alloc: Global) -> Result<Vec<(OpKey, OperationRecord)>, AllocError>
        ensures rows { IfOk result (λ rows. rows.items ≡ entries self.old.contents.operations) }
        ensures contents { self.new.contents ≡ self.old.contents }
        ensures most { self.new.looks ≤ self.old.looks + length (entries self.old.contents.operations) }
        ensures least { OnOk result ((18446744073709551615 ≤ self.new.looks) ⊎ (self.old.looks + length (entries self.old.contents.operations) ≤ self.new.looks)) }
    {
        let count = self.uncounted().operation_count();
        let mut rows = Vec::with_capacity(alloc, count)?;
        for place in 0..count {
            rows.push(self.row_at(place))?;
        }
        Ok(rows)
    }

    // A copy of what they hold, with these rows for its operations.
    fn with_rows(
        &self,
        alloc: Global,
        operations: Vec<(OpKey, OperationRecord)>,
    ) -> Result<RecordCopy, AllocError>
        requires { operations.items ≡ entries self.now.contents.operations }
        ensures { IfOk result (λ copy. copy ≡ self.now.contents) }
    {
        let uncounted = self.uncounted();
        let workstations = copies_of(alloc, uncounted.workstations())?;
        let resources = Vec::from_slice(alloc, uncounted.resources())?;
        let occurrences = Vec::from_slice(alloc, uncounted.occurrences())?;
        let pairs = Vec::from_slice(alloc, uncounted.pairs())?;
        let contents = PlanContents::of_rows(
            workstations,
            resources,
            occurrences,
            operations,
            pairs,
        );
        Ok(RecordCopy { contents })
    }

    /// A copy of what they hold, by a look at each record.
    pub fn copied(&mut self, alloc: Global) -> Result<RecordCopy, AllocError>
        ensures copy { IfOk result (λ copy. copy ≡ self.old.contents) }
        ensures contents { self.new.contents ≡ self.old.contents }
        ensures most { self.new.looks ≤ self.old.looks + length (entries self.old.contents.operations) }
        ensures least { OnOk result ((18446744073709551615 ≤ self.new.looks) ⊎ (self.old.looks + length (entries self.old.contents.operations) ≤ self.new.looks)) }
        ensures sound { OnOk result (IsSound self.old.contents) }
    {
        let operations = self.rows_of(alloc)?;
        self.uncounted().are_sound();
        self.with_rows(alloc, operations)
    }
}
