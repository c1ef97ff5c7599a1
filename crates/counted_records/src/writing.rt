// Marks, flags, availability, open intervals and what is added, written into counted records: no record is read, so it takes no look.
ghost use Rattle.std.specs.Prelude.{◌≡◌, true, IfErr, OnOk};
ghost use Rattle.std.specs.FinMap.{contains_key, insert};
ghost use Rattle.plan_changes.specs.Additions.{HasNothingOf};
ghost use Rattle.plan_changes.specs.Markings.{DifferInMarks, WereMarked};
ghost use Rattle.plan_changes.specs.plan_drafts.specs.Contents.{added_of, AreExtensionParts};
ghost use Rattle.plan_status.specs.plan_model.specs.Contents.{Contents, with_availability};
ghost use Rattle.plan_status.specs.plan_model.specs.Ready.{with_mark};
ghost use Rattle.plan_status.specs.plan_model.specs.Revise.{revise};
ghost use Rattle.plan_status.specs.plan_model.specs.Valid.{IsSound};
ghost use Rattle.plan_changes.specs.plan_records.specs.Changes.{is_at, revised, with_added};
ghost use Rattle.plan_changes.specs.ready_list.specs.Choice.{is_among};

use super::counted::CountedRecords;
use plan_basics::{OpKey, ResName};
use plan_changes::{ExtensionParts, with_addition};
use plan_status::{Mark, Marking, Workstation};
use std::alloc::{AllocError, Global};

impl CountedRecords {
    /// With this mark on these operations, by which it stays sound. A key that has no operation is passed over. It takes no memory.
    pub fn mark_all(self, keys: &[OpKey], mark: &Mark) -> CountedRecords
        requires { IsSound (revised (is_among keys.now) (with_mark mark.now) self.contents) }
        ensures contents { result.contents ≡ revised (is_among keys.now) (with_mark mark.now) self.contents }
        ensures looks { result.looks ≡ self.looks }
    {
        let (mut rows, looks) = self.into_rows();
        plan_changes::mark_all(&mut rows, keys, mark);
        CountedRecords::of_rows(rows, looks)
    }

    /// With an operation held, or not held any more, by which it stays sound. A key that has no operation is passed over. It takes
    /// no memory.
    pub fn set_held(self, key: &OpKey, held: bool) -> CountedRecords
        requires { IsSound (revised (is_at key.now) (λ op. record op { held = held }) self.contents) }
        ensures contents { result.contents ≡ revised (is_at key.now) (λ op. record op { held = held }) self.contents }
        ensures looks { result.looks ≡ self.looks }
    {
        let (mut rows, looks) = self.into_rows();
        plan_changes::set_held(&mut rows, key, held);
        CountedRecords::of_rows(rows, looks)
    }

    /// With an operation as a no-operation, or as one that is carried out again, by which it stays sound. A key that has no
    /// operation is passed over. It takes no memory.
    pub fn set_nop(self, key: &OpKey, nop: bool) -> CountedRecords
        requires { IsSound (revised (is_at key.now) (λ op. record op { nop = nop }) self.contents) }
        ensures contents { result.contents ≡ revised (is_at key.now) (λ op. record op { nop = nop }) self.contents }
        ensures looks { result.looks ≡ self.looks }
    {
        let (mut rows, looks) = self.into_rows();
        plan_changes::set_nop(&mut rows, key, nop);
        CountedRecords::of_rows(rows, looks)
    }

    /// The sound plan in which these operations had these markings, one for each, and from which no more than their markings
    /// differ. It takes no memory.
    pub fn put_markings(self, keys: &[OpKey], marks: &[Marking]) -> CountedRecords
        requires { (P : Contents) × IsSound P × DifferInMarks P self.contents keys.now × WereMarked P keys.now marks.now }
        ensures contents { (P : Contents) → DifferInMarks P self.contents keys.now → WereMarked P keys.now marks.now → result.contents ≡ P }
        ensures looks { result.looks ≡ self.looks }
    {
        let (mut rows, looks) = self.into_rows();
        plan_changes::put_markings(&mut rows, keys, marks);
        CountedRecords::of_rows(rows, looks)
    }

    /// With a special resource that it has available, or not, by which it stays sound; there is as much of it as before. It takes
    /// no memory.
    pub fn set_available(self, name: &ResName, available: bool) -> CountedRecords
        requires has_place { contains_key self.contents.resources name.now ≡ true }
        requires sound { IsSound (record self.contents { resources = revise (with_availability name.now available) self.contents.resources }) }
        ensures contents { result.contents ≡ record self.contents { resources = revise (with_availability name.now available) self.contents.resources } }
        ensures looks { result.looks ≡ self.looks }
    {
        let (mut rows, looks) = self.into_rows();
        rows.set_available(name, available);
        CountedRecords::of_rows(rows, looks)
    }

    /// With this workstation in place of the one that has its name, by which it stays sound. It takes no memory.
    pub fn set_workstation(self, workstation: Workstation) -> CountedRecords
        requires has_place { contains_key self.contents.workstations workstation.0 ≡ true }
        requires sound { IsSound (record self.contents { workstations = insert self.contents.workstations workstation.0 workstation.1 }) }
        ensures contents { result.contents ≡ record self.contents { workstations = insert self.contents.workstations workstation.0 workstation.1 } }
        ensures looks { result.looks ≡ self.looks }
    {
        let (mut rows, looks) = self.into_rows();
        rows.set_workstation(workstation);
        CountedRecords::of_rows(rows, looks)
    }

    /// With what is added, of which it holds nothing yet and by which it stays sound; or as it was, where no memory is found.
    pub fn with_addition(
        self,
        alloc: Global,
        parts: &ExtensionParts,
    ) -> (CountedRecords, Result<(), AllocError>)
        requires in_order { AreExtensionParts parts.now }
        requires apart { HasNothingOf self.contents (added_of parts.now) }
        requires sound { IsSound (with_added self.contents (added_of parts.now)) }
        ensures contents { OnOk result.1 (result.0.contents ≡ with_added self.contents (added_of parts.now)) }
        ensures unchanged { IfErr result.1 (λ _. result.0.contents ≡ self.contents) }
        ensures looks { result.0.looks ≡ self.looks }
    {
        self.uncounted().are_sound();
        let (rows, looks) = self.into_rows();
        match with_addition(alloc, &rows, parts) {
            Ok(new) => (CountedRecords::of_rows(new, looks), Ok(())),
            Err(error) => (CountedRecords::of_rows(rows, looks), Err(error)),
        }
    }
}
