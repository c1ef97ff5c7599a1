// The markings of some operations, each by one look.
ghost use Rattle.std.specs.Prelude.{◌≡◌, ◌+◌, ◌≤◌, true, All, IfOk, Some, length};
ghost use Rattle.std.specs.FinMap.{contains_key};
ghost use Rattle.plan_changes.specs.Markings.{WereMarked, marking_at};
ghost use Rattle.plan_status.specs.plan_model.specs.Contents.{IsInPlan};

use super::counted::CountedRecords;
use plan_basics::OpKey;
use plan_status::{Mark, Marking};
use std::alloc::{AllocError, Global};

impl CountedRecords {
    // The marking of the operation of a key that has one: a look.
    fn marking_of(&mut self, key: &OpKey) -> Marking
        requires { contains_key self.old.contents.operations key.now ≡ true }
        ensures marking { marking_at self.old.contents key.now ≡ Some result }
        ensures contents { self.new.contents ≡ self.old.contents }
        ensures fewest { self.old.looks ≤ self.new.looks }
        ensures most { self.new.looks ≤ self.old.looks + 1 }
    {
        let place = self.uncounted().known_operation_place(key);
        let seen = self.see(place);
        Marking::of(seen.operation)
    }

    /// The markings of these operations, in their order. It takes a look at each.
    pub fn markings_of(&mut self, alloc: Global, keys: &[OpKey]) -> Result<Vec<Marking>, AllocError>
        requires { All (IsInPlan self.old.contents) keys.now }
        ensures marks { IfOk result (λ marks. WereMarked self.old.contents keys.now marks.items) }
        ensures contents { self.new.contents ≡ self.old.contents }
        ensures fewest { self.old.looks ≤ self.new.looks }
        ensures most { self.new.looks ≤ self.old.looks + length keys.now }
    {
        let mut marks = Vec::with_capacity(alloc, keys.len())?;
        for key in keys {
            let Marking { mark, held, nop } = self.marking_of(key);
            let mark: Mark = mark;
            marks.push(Marking { mark, held, nop })?;
        }
        Ok(marks)
    }
}
