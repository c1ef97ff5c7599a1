// The summaries of all operations, each by one look.
ghost use Rattle.std.specs.Prelude.{◌≡◌, ◌+◌, ◌<◌, ◌≤◌, IfOk, Some, length, slice_get};
ghost use Rattle.std.specs.FinMap.{entries, len};
ghost use Rattle.plan_basics.specs.declared.keys.OpKey.{OpKey as OpKeyValue};
ghost use Rattle.plan_status.specs.Summaries.{AreSummaries, IsSummaryOf};
ghost use Rattle.plan_status.specs.plan_model.specs.Contents.{Operation};

use super::counted::CountedRecords;
use plan_status::{Mark, OperationSummary};
use std::alloc::{AllocError, Global};

impl CountedRecords {
    // The summary of the operation at a place: a look.
    fn summary_at(&mut self, place: usize) -> OperationSummary
        requires { place < length (entries self.old.contents.operations) }
        ensures summary { (o : OpKeyValue) → (op : Operation) → slice_get (entries self.old.contents.operations) place ≡ Some (o, op) → IsSummaryOf self.old.contents op result }
        ensures contents { self.new.contents ≡ self.old.contents }
        ensures fewest { self.old.looks ≤ self.new.looks }
        ensures most { self.new.looks ≤ self.old.looks + 1 }
    {
        let seen = self.see(place);
        seen.uncounted.summary_of(seen.operation, place)
    }

    /// The summary of each operation, in key order. It takes a look at each.
    pub fn summaries_of(&mut self, alloc: Global) -> Result<Vec<OperationSummary>, AllocError>
        ensures summaries { IfOk result (λ found. AreSummaries self.old.contents found.items) }
        ensures contents { self.new.contents ≡ self.old.contents }
        ensures fewest { self.old.looks ≤ self.new.looks }
        ensures most { self.new.looks ≤ self.old.looks + len self.old.contents.operations }
    {
        let count = self.uncounted().operation_count();
        let mut summaries = Vec::with_capacity(alloc, count)?;
        for place in 0..count {
            let summary = self.summary_at(place);
            // (the borrow checker asks for the type by name)
            let mark: Mark = summary.mark;
            summaries.push(OperationSummary { mark, ..summary })?;
        }
        Ok(summaries)
    }
}
