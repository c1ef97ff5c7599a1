// Numbers of an occurrence's operations by status.
ghost use Rattle.std.specs.Prelude.{IfOk};
ghost use Rattle.counted_records.specs.plan_drafts.specs.Places.{AreStatuses};
ghost use Rattle.counted_records.specs.plan_status.specs.Standings.{AreTallies};

use counted_records::{UncountedContents, count_one};
use status_rules::{Counts, Status};
use std::alloc::{AllocError, Global};

// No operation is counted yet.
const NONE_COUNTED: Counts = Counts {
    all: 0,
    deleted: 0,
    error: 0,
    undecided: 0,
    complete: 0,
    started: 0,
};

/// The numbers of each occurrence's operations, in key order.
pub fn tallies_of(
    alloc: Global,
    uncounted: &UncountedContents<'_>,
    statuses: &[Status],
) -> Result<Vec<Counts>, AllocError>
    requires { AreStatuses uncounted.now.contents.now statuses.now }
    ensures { IfOk result (λ found. AreTallies uncounted.now.contents.now found.items) }
{
    let occurrences = uncounted.occurrences().len();
    let mut tallies = vec![in alloc; NONE_COUNTED; occurrences]?;
    for (i, status) in statuses.iter().enumerate() {
        let key = uncounted.operation_key(i);
        let place = uncounted.occurrence_place_of(key, i);
        count_one(&mut tallies[place], *status);
    }
    Ok(tallies)
}
