// What is left of what a plan holds once some of its occurrences have left.
ghost use Rattle.std.specs.Prelude.{◌≡◌, ◌&&◌, IfOk};
ghost use Rattle.std.specs.List.Sorted.{IsStrictlySortedBy};
ghost use Rattle.std.specs.Map.{keys_of};
ghost use Rattle.plan_basics.specs.Keys.{occurrence_cmp};
ghost use Rattle.plan_changes.specs.plan_records.specs.Changes.{with_only as only_those};
ghost use Rattle.counted_records.specs.Leaving.{is_one_of};

use plan_basics::{OccKey, OpKey};
use plan_changes::{PlanContents, copies_of, row_place};
use plan_status::Occurrence;
use std::alloc::{AllocError, Global};

/// Whether it is one of these occurrences.
pub fn is_one_of(occurrences: &[(OccKey, Occurrence)], key: &OccKey) -> bool
    requires { IsStrictlySortedBy occurrence_cmp (keys_of occurrences.now) }
    ensures { result ≡ is_one_of occurrences.now key.now }
{
    row_place(occurrences, key).is_some()
}

// Whether both ends of a pair are operations of these occurrences.
fn joins_these(occurrences: &[(OccKey, Occurrence)], pair: &(OpKey, OpKey)) -> bool
    requires { IsStrictlySortedBy occurrence_cmp (keys_of occurrences.now) }
    ensures { result ≡ (is_one_of occurrences.now pair.now.0.occurrence && is_one_of occurrences.now pair.now.1.occurrence) }
{
    is_one_of(occurrences, &pair.0.occurrence) && is_one_of(occurrences, &pair.1.occurrence)
}

/// The contents with these occurrences alone of those that they have, with their operations and the pairs that name no others.
pub(crate) fn with_only(
    alloc: Global,
    contents: &PlanContents,
    staying: &[(OccKey, Occurrence)],
) -> Result<PlanContents, AllocError>
    requires { IsStrictlySortedBy occurrence_cmp (keys_of staying.now) }
    ensures { IfOk result (λ new. new ≡ only_those (is_one_of staying.now) contents.now) }
{
    let mut occurrences = Vec::from_slice(alloc, contents.occurrences())?;
    occurrences.retain(|row| is_one_of(staying, &row.0));
    let mut operations = Vec::from_slice(alloc, contents.operations())?;
    operations.retain(|row| is_one_of(staying, &row.0.occurrence));
    let mut pairs = Vec::from_slice(alloc, contents.pairs())?;
    pairs.retain(|pair| joins_these(staying, pair));
    let workstations = copies_of(alloc, contents.workstations())?;
    let resources = Vec::from_slice(alloc, contents.resources())?;
    Ok(PlanContents::of_rows(workstations, resources, occurrences, operations, pairs))
}
