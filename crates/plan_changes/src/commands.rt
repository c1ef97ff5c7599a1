// What operators' commands change of what the plan holds.
ghost use Rattle.std.specs.Prelude.{◌≡◌, IfOk};
ghost use Rattle.std.specs.Ordering.{eq_by_cmp};
ghost use Rattle.plan_basics.specs.Keys.{occurrence_cmp};
ghost use Rattle.plan_basics.specs.declared.keys.OpKey.{OpKey as OpKeyValue};
ghost use Rattle.plan_records.specs.plan_model.specs.Contents.{IsInPlan};
ghost use Rattle.ready_list.specs.Choice.{is_among};
ghost use Rattle.plan_records.specs.Changes.{Changes, is_at, revised};
ghost use Rattle.plan_records.specs.declared.What.TheVariants as what;

use super::mark_rows::with_marks;
use plan_basics::{OccKey, OpKey};
use plan_records::{Mark, Marking, PlanContents};
use std::alloc::{AllocError, Global};

/// Holds an operation, or doesn't any more. A key that has no row is passed over. It takes no memory.
pub fn set_held(contents: &mut PlanContents, key: &OpKey, held: bool)
    ensures { contents.new ≡ revised (is_at key.now) (λ op. record op { held = held }) contents.old }
{
    if let Some(operation) = contents.operation(key) {
        let marking = Marking {
            held,
            ..Marking::of(operation)
        };
        contents.set_marking(key, &marking);
    }
}

/// Makes an operation a no-operation, or one that is carried out again. A key that has no row is passed over. It takes no
/// memory.
pub fn set_nop(contents: &mut PlanContents, key: &OpKey, nop: bool)
    ensures { contents.new ≡ revised (is_at key.now) (λ op. record op { nop = nop }) contents.old }
{
    if let Some(operation) = contents.operation(key) {
        let marking = Marking {
            nop,
            ..Marking::of(operation)
        };
        contents.set_marking(key, &marking);
    }
}

// The operations of an occurrence.
fn operations_of(
    alloc: Global,
    contents: &PlanContents,
    occurrence: &OccKey,
) -> Result<Vec<OpKey>, AllocError>
    ensures { IfOk result (λ keys. (o : OpKeyValue) → IsInPlan contents.now o → is_among keys.items o ≡ eq_by_cmp occurrence_cmp o.occurrence occurrence.now) }
{
    let mut keys = Vec::new(alloc);
    for row in contents.operations() {
        if row.0.occurrence == *occurrence {
            keys.push(row.0)?;
        }
    }
    Ok(keys)
}

/// The contents with all operations of an occurrence marked deleted.
pub fn deleted(
    alloc: Global,
    contents: &PlanContents,
    occurrence: &OccKey,
) -> Result<PlanContents, AllocError>
    ensures { IfOk result (λ new. Changes contents.now (what.DeleteOccurrence occurrence.now) new) }
{
    let keys = operations_of(alloc, contents, occurrence)?;
    with_marks(alloc, contents, &keys, Mark::Deleted)
}
