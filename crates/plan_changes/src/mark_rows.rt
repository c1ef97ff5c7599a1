// Contents with a mark on some of their operations.
ghost use Rattle.std.specs.Prelude.{◌≡◌, IfOk};
ghost use Rattle.ready_list.specs.Choice.{is_among};
ghost use Rattle.plan_records.specs.plan_model.specs.Ready.{with_mark};
ghost use Rattle.plan_records.specs.Changes.{revised};

use plan_basics::OpKey;
use plan_records::{Mark, PlanContents};
use std::alloc::{AllocError, Global};

/// Puts this mark on these operations. A key that has no operation is passed over. It takes no memory.
pub fn mark_all(contents: &mut PlanContents, keys: &[OpKey], mark: &Mark)
    ensures { contents.new ≡ revised (is_among keys.now) (with_mark mark.now) contents.old }
{
    for key in keys {
        contents.set_mark(key, mark);
    }
}

/// The contents with this mark on these operations. A key that has no operation is passed over.
pub fn with_marks(
    alloc: Global,
    contents: &PlanContents,
    keys: &[OpKey],
    mark: Mark,
) -> Result<PlanContents, AllocError>
    ensures { IfOk result (λ new. new ≡ revised (is_among keys.now) (with_mark mark) contents.now) }
{
    let mut new = contents.try_clone(alloc)?;
    mark_all(&mut new, keys, &mark);
    Ok(new)
}
