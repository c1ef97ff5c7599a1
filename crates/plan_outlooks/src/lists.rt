// Lists, as they grow.
ghost use Rattle.std.specs.Prelude.{◌≡◌, ◌++◌, ◌⊎◌, Option, Ok, Err, IfErr, OnOk};
ghost use Rattle.std.specs.Option.{option_to_list};
ghost use Rattle.plan_basics.specs.declared.Refusal.{Refusal};

use plan_basics::Refusal;
use std::alloc::AllocError;

/// Puts this at the end, if it is there.
pub(crate) fn note<T: Drop>(items: &mut Vec<T>, item: Option<T>) -> Result<(), AllocError>
    ensures { OnOk result (items.new.items ≡ items.old.items ++ option_to_list item) }
{
    match item {
        Some(item) => items.push(item)?,
        None => {}
    }
    Ok(())
}

/// Puts these at the end.
pub(crate) fn note_all<T: Drop>(items: &mut Vec<T>, mut more: Vec<T>) -> Result<(), AllocError>
    ensures { OnOk result (items.new.items ≡ items.old.items ++ more.items) }
{
    items.append(&mut more)
}

/// Puts what is told at the end, if anything is, or passes the refusal on.
pub(crate) fn note_told<T: Drop>(
    items: &mut Vec<T>,
    told: Result<Option<T>, Refusal>,
) -> Result<(), Refusal>
    ensures noted { OnOk result ((item : Option T) × (told ≡ Ok item) × (items.new.items ≡ items.old.items ++ option_to_list item)) }
    ensures refused { IfErr result (λ r. (r ≡ Refusal.Memory) ⊎ (told ≡ Err r)) }
{
    match told {
        Ok(item) => Ok(note(items, item)?),
        Err(refusal) => Err(refusal),
    }
}
