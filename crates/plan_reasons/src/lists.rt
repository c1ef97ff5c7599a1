// Lists, as they grow.
ghost use Rattle.std.specs.Prelude.{◌≡◌, ◌++◌, OnOk};
ghost use Rattle.std.specs.Option.{option_to_list};

use std::alloc::AllocError;

/// Puts this at the end, if it is there.
pub fn note<T: Drop>(items: &mut Vec<T>, item: Option<T>) -> Result<(), AllocError>
    ensures { OnOk result (items.new.items ≡ items.old.items ++ option_to_list item) }
{
    match item {
        Some(item) => items.push(item)?,
        None => {}
    }
    Ok(())
}

/// Puts these at the end.
pub fn note_all<T: Drop>(items: &mut Vec<T>, mut more: Vec<T>) -> Result<(), AllocError>
    ensures { OnOk result (items.new.items ≡ items.old.items ++ more.items) }
{
    items.append(&mut more)
}
