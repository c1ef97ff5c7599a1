// What is written of some, and not of others.
ghost use Rattle.std.specs.Prelude.{◌≡◌, ◌++◌, Contains, OnOk, Option};
ghost use Rattle.std.specs.List.{filter_map};
ghost use Rattle.std.specs.Option.{option_to_list};

use std::alloc::AllocError;

// Adds what is written, if something is.
fn push_one<Row: Drop>(written: Option<Row>, rows: &mut Vec<Row>) -> Result<(), AllocError>
    ensures { OnOk result (rows.new.items ≡ rows.old.items ++ option_to_list written) }
{
    match written {
        Some(row) => {
            rows.push(row)?;
            Ok(())
        }
        None => Ok(()),
    }
}

/// Adds what is written of each of these, in order, where something is. At an error a part of it may be added.
pub fn push_written<X: Copy, Row: Drop, F: Fn(X) -> Option<Row>>(
    rows: &mut Vec<Row>,
    items: &[X],
    write: F,
) -> Result<(), AllocError>
    requires { (x : X) → Contains items.now x → F.pre write x }
    ensures { (f : X → Option Row) → ((x : X) (r : Option Row) → Contains items.now x → F.post write x r → r ≡ f x) → OnOk result (rows.new.items ≡ rows.old.items ++ filter_map f items.now) }
{
    for item in items {
        push_one(write(*item), rows)?;
    }
    Ok(())
}
