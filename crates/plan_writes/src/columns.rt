// Columns of a row as parameters of a text.
ghost use Rattle.std.specs.Prelude.{◌≡◌, pos};
ghost use Rattle.sqlite.specs.declared.types.Value.TheVariants.{Int, Text};
ghost use Rattle.sqlite_value.specs.Value.{owned};
ghost use Rattle.store_schema.specs.plan_items.specs.Parts.{mode_letter, keep_letter};
ghost use Rattle.store_schema.specs.Columns.{flag};

use plan_basics::Moment;
use special_resources::Mode;
use sqlite::types::ValueRef;

/// A moment: its minute.
pub fn minute<'a>(moment: Moment) -> ValueRef<'a>
    ensures { owned result ≡ Int (pos moment) }
{
    ValueRef::Int(moment.minute())
}

/// A number that isn't below 0.
pub fn number<'a>(value: u32) -> ValueRef<'a>
    ensures { owned result ≡ Int (pos value) }
{
    ValueRef::Int(i64::from(value))
}

/// A truth value: 1 or 0.
pub fn flag<'a>(value: bool) -> ValueRef<'a>
    ensures { owned result ≡ Int (flag value) }
{
    if value {
        ValueRef::Int(1)
    } else {
        ValueRef::Int(0)
    }
}

/// How a special resource is needed: its letter.
pub fn mode_text<'a>(mode: Mode) -> ValueRef<'a>
    ensures { owned result ≡ Text (mode_letter mode) }
{
    match mode {
        Mode::Shared => ValueRef::Text(b"S"),
        Mode::Exclusive => ValueRef::Text(b"X"),
    }
}

/// Whether an error keeps a special resource: its letter.
pub fn keeping<'a>(keep: bool) -> ValueRef<'a>
    ensures { owned result ≡ Text (keep_letter keep) }
{
    if keep {
        ValueRef::Text(b"K")
    } else {
        ValueRef::Text(b"F")
    }
}
