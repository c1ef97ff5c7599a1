// A table with a key as a set of rows: what the SQL texts on it mean, and what each makes of the values that it holds.
//
// The definitions and lemmas here speak of any table whose key is the first of its columns, and of any schema that has
// it. What the calls of `sqlite` ensure of a text becomes by them what a caller wants to say: the values that the table
// holds afterwards, and that the other tables keep theirs. The functions bind values as parameters of a text.

ghost use Rattle.std.specs.Prelude.{◌≡◌};
ghost use Rattle.sqlite.specs.declared.types.Value.TheVariants.{Blob, Int, Text};
ghost use Rattle.sqlite_value.specs.Value.{owned};

use sqlite::types::ValueRef;

/// A text as a parameter.
pub fn text<'a>(value: &'a str) -> ValueRef<'a>
    ensures { owned result ≡ Text value.now }
{
    ValueRef::Text(value.as_bytes())
}

/// A text that is given as its bytes, as a parameter.
pub fn letters<'a>(value: &'a [u8]) -> ValueRef<'a>
    ensures { owned result ≡ Text value.now }
{
    ValueRef::Text(value)
}

/// A whole number as a parameter. It is taken by reference, so that a caller's proof reads it as it is.
pub fn int<'a>(value: &i64) -> ValueRef<'a>
    ensures { owned result ≡ Int value.now }
{
    ValueRef::Int(*value)
}

/// Bytes as a parameter.
pub fn blob<'a>(value: &'a [u8]) -> ValueRef<'a>
    ensures { owned result ≡ Blob value.now }
{
    ValueRef::Blob(value)
}
