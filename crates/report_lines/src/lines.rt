// Lines of a report, field by field.
ghost use Rattle.std.specs.Prelude.{◌≡◌, ◌++◌, ◌∷◌, [], ◌-◌, OnOk, map, replicate, codes, decimal, length};
ghost use Rattle.report_lines.specs.declared.lines.Field.{Field as Shown};
ghost use Rattle.report_lines.specs.Lines.{left, line, right, shown};

use std::alloc::AllocError;

/// A field of a line.
#[derive(Clone, Copy)]
pub enum Field<'a> {
    /// A text as it is.
    Word(&'a [u8]),
    /// A text at the left of a column of this width, with spaces behind it.
    Left(usize, &'a [u8]),
    /// A number at the right of a column of this width, with spaces before it.
    Right(usize, u64),
}

/// A number at the right of a column of this width.
pub fn right<'a>(width: usize, number: u64) -> Field<'a>
    ensures { result ≡ Shown.Right width number }
{
    Field::Right(width, number)
}

// Puts spaces behind a text.
fn put_spaces(text: &mut Vec<u8>, count: usize) -> Result<(), AllocError>
    ensures { OnOk result (text.new.items ≡ text.old.items ++ replicate count 32) }
{
    for _ in 0..count {
        text.push(b' ')?;
    }
    Ok(())
}

// Puts a field behind a text.
fn put_field(text: &mut Vec<u8>, field: Field<'_>) -> Result<(), AllocError>
    ensures { OnOk result (text.new.items ≡ text.old.items ++ shown field.entry) }
{
    match field {
        Field::Word(word) => text.extend_from_slice(word),
        Field::Left(width, word) => {
            text.extend_from_slice(word)?;
            put_spaces(text, width.saturating_sub(word.len()))
        }
        Field::Right(width, number) => {
            let digits = format!(in *text.allocator(); "{number}")?;
            put_spaces(text, width.saturating_sub(digits.len()))?;
            text.extend_from_slice(digits.as_bytes())
        }
    }
}

/// Puts a line behind a text: these fields, with a space between two, and LF. It fails for want of memory only.
pub fn put_line(text: &mut Vec<u8>, fields: &[Field<'_>]) -> Result<(), AllocError>
    ensures { OnOk result (text.new.items ≡ text.old.items ++ line (map shown fields.now)) }
{
    if let Some((first, others)) = fields.split_first() {
        put_field(text, *first)?;
        for field in others {
            text.push(b' ')?;
            put_field(text, *field)?;
        }
    }
    text.push(b'\n')?;
    Ok(())
}

/// Puts the last line of a report of so many rows behind it. It fails for want of memory only.
pub fn put_end(text: &mut Vec<u8>, rows: usize) -> Result<(), AllocError>
    ensures { OnOk result (text.new.items ≡ text.old.items ++ line (codes "END" ∷ decimal rows ∷ [])) }
{
    let digits = format!(in *text.allocator(); "{rows}")?;
    put_line(text, &[Field::Word(b"END"), Field::Word(digits.as_bytes())])
}
