// The whole text of a report.
ghost use Rattle.std.specs.Prelude.{◌≡◌, ◌++◌, ℕ, List, IfOk, OnOk, map};
ghost use Rattle.report_lines.specs.Lines.{line, report, shown};

use super::lines::{Field, put_end, put_line};
use std::alloc::{AllocError, Global};

/// How the rows of a report are laid out.
pub trait Layout<R> {
    // The columns of a row.
    ghost columns: { R → List (List ℕ) };

    /// Puts a row behind a text. It fails for want of memory only.
    fn put(text: &mut Vec<u8>, row: &R) -> Result<(), AllocError>
        ensures { OnOk result (text.new.items ≡ text.old.items ++ line (columns row.now)) };
}

/// The report of these rows under a first line of these fields. It fails for want of memory only.
pub fn report<L: Layout<R>, R>(
    alloc: Global,
    head: &[Field<'_>],
    rows: &[R],
) -> Result<Vec<u8>, AllocError>
    ensures { IfOk result (λ text. text.items ≡ report (map shown head.now) (map L.columns rows.now)) }
{
    let mut text = Vec::new(alloc);
    put_line(&mut text, head)?;
    for row in rows {
        L::put(&mut text, row)?;
    }
    put_end(&mut text, rows.len())?;
    Ok(text)
}
