// The operations in error, one after the other.
ghost use Rattle.std.specs.Prelude.{◌≡◌, ◌⊎◌, [], ◌∷◌, Ok, None, Some};
ghost use Rattle.desk_tables.specs.Errors.{row_with, error_rows};
ghost use Rattle.desk_tables.specs.declared.errors.ErrorRow.{ErrorRow as Row};

use plan_basics::{ErrCode, OpKey, Refusal, WsName};
use plan_core::{OpView, Ops};
use sqlite::{Alter, Connection};
use status_rules::Mark;
use std::marker::Model;

/// An operation in error: its key, its workstation and the code of the error.
#[derive(Clone, Copy)]
pub struct ErrorRow {
    pub op: OpKey,
    pub ws: WsName,
    pub code: ErrCode,
}

/// The operations in error that are left, in key order; the store is borrowed beside them, so that nothing is written
/// meanwhile. Contracts see the list of their rows.
#[derive(Drop)]
pub struct ErrorRows<'a, S: Alter + Drop> {
    ops: Ops<'a>,
    conn: &'a Connection<S>,
}

impl<'a, S: Alter + Drop> Model for ErrorRows<'a, S> {
    ghost use Rattle.std.specs.Prelude.{List};
    ghost use Rattle.desk_tables.specs.declared.errors.ErrorRow.{ErrorRow as Row};
    ghost use Rattle.desk_tables.specs.Errors.{error_rows};

    ghost Value = { List Row };

    ghost view = { λ rows. error_rows rows.ops };
}

// The row of an operation, if it is in error.
fn error_row(view: &OpView) -> Option<ErrorRow>
    ensures { result ≡ row_with view.now view.now.mark }
{
    match view.mark {
        Mark::Error(code) => Some(ErrorRow {
            op: view.key,
            ws: view.workstation,
            code,
        }),
        _ => None,
    }
}

impl<'a, S: Alter + Drop> ErrorRows<'a, S> {
    /// The rows of those of these operations that are in error.
    pub(crate) fn new(ops: Ops<'a>, conn: &'a Connection<S>) -> ErrorRows<'a, S>
        ensures { result ≡ error_rows ops.entry }
    {
        ErrorRows { ops, conn }
    }

    /// The next one, if one is left. It is never refused: it is read off the plan, which the tables hold.
    pub fn next(&mut self) -> Result<Option<ErrorRow>, Refusal>
        ensures { ((result ≡ Ok None) × (self.old ≡ []) × (self.new ≡ [])) ⊎ ((row : Row) × (result ≡ Ok (Some row)) × (self.old ≡ row ∷ self.new)) }
    {
        while let Some(view) = self.ops.next() {
            if let Some(row) = error_row(&view) {
                return Ok(Some(row));
            }
        }
        Ok(None)
    }
}
