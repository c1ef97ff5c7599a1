// Single columns of a row, as values of the types that they store.
ghost use Rattle.std.specs.Prelude.{◌≡◌, ℕ, ◌+◌, ◌^◌, ◌<◌, pos, List, [], ◌∷◌, MatchOption};
ghost use Rattle.sqlite.specs.Order.{column};
ghost use Rattle.sqlite.specs.declared.types.Value.TheVariants.{Blob, Int, Text};
ghost use Rattle.plan_basics.specs.Attributes.{attribute_letter};
ghost use Rattle.plan_basics.specs.Minutes.{IsMoment};
ghost use Rattle.plan_basics.specs.Names.{IsName, IsResourceName};
ghost use Rattle.store_schema.specs.Columns.{flag};
ghost use Rattle.plan_items.specs.Parts.{IsReading, mode_letter, keep_letter};
ghost use Rattle.status_rules.specs.Texts.{status_letter, occurrence_letter};
ghost use Rattle.store_reads.specs.Cells.{IsMarkAt, IsOccurrenceKeyAt, IsOperationKeyAt};

use plan_basics::{AppId, Attr, Moment, OccKey, OpKey, ResName, WsName};
use special_resources::Mode;
use sqlite::Row;
use sqlite::types::ValueRef;
use status_rules::{Mark, OccStatus, Status};

// The whole number in a column.
pub fn number(row: &Row, at: usize) -> Option<i64>
    ensures { IsReading (λ n. column row.now at ≡ Int n) result }
{
    match row.get_ref(at) {
        Ok(ValueRef::Int(number)) => Some(number),
        _ => None,
    }
}

// The text in a column.
pub fn text<'a>(row: &'a Row, at: usize) -> Option<&'a [u8]>
    ensures { MatchOption result
        ((t : List ℕ) → ¬ (column row.now at ≡ Text t))
        (λ t. column row.now at ≡ Text t.now) }
{
    match row.get_ref(at) {
        Ok(ValueRef::Text(text)) => Some(text),
        _ => None,
    }
}

// The bytes in a column that are no text.
pub fn bytes<'a>(row: &'a Row, at: usize) -> Option<&'a [u8]>
    ensures { MatchOption result
        ((b : List ℕ) → ¬ (column row.now at ≡ Blob b))
        (λ b. column row.now at ≡ Blob b.now) }
{
    match row.get_ref(at) {
        Ok(ValueRef::Blob(bytes)) => Some(bytes),
        _ => None,
    }
}

// A number of 0 to 255 in a column.
pub fn byte(row: &Row, at: usize) -> Option<u8>
    ensures { IsReading (λ n. (n < 256) × (column row.now at ≡ Int (pos n))) result }
{
    u8::try_from(number(row, at)?).ok()
}

// A number of 0 to 65,535 in a column.
pub fn short(row: &Row, at: usize) -> Option<u16>
    ensures { IsReading (λ n. (n < 65536) × (column row.now at ≡ Int (pos n))) result }
{
    u16::try_from(number(row, at)?).ok()
}

// A number of 0 to 4,294,967,295 in a column.
pub fn count(row: &Row, at: usize) -> Option<u32>
    ensures { IsReading (λ n. (n < 4294967296) × (column row.now at ≡ Int (pos n))) result }
{
    u32::try_from(number(row, at)?).ok()
}

// A moment in a column.
pub fn moment(row: &Row, at: usize) -> Option<Moment>
    ensures { IsReading (λ m. IsMoment m × (column row.now at ≡ Int (pos m))) result }
{
    Moment::new(number(row, at)?)
}

// A truth value in a column: 1 or 0.
pub fn truth(row: &Row, at: usize) -> Option<bool>
    ensures { IsReading (λ b. column row.now at ≡ Int (flag b)) result }
{
    match number(row, at)? {
        0 => Some(false),
        1 => Some(true),
        _ => None,
    }
}

// The name of an application in a column.
pub fn application(row: &Row, at: usize) -> Option<AppId>
    ensures { IsReading (λ name. IsName 16 name × (column row.now at ≡ Text name)) result }
{
    AppId::from_text(text(row, at)?)
}

// The name of a workstation in a column.
pub fn workstation(row: &Row, at: usize) -> Option<WsName>
    ensures { IsReading (λ name. IsName 4 name × (column row.now at ≡ Text name)) result }
{
    WsName::from_text(text(row, at)?)
}

// The name of a special resource in a column.
pub fn resource(row: &Row, at: usize) -> Option<ResName>
    ensures { IsReading (λ name. IsResourceName name × (column row.now at ≡ Text name)) result }
{
    ResName::from_text(text(row, at)?)
}

// The one character in a column.
fn letter(row: &Row, at: usize) -> Option<u8>
    ensures { IsReading (λ l. column row.now at ≡ Text (l ∷ [])) result }
{
    match text(row, at)? {
        [letter] => Some(*letter),
        _ => None,
    }
}

// A workstation's attribute in a column.
pub fn attribute(row: &Row, at: usize) -> Option<Attr>
    ensures { IsReading (λ a. column row.now at ≡ Text (attribute_letter a ∷ [])) result }
{
    Attr::from_letter(letter(row, at)?)
}

// An operation's status in a column.
pub fn status(row: &Row, at: usize) -> Option<Status>
    ensures { IsReading (λ s. column row.now at ≡ Text (status_letter s ∷ [])) result }
{
    Status::from_letter(letter(row, at)?)
}

// An occurrence's status in a column.
pub fn occurrence_status(row: &Row, at: usize) -> Option<OccStatus>
    ensures { IsReading (λ s. column row.now at ≡ Text (occurrence_letter s ∷ [])) result }
{
    OccStatus::from_letter(letter(row, at)?)
}

// How a special resource is needed, in a column.
pub fn mode(row: &Row, at: usize) -> Option<Mode>
    ensures { IsReading (λ mode. column row.now at ≡ Text (mode_letter mode)) result }
{
    match letter(row, at)? {
        b'S' => Some(Mode::Shared),
        b'X' => Some(Mode::Exclusive),
        _ => None,
    }
}

// Whether an error keeps a special resource, in a column.
pub fn keep(row: &Row, at: usize) -> Option<bool>
    ensures { IsReading (λ keep. column row.now at ≡ Text (keep_letter keep)) result }
{
    match letter(row, at)? {
        b'K' => Some(true),
        b'F' => Some(false),
        _ => None,
    }
}

// A mark in two columns: its text, and the code beside it.
pub fn mark(row: &Row, at: usize) -> Option<Mark>
    requires { at + 2 < 2 ^ 64 }
    ensures { IsReading (IsMarkAt row.now at) result }
{
    Mark::from_text(text(row, at)?, text(row, at + 1)?)
}

// An occurrence's key in two columns: application and input arrival.
pub fn occurrence_key(row: &Row, at: usize) -> Option<OccKey>
    requires { at + 2 < 2 ^ 64 }
    ensures { IsReading (IsOccurrenceKeyAt row.now at) result }
{
    let app = application(row, at)?;
    let arrival = moment(row, at + 1)?;
    Some(OccKey { app, arrival })
}

// An operation's key in three columns: application, input arrival and number.
pub fn operation_key(row: &Row, at: usize) -> Option<OpKey>
    requires { at + 2 < 2 ^ 64 }
    ensures { IsReading (IsOperationKeyAt row.now at) result }
{
    let occurrence = occurrence_key(row, at)?;
    let number = byte(row, at + 2)?;
    Some(OpKey { occurrence, number })
}
