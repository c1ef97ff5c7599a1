// The parts of a record that take more than one field, and moments.
ghost use Rattle.std.specs.Prelude.{ℕ};
ghost use Rattle.plan_basics.specs.Minutes.{IsMomentText};
ghost use Rattle.special_resources.specs.declared.Mode.TheVariants.{Shared, Exclusive};
ghost use Rattle.plan_items.specs.Parts.{IsReading, IsMomentOrEmpty, IsNotBefore, IsQuantityText, IsAmountText, IsOccurrenceAt, IsOperationAt, IsIntervalAt, IsNeedAt};

use super::letters::{read_keep, read_mode};
use super::numbers::{number_within, small_number_within};
use plan_basics::limits::{GREATEST_NUMBER, LEAST_NUMBER, MOST_FIXED, MOST_QUANTITY, MOST_SERVERS};
use plan_basics::{AppId, Interval, Moment, OccKey, OpKey, ResName};
use special_resources::{Mode, Need};

// A moment.
pub fn read_moment(text: &[u8]) -> Option<Moment>
    ensures { IsReading (λ m. IsMomentText text.now m) result }
{
    Moment::from_text(text)
}

// A moment, or none where the field is empty.
pub fn read_deadline(text: &[u8]) -> Option<Option<Moment>>
    ensures { IsReading (λ deadline. IsMomentOrEmpty text.now deadline) result }
{
    if text.is_empty() {
        return Some(None);
    }
    Some(Some(read_moment(text)?))
}

// A moment, or the first one where the field is empty.
pub fn read_not_before(text: &[u8]) -> Option<Moment>
    ensures { IsReading (λ m. IsNotBefore text.now m) result }
{
    if text.is_empty() {
        return Moment::new(0);
    }
    read_moment(text)
}

// An occurrence's key.
pub fn read_occurrence_key(app: &[u8], arrival: &[u8]) -> Option<OccKey>
    ensures { IsReading (λ key. IsOccurrenceAt app.now arrival.now key) result }
{
    let app = AppId::from_text(app)?;
    let arrival = read_moment(arrival)?;
    Some(OccKey { app, arrival })
}

// An operation's key.
pub fn read_operation_key(app: &[u8], arrival: &[u8], number: &[u8]) -> Option<OpKey>
    ensures { IsReading (λ key. IsOperationAt app.now arrival.now number.now key) result }
{
    let occurrence = read_occurrence_key(app, arrival)?;
    let number = small_number_within(number, LEAST_NUMBER, GREATEST_NUMBER)?;
    Some(OpKey { occurrence, number })
}

// An open interval.
pub fn read_interval(
    from: &[u8],
    end: &[u8],
    servers: &[u8],
    r1: &[u8],
    r2: &[u8],
) -> Option<Interval>
    ensures { IsReading (λ interval. IsIntervalAt from.now end.now servers.now r1.now r2.now interval) result }
{
    let from = read_moment(from)?;
    let end = read_moment(end)?;
    let servers = small_number_within(servers, 0, MOST_SERVERS)?;
    let r1 = small_number_within(r1, 0, MOST_FIXED)?;
    let r2 = small_number_within(r2, 0, MOST_FIXED)?;
    Interval::new(from, end, servers, r1, r2)
}

// The quantity of a special resource, or the greatest one where the field is empty.
pub fn read_quantity(text: &[u8]) -> Option<u32>
    ensures { IsReading (λ quantity. IsQuantityText text.now quantity) result }
{
    if text.is_empty() {
        return Some(MOST_QUANTITY);
    }
    number_within(text, 1, MOST_QUANTITY)
}

// How much a need takes of a special resource. Where it is shared, an empty field means 1; where it is exclusive, the
// field has to be empty, and it takes the whole.
pub fn read_amount(mode: Mode, text: &[u8]) -> Option<u32>
    ensures { IsReading (λ amount. IsAmountText mode text.now amount) result }
{
    match mode {
        Mode::Shared => read_shared_amount(text),
        Mode::Exclusive => read_no_amount(text),
    }
}

// How much a shared need takes, or 1 where the field is empty.
fn read_shared_amount(text: &[u8]) -> Option<u32>
    ensures { IsReading (λ amount. IsAmountText Shared text.now amount) result }
{
    if text.is_empty() {
        return Some(1);
    }
    number_within(text, 1, MOST_QUANTITY)
}

// Where a need is exclusive, the field is empty.
fn read_no_amount(text: &[u8]) -> Option<u32>
    ensures { IsReading (λ amount. IsAmountText Exclusive text.now amount) result }
{
    if text.is_empty() {
        return Some(0);
    }
    None
}

// A need of a special resource.
pub fn read_need(name: &[u8], mode: &[u8], keep: &[u8], amount: &[u8]) -> Option<Need>
    ensures { IsReading (λ need. IsNeedAt name.now mode.now keep.now amount.now need) result }
{
    let name = ResName::from_text(name)?;
    let mode = read_mode(mode)?;
    let keep = read_keep(keep)?;
    let amount = read_amount(mode, amount)?;
    Some(Need {
        name,
        mode,
        amount,
        keep,
    })
}
