// The members of an object, each by its name.
ghost use Rattle.std.specs.Prelude.{◌≡◌, ℕ, ◌≤◌, Some, codes, option_map, option_and_then, MatchOption};
ghost use Rattle.plan_basics.specs.Minutes.{IsMinuteText};
ghost use Rattle.plan_basics.specs.Names.{IsName, IsResourceName};
ghost use Rattle.plan_basics.specs.declared.limits.TheConstants.{GREATEST_REQUEST_NUMBER};
ghost use Rattle.plan_items.specs.Parts.{IsReading};
ghost use Rattle.request_json.specs.Counted.{HasBeside};
ghost use Rattle.request_json.specs.Intervals.{whole};
ghost use Rattle.request_json.specs.Members.{HasMember, HasText, IsNameAt};
ghost use Rattle.request_json.specs.Requests.{SpellsOperation, SpellsOccurrence};
ghost use Rattle.serde_json.specs.Find.{get, as_array, as_str};
ghost use Rattle.serde_json.specs.View.{view, items_view};

use plan_basics::limits::GREATEST_REQUEST_NUMBER;
use plan_basics::{ErrCode, OccKey, OpKey, ResName, TrackerName, WsName, minute_of_text};
use serde_json::Value;

/// How many members an object has beside so many; none where it has fewer, and for what is no object.
pub fn members_beside(value: &Value, others: usize) -> Option<usize>
    ensures { IsReading (HasBeside (view value.now) others) result }
{
    value.as_object()?.len().checked_sub(others)
}

/// The text of a member.
pub fn text_at<'v>(value: &'v Value, name: &str) -> Option<&'v str>
    ensures { option_map (λ text. text.now) result
        ≡ option_and_then as_str (get name.now (view value.now)) }
{
    value.get(name)?.as_str()
}

/// The values of a member that is an array.
pub fn array_at<'v>(value: &'v Value, name: &str) -> Option<&'v [Value]>
    ensures { option_map (λ list. items_view list.now) result
        ≡ option_and_then as_array (get name.now (view value.now)) }
{
    Some(value.get(name)?.as_array()?.as_slice())
}

/// The minute of a member.
// It may be one that no plan can name, which the desk refuses; a key with such a moment is no key.
pub fn minute_at(value: &Value, name: &str) -> Option<i64>
    ensures { IsReading (λ minute. HasText (view value.now) name.now (λ text. IsMinuteText text minute)) result }
{
    minute_of_text(text_at(value, name)?.as_bytes())
}

/// The operation's key of a member.
pub fn operation_at(value: &Value, name: &str) -> Option<OpKey>
    ensures { IsReading (λ key. HasText (view value.now) name.now (λ text. SpellsOperation text key)) result }
{
    OpKey::from_text(text_at(value, name)?.as_bytes())
}

/// The occurrence's key of a member.
pub fn occurrence_at(value: &Value, name: &str) -> Option<OccKey>
    ensures { IsReading (λ key. HasText (view value.now) name.now (λ text. SpellsOccurrence text key)) result }
{
    OccKey::from_text(text_at(value, name)?.as_bytes())
}

/// The error code of the member `code`.
pub fn code_at(value: &Value) -> Option<ErrCode>
    ensures { IsReading (IsNameAt (view value.now) (codes "code") (IsName 4)) result }
{
    ErrCode::from_text(text_at(value, "code")?.as_bytes())
}

/// The workstation of the member `ws`.
pub fn workstation_at(value: &Value) -> Option<WsName>
    ensures { IsReading (IsNameAt (view value.now) (codes "ws") (IsName 4)) result }
{
    WsName::from_text(text_at(value, "ws")?.as_bytes())
}

/// The special resource of the member `resource`.
pub fn resource_at(value: &Value) -> Option<ResName>
    ensures { IsReading (IsNameAt (view value.now) (codes "resource") IsResourceName) result }
{
    ResName::from_text(text_at(value, "resource")?.as_bytes())
}

/// The tracker of the member `tracker`.
pub fn tracker_at(value: &Value) -> Option<TrackerName>
    ensures { IsReading (IsNameAt (view value.now) (codes "tracker") (IsName 8)) result }
{
    TrackerName::from_text(text_at(value, "tracker")?.as_bytes())
}

/// The number of the member `number`, where it is one that a tracker may give.
pub fn number_at(value: &Value) -> Option<u64>
    ensures { IsReading (λ n. (n ≤ GREATEST_REQUEST_NUMBER)
        × HasMember (view value.now) (codes "number", whole n)) result }
{
    let number = value.get("number")?.as_u64()?;
    if number <= u64::from(GREATEST_REQUEST_NUMBER) {
        Some(number)
    } else {
        None
    }
}
