// The open intervals of an array.
ghost use Rattle.std.specs.Prelude.{◌≡◌, ℕ, ◌<◌, List, map, IfOk, MatchOption};
ghost use Rattle.std.specs.List.{AllZip};
ghost use Rattle.plan_basics.specs.Intervals.{OpenInterval};
ghost use Rattle.plan_basics.specs.Minutes.{IsMomentText};
ghost use Rattle.plan_items.specs.Parts.{IsReading};
ghost use Rattle.request_json.specs.Intervals.{whole, ArePartsOf, IsIntervalOf, IsMomentOf};
ghost use Rattle.serde_json.specs.View.{view};

use plan_basics::{Interval, Moment};
use serde_json::Value;
use std::alloc::{AllocError, Global};

/// The intervals of the values of an array, in their order, where each is one.
pub fn read_intervals(alloc: Global, values: &[Value]) -> Result<Option<Vec<Interval>>, AllocError>
    ensures { IfOk result (λ found. MatchOption found
        ((intervals : List OpenInterval) → ¬ AllZip IsIntervalOf (map view values.now) intervals)
        (λ v. AllZip IsIntervalOf (map view values.now) v.items)) }
{
    let mut intervals = Vec::new(alloc);
    for value in values {
        match read_interval(value) {
            Some(interval) => intervals.push(interval)?,
            None => return Ok(None),
        }
    }
    Ok(Some(intervals))
}

// The interval of an array of five values.
fn read_interval(value: &Value) -> Option<Interval>
    ensures { IsReading (IsIntervalOf (view value.now)) result }
{
    let list = value.as_array()?;
    if list.len() != 5 {
        return None;
    }
    interval_of(&list[0], &list[1], &list[2], &list[3], &list[4])
}

// The interval of these values.
fn interval_of(
    from: &Value,
    end: &Value,
    servers: &Value,
    r1: &Value,
    r2: &Value,
) -> Option<Interval>
    ensures { IsReading (λ x.
        ArePartsOf x (view from.now) (view end.now) (view servers.now) (view r1.now) (view r2.now)) result }
{
    Interval::new(
        moment_of(from)?,
        moment_of(end)?,
        small_number_of(servers)?,
        small_number_of(r1)?,
        small_number_of(r2)?,
    )
}

// The moment of a text.
fn moment_of(value: &Value) -> Option<Moment>
    ensures { IsReading (IsMomentOf (view value.now)) result }
{
    Moment::from_text(value.as_str()?.as_bytes())
}

// A whole number below 256.
fn small_number_of(value: &Value) -> Option<u8>
    ensures { IsReading (λ n. (n < 256) × (view value.now ≡ whole n)) result }
{
    u8::try_from(value.as_u64()?).ok()
}
