// Intervals of one workstation that overlap.
ghost use Rattle.std.specs.Prelude.{◌≡◌, ◌↔◌, ◌<◌, Option, Some, None, length, slice_index_or, IsTrue};
ghost use Rattle.plan_basics.specs.Intervals.{AreApart};
ghost use Rattle.plan_items.specs.declared.Item.{Item as ItemValue};
ghost use Rattle.record_faults.specs.Faults.{interval_said, DoOverlap, IsOverlap, IsAnswer};
ghost use Rattle.record_faults.specs.Groups.{grouped, AreEarlier};

use super::faults::Fault;
use plan_basics::{Interval, WsName};
use plan_items::Item;

// The interval that is said, if one is, with its workstation.
fn interval_of(said: &Option<Item>) -> Option<(WsName, Interval)>
    ensures { result ≡ interval_said said.now }
{
    match *said {
        Some(
            Item::Interval {
                workstation,
                interval,
            },
        ) => Some((workstation, interval)),
        _ => None,
    }
}

// Whether two intervals have a minute in common.
fn have_common(one: &Interval, other: &Interval) -> bool
    ensures { IsTrue result ↔ ¬ AreApart one.now other.now }
{
    one.from() < other.end() && other.from() < one.end()
}

// Whether a record says an interval of the same workstation that has a minute in common with this one.
fn overlap_of(said: &Option<Item>, interval: &(WsName, Interval)) -> bool
    ensures { (o : Option ItemValue) → interval_said o ≡ Some interval.now → IsTrue result ↔ DoOverlap said.now o }
{
    match interval_of(said) {
        Some(other) => other.0 == interval.0 && have_common(&other.1, &interval.1),
        None => false,
    }
}

// The last place before this one that says an interval of the same workstation, and overlaps it.
fn overlap_before(
    earlier: &[Option<usize>],
    said: &[Option<Item>],
    place: usize,
    interval: &(WsName, Interval),
) -> Option<Fault>
    requires size { length earlier.now ≡ length said.now }
    requires earlier { AreEarlier (grouped said.now) earlier.now }
    requires place { place < length said.now }
    requires interval { interval_said (slice_index_or said.now place None) ≡ Some interval.now }
    ensures { IsAnswer (IsOverlap said.now place) result }
{
    let mut next = earlier[place];
    while let Some(other) = next {
        if overlap_of(&said[other], interval) {
            return Some(Fault::Overlaps(other));
        }
        next = earlier[other];
    }
    None
}

// That the interval of a place overlaps one that was said before.
pub fn overlapping(earlier: &[Option<usize>], said: &[Option<Item>], place: usize) -> Option<Fault>
    requires size { length earlier.now ≡ length said.now }
    requires earlier { AreEarlier (grouped said.now) earlier.now }
    requires place { place < length said.now }
    ensures { IsAnswer (IsOverlap said.now place) result }
{
    let Some(interval) = interval_of(&said[place]) else {
        return None;
    };
    overlap_before(earlier, said, place, &interval)
}
