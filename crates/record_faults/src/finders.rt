// The fault of each kind that a place may have.
ghost use Rattle.std.specs.Prelude.{◌≡◌, ◌<◌, length};
ghost use Rattle.record_faults.specs.Faults.{IsSilent, IsRepetition, IsUndefined, IsUnused, IsCrowd, IsMissing, IsAnswer};
ghost use Rattle.record_faults.specs.Groups.{grouped, AreCounts, AreEarlier};
ghost use Rattle.record_faults.specs.Sayings.{texts_of, AreSayings, given, owned, IsIndex};

use super::counts::{Counts, count_in, excess};
use super::faults::Fault;
use super::groups::Group;
use super::index::{Index, first_place};
use super::names::{Naming, named};
use super::sayings::Fields;
use super::shapes::shape_of;
use plan_drafts::RowKey;
use plan_items::Item;

// That the record says nothing.
pub fn silence(records: &[Fields], said: &[Option<Item>], place: usize) -> Option<Fault>
    requires said { AreSayings (texts_of records.now) said.now }
    requires place { place < length said.now }
    ensures { IsAnswer (IsSilent (texts_of records.now) said.now place) result }
{
    match said[place] {
        Some(_) => None,
        None => Some(Fault::Shape(shape_of(&records[place]))),
    }
}

// That its key was given before.
pub fn repetition(
    keys: &[Option<RowKey>],
    index: &Index,
    said: &[Option<Item>],
    place: usize,
) -> Option<Fault>
    requires keys { keys.now ≡ given said.now }
    requires index { IsIndex (given said.now) index.now }
    requires place { place < length keys.now }
    ensures { IsAnswer (IsRepetition said.now place) result }
{
    let key = keys[place]?;
    let first = first_place(index, &key)?;
    if first == place {
        return None;
    }
    Some(Fault::Repeated(key, first))
}

// That it names what is defined nowhere.
pub fn undefined(
    naming: Naming,
    index: &Index,
    said: &[Option<Item>],
    place: usize,
) -> Option<Fault>
    requires index { IsIndex (given said.now) index.now }
    requires place { place < length said.now }
    ensures { IsAnswer (IsUndefined naming said.now place) result }
{
    let item = said[place]?;
    let key = named(naming, &item)?;
    match first_place(index, &key) {
        Some(_) => None,
        None => Some(Fault::Undefined(key)),
    }
}

// That its occurrence has no operation.
pub fn unused(
    keys: &[Option<RowKey>],
    owners: &Index,
    said: &[Option<Item>],
    place: usize,
) -> Option<Fault>
    requires keys { keys.now ≡ given said.now }
    requires owners { IsIndex (owned said.now) owners.now }
    requires place { place < length keys.now }
    ensures { IsAnswer (IsUnused said.now place) result }
{
    let Some(RowKey::Occurrence(occurrence)) = keys[place] else {
        return None;
    };
    match first_place(owners, &RowKey::Occurrence(occurrence)) {
        Some(_) => None,
        None => Some(Fault::NoOperation),
    }
}

// That it is the first of its group, and there are more than a plan may hold.
pub fn crowd(
    groups: &[Option<Group>],
    counts: &Counts,
    earlier: &[Option<usize>],
    said: &[Option<Item>],
    place: usize,
) -> Option<Fault>
    requires groups { groups.now ≡ grouped said.now }
    requires counts { AreCounts (grouped said.now) counts.now }
    requires size { length earlier.now ≡ length groups.now }
    requires earlier { AreEarlier (grouped said.now) earlier.now }
    requires place { place < length groups.now }
    ensures { IsAnswer (IsCrowd said.now place) result }
{
    let Some(group) = groups[place] else {
        return None;
    };
    let None = earlier[place] else {
        return None;
    };
    match excess(counts, &group) {
        Some(count) => Some(Fault::TooMany(group, count)),
        None => None,
    }
}

// That no record is of this group.
pub fn missing(group: Group, counts: &Counts, said: &[Option<Item>]) -> Option<Fault>
    requires counts { AreCounts (grouped said.now) counts.now }
    ensures { IsAnswer (IsMissing group said.now (length said.now)) result }
{
    if count_in(counts, &group) > 0 {
        return None;
    }
    Some(Fault::Missing(group))
}
