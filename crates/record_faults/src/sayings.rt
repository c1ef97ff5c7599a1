// What records say, place by place, and the keys that they give.
ghost use Rattle.std.specs.Prelude.{◌≡◌, map, IfOk, option_map};
ghost use Rattle.std.specs.Option.{option_and_then};
ghost use Rattle.plan_drafts.specs.Records.{key_of};
ghost use Rattle.record_faults.specs.Sayings.{texts_of, AreSayings, given, owner_of, owned};

use super::shapes::item_of;
use plan_drafts::RowKey;
use plan_items::Item;
use std::alloc::{AllocError, Global};

/// The fields of a record, however many there are.
pub type Fields = Vec<Vec<u8>>;

/// What each record says. It fails for want of memory only.
pub fn sayings_of(alloc: Global, records: &[Fields]) -> Result<Vec<Option<Item>>, AllocError>
    ensures { IfOk result (λ said. AreSayings (texts_of records.now) said.items) }
{
    let mut said = Vec::new(alloc);
    for fields in records {
        said.extend_from_slice(&[item_of(fields)])?;
    }
    Ok(said)
}

// The key of an item.
fn key(item: &Item) -> RowKey
    ensures { result ≡ key_of item.now }
{
    match *item {
        Item::Workstation { name, .. } => RowKey::Workstation(name),
        Item::Interval {
            workstation,
            interval,
        } => RowKey::Interval(workstation, interval.from()),
        Item::Resource { name, .. } => RowKey::Resource(name),
        Item::Occurrence { key, .. } => RowKey::Occurrence(key),
        Item::Operation(operation) => RowKey::Operation(operation.key),
        Item::Dependency {
            predecessor,
            successor,
        } => RowKey::Dependency(predecessor, successor),
        Item::Need { operation, need } => RowKey::Need(operation, need.name),
    }
}

// The occurrence that an operation is of.
fn owner(item: &Item) -> Option<RowKey>
    ensures { result ≡ owner_of item.now }
{
    match *item {
        Item::Operation(operation) => Some(RowKey::Occurrence(operation.key.occurrence)),
        _ => None,
    }
}

// The key of what is said, if something is.
fn key_given(said: &Option<Item>) -> Option<RowKey>
    ensures { result ≡ option_map key_of said.now }
{
    match said {
        Some(item) => Some(key(item)),
        None => None,
    }
}

// The occurrence of the operation that is said, if one is.
fn owner_given(said: &Option<Item>) -> Option<RowKey>
    ensures { result ≡ option_and_then owner_of said.now }
{
    match said {
        Some(item) => owner(item),
        None => None,
    }
}

/// The keys that are given. It fails for want of memory only.
pub fn keys_given(alloc: Global, said: &[Option<Item>]) -> Result<Vec<Option<RowKey>>, AllocError>
    ensures { IfOk result (λ v. v.items ≡ given said.now) }
{
    let mut keys = Vec::new(alloc);
    for one in said {
        keys.extend_from_slice(&[key_given(one)])?;
    }
    Ok(keys)
}

// The occurrences of the operations that are said.
pub fn owners_given(alloc: Global, said: &[Option<Item>]) -> Result<Vec<Option<RowKey>>, AllocError>
    ensures { IfOk result (λ v. v.items ≡ owned said.now) }
{
    let mut owners = Vec::new(alloc);
    for one in said {
        owners.extend_from_slice(&[owner_given(one)])?;
    }
    Ok(owners)
}
