// The first place that gives each key.
ghost use Rattle.std.specs.Prelude.{◌≡◌, ◌+◌, Some, IfOk, OnOk, slice_get};
ghost use Rattle.record_faults.specs.Sayings.{PlacedKeys, place_in, IsIndexBelow, IsIndex};

use plan_drafts::RowKey;
use std::alloc::{AllocError, Global};
use std::collections::BTreeMap;

/// For each key the first place that gives it.
pub type Index = BTreeMap<RowKey, usize>;

// The place gives this key, if it gives one: it is kept, where the key is new.
fn keep_first(index: &mut Index, given: &Option<RowKey>, place: usize) -> Result<(), AllocError>
    ensures { OnOk result ((keys : PlacedKeys) → slice_get keys place ≡ Some given.now → IsIndexBelow keys place index.old → IsIndexBelow keys (place + 1) index.new) }
{
    let Some(key) = *given else {
        return Ok(());
    };
    if index.contains_key(&key) {
        return Ok(());
    }
    index.insert(key, place)?;
    Ok(())
}

/// For each key the first place that gives it. It fails for want of memory only.
pub fn index_of(alloc: Global, keys: &[Option<RowKey>]) -> Result<Index, AllocError>
    ensures { IfOk result (IsIndex keys.now) }
{
    let mut index = BTreeMap::new(alloc);
    for (place, given) in keys.iter().enumerate() {
        keep_first(&mut index, given, place)?;
    }
    Ok(index)
}

/// The first place that gives a key, if one does.
pub fn first_place(index: &Index, key: &RowKey) -> Option<usize>
    ensures { result ≡ place_in index.now key.now }
{
    index.get(key).copied()
}
