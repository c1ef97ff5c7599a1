// The keys and pairs of a plan with occurrences that are added, and whether there is room for them.
ghost use Rattle.std.specs.Prelude.{◌≡◌, ◌<◌, Decides, IfOk, OnOk, length};
ghost use Rattle.std.specs.FinMap.{IsAntisymmetric, keys as keys_in};
ghost use Rattle.std.specs.FinSet as set;
ghost use Rattle.std.specs.List.Sorted.{IsStrictlySortedBy};
ghost use Rattle.plan_model.specs.Contents.{pair_cmp};
ghost use Rattle.plan_records.specs.Changes.{with_added};
ghost use Rattle.derived_figures.specs.plan_changes.specs.Additions.{HasNothingOf, ShareNoMember};
ghost use Rattle.plan_drafts.specs.Contents.{added_of, AreExtensionParts};
ghost use Rattle.plan_checks.specs.Additions.{HasRoomFor};

use super::reach::key_at;
use derived_figures::UncountedContents;
use plan_basics::OpKey;
use plan_basics::limits::{MOST_OCCURRENCES, MOST_OPERATIONS, MOST_PAIRS};
use plan_drafts::{ExtensionParts, keys};
use std::alloc::{AllocError, Global};

// The keys of the plan's operations, in order.
fn old_keys(alloc: Global, uncounted: &UncountedContents<'_>) -> Result<Vec<OpKey>, AllocError>
    ensures { IfOk result (λ keys. keys.items ≡ keys_in uncounted.now.contents.now.operations) }
{
    let count = uncounted.operation_count();
    let mut keys = Vec::with_capacity(alloc, count)?;
    for place in 0..count {
        keys.push(key_at(uncounted, place))?;
    }
    Ok(keys)
}

// Puts in others, in order.
fn merge<K: Ord + Copy>(items: &mut Vec<K>, new: &[K]) -> Result<(), AllocError>
    requires exact { IsAntisymmetric K.cmp }
    requires old { IsStrictlySortedBy K.cmp items.old.items }
    requires new { IsStrictlySortedBy K.cmp new.now }
    requires apart { ShareNoMember {R = K.cmp} (set.from_list items.old.items) (set.from_list new.now) }
    ensures both { OnOk result (set.from_list {R = K.cmp} items.new.items ≡ set.union (set.from_list items.old.items) (set.from_list new.now)) }
    ensures in_order { OnOk result (IsStrictlySortedBy K.cmp items.new.items) }
{
    items.extend_from_slice(new)?;
    items.sort()?;
    Ok(())
}

/// The keys of the plan's operations with those that are added, in order.
pub fn grown_keys(
    alloc: Global,
    uncounted: &UncountedContents<'_>,
    parts: &ExtensionParts,
) -> Result<Vec<OpKey>, AllocError>
    requires parts { AreExtensionParts parts.now }
    requires apart { HasNothingOf uncounted.now.contents.now (added_of parts.now) }
    ensures { IfOk result (λ keys. keys.items ≡ keys_in (with_added uncounted.now.contents.now (added_of parts.now)).operations) }
{
    let mut all = old_keys(alloc, uncounted)?;
    let new = keys(alloc, &parts.operations)?;
    merge(&mut all, &new)?;
    Ok(all)
}

/// The plan's pairs with those that are added, in order.
pub fn grown_pairs(
    alloc: Global,
    uncounted: &UncountedContents<'_>,
    parts: &ExtensionParts,
) -> Result<Vec<(OpKey, OpKey)>, AllocError>
    requires parts { AreExtensionParts parts.now }
    requires apart { HasNothingOf uncounted.now.contents.now (added_of parts.now) }
    ensures pairs { IfOk result (λ pairs. set.from_list pairs.items ≡ (with_added uncounted.now.contents.now (added_of parts.now)).pairs) }
    ensures in_order { IfOk result (λ pairs. IsStrictlySortedBy pair_cmp pairs.items) }
{
    let mut all = Vec::from_slice(alloc, uncounted.pairs())?;
    merge(&mut all, &parts.pairs)?;
    Ok(all)
}

/// Whether the plan has room for so many occurrences more, with operations of these keys and these pairs in all.
pub fn has_room(
    uncounted: &UncountedContents<'_>,
    more: usize,
    keys: &[OpKey],
    pairs: &[(OpKey, OpKey)],
) -> bool
    ensures { Decides result (HasRoomFor uncounted.now.contents.now more (length keys.now) (length pairs.now)) }
{
    let occurrences = uncounted.occurrences().len();
    let room = MOST_OCCURRENCES - occurrences;
    more <= room && keys.len() <= MOST_OPERATIONS && pairs.len() <= MOST_PAIRS
}
