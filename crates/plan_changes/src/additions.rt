// What is added: occurrences with their operations and pairs, or a pair alone.
ghost use Rattle.std.specs.Prelude.{◌≡◌, IfOk, OnOk};
ghost use Rattle.std.specs.FinMap.{IsAntisymmetric, from_entries};
ghost use Rattle.std.specs.FinSet as set;
ghost use Rattle.std.specs.List.Sorted.{IsStrictlySortedBy};
ghost use Rattle.std.specs.Map.{keys_of};
ghost use Rattle.plan_basics.specs.Keys.{occurrence_cmp, operation_cmp};
ghost use Rattle.plan_records.specs.plan_model.specs.Contents.{pair_cmp};
ghost use Rattle.plan_records.specs.plan_model.specs.Revise.{joined};
ghost use Rattle.plan_records.specs.Changes.{with_pair as with_pair_of, with_added};
ghost use Rattle.plan_records.specs.plan_drafts.specs.Contents.{added_of, AreExtensionParts};
ghost use Rattle.plan_changes.specs.Additions.{HasNothingOf, ShareNoKey, ShareNoMember};

use plan_basics::{OccKey, OpKey};
use plan_records::{ExtensionParts, Occurrence, OperationRecord, PlanContents, copies_of};
use std::alloc::{AllocError, Global};

// Puts in rows of other keys, by key, where keys that compare equal are the same.
fn add_rows<K: Ord + Copy, V: Copy>(
    rows: &mut Vec<(K, V)>,
    new: &[(K, V)],
) -> Result<(), AllocError>
    requires exact { IsAntisymmetric K.cmp }
    requires old { IsStrictlySortedBy K.cmp (keys_of rows.old.items) }
    requires new { IsStrictlySortedBy K.cmp (keys_of new.now) }
    requires apart { ShareNoKey {R = K.cmp} (from_entries rows.old.items) (from_entries new.now) }
    ensures both { OnOk result (from_entries {R = K.cmp} rows.new.items ≡ joined (from_entries rows.old.items) (from_entries new.now)) }
    ensures in_order { OnOk result (IsStrictlySortedBy K.cmp (keys_of rows.new.items)) }
{
    rows.extend_from_slice(new)?;
    rows.sort_by_key(|row| row.0)?;
    Ok(())
}

// Puts in other pairs, by predecessor and then successor.
fn add_pairs(pairs: &mut Vec<(OpKey, OpKey)>, new: &[(OpKey, OpKey)]) -> Result<(), AllocError>
    requires old { IsStrictlySortedBy pair_cmp pairs.old.items }
    requires new { IsStrictlySortedBy pair_cmp new.now }
    requires apart { ShareNoMember {R = pair_cmp} (set.from_list pairs.old.items) (set.from_list new.now) }
    ensures both { OnOk result (set.from_list {R = pair_cmp} pairs.new.items ≡ set.union (set.from_list pairs.old.items) (set.from_list new.now)) }
    ensures in_order { OnOk result (IsStrictlySortedBy pair_cmp pairs.new.items) }
{
    pairs.extend_from_slice(new)?;
    pairs.sort()?;
    Ok(())
}

/// The contents with occurrences that are added, of which they hold nothing yet.
pub fn with_addition(
    alloc: Global,
    contents: &PlanContents,
    parts: &ExtensionParts,
) -> Result<PlanContents, AllocError>
    requires in_order { AreExtensionParts parts.now }
    requires apart { HasNothingOf contents.now (added_of parts.now) }
    ensures { IfOk result (λ new. new ≡ with_added contents.now (added_of parts.now)) }
{
    let mut occurrences = Vec::from_slice(alloc, contents.occurrences())?;
    add_rows(&mut occurrences, &parts.occurrences)?;
    let mut operations = Vec::from_slice(alloc, contents.operations())?;
    add_rows(&mut operations, &parts.operations)?;
    let mut pairs = Vec::from_slice(alloc, contents.pairs())?;
    add_pairs(&mut pairs, &parts.pairs)?;
    let workstations = copies_of(alloc, contents.workstations())?;
    let resources = Vec::from_slice(alloc, contents.resources())?;
    Ok(PlanContents::of_rows(workstations, resources, occurrences, operations, pairs))
}

/// The contents with one more pair. One that is there already stays.
pub fn with_pair(
    alloc: Global,
    contents: &PlanContents,
    predecessor: &OpKey,
    successor: &OpKey,
) -> Result<PlanContents, AllocError>
    ensures { IfOk result (λ new. new ≡ with_pair_of contents.now predecessor.now successor.now) }
{
    let mut new = contents.try_clone(alloc)?;
    new.add_pair(predecessor, successor)?;
    Ok(new)
}
