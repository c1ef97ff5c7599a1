// The occurrences that a list of items is, with their operations and pairs, all in order.
ghost use Rattle.std.specs.Prelude.{◌↔◌, All, Contains, IsTrue, IfOk, MatchOption};
ghost use Rattle.std.specs.List.Sorted.{IsStrictlySortedBy};
ghost use Rattle.std.specs.Map.{keys_of};
ghost use Rattle.plan_basics.specs.Keys.{occurrence_cmp, operation_cmp};
ghost use Rattle.plan_drafts.specs.ExtensionItems.{MayComeIn, IsNeedOf, IsEndAmong, IsPairAmong, ArePairsAmong, ArePairsAmongInOrder, ComeInTogether, AreExtensionOf};

use super::builder::{needs, occurrences, operations, pairs};
use super::in_order::{is_among, their_rows};
use super::key_order::in_key_order;
use super::needs::needs_in_order;
use plan_basics::{OccKey, OpKey};
use plan_drafts::{ExtensionParts, keys, row_place};
use plan_items::{Item, Need};
use plan_model::Occurrence;
use std::alloc::{AllocError, Global};

// Whether an item is of an occurrence, an operation, a pair or a need.
fn may_come_in(item: &Item) -> bool
    ensures { IsTrue result ↔ MayComeIn item.now }
{
    match *item {
        Item::Workstation { .. } | Item::Interval { .. } | Item::Resource { .. } => false,
        _ => true,
    }
}

// Whether all of them are.
fn may_all_come_in(items: &[Item]) -> bool
    ensures { IsTrue result ↔ All MayComeIn items.now }
{
    items.iter().all(|item| may_come_in(item))
}

// Whether each need is of one of these operations.
fn are_needs_of(keys: &[OpKey], needs: &[(OpKey, Need)]) -> bool
    requires { IsStrictlySortedBy operation_cmp keys.now }
    ensures { IsTrue result ↔ All (IsNeedOf keys.now) needs.now }
{
    needs.iter().all(|said| is_among(keys, &said.0))
}

// Whether an occurrence is one of these.
fn is_theirs(occurrences: &[(OccKey, Occurrence)], key: &OccKey) -> bool
    requires { IsStrictlySortedBy occurrence_cmp (keys_of occurrences.now) }
    ensures { IsTrue result ↔ Contains (keys_of occurrences.now) key.now }
{
    row_place(occurrences, key).is_some()
}

// Whether an end of a pair is of none of these occurrences, or one of these operations.
fn is_end_among(occurrences: &[(OccKey, Occurrence)], keys: &[OpKey], end: &OpKey) -> bool
    requires occurrences { IsStrictlySortedBy occurrence_cmp (keys_of occurrences.now) }
    requires keys { IsStrictlySortedBy operation_cmp keys.now }
    ensures { IsTrue result ↔ IsEndAmong (keys_of occurrences.now) keys.now end.now }
{
    !is_theirs(occurrences, &end.occurrence) || is_among(keys, end)
}

// Whether a pair has an end in these occurrences, and its ends there are among these operations.
fn is_pair_among(
    occurrences: &[(OccKey, Occurrence)],
    keys: &[OpKey],
    pair: &(OpKey, OpKey),
) -> bool
    requires occurrences { IsStrictlySortedBy occurrence_cmp (keys_of occurrences.now) }
    requires keys { IsStrictlySortedBy operation_cmp keys.now }
    ensures { IsTrue result ↔ IsPairAmong (keys_of occurrences.now) keys.now pair.now }
{
    let own = is_theirs(occurrences, &pair.0.occurrence)
        || is_theirs(occurrences, &pair.1.occurrence);
    own && is_end_among(occurrences, keys, &pair.0) && is_end_among(occurrences, keys, &pair.1)
}

// Whether all pairs are such.
fn are_pairs_among(
    occurrences: &[(OccKey, Occurrence)],
    keys: &[OpKey],
    pairs: &[(OpKey, OpKey)],
) -> bool
    requires occurrences { IsStrictlySortedBy occurrence_cmp (keys_of occurrences.now) }
    requires keys { IsStrictlySortedBy operation_cmp keys.now }
    ensures { IsTrue result ↔ All (IsPairAmong (keys_of occurrences.now) keys.now) pairs.now }
{
    pairs
        .iter()
        .all(|pair| is_pair_among(occurrences, keys, pair))
}

// The pairs by predecessor and then successor, where each is such and none is repeated.
fn pairs_among(
    occurrences: &[(OccKey, Occurrence)],
    keys: &[OpKey],
    pairs: Vec<(OpKey, OpKey)>,
) -> Result<Option<Vec<(OpKey, OpKey)>>, AllocError>
    requires occurrences { IsStrictlySortedBy occurrence_cmp (keys_of occurrences.now) }
    requires keys { IsStrictlySortedBy operation_cmp keys.now }
    ensures { IfOk result (λ found. MatchOption found (¬ ArePairsAmong (keys_of occurrences.now) keys.now pairs.items) (λ v. ArePairsAmongInOrder (keys_of occurrences.now) keys.now pairs.items v.items)) }
{
    if !are_pairs_among(occurrences, keys, &pairs) {
        return Ok(None);
    }
    in_key_order(pairs, |pair| *pair)
}

/// The occurrences whose items these are, with their operations and pairs in order; `None` where they are those of none.
pub fn extension_of(alloc: Global, items: &[Item]) -> Result<Option<ExtensionParts>, AllocError>
    ensures { IfOk result (λ found. MatchOption found (¬ ComeInTogether items.now) (λ n. AreExtensionOf items.now n)) }
{
    if !may_all_come_in(items) {
        return Ok(None);
    }
    let Some(occurrences) = in_key_order(occurrences(alloc, items)?, |row| row.0)? else {
        return Ok(None);
    };
    let Some(needs) = needs_in_order(needs(alloc, items)?)? else {
        return Ok(None);
    };
    let said = operations(alloc, items)?;
    let Some(operations) = their_rows(alloc, &occurrences, &needs, said)? else {
        return Ok(None);
    };
    let keys = keys(alloc, &operations)?;
    if !are_needs_of(&keys, &needs) {
        return Ok(None);
    }
    let Some(pairs) = pairs_among(&occurrences, &keys, pairs(alloc, items)?)? else {
        return Ok(None);
    };
    Ok(Some(ExtensionParts {
        occurrences,
        operations,
        pairs,
    }))
}
