// Occurrences, operations and pairs of a plan, put in key order.
ghost use Rattle.std.specs.Prelude.{◌≡◌, ◌↔◌, map, All, Contains, Decides, IsTrue, IfOk, MatchOption};
ghost use Rattle.std.specs.FinMap.{get, from_entries};
ghost use Rattle.std.specs.FinSet.{from_list};
ghost use Rattle.std.specs.List.Sorted.{IsStrictlySortedBy};
ghost use Rattle.std.specs.Map.{keys_of};
ghost use Rattle.plan_basics.specs.Keys.{name_cmp, occurrence_cmp, operation_cmp};
ghost use Rattle.plan_model.specs.Contents.{pair_cmp};
ghost use Rattle.plan_model.specs.Valid.{IsAcyclic};
ghost use Rattle.plan_drafts.specs.PlanGraphs.{AreAmong, IsGraphOf, JoinOperations};
ghost use Rattle.plan_drafts.specs.ExtensionItems.{AreTheirOperations, AreTheirRows};
ghost use Rattle.plan_drafts.specs.PlanItems.{row_of, occurrence_of, need_cmp, need_key, IsOneOf, BelongsTo, AreOccurrenceRows, AreOccurrencesInOrder, AreOperations, EachHasOperation, AreRowsOf, ArePairs, ArePairsInOrder};

use super::intervals::is_named;
use super::key_order::in_key_order;
use super::needs::own_needs;
use plan_basics::limits::{MOST_OCCURRENCES, MOST_OPERATIONS, MOST_PAIRS};
use plan_basics::{OccKey, OpKey};
use plan_drafts::{PlanContents, graph_among, graph_of, keys, row_place};
use plan_items::{Need, OperationItem};
use plan_model::{Graph, Mark, Occurrence, OperationRecord, Workstation};
use std::alloc::{AllocError, Global};

// The occurrences in key order, where there are no more than a plan may hold, and none is repeated.
pub fn occurrences_in_order(
    said: Vec<(OccKey, Occurrence)>,
) -> Result<Option<Vec<(OccKey, Occurrence)>>, AllocError>
    ensures { IfOk result (λ found. MatchOption found (¬ AreOccurrenceRows said.items) (λ v. AreOccurrencesInOrder said.items v.items)) }
{
    if said.len() > MOST_OCCURRENCES {
        return Ok(None);
    }
    in_key_order(said, |row| row.0)
}

// The priority and deadline of the occurrence of a key, if it is one of these.
fn terms_of(occurrences: &[(OccKey, Occurrence)], key: &OccKey) -> Option<Occurrence>
    requires { IsStrictlySortedBy occurrence_cmp (keys_of occurrences.now) }
    ensures { result ≡ get {R = occurrence_cmp} (from_entries occurrences.now) key.now }
{
    let place = row_place(occurrences, key)?;
    Some(occurrences[place].1)
}

// The row of an operation of one of these occurrences, with its own needs, which are no more than it may have: nothing is
// reported of it, and its flags are clear.
fn row(
    occurrences: &[(OccKey, Occurrence)],
    needs: &[(OpKey, Need)],
    said: &OperationItem,
) -> Option<(OpKey, OperationRecord)>
    requires in_order { IsStrictlySortedBy occurrence_cmp (keys_of occurrences.now) }
    requires needs { IsStrictlySortedBy need_cmp (map need_key needs.now) }
    ensures { MatchOption result (¬ BelongsTo occurrences.now needs.now said.now) (λ row. BelongsTo occurrences.now needs.now said.now × (row ≡ row_of occurrences.now needs.now said.now)) }
{
    let terms = terms_of(occurrences, &said.key.occurrence)?;
    let needs = own_needs(needs, &said.key)?;
    let operation = OperationRecord {
        workstation: said.workstation,
        duration: said.duration,
        r1: said.r1,
        r2: said.r2,
        not_before: said.not_before,
        deadline: said.deadline.unwrap_or(terms.deadline),
        needs,
        mark: Mark::Unmarked,
        held: false,
        nop: false,
    };
    Some((said.key, operation))
}

// The operations' rows, where each is of one of these occurrences and has no more needs than it may have.
fn rows(
    alloc: Global,
    occurrences: &[(OccKey, Occurrence)],
    needs: &[(OpKey, Need)],
    said: &[OperationItem],
) -> Result<Option<Vec<(OpKey, OperationRecord)>>, AllocError>
    requires in_order { IsStrictlySortedBy occurrence_cmp (keys_of occurrences.now) }
    requires needs { IsStrictlySortedBy need_cmp (map need_key needs.now) }
    ensures { IfOk result (λ found. MatchOption found (¬ All (BelongsTo occurrences.now needs.now) said.now) (λ v. All (BelongsTo occurrences.now needs.now) said.now × (v.items ≡ map (row_of occurrences.now needs.now) said.now))) }
{
    let mut rows = Vec::with_capacity(alloc, said.len())?;
    for said in said {
        let Some(row) = row(occurrences, needs, said) else {
            return Ok(None);
        };
        rows.push(row)?;
    }
    Ok(Some(rows))
}

// Whether each operation is of one of these workstations.
fn are_named(workstations: &[Workstation], said: &[OperationItem]) -> bool
    requires { IsStrictlySortedBy name_cmp (keys_of workstations.now) }
    ensures { IsTrue result ↔ All (IsOneOf (keys_of workstations.now)) said.now }
{
    said.iter()
        .all(|said| is_named(workstations, &said.workstation))
}

// Whether one of these operations is of an occurrence.
fn has_operation(keys: &[OpKey], occurrence: &OccKey) -> bool
    requires { IsStrictlySortedBy operation_cmp keys.now }
    ensures { IsTrue result ↔ Contains (map occurrence_of keys.now) occurrence.now }
{
    keys.binary_search_by_key(occurrence, |key| key.occurrence)
        .is_ok()
}

// Whether each occurrence has one.
fn each_has_operation(keys: &[OpKey], occurrences: &[(OccKey, Occurrence)]) -> bool
    requires { IsStrictlySortedBy operation_cmp keys.now }
    ensures { IsTrue result ↔ EachHasOperation keys.now occurrences.now }
{
    occurrences.iter().all(|row| has_operation(keys, &row.0))
}

// The operations' rows in key order, where each is of one of these occurrences, none is repeated and each occurrence has one. What is
// said is put in order, since a row is some ten times as long.
pub fn their_rows(
    alloc: Global,
    occurrences: &[(OccKey, Occurrence)],
    needs: &[(OpKey, Need)],
    said: Vec<OperationItem>,
) -> Result<Option<Vec<(OpKey, OperationRecord)>>, AllocError>
    requires in_order { IsStrictlySortedBy occurrence_cmp (keys_of occurrences.now) }
    requires needs { IsStrictlySortedBy need_cmp (map need_key needs.now) }
    ensures { IfOk result (λ found. MatchOption found (¬ AreTheirOperations occurrences.now needs.now said.items) (λ v. AreTheirRows occurrences.now needs.now said.items v.items)) }
{
    let Some(said) = in_key_order(said, |said| said.key)? else {
        return Ok(None);
    };
    let Some(rows) = rows(alloc, occurrences, needs, &said)? else {
        return Ok(None);
    };
    let keys = keys(alloc, &rows)?;
    if !each_has_operation(&keys, occurrences) {
        return Ok(None);
    }
    Ok(Some(rows))
}

// The same, where they are few enough and each is of one of these workstations too.
pub fn operations_in_order(
    alloc: Global,
    workstations: &[Workstation],
    occurrences: &[(OccKey, Occurrence)],
    needs: &[(OpKey, Need)],
    said: Vec<OperationItem>,
) -> Result<Option<Vec<(OpKey, OperationRecord)>>, AllocError>
    requires named { IsStrictlySortedBy name_cmp (keys_of workstations.now) }
    requires in_order { IsStrictlySortedBy occurrence_cmp (keys_of occurrences.now) }
    requires needs { IsStrictlySortedBy need_cmp (map need_key needs.now) }
    ensures { IfOk result (λ found. MatchOption found (¬ AreOperations (keys_of workstations.now) occurrences.now needs.now said.items) (λ v. AreRowsOf (keys_of workstations.now) occurrences.now needs.now said.items v.items)) }
{
    if said.len() > MOST_OPERATIONS {
        return Ok(None);
    }
    if !are_named(workstations, &said) {
        return Ok(None);
    }
    their_rows(alloc, occurrences, needs, said)
}

// Whether a key is among keys in order.
pub fn is_among(keys: &[OpKey], key: &OpKey) -> bool
    requires { IsStrictlySortedBy operation_cmp keys.now }
    ensures { IsTrue result ↔ Contains keys.now key.now }
{
    keys.binary_search(key).is_ok()
}

// Whether no path of these pairs returns to its start.
pub fn are_pairs_acyclic(
    alloc: Global,
    keys: &[OpKey],
    pairs: &[(OpKey, OpKey)],
) -> Result<bool, AllocError>
    requires keys { IsStrictlySortedBy operation_cmp keys.now }
    requires pairs { IsStrictlySortedBy pair_cmp pairs.now }
    requires ends { AreAmong keys.now pairs.now }
    ensures { IfOk result (λ told. IsTrue told ↔ IsAcyclic (from_list pairs.now)) }
{
    let graph = graph_of(alloc, keys, pairs)?;
    Ok(graph.is_some())
}

/// Whether no path of pairs returns to its start.
pub fn is_acyclic(alloc: Global, contents: &PlanContents) -> Result<bool, AllocError>
    requires { JoinOperations contents.now.operations contents.now.pairs }
    ensures { IfOk result (λ told. Decides told (IsAcyclic contents.now.pairs)) }
{
    let keys = keys(alloc, contents.operations())?;
    are_pairs_acyclic(alloc, &keys, contents.pairs())
}

// The pairs by predecessor and then successor, and their graph, where each is between these keys, none is repeated and no path of
// them returns to its start.
pub fn pairs_in_order(
    alloc: Global,
    keys: &[OpKey],
    pairs: Vec<(OpKey, OpKey)>,
) -> Result<Option<(Vec<(OpKey, OpKey)>, Graph)>, AllocError>
    requires { IsStrictlySortedBy operation_cmp keys.now }
    ensures { IfOk result (λ found. MatchOption found (¬ ArePairs keys.now pairs.items) (λ v. ArePairsInOrder keys.now pairs.items v.0.items × IsGraphOf keys.now (from_list v.0.items) v.1)) }
{
    if pairs.len() > MOST_PAIRS {
        return Ok(None);
    }
    let Some(pairs) = in_key_order(pairs, |pair| *pair)? else {
        return Ok(None);
    };
    let Some(graph) = graph_among(alloc, keys, &pairs)? else {
        return Ok(None);
    };
    Ok(Some((pairs, graph)))
}
