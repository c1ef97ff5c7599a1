// A path that returns by way of what an extension's records say.
ghost use Rattle.std.specs.Prelude.{◌≡◌, ℕ, List, Some, IfOk, MatchOption, slice_get};
ghost use Rattle.plan_basics.specs.declared.keys.OpKey.{OpKey};
ghost use Rattle.plan_items.specs.declared.Item.{Item};
ghost use Rattle.record_faults.specs.Sayings.{Sayings, SaysAt, given, IsIndex};
ghost use Rattle.extension_faults.specs.Whole.{ArePairsBeside, ClosesAt, ClosesBeside, NoneReturnsBeside};

use super::finding::index_said;
use super::looks::read_for_proof;
use super::returns::returning_pair;
use super::staying::pairs_beside;
use plan_basics::OpKey;
use plan_drafts::RowKey;
use plan_items::Item;
use plan_reasons::Plan;
use record_faults::{Circle, Index, first_place};
use std::alloc::{AllocError, Global};

// The place of the record that says the pair with which a path returns. Some record does, since the plan's own pairs come
// first and no path of them returns.
fn record_of(plan: &Plan, index: &Index, pairs: &[(OpKey, OpKey)], place: usize) -> usize
    requires pairs { (said : Sayings) × IsIndex (given said) index.now × ArePairsBeside plan.now.plan.contents said pairs.now }
    requires returns { (way : List OpKey) × ClosesAt pairs.now place way }
    ensures { (said : Sayings) → IsIndex (given said) index.now → (p : OpKey) (s : OpKey) → slice_get pairs.now place ≡ Some (p, s) → SaysAt said result (Item.Dependency p s) }
{
    read_for_proof(plan);
    let pair = pairs[place];
    first_place(index, &RowKey::Dependency(pair.0, pair.1)).unwrap()
}

/// A path of dependencies that returns, by way of what the records say and of what stays of the plan, where one does: the
/// place of the record that closes it, and the operations on it. It fails for want of memory only.
pub fn circle_said(
    alloc: Global,
    plan: &Plan,
    said: &[Option<Item>],
) -> Result<Option<Circle>, AllocError>
    ensures { IfOk result (λ found. MatchOption found (NoneReturnsBeside plan.now.plan.contents said.now) (λ c. ClosesBeside plan.now.plan.contents said.now c.place c.first c.way.items)) }
{
    let index = index_said(alloc, said)?;
    let pairs = pairs_beside(alloc, plan, said)?;
    let Some(path) = returning_pair(alloc, &pairs)? else {
        return Ok(None);
    };
    let place = record_of(plan, &index, &pairs, path.place);
    let first = pairs[path.place].0;
    Ok(Some(Circle {
        place,
        first,
        way: path.way,
    }))
}
