// Special resources of a plan, and needs of them, put in order.
ghost use Rattle.std.specs.Prelude.{◌≡◌, ◌↔◌, ◌≢◌, ◌<◌, ◌≤◌, map, length, All, Contains, IsTrue, IfOk, MatchOption};
ghost use Rattle.std.specs.FinMap.{from_entries, get};
ghost use Rattle.std.specs.List.{AllPairs};
ghost use Rattle.std.specs.List.Sorted.{IsStrictlySortedBy};
ghost use Rattle.std.specs.Map.{keys_of};
ghost use Rattle.plan_basics.specs.declared.limits.TheConstants.{MOST_NEEDS};
ghost use Rattle.plan_basics.specs.Keys.{name_cmp, operation_cmp};
ghost use Rattle.plan_items.specs.special_resources.specs.Needs.{AreInNameOrder, usages_of};
ghost use Rattle.plan_drafts.specs.PlanItems.{AreResources, AreResourcesInOrder, AreNeedsInOrder, IsNeedIn, IsWithinStock, need_cmp, need_key, needs_of};

use super::in_order::is_among;
use super::key_order::in_key_order;
use plan_basics::limits::MOST_RESOURCES;
use plan_basics::{OpKey, ResName};
use plan_drafts::row_place;
use plan_items::{Need, Needs};
use plan_model::Stock;
use std::alloc::AllocError;

// The special resources by name, where they are no more than a plan may hold, and none is repeated.
pub fn resources_in_order(
    said: Vec<(ResName, Stock)>,
) -> Result<Option<Vec<(ResName, Stock)>>, AllocError>
    ensures { IfOk result (λ found. MatchOption found (¬ AreResources said.items) (λ v. AreResourcesInOrder said.items v.items)) }
{
    if said.len() > MOST_RESOURCES {
        return Ok(None);
    }
    in_key_order(said, |row| row.0)
}

// The needs by operation and then resource, where no operation needs a resource twice.
pub fn needs_in_order(said: Vec<(OpKey, Need)>) -> Result<Option<Vec<(OpKey, Need)>>, AllocError>
    ensures { IfOk result (λ found. MatchOption found (¬ AllPairs (λ a b. need_key a ≢ need_key b) said.items) (λ v. AreNeedsInOrder said.items v.items)) }
{
    in_key_order(said, |said| (said.0, said.1.name))
}

// The needs of an operation, which are next to one another.
fn needs_by<'a>(needs: &'a [(OpKey, Need)], key: &OpKey) -> &'a [(OpKey, Need)]
    requires { IsStrictlySortedBy need_cmp (map need_key needs.now) }
    ensures { map (λ said. said.1) result.now ≡ needs_of key.now needs.now }
{
    let from = needs.partition_point(|said| said.0.order(key).is_lt());
    let rest = &needs[from..];
    let number = rest.partition_point(|said| said.0.order(key).is_le());
    &rest[..number]
}

// These needs, which are by name, where they are no more than it may have.
fn gathered(said: &[(OpKey, Need)]) -> Option<Needs>
    requires { AreInNameOrder (map (λ said. said.1) said.now) }
    ensures { MatchOption result (MOST_NEEDS < length said.now) (λ v. (length said.now ≤ MOST_NEEDS) × (v ≡ usages_of (map (λ said. said.1) said.now))) }
{
    let mut needs = Needs::none();
    for said in said {
        if !needs.push(&said.1) {
            return None;
        }
    }
    Some(needs)
}

// The needs of an operation, where they are no more than it may have.
pub fn own_needs(needs: &[(OpKey, Need)], key: &OpKey) -> Option<Needs>
    requires { IsStrictlySortedBy need_cmp (map need_key needs.now) }
    ensures { MatchOption result (MOST_NEEDS < length (needs_of key.now needs.now)) (λ v. (length (needs_of key.now needs.now) ≤ MOST_NEEDS) × (v ≡ usages_of (needs_of key.now needs.now))) }
{
    gathered(needs_by(needs, key))
}

// Whether a name is that of one of these special resources.
fn is_resource(resources: &[(ResName, Stock)], name: &ResName) -> bool
    requires { IsStrictlySortedBy name_cmp (keys_of resources.now) }
    ensures { IsTrue result ↔ Contains (keys_of resources.now) name.now }
{
    row_place(resources, name).is_some()
}

// Whether a need is of one of these operations, and of one of these resources.
fn is_need_in(keys: &[OpKey], resources: &[(ResName, Stock)], said: &(OpKey, Need)) -> bool
    requires keys { IsStrictlySortedBy operation_cmp keys.now }
    requires names { IsStrictlySortedBy name_cmp (keys_of resources.now) }
    ensures { IsTrue result ↔ IsNeedIn keys.now (keys_of resources.now) said.now }
{
    is_among(keys, &said.0) && is_resource(resources, &said.1.name)
}

// Whether each need is of one of these operations, and of one of these resources.
pub fn are_needs_in(keys: &[OpKey], resources: &[(ResName, Stock)], needs: &[(OpKey, Need)]) -> bool
    requires keys { IsStrictlySortedBy operation_cmp keys.now }
    requires names { IsStrictlySortedBy name_cmp (keys_of resources.now) }
    ensures { IsTrue result ↔ All (IsNeedIn keys.now (keys_of resources.now)) needs.now }
{
    needs.iter().all(|said| is_need_in(keys, resources, said))
}

// What there is of a special resource, if it is one of these.
fn stock_of(resources: &[(ResName, Stock)], name: &ResName) -> Option<Stock>
    requires { IsStrictlySortedBy name_cmp (keys_of resources.now) }
    ensures { result ≡ get {R = name_cmp} (from_entries resources.now) name.now }
{
    let place = row_place(resources, name)?;
    Some(resources[place].1)
}

// Whether a need is of no more than there is of its resource.
fn amount_fits(resources: &[(ResName, Stock)], said: &(OpKey, Need)) -> bool
    requires { IsStrictlySortedBy name_cmp (keys_of resources.now) }
    ensures { IsTrue result ↔ IsWithinStock resources.now said.now }
{
    match stock_of(resources, &said.1.name) {
        Some(stock) => said.1.amount <= stock.quantity,
        None => true,
    }
}

// Whether each need is of no more than there is of its resource.
pub fn amounts_fit(resources: &[(ResName, Stock)], needs: &[(OpKey, Need)]) -> bool
    requires { IsStrictlySortedBy name_cmp (keys_of resources.now) }
    ensures { IsTrue result ↔ All (IsWithinStock resources.now) needs.now }
{
    needs.iter().all(|said| amount_fits(resources, said))
}
