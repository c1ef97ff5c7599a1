// What rows say of quantities and of amounts.
ghost use Rattle.std.specs.Prelude.{◌≡◌, ◌≢◌, IfOk, MatchOption};
ghost use Rattle.std.specs.List.{AllPairs, filter_map};
ghost use Rattle.std.specs.List.Sorted.{IsStrictlySortedBy};
ghost use Rattle.std.specs.Map.{keys_of};
ghost use Rattle.plan_basics.specs.Keys.{name_cmp};
ghost use Rattle.plan_drafts.specs.KeyOrder.{AreInKeyOrder};
ghost use Rattle.plan_drafts.specs.PlanItems.{need_cmp};
ghost use Rattle.plan_opening.specs.Restoring.{amount_by, as_amount, as_quantity, quantity_by, AreSaid, SayEachOnce};

use plan_basics::limits::MOST_QUANTITY;
use plan_basics::{OpKey, ResName};
use plan_denotation::in_key_order;
use plan_drafts::row_place;
use plan_records::PlanRow;
use special_resources::Mode;
use std::alloc::{AllocError, Global};

/// The quantities that rows say, by name, and the amounts, by operation and then resource.
#[derive(Drop)]
pub struct Said {
    pub quantities: Vec<(ResName, u32)>,
    pub amounts: Vec<((OpKey, ResName), u32)>,
}

// The quantity that a row says.
fn quantity_of(row: &PlanRow) -> Option<(ResName, u32)>
    ensures { result ≡ as_quantity row.now }
{
    match *row {
        PlanRow::Quantity { resource, quantity } => Some((resource, quantity)),
        _ => None,
    }
}

// The amount that a row says.
fn amount_of(row: &PlanRow) -> Option<((OpKey, ResName), u32)>
    ensures { result ≡ as_amount row.now }
{
    match *row {
        PlanRow::Amount {
            op,
            resource,
            amount,
        } => Some(((op, resource), amount)),
        _ => None,
    }
}

// The quantities that rows say.
fn all_quantities(alloc: Global, rows: &[PlanRow]) -> Result<Vec<(ResName, u32)>, AllocError>
    ensures { IfOk result (λ v. v.items ≡ filter_map as_quantity rows.now) }
{
    rows.iter().filter_map(quantity_of).collect(alloc)
}

// The amounts that rows say.
fn all_amounts(alloc: Global, rows: &[PlanRow]) -> Result<Vec<((OpKey, ResName), u32)>, AllocError>
    ensures { IfOk result (λ v. v.items ≡ filter_map as_amount rows.now) }
{
    rows.iter().filter_map(amount_of).collect(alloc)
}

// The quantities that rows say, by name, where none is said twice.
fn quantities_of(alloc: Global, rows: &[PlanRow]) -> Result<Option<Vec<(ResName, u32)>>, AllocError>
    ensures { IfOk result (λ found. MatchOption found (¬ AllPairs (λ x y. x.0 ≢ y.0) (filter_map as_quantity rows.now)) (λ v. AreInKeyOrder name_cmp (λ x. x.0) (filter_map as_quantity rows.now) v.items)) }
{
    in_key_order(all_quantities(alloc, rows)?, |said| said.0)
}

// The amounts that rows say, by operation and then resource, where none is said twice.
fn amounts_of(
    alloc: Global,
    rows: &[PlanRow],
) -> Result<Option<Vec<((OpKey, ResName), u32)>>, AllocError>
    ensures { IfOk result (λ found. MatchOption found (¬ AllPairs (λ x y. x.0 ≢ y.0) (filter_map as_amount rows.now)) (λ v. AreInKeyOrder need_cmp (λ x. x.0) (filter_map as_amount rows.now) v.items)) }
{
    in_key_order(all_amounts(alloc, rows)?, |said| said.0)
}

/// What rows say of quantities and of amounts; `None` where something is said twice.
pub fn said_by(alloc: Global, rows: &[PlanRow]) -> Result<Option<Said>, AllocError>
    ensures { IfOk result (λ found. MatchOption found (¬ SayEachOnce rows.now) (AreSaid rows.now)) }
{
    let Some(quantities) = quantities_of(alloc, rows)? else {
        return Ok(None);
    };
    let Some(amounts) = amounts_of(alloc, rows)? else {
        return Ok(None);
    };
    Ok(Some(Said {
        quantities,
        amounts,
    }))
}

/// How much there is of a special resource, by these quantities.
pub fn quantity_by(quantities: &[(ResName, u32)], name: &ResName) -> u32
    requires { IsStrictlySortedBy name_cmp (keys_of quantities.now) }
    ensures { result ≡ quantity_by quantities.now name.now }
{
    match row_place(quantities, name) {
        Some(place) => quantities[place].1,
        None => MOST_QUANTITY,
    }
}

// How much a shared need is of, by these amounts.
fn shared_amount_by(amounts: &[((OpKey, ResName), u32)], key: &(OpKey, ResName)) -> u32
    requires { IsStrictlySortedBy need_cmp (keys_of amounts.now) }
    ensures { result ≡ amount_by amounts.now key.now.0 key.now.1 Mode.Shared }
{
    match row_place(amounts, key) {
        Some(place) => amounts[place].1,
        None => 1,
    }
}

/// How much a need of an operation is of, by these amounts.
pub fn amount_by(
    amounts: &[((OpKey, ResName), u32)],
    op: &OpKey,
    resource: &ResName,
    mode: Mode,
) -> u32
    requires { IsStrictlySortedBy need_cmp (keys_of amounts.now) }
    ensures { result ≡ amount_by amounts.now op.now resource.now mode }
{
    match mode {
        Mode::Exclusive => 0,
        Mode::Shared => shared_amount_by(amounts, &(*op, *resource)),
    }
}
