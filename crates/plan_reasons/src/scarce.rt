// Special resources of which others leave too little.
ghost use Rattle.std.specs.Prelude.{◌≡◌, ◌-◌, ℕ, true, IfOk, MatchOption, sum_by};
ghost use Rattle.plan_core.specs.start_choice.specs.Choices.{AreHeldIn};
ghost use Rattle.plan_reasons.specs.Parts.{AreOfKind, IsShort};
ghost use Rattle.plan_reasons.specs.Reasons.{needs_start};
ghost use Rattle.plan_reasons.specs.declared.reasons.Scarcity.{Scarcity as ScarcityValue};
ghost use Rattle.special_resources.specs.Holdings.{amount_beside};

use super::lists::note;
use super::reasons::{Reason, Scarcity};
use plan_basics::OpKey;
use plan_core::SoundContents;
use plan_model::OperationRecord;
use special_resources::{Holder, Holdings, Need};
use std::alloc::{AllocError, Global};

// How much a holder takes from an operation: nothing where it is that operation itself.
fn amount_beside(holder: &Holder, key: &OpKey) -> u32
    ensures { result ≡ amount_beside key.now holder.now }
{
    if holder.operation.order(key).is_eq() {
        0
    } else {
        holder.claim.amount
    }
}

// How much these holders leave of a quantity to an operation.
fn left_by(holders: &[Holder], key: &OpKey, quantity: u32) -> u32
    ensures { result ≡ quantity - sum_by (amount_beside key.now) holders.now }
{
    let mut left = quantity;
    for holder in holders {
        left = left.saturating_sub(amount_beside(holder, key));
    }
    left
}

// What lacks of the resource of a need, if it does.
fn scarcity(
    contents: &SoundContents,
    key: &OpKey,
    need: &Need,
    holdings: &Holdings,
) -> Option<Scarcity>
    ensures { MatchOption result ((x : ScarcityValue) → ¬ IsShort contents.now.resources holdings.now.held key.now need.now x) (IsShort contents.now.resources holdings.now.held key.now need.now) }
{
    let stock = contents.resource(&need.name)?;
    let left = left_by(holdings.holders(&need.name), key, stock.quantity);
    if need.amount <= left {
        return None;
    }
    Some(Scarcity {
        resource: need.name,
        left,
        needed: need.amount,
    })
}

// The reason that others leave too little of the resource of a need.
fn too_little(
    contents: &SoundContents,
    key: &OpKey,
    need: &Need,
    holdings: &Holdings,
) -> Option<Reason>
    ensures { MatchOption result ((x : ScarcityValue) → ¬ IsShort contents.now.resources holdings.now.held key.now need.now x) (λ r. (x : ScarcityValue) × IsShort contents.now.resources holdings.now.held key.now need.now x × (r ≡ Reason.TooLittleLeft x)) }
{
    match scarcity(contents, key, need, holdings) {
        Some(scarcity) => Some(Reason::TooLittleLeft(scarcity)),
        None => None,
    }
}

/// The reasons that others leave too little of special resources which an operation needs, by name.
pub fn all_scarce(
    alloc: Global,
    contents: &SoundContents,
    key: &OpKey,
    operation: &OperationRecord,
    holdings: &Holdings,
) -> Result<Vec<Reason>, AllocError>
    requires { AreHeldIn contents.now holdings.now.held }
    ensures { IfOk result (λ found. (m : ℕ) → needs_start contents.now operation.now ≡ true → AreOfKind contents.now key.now operation.now m 10 found.items) }
{
    let mut reasons = Vec::new(alloc);
    for need in operation.needs.as_slice() {
        note(&mut reasons, too_little(contents, key, need, holdings))?;
    }
    Ok(reasons)
}
