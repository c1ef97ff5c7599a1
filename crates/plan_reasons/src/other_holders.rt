// Who holds what lacks: the others that hold those special resources of which too little is left.
ghost use Rattle.std.specs.Prelude.{◌≡◌, ◌∷◌, [], All, AllPairs, IfOk};
ghost use Rattle.std.specs.Ordering.{eq_by_cmp};
ghost use Rattle.plan_basics.specs.Keys.{operation_cmp};
ghost use Rattle.plan_model.specs.Contents.{IsInPlan};
ghost use Rattle.plan_reasons.specs.Order.{ComesBefore};
ghost use Rattle.plan_reasons.specs.Parts.{AreOthersAmong, AreOthersOf, IsToldOf};
ghost use Rattle.plan_reasons.specs.Reasons.{lacking_by};
ghost use Rattle.plan_reasons.specs.Whys.{AreOtherHolders};
ghost use Rattle.special_resources.specs.Holdings.{AreInOrder};

use super::lists::{note, note_all};
use super::reasons::{OtherHolder, Reason};
use plan_basics::{OpKey, ResName};
use plan_core::LoadedPlan;
use special_resources::Holder;
use std::alloc::{AllocError, Global};

/// The special resource of which others leave too little by a reason, if it says so.
pub fn lacking_by(reason: &Reason) -> Option<ResName>
    ensures { result ≡ lacking_by reason.now }
{
    match reason {
        Reason::TooLittleLeft(scarcity) => Some(scarcity.resource),
        _ => None,
    }
}

// Whether a holder is the operation itself.
fn is_own(key: &OpKey, holder: &Holder) -> bool
    ensures { result ≡ eq_by_cmp operation_cmp holder.now.operation key.now }
{
    holder.operation.order(key).is_eq()
}

// What is told of a holder: nothing where it is the operation itself.
fn other_of(loaded: &LoadedPlan, key: &OpKey, holder: &Holder) -> Option<OtherHolder>
    requires { IsInPlan loaded.now holder.now.operation }
    ensures { IsToldOf loaded.now key.now holder.now result }
{
    if is_own(key, holder) {
        return None;
    }
    let status = loaded.outline().status_of(&holder.operation).unwrap();
    Some(OtherHolder {
        holder: *holder,
        status,
    })
}

// The others among these holders.
fn others_among(
    alloc: Global,
    loaded: &LoadedPlan,
    key: &OpKey,
    holders: &[Holder],
) -> Result<Vec<OtherHolder>, AllocError>
    requires in_order { AreInOrder holders.now }
    requires known { All (λ h. IsInPlan loaded.now h.operation) holders.now }
    ensures { IfOk result (λ found. AreOthersAmong loaded.now key.now holders.now found.items) }
{
    let mut others = Vec::new(alloc);
    for holder in holders {
        note(&mut others, other_of(loaded, key, holder))?;
    }
    Ok(others)
}

// The others that hold a special resource, in key order.
fn others_of(
    alloc: Global,
    loaded: &LoadedPlan,
    key: &OpKey,
    resource: &ResName,
) -> Result<Vec<OtherHolder>, AllocError>
    ensures { IfOk result (λ found. AreOthersOf loaded.now key.now resource.now found.items) }
{
    let holdings = loaded.outline().holdings();
    let found = others_among(alloc, loaded, key, holdings.holders(resource))?;
    Ok(found)
}

// The others that hold what lacks by a reason, in key order; none where nothing lacks by it.
fn others_by(
    alloc: Global,
    loaded: &LoadedPlan,
    key: &OpKey,
    reason: &Reason,
) -> Result<Vec<OtherHolder>, AllocError>
    ensures { IfOk result (λ found. AreOtherHolders loaded.now key.now (reason.now ∷ []) found.items) }
{
    match lacking_by(reason) {
        Some(resource) => {
            let found = others_of(alloc, loaded, key, &resource)?;
            Ok(found)
        }
        None => Ok(Vec::new(alloc)),
    }
}

/// The others that hold those special resources of which too little is left by these reasons, by resource and then in key
/// order.
pub fn other_holders(
    alloc: Global,
    loaded: &LoadedPlan,
    key: &OpKey,
    reasons: &[Reason],
) -> Result<Vec<OtherHolder>, AllocError>
    requires { AllPairs ComesBefore reasons.now }
    ensures { IfOk result (λ found. AreOtherHolders loaded.now key.now reasons.now found.items) }
{
    let mut others = Vec::new(alloc);
    for reason in reasons {
        note_all(&mut others, others_by(alloc, loaded, key, reason)?)?;
    }
    Ok(others)
}
