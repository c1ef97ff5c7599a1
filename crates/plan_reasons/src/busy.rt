// Special resources that an operation can't have.
ghost use Rattle.std.specs.Prelude.{◌≡◌, ◌++◌, ℕ, true, OnOk, IfOk};
ghost use Rattle.std.specs.List.{filter_map};
ghost use Rattle.plan_basics.specs.declared.keys.OpKey.{OpKey};
ghost use Rattle.plan_core.specs.start_choice.specs.Choices.{AreHeldIn};
ghost use Rattle.plan_model.specs.Contents.{Contents};
ghost use Rattle.plan_reasons.specs.Parts.{AreOfKind};
ghost use Rattle.plan_reasons.specs.Places.{is_available, is_in_way, is_shared, obstacle_of, unavailable_of};
ghost use Rattle.plan_reasons.specs.Reasons.{needs_start};

use super::lists::note;
use super::reasons::{Obstacle, Reason};
use plan_basics::OpKey;
use plan_core::SoundContents;
use plan_model::{OperationRecord, Stock};
use special_resources::{Holder, Holdings, Mode, Need};
use std::alloc::{AllocError, Global};

// Whether there is a special resource and it is available.
fn is_available(stock: Option<Stock>) -> bool
    ensures { result ≡ is_available stock }
{
    match stock {
        Some(stock) => stock.available,
        None => false,
    }
}

// The reason that the resource of a need isn't available.
fn unavailable(contents: &SoundContents, need: &Need) -> Option<Reason>
    ensures { result ≡ unavailable_of contents.now.resources need.now }
{
    if is_available(contents.resource(&need.name)) {
        None
    } else {
        Some(Reason::Unavailable(need.name))
    }
}

/// The reasons that special resources which an operation needs aren't available, by name.
pub fn all_unavailable(
    alloc: Global,
    contents: &SoundContents,
    operation: &OperationRecord,
) -> Result<Vec<Reason>, AllocError>
    ensures { IfOk result (λ found. (o : OpKey) (m : ℕ) → needs_start contents.now operation.now ≡ true → AreOfKind contents.now o operation.now m 8 found.items) }
{
    let mut reasons = Vec::new(alloc);
    for need in operation.needs.as_slice() {
        note(&mut reasons, unavailable(contents, need))?;
    }
    Ok(reasons)
}

// Whether a mode is shared.
fn is_shared(mode: Mode) -> bool
    ensures { result ≡ is_shared mode }
{
    matches!(mode, Mode::Shared)
}

// Whether a holder is in the way of an operation that needs its resource in this mode: it is another operation, and not
// both share the resource.
fn is_in_way(key: &OpKey, mode: Mode, holder: &Holder) -> bool
    ensures { result ≡ is_in_way key.now mode holder.now }
{
    !holder.operation.order(key).is_eq() && !(is_shared(mode) && is_shared(holder.claim.mode))
}

// The reason that a holder is, if it is in the way.
fn obstacle(key: &OpKey, mode: Mode, holder: &Holder) -> Option<Reason>
    ensures { result ≡ obstacle_of key.now mode holder.now }
{
    if is_in_way(key, mode, holder) {
        Some(Reason::HeldBy(Obstacle {
            resource: holder.resource,
            holder: holder.operation,
            mode: holder.claim.mode,
        }))
    } else {
        None
    }
}

// Puts the reasons that these holders are at the end.
fn note_holders(
    reasons: &mut Vec<Reason>,
    key: &OpKey,
    mode: Mode,
    holders: &[Holder],
) -> Result<(), AllocError>
    ensures { OnOk result (reasons.new.items ≡ reasons.old.items ++ filter_map (obstacle_of key.now mode) holders.now) }
{
    for holder in holders {
        note(reasons, obstacle(key, mode, holder))?;
    }
    Ok(())
}

/// The reasons that other operations hold special resources which an operation needs, by name and then holder.
pub fn all_held(
    alloc: Global,
    key: &OpKey,
    operation: &OperationRecord,
    holdings: &Holdings,
) -> Result<Vec<Reason>, AllocError>
    ensures { IfOk result (λ found. (P : Contents) (m : ℕ) → needs_start P operation.now ≡ true → AreHeldIn P holdings.now.held → AreOfKind P key.now operation.now m 9 found.items) }
{
    let mut reasons = Vec::new(alloc);
    for need in operation.needs.as_slice() {
        note_holders(&mut reasons, key, need.mode, holdings.holders(&need.name))?;
    }
    Ok(reasons)
}
