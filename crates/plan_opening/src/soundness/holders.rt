// Whether holders of special resources are compatible, and hold no more than there is.
ghost use Rattle.std.specs.Prelude.{◌≡◌, ◌↔◌, ◌⊎◌, ◌<◌, ◌≤◌, IsTrue, All, length, sum_by};
ghost use Rattle.plan_rows.specs.start_choice.specs.Choices.{AreHeldIn};
ghost use Rattle.plan_opening.specs.Laws.{HoldersAreCompatible, NoMoreIsHeld};
ghost use Rattle.special_resources.specs.declared.Mode.TheVariants.{Shared};

use plan_rows::ValidContents;
use special_resources::{Holder, Holdings, Mode};

// Whether none of the holders of one resource is exclusive beside another.
fn are_compatible(holders: &[Holder]) -> bool
    ensures { IsTrue result ↔ ((length holders.now < 2) ⊎ All (λ holder. holder.claim.mode ≡ Shared) holders.now) }
{
    holders.len() < 2
        || holders
            .iter()
            .all(|holder| holder.claim.mode == Mode::Shared)
}

/// Whether no special resource has an exclusive holder beside another, by who holds what.
pub fn holders_are_compatible(contents: &ValidContents, holdings: &Holdings) -> bool
    requires { AreHeldIn contents.now holdings.now.held }
    ensures { IsTrue result ↔ HoldersAreCompatible contents.now }
{
    for resource in contents.resources() {
        if !are_compatible(holdings.holders(&resource.0)) {
            return false;
        }
    }
    true
}

// Whether the amounts of these holders are together at most the quantity.
fn are_within(holders: &[Holder], quantity: u32) -> bool
    ensures { IsTrue result ↔ (sum_by (λ holder. holder.claim.amount) holders.now ≤ quantity) }
{
    let mut left = quantity;
    for holder in holders {
        if left < holder.claim.amount {
            return false;
        }
        left -= holder.claim.amount;
    }
    true
}

/// Whether no more of a special resource is held than there is, by who holds what.
pub fn no_more_is_held(contents: &ValidContents, holdings: &Holdings) -> bool
    requires { AreHeldIn contents.now holdings.now.held }
    ensures { IsTrue result ↔ NoMoreIsHeld contents.now }
{
    for resource in contents.resources() {
        if !are_within(holdings.holders(&resource.0), resource.1.quantity) {
            return false;
        }
    }
    true
}
