// Workstations that take no more operations at a moment, whatever is asked of them.
ghost use Rattle.std.specs.Prelude.{◌≡◌, Decides, IfOk, length, true};
ghost use Rattle.start_choice.specs.Shut.{AreShut, IsShut};

use plan_basics::{Attr, Moment};
use std::alloc::{AllocError, Global};
use workstations::{Capacity, Workstation};

/// Whether a workstation is closed at a moment, or has given out all of its servers.
pub fn is_shut(workstation: &Workstation, at: Moment, taken: &Capacity) -> bool
    ensures { Decides result (IsShut workstation.now.1 at taken.now) }
{
    match workstation.capacity_at(at) {
        Some(offered) => taken.servers >= offered.servers,
        None => true,
    }
}

// Whether a workstation is automatic, so that the desk names operations on it, and is shut.
fn names_none(workstation: &Workstation, at: Moment, taken: &Capacity) -> bool
    ensures { result ≡ true → IsShut workstation.now.1 at taken.now }
{
    match workstation.attribute() {
        Attr::Automatic => is_shut(workstation, at, taken),
        Attr::StartAndCompletion | Attr::CompletionOnly | Attr::Nonreporting => false,
    }
}

/// Which of these workstations are closed at a moment or have given out all of their servers, each at its index: of automatic ones, since
/// nothing is named on others, of which nothing is told.
pub fn shut_at(
    alloc: Global,
    workstations: &[Workstation],
    at: Moment,
    given: &[Capacity],
) -> Result<Vec<bool>, AllocError>
    requires { length given.now ≡ length workstations.now }
    ensures { IfOk result (λ shut. AreShut workstations.now at given.now shut.items) }
{
    let mut shut = vec![in alloc; false; workstations.len()]?;
    for place in 0..workstations.len() {
        shut[place] = names_none(&workstations[place], at, &given[place]);
    }
    Ok(shut)
}
