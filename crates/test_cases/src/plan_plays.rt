// Worked nights, played by a plan in memory.
use test_nights::{Deviation, plans};

/// The line at which a night goes otherwise than it says.
pub fn told(played: Result<(), Deviation<'static>>) -> Result<(), &'static str> {
    match played {
        Ok(()) => Ok(()),
        Err(at) => Err(at.line),
    }
}

#[test]
fn looks_at_a_plan_of_chains(rt: HostRuntime) -> Result<(), &'static str> {
    told(plans::looks_at_chains(rt.alloc()))
}
