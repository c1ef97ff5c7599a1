// What is kept of a plan's operations, by their standings and statuses.
ghost use Rattle.std.specs.Prelude.{◌≡◌, length, IfOk};
ghost use Rattle.plan_model.specs.Contents.{Contents};
ghost use Rattle.start_choice.specs.plan_drafts.specs.Places.{AreStatuses};
ghost use Rattle.start_choice.specs.plan_status.specs.Standings.{AreStandings};
ghost use Rattle.derived_figures.specs.WaitStates.{AreWaitStates};

use start_choice::{Standing, WaitState};
use status_rules::Status;
use std::alloc::{AllocError, Global};

/// What is kept of each operation, in key order, by its standing and its status: it is satisfied where it is complete or deleted.
///
/// Refused where a growth was refused.
pub fn wait_states_of(
    alloc: Global,
    standings: &[Standing],
    statuses: &[Status],
) -> Result<Vec<WaitState>, AllocError>
    requires { length statuses.now ≡ length standings.now }
    ensures { (P : Contents) → AreStandings P standings.now → AreStatuses P statuses.now → IfOk result (λ wait_states. AreWaitStates P wait_states.items) }
{
    let mut wait_states = Vec::with_capacity(alloc, standings.len())?;
    for (i, standing) in standings.iter().enumerate() {
        wait_states.push(WaitState {
            satisfied: statuses[i].is_satisfied(),
            waiting: standing.waiting as usize,
        })?;
    }
    Ok(wait_states)
}
