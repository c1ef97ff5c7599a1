// Standings with new numbers of waiting predecessors.
ghost use Rattle.std.specs.Prelude.{◌≡◌, ◌<◌, ◌≤◌, ℕ, List, length, All};
ghost use Rattle.plan_basics.specs.declared.limits.TheConstants.{MOST_OPERATIONS};
ghost use Rattle.plan_model.specs.Contents.{Contents};
ghost use Rattle.plan_model.specs.Valid.{IsValid};
ghost use Rattle.plan_model.specs.Moves.{AreLiveAlike, IsMovedAt};
ghost use Rattle.start_choice.specs.plan_status.specs.Standings.{AreStandings};
ghost use Rattle.derived_figures.specs.StandingChanges.{AgreeElsewhere, AreCounters, IsUpdatedStanding, StayElsewhere};

use start_choice::{Standing, WaitState};
use status_rules::Preds;

// The standing of an operation that waits for this many live predecessors.
fn waiting_for(standing: &Standing, waiting: usize) -> Standing
    requires { waiting ≤ MOST_OPERATIONS }
    ensures { IsUpdatedStanding waiting standing.now result }
{
    let preds = standing.preds;
    Standing {
        preds: Preds {
            live: preds.live,
            satisfied: waiting == 0,
            nonreporting: preds.nonreporting,
        },
        waiting: waiting as u32,
    }
}

/// At each of these places the standing gets the number of waiting predecessors that is kept, and whether none waits. All
/// other standings stay.
///
/// Where marks and flags of a plan changed, and each other standing has the number that is kept already, the standings are
/// those of the changed plan.
pub fn update_standings(standings: &mut [Standing], wait_states: &[WaitState], places: &[usize])
    requires size { length wait_states.now ≡ length standings.old }
    requires within { All (λ i. i < length standings.old) places.now }
    requires counters { (Q : Contents) × IsValid Q × AreCounters Q wait_states.now }
    ensures elsewhere { StayElsewhere standings.old standings.new places.now }
    ensures right { (P Q : Contents) (moved : List ℕ) → IsValid Q → IsMovedAt P Q moved → AreLiveAlike P Q → AreStandings P standings.old → AreCounters Q wait_states.now → AgreeElsewhere standings.old wait_states.now places.now → AreStandings Q standings.new }
{
    for place in places {
        standings[*place] = waiting_for(&standings[*place], wait_states[*place].waiting);
    }
}
