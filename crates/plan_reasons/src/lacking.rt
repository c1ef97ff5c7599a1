// What lacks on the operation's workstation.
ghost use Rattle.std.specs.Prelude.{◌≡◌, ◌+◌, true, Some};
ghost use Rattle.std.specs.FinMap.{get};
ghost use Rattle.plan_basics.specs.declared.keys.OpKey.{OpKey};
ghost use Rattle.plan_model.specs.Contents.{Contents, Operation};
ghost use Rattle.plan_model.specs.Holdings.{given_out};
ghost use Rattle.plan_reasons.specs.Order.{supply_place};
ghost use Rattle.plan_reasons.specs.Parts.{IsOfKind};
ghost use Rattle.plan_reasons.specs.Places.{closed_by};
ghost use Rattle.plan_reasons.specs.Reasons.{IsNextOpening, amount_in, amount_needed, needs_start};

use super::reasons::{Closing, Reason, Shortage, Supply};
use plan_basics::{Moment, WsName};
use plan_model::OperationRecord;
use workstations::{Capacity, Workstation};

/// The first minute of the next interval after a moment, if there is one.
pub fn next_opening(workstation: &Workstation, at: Moment) -> Option<Moment>
    ensures { IsNextOpening workstation.now.1 at result }
{
    for interval in workstation.intervals() {
        let from = interval.from();
        if from > at {
            return Some(from);
        }
    }
    None
}

// The reason that this workstation is closed, until its next interval begins, if there is one.
fn closed_by(workstation: WsName, next: Option<Moment>) -> Reason
    ensures { result ≡ closed_by workstation next }
{
    match next {
        Some(until) => Reason::ClosedUntil(Closing { workstation, until }),
        None => Reason::Closed(workstation),
    }
}

/// The reason that no interval of its workstation contains the moment.
pub fn closed(workstation: &Workstation, at: Moment) -> Option<Reason>
    ensures { (P : Contents) (o : OpKey) (op : Operation) → needs_start P op ≡ true → op.workstation ≡ workstation.now.0 → get P.workstations op.workstation ≡ Some workstation.now.1 → IsOfKind P o op at 4 result }
{
    match workstation.capacity_at(at) {
        Some(_) => None,
        None => Some(closed_by(workstation.name(), next_opening(workstation, at))),
    }
}

// How much of a supply this is.
fn amount_in(supply: Supply, capacity: &Capacity) -> u32
    ensures { result ≡ amount_in supply capacity.now }
{
    match supply {
        Supply::Servers => capacity.servers,
        Supply::R1 => capacity.r1,
        Supply::R2 => capacity.r2,
    }
}

// How much of a supply an operation takes.
fn amount_needed(supply: Supply, operation: &OperationRecord) -> u32
    ensures { result ≡ amount_needed supply operation.now }
{
    match supply {
        Supply::Servers => 1,
        Supply::R1 => u32::from(operation.r1),
        Supply::R2 => u32::from(operation.r2),
    }
}

/// The reason that less of a supply is open at the moment than is given out and needed.
pub fn lacks(
    workstation: &Workstation,
    operation: &OperationRecord,
    taken: &Capacity,
    supply: Supply,
    at: Moment,
) -> Option<Reason>
    ensures { (P : Contents) (o : OpKey) → needs_start P operation.now ≡ true → operation.now.workstation ≡ workstation.now.0 → get P.workstations operation.now.workstation ≡ Some workstation.now.1 → taken.now ≡ given_out P operation.now.workstation → IsOfKind P o operation.now at (5 + supply_place supply) result }
{
    let Some(capacity) = workstation.capacity_at(at) else {
        return None;
    };
    let given = amount_in(supply, taken);
    let offered = amount_in(supply, &capacity);
    let needed = amount_needed(supply, operation);
    if u64::from(offered) < u64::from(given) + u64::from(needed) {
        Some(Reason::Lacks(Shortage {
            workstation: workstation.name(),
            supply,
            given,
            offered,
            needed,
        }))
    } else {
        None
    }
}
