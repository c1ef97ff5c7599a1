// What workstations have given out, and whether one more operation fits.
ghost use Rattle.std.specs.Prelude.{◌≡◌, ◌↔◌, ◌+◌, ◌≤◌, true, Some, IfOk, IfErr, OnOk, IsTrue};
ghost use Rattle.std.specs.FinMap.{entries, get};
ghost use Rattle.plan_basics.specs.declared.Refusal.{Refusal};
ghost use Rattle.plan_basics.specs.declared.keys.OpKey.{OpKey};
ghost use Rattle.plan_model.specs.Contents.{Contents, attribute_at};
ghost use Rattle.plan_model.specs.Starts.{MayStart};
ghost use Rattle.plan_model.specs.Holdings.{takes};
ghost use Rattle.counted_records.specs.plan_status.specs.Summaries.{AreSummaries};
ghost use Rattle.start_choice.specs.SummarizedTakings.{takes_server_by_summary};
ghost use Rattle.start_choice.specs.Choices.{AreGivenOut, HasTaken, IsStartLine};
ghost use Rattle.start_choice.specs.Takings.{CanMeetNeed, CanMeetNeeds, CanStart, IsAtMost, MeetsLinesBelow, most_given_out, with_one_more};

use counted_records::{
    OperationSummary, SeenOperation, UncountedContents, ValidContents, attribute_of,
};
use plan_basics::{Moment, OpKey, Refusal};
use plan_model::OperationRecord;
use special_resources::{Holdings, Need};
use std::alloc::{AllocError, Global};
use workstations::Capacity;

// Nothing is given out yet.
const NOTHING: Capacity = Capacity {
    servers: 0,
    r1: 0,
    r2: 0,
};

/// Whether starts are known on the workstation of an operation of the plan: there it takes servers and special resources.
pub fn starts_are_known(contents: &ValidContents, operation: &OperationRecord) -> bool
    requires { (o : OpKey) × (get contents.now.operations o ≡ Some operation.now) }
    ensures { result ≡ takes (attribute_at contents.now operation.now.workstation) }
{
    attribute_of(contents, operation).knows_starts()
}

// Whether an operation holds a server of its workstation.
fn holds_a_server(summary: &OperationSummary) -> bool
    ensures { result ≡ takes_server_by_summary summary.now }
{
    summary.starts_are_known() && summary.mark.holds_server()
}

// What is given out, with this much more.
fn with_more(taken: u32, more: u8) -> u32
    ensures { taken ≤ most_given_out → result ≡ taken + more }
{
    taken.saturating_add(u32::from(more))
}

// What is given out, with a server more, and this much of R1 and R2. All operations of a plan give out at most `MOST_OPERATIONS`
// times `MOST_FIXED`.
fn with_server(taken: &Capacity, r1: u8, r2: u8) -> Capacity
    ensures { IsAtMost most_given_out taken.now → result ≡ record { servers = taken.now.servers + 1; r1 = taken.now.r1 + r1; r2 = taken.now.r2 + r2 } }
{
    Capacity {
        servers: with_more(taken.servers, 1),
        r1: with_more(taken.r1, r1),
        r2: with_more(taken.r2, r2),
    }
}

/// What is given out, with a server more, and the operation's R1 and R2.
pub fn with_operation(taken: &Capacity, operation: &OperationRecord) -> Capacity
    ensures { IsAtMost most_given_out taken.now → result ≡ with_one_more taken.now operation.now }
{
    with_server(taken, operation.r1, operation.r2)
}

/// What each workstation has given out, by name, as the summaries of all operations say.
pub fn given_out_of(
    alloc: Global,
    uncounted: &UncountedContents<'_>,
    summaries: &[OperationSummary],
) -> Result<Vec<Capacity>, AllocError>
    requires { AreSummaries uncounted.now.contents.now summaries.now }
    ensures { IfOk result (λ found. AreGivenOut uncounted.now.contents.now (entries uncounted.now.contents.now.workstations) found.items) }
{
    let stations = uncounted.workstations().len();
    let mut given = vec![in alloc; NOTHING; stations]?;
    for summary in summaries {
        if holds_a_server(summary) {
            given[summary.station] = with_server(&given[summary.station], summary.r1, summary.r2);
        }
    }
    Ok(given)
}

// Whether the resource of a need is available, and no holding of another operation stands in the way.
fn has_resource(
    uncounted: &UncountedContents<'_>,
    key: &OpKey,
    need: &Need,
    holdings: &Holdings,
) -> bool
    ensures { IsTrue result ↔ CanMeetNeed uncounted.now.contents.now.resources holdings.now.held key.now need.now }
{
    match uncounted.resource(&need.name) {
        Some(stock) => stock.available && holdings.fits(need, stock.quantity, *key),
        None => false,
    }
}

// Whether each special resource that an operation needs is available, and no holding of another operation stands in the way.
fn has_resources(
    uncounted: &UncountedContents<'_>,
    key: &OpKey,
    operation: &OperationRecord,
    holdings: &Holdings,
) -> bool
    ensures { IsTrue result ↔ CanMeetNeeds uncounted.now.contents.now.resources holdings.now.held key.now operation.now.needs }
{
    for need in operation.needs.as_slice() {
        if !has_resource(uncounted, key, need, holdings) {
            return false;
        }
    }
    true
}

/// Why an operation of the plan may not start at a moment, but for its status, where `taken` is given out at its workstation
/// and `holdings` are held. The first that applies refuses it: `Held` (it is held), `TooEarly` (before its not-before),
/// `Closed` (no interval contains the moment), `NoServer` (all servers are taken), `NoFixed` (R1 or R2 lacks),
/// `ResourceBusy` (a special resource isn't available, another operation holds it exclusively, another holds it at all and
/// the need is exclusive, or what others hold leaves less of it than is needed). Where the operation stands at this place, its workstation isn't searched for.
pub fn check_start(
    seen: &SeenOperation<'_>,
    place: usize,
    taken: &Capacity,
    holdings: &Holdings,
    at: Moment,
) -> Result<(), Refusal>
    requires { get seen.now.uncounted.contents.now.operations seen.now.key.now ≡ Some seen.now.operation.now }
    ensures ok { OnOk result ((P : Contents) → HasTaken P seen.now.uncounted.contents.now seen.now.operation.now taken.now holdings.now.held → CanStart P seen.now.key.now seen.now.operation.now at) }
    ensures line { IfErr result IsStartLine }
    ensures refused { IfErr result (λ r. (P : Contents) → HasTaken P seen.now.uncounted.contents.now seen.now.operation.now taken.now holdings.now.held → ¬ MayStart P seen.now.key.now seen.now.operation.now at r) }
    ensures least { IfErr result (λ r. (P : Contents) → HasTaken P seen.now.uncounted.contents.now seen.now.operation.now taken.now holdings.now.held → MeetsLinesBelow P seen.now.key.now seen.now.operation.now at r) }
{
    let operation = seen.operation;
    if operation.held {
        return Err(Refusal::Held);
    }
    if at.minute() < operation.not_before.minute() {
        return Err(Refusal::TooEarly);
    }
    let workstation = seen
        .uncounted
        .workstation_near(&operation.workstation, place)
        .unwrap();
    workstation.fits(at, taken, u32::from(operation.r1), u32::from(operation.r2))?;
    if has_resources(&seen.uncounted, seen.key, operation, holdings) {
        Ok(())
    } else {
        Err(Refusal::ResourceBusy)
    }
}
