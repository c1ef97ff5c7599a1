// What is going.
ghost use Rattle.std.specs.Prelude.{◌≡◌, ◌⊎◌, ◌<◌, true, length, Some, slice_get, Decides};
ghost use Rattle.std.specs.FinMap.{entries};
ghost use Rattle.plan_basics.specs.declared.keys.OpKey.{OpKey};
ghost use Rattle.plan_model.specs.Contents.{Contents, Operation};
ghost use Rattle.plan_model.specs.Valid.{IsValid};
ghost use Rattle.status_rules.specs.Classes.{is_ready};
ghost use Rattle.status_rules.specs.declared.Status.TheVariants.{Started};
ghost use Rattle.plan_forecast.specs.Ahead.{IsGoing};
ghost use Rattle.derived_figures.specs.Reports.{IsReported};

use super::starting::read_for_proof;
use derived_figures::{LoadedPlan, ReportedOperation};
use plan_basics::Attr;
use status_rules::Status;

/// Whether two workstations report alike.
pub(crate) fn is_same(a: Attr, b: Attr) -> bool
    ensures { Decides result (a ≡ b) }
{
    a == b
}

// Whether this status is that of what is started.
fn is_started(status: Status) -> bool
    ensures { Decides result (status ≡ Started) }
{
    status == Status::Started
}

// Whether something of this status may be going.
fn may_be_going(status: Status) -> bool
    ensures { Decides result ((status ≡ Started) ⊎ (is_ready status ≡ true)) }
{
    is_started(status) || status.is_ready()
}

/// Whether an operation is going: it is started; or it is on a workstation that reports completion alone, ready and not
/// held.
pub fn is_going(reported: &ReportedOperation<'_>) -> bool
    ensures { (P : Contents) (o : OpKey) → IsValid P → IsReported P o reported.now → Decides result (IsGoing P o) }
{
    if is_started(reported.status) {
        return true;
    }
    if !reported.status.is_ready() {
        return false;
    }
    let operation = reported.operation;
    is_same(reported.attribute, Attr::CompletionOnly) && !operation.held
}

/// Whether the operation at an index is going. Its record is looked at only where its status leaves that open.
pub(crate) fn is_going_at(loaded: &LoadedPlan, place: usize) -> bool
    requires { place < length (entries loaded.now.operations) }
    ensures { (o : OpKey) (op : Operation) → slice_get (entries loaded.now.operations) place ≡ Some (o, op) → Decides result (IsGoing loaded.now o) }
{
    read_for_proof(loaded);
    if !may_be_going(loaded.status_at(place)) {
        return false;
    }
    is_going(&loaded.reported_at(place))
}
