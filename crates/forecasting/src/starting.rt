// What may begin.
ghost use Rattle.std.specs.Prelude.{◌≡◌, MatchOption, Decides};
ghost use Rattle.plan_basics.specs.declared.Attr.TheVariants.{Automatic, StartAndCompletion};
ghost use Rattle.plan_model.specs.Valid.{IsSound};
ghost use Rattle.plan_forecast.specs.Ahead.{Ahead, BeginsFirst, MayBegin, SomeMayBegin};
ghost use Rattle.derived_figures.specs.Reports.{IsReported};
ghost use Rattle.derived_figures.specs.start_choice.specs.Choices.{HasItsWorkstation};

use super::going::is_same;
use derived_figures::{LoadedPlan, Outline, ReportedOperation, SeenOperation, check_start};
use plan_basics::{Attr, Moment, OpKey};
use ready_list::ReadyEntry;

// Whether an operation may begin at a moment on a workstation of this attribute.
fn may_begin(
    outline: &Outline<'_>,
    key: &OpKey,
    reported: &ReportedOperation<'_>,
    attribute: Attr,
    at: Moment,
) -> bool
    requires { IsReported outline.now key.now reported.now }
    ensures { Decides result (MayBegin attribute outline.now key.now at) }
{
    let uncounted = outline.uncounted();
    if !is_same(reported.attribute, attribute) {
        return false;
    }
    if !reported.status.is_ready() {
        return false;
    }
    let operation = reported.operation;
    let taken = outline.given_out_at(operation);
    let seen = SeenOperation {
        key,
        operation,
        uncounted,
    };
    check_start(&seen, reported.place, &taken, outline.holdings(), at).is_ok()
}

// So it is asked of an operation by its key, which is looked for at an index first.
fn begins(loaded: &LoadedPlan, key: &OpKey, near: usize, attribute: Attr, at: Moment) -> bool
    ensures { Decides result (MayBegin attribute loaded.now key.now at) }
{
    let Some(place) = loaded.contents().operation_place_near(key, near) else {
        return false;
    };
    may_begin(
        &loaded.outline(),
        key,
        &loaded.reported_at(place),
        attribute,
        at,
    )
}

// So it is asked of the operation of an entry of the ready list, whose record is looked at only where its workstation's attribute is
// that.
fn entry_begins(loaded: &LoadedPlan, entry: &ReadyEntry, attribute: Attr, at: Moment) -> bool
    requires { HasItsWorkstation loaded.now entry.now }
    ensures { Decides result (MayBegin attribute loaded.now entry.now.key.op at) }
{
    if !is_same(entry.attr, attribute) {
        return false;
    }
    begins(loaded, &entry.key.op, entry.place, attribute, at)
}

/// The plan is looked at for the proof alone, which learns that what it holds is sound.
pub(crate) fn read_for_proof(loaded: &LoadedPlan)
    ensures { IsSound loaded.now }
{
    let _ = loaded.contents().valid();
}

/// Whether the desk would name something at this moment.
pub fn starts_by_itself(loaded: &LoadedPlan, at: Moment) -> bool
    ensures { (s : Ahead) → s.plan.contents ≡ loaded.now → Decides result (SomeMayBegin Automatic s at) }
{
    read_for_proof(loaded);
    let entries = loaded.ready().entries();
    for entry in entries {
        if entry_begins(loaded, entry, Attr::Automatic, at) {
            return true;
        }
    }
    false
}

/// The first of the ready list that may be started at this moment where starts are reported.
pub fn first_start(loaded: &LoadedPlan, at: Moment) -> Option<OpKey>
    ensures { (s : Ahead) → s.plan.contents ≡ loaded.now → MatchOption result (¬ SomeMayBegin StartAndCompletion s at) (BeginsFirst s at) }
{
    read_for_proof(loaded);
    let entries = loaded.ready().entries();
    for entry in entries {
        if entry_begins(loaded, entry, Attr::StartAndCompletion, at) {
            return Some(entry.key.op);
        }
    }
    None
}
