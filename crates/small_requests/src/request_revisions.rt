// What each small request writes.
ghost use Rattle.std.specs.Prelude.{◌≡◌, ℕ, All, IfOk};
ghost use Rattle.std.specs.FinMap.{insert};
ghost use Rattle.plan_basics.specs.Intervals.{IsInterval};
ghost use Rattle.plan_basics.specs.Names.{IsName};
ghost use Rattle.plan_basics.specs.Refusals.{NoneRefuses};
ghost use Rattle.plan_checks.specs.plan_changes.specs.Intervals.{opened};
ghost use Rattle.small_requests.specs.RequestEdits.{IsSmall};
ghost use Rattle.plan_records.specs.Acceptance.{MayBeDone, MayBeOpenBy};
ghost use Rattle.small_requests.specs.Revisions.{IsRevisionFor};

use super::revisions::Revision;
use plan_basics::{ErrCode, Interval, WsName};
use plan_checks::UncountedContents;
use plan_records::What;
use status_rules::Mark;
use std::alloc::{AllocError, Global};
use workstations::Workstation;

// The mark of what ended with an error. The code's text is looked at for the proof alone, which learns that it is legal.
fn error_mark(code: &ErrCode) -> Mark
    ensures mark { result ≡ Mark.Error code.now }
    ensures legal { IsName 4 code.now }
{
    let _ = code.as_bytes();
    Mark::Error(*code)
}

// The intervals are looked at for the proof alone, which learns that they are intervals.
fn read_for_proof(intervals: &[Interval])
    ensures { All IsInterval intervals.now }
{
    for interval in intervals {
        let _ = interval.from();
    }
}

// A workstation of the plan, open in these intervals in place of its own, which are no more than it may have, and of which no two
// overlap. To set it opens it in them.
fn workstation_with(
    alloc: Global,
    uncounted: &UncountedContents<'_>,
    name: &WsName,
    intervals: &[Interval],
) -> Result<Workstation, AllocError>
    requires { NoneRefuses (MayBeOpenBy uncounted.now.contents.now name.now intervals.now) }
    ensures name { IfOk result (λ workstation. workstation.0 ≡ name.now) }
    ensures opens { IfOk result (λ workstation. record uncounted.now.contents.now { workstations = insert uncounted.now.contents.now.workstations workstation.0 workstation.1 } ≡ opened name.now intervals.now uncounted.now.contents.now) }
{
    let mut workstation = uncounted.workstation(name).unwrap().try_clone()?;
    let own = Vec::from_slice(alloc, intervals)?;
    workstation.replace_intervals(own).unwrap();
    Ok(workstation)
}

/// What a small request, in whose way nothing stands, writes.
pub fn revision_of(
    alloc: Global,
    uncounted: &UncountedContents<'_>,
    what: &What,
) -> Result<Revision, AllocError>
    requires small { IsSmall what.now }
    requires clear { (at : ℕ) × NoneRefuses (MayBeDone uncounted.now.contents.now at what.now) }
    ensures { IfOk result (IsRevisionFor uncounted.now.contents.now what.now) }
{
    match what {
        What::Tick => Ok(Revision::Nothing),
        What::Started(_) => Ok(Revision::Mark(Mark::Running)),
        What::Ended(_) => Ok(Revision::Mark(Mark::Done)),
        What::Complete(_) => Ok(Revision::Mark(Mark::Done)),
        What::Error(_, code) => Ok(Revision::Mark(error_mark(code))),
        What::Interrupted(_) => Ok(Revision::Mark(Mark::Interrupted)),
        What::Unknown(_) => Ok(Revision::Mark(Mark::Undecided)),
        What::Rerun(_) => Ok(Revision::Mark(Mark::Unmarked)),
        What::Hold(key) => Ok(Revision::Held(*key, true)),
        What::Release(key) => Ok(Revision::Held(*key, false)),
        What::Nop(key) => Ok(Revision::Nop(*key, true)),
        What::Unnop(key) => Ok(Revision::Nop(*key, false)),
        What::SetAvailable(name, available) => Ok(Revision::Available(*name, *available)),
        What::ReplaceIntervals(name, intervals) => {
            read_for_proof(intervals);
            Ok(Revision::Opened(workstation_with(alloc, uncounted, name, intervals)?))
        }
        What::Load(_)
        | What::DeleteOccurrence(_)
        | What::AddOccurrence(_)
        | What::Extend(_)
        | What::AddDependency(_, _) => unreachable!(),
    }
}
