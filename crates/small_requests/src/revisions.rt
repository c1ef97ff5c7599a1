// What an edit writes into what a plan holds.
ghost use Rattle.std.specs.Prelude.{◌≡◌, true, IfOk, List, Some};
ghost use Rattle.std.specs.FinMap.{contains_key, get};
ghost use Rattle.plan_rows.specs.Touched.{IsFacilityChange};
ghost use Rattle.plan_model.specs.Contents.{Contents};
ghost use Rattle.plan_basics.specs.declared.keys.OpKey.{OpKey as OpKeyValue};
ghost use Rattle.small_requests.specs.Revisions.{HasPlaceFor, PutsBack, written};

use plan_basics::{OpKey, ResName, WsName};
use plan_checks::CountedRecords;
use plan_rows::FacilityChange;
use status_rules::Mark;
use std::alloc::AllocError;
use workstations::Workstation;

/// What an edit writes.
#[derive(Drop)]
pub enum Revision {
    /// Nothing.
    Nothing,
    /// A mark, on all operations of the edit.
    Mark(Mark),
    /// That an operation is held, or isn't any more.
    Held(OpKey, bool),
    /// That an operation is a no-operation, or is carried out again.
    Nop(OpKey, bool),
    /// Whether a special resource is available.
    Available(ResName, bool),
    /// A workstation, open in other intervals.
    Opened(Workstation),
}

impl Revision {
    /// An equal one.
    pub fn try_clone(&self) -> Result<Revision, AllocError>
        ensures { IfOk result (λ new. new ≡ self.now) }
    {
        match self {
            Revision::Nothing => Ok(Revision::Nothing),
            Revision::Mark(mark) => Ok(Revision::Mark(*mark)),
            Revision::Held(key, held) => Ok(Revision::Held(*key, *held)),
            Revision::Nop(key, nop) => Ok(Revision::Nop(*key, *nop)),
            Revision::Available(name, available) => Ok(Revision::Available(*name, *available)),
            Revision::Opened(workstation) => Ok(Revision::Opened(workstation.try_clone()?)),
        }
    }

    /// What it may change beside operations.
    pub fn facility_change(&self) -> FacilityChange
        ensures { (keys : List OpKeyValue) (P : Contents) → IsFacilityChange result P (written keys self.now P) }
    {
        match self {
            Revision::Available(_, _) => FacilityChange::Resources,
            Revision::Opened(_) => FacilityChange::Workstations,
            _ => FacilityChange::Nothing,
        }
    }
}

// A copy of the workstation of this name, which is there.
fn standing_workstation(records: &CountedRecords, name: &WsName) -> Result<Workstation, AllocError>
    requires { contains_key records.now.contents.workstations name.now ≡ true }
    ensures { IfOk result (λ w. (w.0 ≡ name.now) × (get records.now.contents.workstations name.now ≡ Some w.1)) }
{
    records.uncounted().workstation(name).unwrap().try_clone()
}

/// What stands beside operations where it is going to be written: that, written after it, puts back what stood there.
pub fn standing(records: &CountedRecords, revision: &Revision) -> Result<Revision, AllocError>
    requires { HasPlaceFor records.now.contents revision.now }
    ensures { IfOk result (PutsBack records.now.contents revision.now) }
{
    match revision {
        Revision::Available(name, _) => Ok(Revision::Available(
            *name,
            records.uncounted().resource(name).unwrap().available,
        )),
        Revision::Opened(workstation) => Ok(Revision::Opened(standing_workstation(
            records,
            &workstation.name(),
        )?)),
        _ => Ok(Revision::Nothing),
    }
}
