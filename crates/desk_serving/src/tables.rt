// What looks at the dependencies of an occurrence, at the reach of a rerun and at a workstation's intervals are shown.
ghost use Rattle.std.specs.Prelude.{IfOk};
ghost use Rattle.desk_serving.specs.Shown.{ShowsDependencies, ShowsIntervals, ShowsReach};

use super::showing::{refusal_or, refused_shown, show_shown};
use plan_basics::{OccKey, Refusal, WsName};
use plan_reports::{Desk, Show, operation_typed};
use sqlite::Alter;
use std::alloc::{AllocError, Global};

/// The dependencies of the occurrence of this key, which may be no key.
pub fn dependencies_shown<S: Alter + Drop>(
    alloc: Global,
    desk: &Desk<S>,
    key: &[u8],
) -> Result<Vec<u8>, AllocError>
    ensures { IfOk result (λ output. ShowsDependencies key.now desk.now output.items) }
{
    match OccKey::from_text(key) {
        Some(key) => show_shown(alloc, desk, &Show::Dependencies(key)),
        None => refused_shown(alloc, refusal_or(desk, Refusal::UnknownOccurrence)),
    }
}

/// What a rerun of the operation of this key, which may be no key, reaches.
pub fn reach_shown<S: Alter + Drop>(
    alloc: Global,
    desk: &Desk<S>,
    key: &[u8],
) -> Result<Vec<u8>, AllocError>
    ensures { IfOk result (λ output. ShowsReach key.now desk.now output.items) }
{
    match operation_typed(key) {
        Some(key) => show_shown(alloc, desk, &Show::Reach(key)),
        None => refused_shown(alloc, refusal_or(desk, Refusal::UnknownOperation)),
    }
}

/// The open intervals of the workstation of this name, which may be no name.
pub fn intervals_shown<S: Alter + Drop>(
    alloc: Global,
    desk: &Desk<S>,
    name: &[u8],
) -> Result<Vec<u8>, AllocError>
    ensures { IfOk result (λ output. ShowsIntervals name.now desk.now output.items) }
{
    match WsName::from_text(name) {
        Some(workstation) => show_shown(alloc, desk, &Show::Intervals(workstation)),
        None => refused_shown(alloc, refusal_or(desk, Refusal::UnknownWorkstation)),
    }
}
