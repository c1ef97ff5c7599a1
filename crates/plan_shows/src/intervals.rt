// The open intervals of a workstation.
ghost use Rattle.std.specs.Prelude.{◌≡◌, IfSome, IsNone, None, Some};
ghost use Rattle.std.specs.FinMap.{get};
ghost use Rattle.plan_shows.specs.Intervals.{intervals_of};

use plan_basics::{Interval, WsName};
use plan_reasons::Plan;
use workstations::Workstation;

/// The workstation of a name, if the plan has one.
pub(crate) fn workstation_of<'a>(plan: &'a Plan, name: &WsName) -> Option<&'a Workstation>
    ensures found { IfSome result (λ ws. get plan.now.plan.contents.workstations name.now ≡ Some ws.now.1) }
    ensures absent { IsNone result → get plan.now.plan.contents.workstations name.now ≡ None }
{
    match plan.loaded() {
        Some(loaded) => loaded.contents().workstation(name),
        None => None,
    }
}

/// The open intervals of a workstation, by first minute.
pub(crate) fn intervals_of(workstation: &Workstation) -> &[Interval]
    ensures { result.now ≡ intervals_of workstation.now.1 }
{
    workstation.intervals()
}
