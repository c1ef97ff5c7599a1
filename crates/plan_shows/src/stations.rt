// Workstations: when they are open, what is given out and open, and how much is ready.
ghost use Rattle.std.specs.Prelude.{◌≡◌, ◌++◌, ◌∷◌, List, [], Some, true, length, IfOk, IfSome, IsNone, OnOk};
ghost use Rattle.std.specs.FinMap.{contains_key, entries, get};
ghost use Rattle.plan_basics.specs.Intervals.{IsOpenAt};
ghost use Rattle.plan_model.specs.Holdings.{given_out};
ghost use Rattle.plan_reasons.specs.Reasons.{IsClosedAt};
ghost use Rattle.plan_reasons.specs.plan_core.specs.Views.{AreReadyViews};
ghost use Rattle.plan_reasons.specs.plan_core.specs.declared.views.OpView.{OpView as OpViewValue};
ghost use Rattle.plan_reasons.specs.plan_core.specs.start_choice.specs.Choices.{AreGivenOut};
ghost use Rattle.plan_shows.specs.declared.stations.WorkstationView.{WorkstationView as WorkstationViewValue};
ghost use Rattle.plan_shows.specs.Stations.{closed_hours, open_hours, AreHours, AreWorkstationViews, IsWorkstationView};

use plan_basics::{Attr, Interval, Moment, WsName};
use plan_reasons::{
    LoadedPlan, OpView, Plan, UncountedContents, given_out_of, next_opening, summaries_of,
};
use std::alloc::{AllocError, Global};
use workstations::{Capacity, Workstation};

/// Whether a workstation is open at a moment, until when, and what is open then.
#[derive(Clone, Copy)]
pub struct Hours {
    /// Whether one of its intervals contains the moment.
    pub is_open: bool,
    /// The end of that interval; where none does, the minute at which the next one begins, or -1 where there is none.
    pub until: i64,
    /// What that interval offers.
    pub offered: Capacity,
}

/// A workstation, with what is read off the plan for it.
#[derive(Clone, Copy)]
pub struct WorkstationView {
    pub name: WsName,
    pub attribute: Attr,
    /// At the plan's clock.
    pub hours: Hours,
    /// What is given out.
    pub given: Capacity,
    /// How many operations are ready on it.
    pub ready: usize,
}

// The interval of a workstation that contains the moment, if there is one.
fn interval_at(workstation: &Workstation, at: Moment) -> Option<Interval>
    ensures found { IfSome result (λ x. (get workstation.now.1.intervals x.from ≡ Some x) × IsOpenAt x at) }
    ensures absent { IsNone result → IsClosedAt workstation.now.1 at }
{
    for interval in workstation.intervals() {
        if interval.contains(at) {
            return Some(*interval);
        }
    }
    None
}

// The hours of a workstation that is open in this interval.
fn open_hours(interval: &Interval) -> Hours
    ensures { result ≡ open_hours interval.now }
{
    Hours {
        is_open: true,
        until: interval.end().minute(),
        offered: Capacity {
            servers: u32::from(interval.servers()),
            r1: u32::from(interval.r1()),
            r2: u32::from(interval.r2()),
        },
    }
}

// The hours of a workstation that is closed, and opens then.
fn closed_hours(next: Option<Moment>) -> Hours
    ensures { result ≡ closed_hours next }
{
    Hours {
        is_open: false,
        until: next.map_or(-1, |next| next.minute()),
        offered: Capacity {
            servers: 0,
            r1: 0,
            r2: 0,
        },
    }
}

// Whether a workstation is open at a moment, and until when.
fn hours_at(workstation: &Workstation, at: Moment) -> Hours
    ensures { AreHours workstation.now.1 at result }
{
    match interval_at(workstation, at) {
        Some(interval) => open_hours(&interval),
        None => closed_hours(next_opening(workstation, at)),
    }
}

// What each workstation of a plan has given out, by name.
fn given_at(alloc: Global, loaded: &LoadedPlan) -> Result<Vec<Capacity>, AllocError>
    ensures { IfOk result (λ given. AreGivenOut loaded.now (entries loaded.now.workstations) given.items) }
{
    let contents = loaded.contents();
    let summaries = summaries_of(alloc, contents.valid())?;
    let given = given_out_of(alloc, &UncountedContents::of(contents), &summaries)?;
    Ok(given)
}

// How many operations are ready on a workstation of the plan. It fails for want of memory only.
fn ready_count(alloc: Global, plan: &Plan, name: &WsName) -> Result<usize, AllocError>
    requires { contains_key plan.now.plan.contents.workstations name.now ≡ true }
    ensures { IfOk result (λ count. (views : List OpViewValue) × AreReadyViews plan.now.plan.contents name.now views × (count ≡ length views)) }
{
    let ready = plan.ready(name).unwrap();
    let views: Vec<OpView> = ready.collect(alloc)?;
    Ok(views.len())
}

// A workstation of the plan, of which so much is given out and so many operations are ready.
fn workstation_view(
    plan: &Plan,
    workstation: &Workstation,
    given: Capacity,
    ready: usize,
) -> WorkstationView
    requires there { get plan.now.plan.contents.workstations workstation.now.0 ≡ Some workstation.now.1 }
    requires given { given ≡ given_out plan.now.plan.contents workstation.now.0 }
    requires ready { (views : List OpViewValue) × AreReadyViews plan.now.plan.contents workstation.now.0 views × (ready ≡ length views) }
    ensures { IsWorkstationView plan.now.plan workstation.now result }
{
    WorkstationView {
        name: workstation.name(),
        attribute: workstation.attribute(),
        hours: hours_at(workstation, plan.clock()),
        given,
        ready,
    }
}

// Puts an item at the end. It fails for want of memory only.
fn push_last<T: Drop>(items: &mut Vec<T>, item: T) -> Result<(), AllocError>
    ensures { OnOk result (items.new.items ≡ items.old.items ++ item ∷ []) }
{
    items.push(item)?;
    Ok(())
}

// Puts a workstation of the plan, of which so much is given out, at the end. It fails for want of memory only.
fn put_view(
    alloc: Global,
    views: &mut Vec<WorkstationView>,
    plan: &Plan,
    workstation: &Workstation,
    given: Capacity,
) -> Result<(), AllocError>
    requires there { get plan.now.plan.contents.workstations workstation.now.0 ≡ Some workstation.now.1 }
    requires given { given ≡ given_out plan.now.plan.contents workstation.now.0 }
    ensures { OnOk result ((view : WorkstationViewValue) × (views.new.items ≡ views.old.items ++ view ∷ []) × IsWorkstationView plan.now.plan workstation.now view) }
{
    let ready = ready_count(alloc, plan, &workstation.name())?;
    push_last(views, workstation_view(plan, workstation, given, ready))?;
    Ok(())
}

// These workstations of a plan, which are all, where this is given out at each. It fails for want of memory only.
fn views_of(
    alloc: Global,
    plan: &Plan,
    workstations: &[Workstation],
    given: &[Capacity],
) -> Result<Vec<WorkstationView>, AllocError>
    requires rows { workstations.now ≡ entries plan.now.plan.contents.workstations }
    requires given { AreGivenOut plan.now.plan.contents workstations.now given.now }
    ensures { IfOk result (λ views. AreWorkstationViews plan.now.plan views.items) }
{
    let mut views = Vec::with_capacity(alloc, workstations.len())?;
    for place in 0..workstations.len() {
        put_view(alloc, &mut views, plan, &workstations[place], given[place])?;
    }
    Ok(views)
}

// All workstations of a plan, by name, of which this is kept. It fails for want of memory only.
fn views_in(
    alloc: Global,
    plan: &Plan,
    loaded: &LoadedPlan,
) -> Result<Vec<WorkstationView>, AllocError>
    requires { loaded.now ≡ plan.now.plan.contents }
    ensures { IfOk result (λ views. AreWorkstationViews plan.now.plan views.items) }
{
    let given = given_at(alloc, loaded)?;
    views_of(alloc, plan, loaded.contents().workstations(), &given)
}

/// All workstations of a plan, by name; none before one is loaded. It fails for want of memory only.
pub(crate) fn workstation_views(
    alloc: Global,
    plan: &Plan,
) -> Result<Vec<WorkstationView>, AllocError>
    ensures { IfOk result (λ views. AreWorkstationViews plan.now.plan views.items) }
{
    match plan.loaded() {
        Some(loaded) => views_in(alloc, plan, loaded),
        None => Ok(Vec::new(alloc)),
    }
}
