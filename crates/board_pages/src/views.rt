// How a page is looked at.
ghost use Rattle.std.specs.Prelude.{◌≡◌};
ghost use Rattle.std.specs.Ordering.{eq_by_cmp};
ghost use Rattle.plan_basics.specs.Keys.{name_cmp};
ghost use Rattle.board_pages.specs.Views.{unasked, unasked_by};

use plan_basics::{Moment, WsName};

/// For how many minutes nobody has asked what is started on a workstation.
#[derive(Clone, Copy)]
pub struct Asked {
    pub workstation: WsName,
    pub minutes: u64,
}

/// What a desk that is served knows beside its plan, by its own clock.
#[derive(Drop)]
pub struct Watch {
    /// For how many minutes the plan's clock has stood.
    pub stood: u64,
    /// From how many on that is an alarm.
    pub stale: u64,
    /// For how many minutes it has been served.
    pub served: u64,
    /// The workstations that were asked for since.
    pub asked: Vec<Asked>,
}

/// How a page is looked at.
#[derive(Clone, Copy)]
pub struct View {
    /// Whether the browser doesn't load it again by itself.
    pub is_still: bool,
    /// Up to when it tells; none where as long as anything is due or may begin.
    pub until: Option<Moment>,
}

// Whether this is of a workstation.
fn is_of(asked: &Asked, workstation: &WsName) -> bool
    ensures { result ≡ eq_by_cmp name_cmp asked.now.workstation workstation.now }
{
    asked.workstation.cmp(workstation).is_eq()
}

// For how many minutes nobody has asked for a workstation; as long as it has been served, where nobody did.
fn unasked_by(watch: &Watch, workstation: &WsName) -> u64
    ensures { result ≡ unasked_by watch.now workstation.now }
{
    match watch.asked.iter().find(|asked| is_of(asked, workstation)) {
        Some(asked) => asked.minutes,
        None => watch.served,
    }
}

/// For how many minutes nobody has asked for a workstation, where a desk is served.
pub(crate) fn unasked(watch: &Option<Watch>, workstation: &WsName) -> Option<u64>
    ensures { result ≡ unasked watch.now workstation.now }
{
    let Some(watch) = watch else {
        return None;
    };
    Some(unasked_by(watch, workstation))
}
