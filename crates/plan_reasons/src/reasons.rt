// What keeps an operation from going on.

use plan_basics::{Moment, OpKey, ResName, WsName};
use special_resources::{Holder, Mode};
use status_rules::Status;

/// What a workstation has that operations take: servers, or the fixed resources R1 and R2.
#[derive(Clone, Copy)]
pub enum Supply {
    Servers,
    R1,
    R2,
}

/// What lacks on a workstation.
#[derive(Clone, Copy)]
pub struct Shortage {
    pub workstation: WsName,
    pub supply: Supply,
    /// How much of it is given out.
    pub given: u32,
    /// How much of it is open at the moment.
    pub offered: u32,
    /// How much of it the operation needs.
    pub needed: u32,
}

/// A workstation that is closed for a time.
#[derive(Clone, Copy)]
pub struct Closing {
    pub workstation: WsName,
    /// The first minute of its next interval.
    pub until: Moment,
}

/// An operation that isn't satisfied, and its status.
#[derive(Clone, Copy)]
pub struct Unsatisfied {
    pub op: OpKey,
    pub status: Status,
}

/// What a mark tells of a start.
#[derive(Clone, Copy)]
pub enum Beginning {
    /// The plan named the operation.
    Named,
    /// Its start was reported.
    Reported,
    /// It isn't started.
    NotStarted,
}

/// The status of an operation from which nothing starts, and what its mark tells of a start.
#[derive(Clone, Copy)]
pub struct Rest {
    pub status: Status,
    pub beginning: Beginning,
}

/// Another operation that holds a special resource, and its status.
#[derive(Clone, Copy)]
pub struct OtherHolder {
    pub holder: Holder,
    pub status: Status,
}

/// A holding of a special resource that stands in the way.
#[derive(Clone, Copy)]
pub struct Obstacle {
    pub resource: ResName,
    pub holder: OpKey,
    pub mode: Mode,
}

/// A special resource of which others leave too little.
#[derive(Clone, Copy)]
pub struct Scarcity {
    pub resource: ResName,
    /// How much of it those that hold it leave.
    pub left: u32,
    /// How much of it the operation needs.
    pub needed: u32,
}

/// A reason why an operation doesn't start at a moment; on a workstation of attribute C, why it doesn't complete; on one
/// that doesn't report, and of a NOP, why it doesn't pass (IBM OPC/ESA, Controlling and Monitoring the Workload; the
/// reasons and their order are this project's own).
#[derive(Clone, Copy)]
pub enum Reason {
    /// Its status is none from which it goes on: C, D, E, S or U, or I where its workstation doesn't report starts.
    AtRest(Rest),
    /// It waits for this predecessor.
    WaitsFor(Unsatisfied),
    /// An operator holds it.
    Held,
    /// It doesn't start before this moment, which is still to come.
    TooEarly(Moment),
    /// No interval of this workstation, its own, contains the moment, and none comes after it.
    Closed(WsName),
    /// No interval of its workstation contains the moment; a next one comes.
    ClosedUntil(Closing),
    /// All servers are given out, or not enough of R1 or of R2 is left.
    Lacks(Shortage),
    /// A special resource that it needs isn't available.
    Unavailable(ResName),
    /// Another operation holds a special resource that it needs, and not both share it.
    HeldBy(Obstacle),
    /// Others leave less of a special resource than it needs.
    TooLittleLeft(Scarcity),
}
