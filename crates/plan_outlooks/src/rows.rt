// The rows that are read off a forecast.

use plan_basics::{Attr, ErrCode, Moment, OccKey, OpKey, WsName};
use plan_reasons::{Beginning, Reason};
use status_rules::{OccStatus, Status};

/// An occurrence that is neither complete nor deleted.
#[derive(Clone, Copy)]
pub struct OccurrenceOutlook {
    pub key: OccKey,
    /// From 1 (low) to 9 (urgent).
    pub priority: u8,
    /// In the plan as it stands before the forecast.
    pub status: OccStatus,
    pub deadline: Moment,
    /// When the last of its operations is complete; none where one of them isn't by the end of the forecast.
    pub end: Option<Moment>,
    /// By how many minutes it ends after its deadline, if it does; where it has no end, by how many the last moment that is told
    /// of is after it: it is late by that at least.
    pub late: Option<u64>,
    /// How many of its operations the forecast doesn't begin, those apart that have begun and failed.
    pub never: usize,
}

/// An operation that the forecast begins, or that is going already.
#[derive(Clone, Copy)]
pub struct OperationOutlook {
    pub key: OpKey,
    pub workstation: WsName,
    /// How its workstation reports.
    pub attribute: Attr,
    /// In the plan as it stands before the forecast.
    pub status: Status,
    /// Whether it is going in that plan.
    pub is_going: bool,
    /// When it begins. What is only named is taken to begin at the forecast's moment, and so is what is going since nobody knows
    /// when. Where its completion alone is reported, it begins when it is ready, and not before its not-before. What passes by
    /// itself begins when it is complete.
    pub begin: Moment,
    /// Whether that is known: not of what is going since nobody knows when.
    pub is_known: bool,
    /// When it is complete; none where it isn't by the end of the forecast.
    pub end: Option<Moment>,
    /// In minutes from 1972-01-01T00:00; it may lie before that. To end by its deadline and leave time for all that comes
    /// after it, the operation has to start by then.
    pub latest: i64,
    /// By how many minutes it begins after its latest start, if it is known to.
    pub late: Option<u64>,
    /// What its mark tells of a start in the plan as it stands: it is only named, its start is reported, or neither.
    pub beginning: Beginning,
    /// Of what is going, since when it is named, runs, or is ready where its completion alone is reported, if that is known.
    pub since: Option<Moment>,
    /// By how many minutes it goes on longer than planned at the forecast's moment, if it does; it is taken to end then.
    pub over: Option<u64>,
    /// Whether its times are only taken, since it goes on longer than planned, or waits for what does.
    pub is_taken: bool,
}

/// What an operation begins after: the first of these that is so.
#[derive(Clone, Copy)]
pub enum Cause {
    /// It is going already, or begins at the forecast's moment.
    Now,
    /// A predecessor ends then.
    After,
    /// Its not-before is then.
    NotBefore,
    /// An interval of its workstation begins then.
    Opens,
    /// Something ends then, and frees a server, R1, R2 or a special resource that it lacked.
    Frees,
}

/// A member of the path by which an occurrence will be late.
#[derive(Clone, Copy)]
pub struct PathMember {
    /// The occurrence that will be late.
    pub late: OccKey,
    pub key: OpKey,
    pub cause: Cause,
    /// When it begins; the forecast's moment where it is going since nobody knows when.
    pub begin: Moment,
    /// Whether that is known.
    pub is_known: bool,
    /// When it is complete.
    pub end: Moment,
    /// The first reason why it didn't go on as the minute began at which it begins, if there was one: what was freed for it.
    pub lack: Option<Reason>,
}

/// Why an operation doesn't begin, by its own status.
#[derive(Clone, Copy)]
pub enum Standing {
    /// It is in error, with this code.
    InError(ErrCode),
    /// It is interrupted: where starts are reported, somebody has to start it again.
    Interrupted,
    /// Whether it has ended isn't known.
    Undecided,
    /// The first reason why it doesn't go on.
    For(Reason),
    /// There is none: it begins after the last moment that is told of.
    Later,
}

/// An operation, neither complete nor deleted, that the forecast doesn't begin.
#[derive(Clone, Copy)]
pub struct Standstill {
    pub key: OpKey,
    pub workstation: WsName,
    /// How its workstation reports.
    pub attribute: Attr,
    /// At the end of the forecast.
    pub status: Status,
    /// The first moment from the end of the forecast on that isn't before its not-before and at which its workstation is
    /// open; where it is open no more, the later of these two.
    pub at: Moment,
    /// Why it doesn't begin, as it is then.
    pub standing: Standing,
    /// In minutes from 1972-01-01T00:00; it may lie before that.
    pub latest: i64,
}

/// All that a forecast tells.
#[derive(Drop)]
pub struct Outlooks {
    /// The moment of the forecast.
    pub from: Moment,
    /// The last moment that it tells of: the one up to which it was asked for, else that of its last request.
    pub to: Moment,
    /// Whether it was asked for up to a moment, so that more may come after it.
    pub is_cut: bool,
    /// By key.
    pub occurrences: Vec<OccurrenceOutlook>,
    /// By beginning, and then by key.
    pub operations: Vec<OperationOutlook>,
    /// Those of them that were named and aren't started, what was named first comes first.
    pub named: Vec<OperationOutlook>,
    /// Those that go on longer than planned at the forecast's moment, what was to end first comes first.
    pub over: Vec<OperationOutlook>,
    /// Of each occurrence that will be late, by key, the members of its path in the order in which they begin.
    pub paths: Vec<PathMember>,
    /// Those that don't wait first, then by key.
    pub standstills: Vec<Standstill>,
}
