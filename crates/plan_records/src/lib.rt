//! Requests and their answers, and the rows of the tables. What texts denote comes from `plan_drafts`.
#![tactic(auto)]

ghost use Rattle.std.specs.Prelude.{◌≡◌};
ghost use Rattle.plan_records.specs.Changes.{operation_of};
ghost use Rattle.plan_records.specs.Rows.{key_of};

use plan_basics::{Attr, ErrCode, Interval, Moment, OccKey, OpKey, Refusal, ResName, WsName};
use plan_drafts::{Mode, OccStatus, Status};
pub use plan_drafts::{
    Addition, Extension, ExtensionParts, Mark, Marking, Occurrence, OperationRecord, PlanContents,
    PlanDraft, RowKey, copies_of, graph_of, keys, row_place,
};

/// What is asked: a report of a tracker, a command of an operator, or a tick.
#[derive(Drop)]
pub enum What {
    /// The plan of a text is to be loaded; `None` for a text that denotes none.
    Load(Option<PlanDraft>),
    Tick,
    Started(OpKey),
    Ended(OpKey),
    Error(OpKey, ErrCode),
    Interrupted(OpKey),
    Unknown(OpKey),
    Hold(OpKey),
    Release(OpKey),
    Nop(OpKey),
    Unnop(OpKey),
    Rerun(OpKey),
    Complete(OpKey),
    DeleteOccurrence(OccKey),
    /// The occurrence of a text is to be added; `None` for a text that denotes none.
    AddOccurrence(Option<Addition>),
    /// The plan is to be extended by the occurrences of a text, once those that are complete or deleted have left it; `None`
    /// for a text that denotes none.
    Extend(Option<Extension>),
    AddDependency(OpKey, OpKey),
    SetAvailable(ResName, bool),
    ReplaceIntervals(WsName, Vec<Interval>),
}

impl What {
    /// The operation of which it reports, or that it commands, if it is about one.
    pub fn operation(&self) -> Option<OpKey>
        ensures { result ≡ operation_of self.now }
    {
        match self {
            What::Started(key)
            | What::Ended(key)
            | What::Error(key, _)
            | What::Interrupted(key)
            | What::Unknown(key)
            | What::Hold(key)
            | What::Release(key)
            | What::Nop(key)
            | What::Unnop(key)
            | What::Rerun(key)
            | What::Complete(key) => Some(*key),
            _ => None,
        }
    }
}

/// A request, and the minute at which it is made, which may be out of a plan's range.
#[derive(Drop)]
pub struct Request {
    pub at: i64,
    pub what: What,
}

/// What a request is answered: it is carried out, and these operations are named to start, in this order; or it isn't
/// carried out, and nothing changes.
#[derive(Drop)]
pub enum Reply {
    Accepted { named: Vec<OpKey> },
    Refused(Refusal),
}

/// A row of the tables, with its columns.
#[derive(Clone, Copy, PartialEq, Eq)]
pub enum PlanRow {
    Meta {
        version: u32,
        loaded: bool,
        clock: Moment,
    },
    Workstation {
        name: WsName,
        attr: Attr,
    },
    Interval {
        ws: WsName,
        interval: Interval,
    },
    Resource {
        name: ResName,
        available: bool,
    },
    Occurrence {
        occurrence: OccKey,
        priority: u8,
        deadline: Moment,
        status: OccStatus,
    },
    Operation(OperationRow),
    Dependency {
        predecessor: OpKey,
        successor: OpKey,
    },
    Need {
        op: OpKey,
        resource: ResName,
        mode: Mode,
        keep: bool,
    },
    Quantity {
        resource: ResName,
        quantity: u32,
    },
    Amount {
        op: OpKey,
        resource: ResName,
        amount: u32,
    },
}

impl PlanRow {
    /// Its key columns.
    pub fn key(&self) -> RowKey
        ensures { result ≡ key_of self.now }
    {
        match *self {
            PlanRow::Meta { .. } => RowKey::Meta,
            PlanRow::Workstation { name, .. } => RowKey::Workstation(name),
            PlanRow::Interval { ws, interval } => RowKey::Interval(ws, interval.from()),
            PlanRow::Resource { name, .. } => RowKey::Resource(name),
            PlanRow::Occurrence { occurrence, .. } => RowKey::Occurrence(occurrence),
            PlanRow::Operation(row) => RowKey::Operation(row.op),
            PlanRow::Dependency {
                predecessor,
                successor,
            } => RowKey::Dependency(predecessor, successor),
            PlanRow::Need { op, resource, .. } => RowKey::Need(op, resource),
            PlanRow::Quantity { resource, .. } => RowKey::Quantity(resource),
            PlanRow::Amount { op, resource, .. } => RowKey::Amount(op, resource),
        }
    }
}

/// A row of the table `operation`.
#[derive(Clone, Copy, PartialEq, Eq)]
pub struct OperationRow {
    pub op: OpKey,
    pub ws: WsName,
    pub duration: u16,
    pub r1: u8,
    pub r2: u8,
    pub not_before: Moment,
    pub deadline: Moment,
    pub mark: Mark,
    pub held: bool,
    pub nop: bool,
    pub status: Status,
    pub latest: i64,
    pub waiting: u32,
}

/// Which rows of the tables change: the rows that are new or differ, and the keys of those that are gone. Both are in the
/// order of the tables, and of each table in key order.
#[derive(Drop)]
pub struct Changes {
    pub rows: Vec<PlanRow>,
    pub gone: Vec<RowKey>,
}
