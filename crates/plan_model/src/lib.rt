//! What a plan holds: its occurrences and its operation records; and a change of marks and flags alone, by which all else
//! stays. Everything that is read off a plan, as a status or a latest start, is defined in `specs/`, over finite maps in
//! which nothing is derived.
#![tactic(auto)]

mod moves;

pub use latest_start::{EdgeFault, Graph, Item, Latest};
pub use moves::Marking;
use plan_basics::{Moment, WsName};
pub use special_resources::Needs;
pub use status_rules::{Mark, OccStatus, Status};
use std::marker::Model;
pub use workstations::Workstation;

/// An occurrence of an application: its priority, from 1 (low) to 9 (urgent), and its deadline.
#[derive(Clone, Copy, PartialEq, Eq)]
pub struct Occurrence {
    pub priority: u8,
    pub deadline: Moment,
}

/// A special resource: whether it is available, and how much of it there is, 1 to 999,999.
#[derive(Clone, Copy, PartialEq, Eq)]
pub struct Stock {
    pub available: bool,
    pub quantity: u32,
}

/// An operation record: what was planned of an operation, and what was reported. Contracts see it as `Operation` of the
/// definitions.
#[derive(Clone, Copy)]
pub struct OperationRecord {
    /// The workstation that carries it out.
    pub workstation: WsName,
    /// In minutes, 1 to 5,999.
    pub duration: u16,
    /// How much of the fixed resource R1 it takes, 0 to 99.
    pub r1: u8,
    /// How much of the fixed resource R2 it takes, 0 to 99.
    pub r2: u8,
    /// It doesn't start before this moment.
    pub not_before: Moment,
    pub deadline: Moment,
    /// Its needs of special resources.
    pub needs: Needs,
    /// What was reported of it.
    pub mark: Mark,
    /// An operator holds it: it neither starts nor passes.
    pub held: bool,
    /// It is a no-operation: it passes once its predecessors are satisfied.
    pub nop: bool,
}

impl Model for OperationRecord {
    ghost use Rattle.plan_model.specs.Contents.{Operation};
    ghost use Rattle.plan_model.specs.Code.{operation_code};

    ghost Value = { Operation };

    ghost coded = { operation_code };

    ghost view = { λ a. record {
      workstation = a.workstation;
      duration = a.duration;
      r1 = a.r1;
      r2 = a.r2;
      not_before = a.not_before;
      deadline = a.deadline;
      needs = a.needs;
      mark = a.mark;
      held = a.held;
      nop = a.nop;
    } };

    ghost inverse = { λ v. record {
      workstation = v.workstation;
      duration = v.duration;
      r1 = v.r1;
      r2 = v.r2;
      not_before = v.not_before;
      deadline = v.deadline;
      needs = v.needs;
      mark = v.mark;
      held = v.held;
      nop = v.nop;
    } };
}
