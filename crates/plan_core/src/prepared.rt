// A request that was prepared.
ghost use Rattle.std.specs.Prelude.{◌≡◌};
ghost use Rattle.plan_core.specs.Prepares.{prepared_by};

use plan_basics::{Moment, OpKey};
use plan_records::Changes;
use request_outcomes::{AcceptedOutcome, NextPlan};
use std::marker::Model;

/// A request that is accepted, with all that it takes: its moment, what it makes of the plan that it was prepared for, the
/// operations that are named to start, which rows of the tables change, and how many operation records were looked at.
/// Contracts see it as these.
#[derive(Drop)]
pub struct Prepared {
    pub(crate) clock: Moment,
    pub(crate) next: NextPlan,
    pub(crate) named: Vec<OpKey>,
    pub(crate) changes: Changes,
    pub(crate) work: u64,
}

impl Model for Prepared {
    ghost use Rattle.plan_core.specs.State.{PreparedState, prepared_code};

    ghost Value = { PreparedState };

    ghost coded = { prepared_code };

    ghost view = { λ p. record { clock = p.clock; next = p.next; named = p.named.items; rows = p.changes.rows.items; gone = p.changes.gone.items; work = p.work } };
}

impl Prepared {
    // What a request leads to at its moment, for which this many records were looked at.
    pub(crate) fn of(clock: Moment, outcome: AcceptedOutcome, work: u64) -> Prepared
        ensures { result ≡ prepared_by clock outcome work }
    {
        Prepared {
            clock,
            next: outcome.next,
            named: outcome.named,
            changes: outcome.changes,
            work,
        }
    }

    /// The operations that are named to start, in the order of the ready list.
    pub fn named(&self) -> &[OpKey]
        ensures { result.now ≡ self.now.named }
    {
        &self.named
    }

    /// Which rows of the tables change: those that are new or differ, and the keys of those that are gone.
    pub fn changes(&self) -> &Changes
        ensures rows { result.now.rows.items ≡ self.now.rows }
        ensures gone { result.now.gone.items ≡ self.now.gone }
    {
        &self.changes
    }

    /// How many operation records of the plan were looked at to prepare it.
    pub fn work(&self) -> u64
        ensures { result ≡ self.now.work }
    {
        self.work
    }
}
