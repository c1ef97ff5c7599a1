// The figures of a plan in three parts: what is kept by place, what is ready, and what is short.
ghost use Rattle.std.specs.Prelude.{◌≡◌, IfErr, IfOk};
ghost use Rattle.plan_basics.specs.declared.Refusal.{Refusal};
ghost use Rattle.plan_model.specs.Contents.{Contents};
ghost use Rattle.small_requests.specs.Columns.{AreAllocationsOf, figures_of};

use plan_basics::Refusal;
use plan_checks::{Figures, Holdings, Standing};
use ready_list::ReadyList;
use satisfaction::WaitState;
use status_rules::{Counts, Status};
use std::alloc::Global;
use workstations::Capacity;

/// What is kept of each operation and each occurrence, in the order of their keys.
#[derive(Drop)]
pub struct FigureColumns {
    /// Of each operation, whether it is satisfied, and how many predecessors it waits for.
    pub wait_states: Vec<WaitState>,
    /// Of each operation, what is known of its predecessors.
    pub standings: Vec<Standing>,
    /// The status of each operation.
    pub statuses: Vec<Status>,
    /// The numbers of each occurrence's operations, by status.
    pub tallies: Vec<Counts>,
}

/// What is given out and held.
#[derive(Drop)]
pub struct Allocations {
    /// What each workstation has given out, in the order of their keys.
    pub given: Vec<Capacity>,
    /// Who holds what of special resources.
    pub holdings: Holdings,
}

impl Allocations {
    /// A copy. The error is always `Memory`.
    // A trial works in a copy, since this is short; the other parts of the figures are moved there and back.
    pub fn try_clone(&self, alloc: Global) -> Result<Allocations, Refusal>
        ensures allocations { (P : Contents) → AreAllocationsOf P self.now → IfOk result (AreAllocationsOf P) }
        ensures refused { IfErr result (λ r. r ≡ Refusal.Memory) }
    {
        Ok(Allocations {
            given: Vec::from_slice(alloc, &self.given)?,
            holdings: self.holdings.try_clone()?,
        })
    }
}

/// The parts of these figures.
pub fn parts_of(figures: Figures) -> (FigureColumns, ReadyList, Allocations)
    ensures { figures_of result.0 result.1 result.2 ≡ figures }
{
    let Figures {
        wait_states,
        standings,
        statuses,
        tallies,
        given,
        holdings,
        ready,
    } = figures;
    let columns = FigureColumns {
        wait_states,
        standings,
        statuses,
        tallies,
    };
    let allocations = Allocations { given, holdings };
    (columns, ready, allocations)
}

/// The figures of which these are the parts.
pub fn figures_with(columns: FigureColumns, ready: ReadyList, allocations: Allocations) -> Figures
    ensures { result ≡ figures_of columns ready allocations }
{
    Figures {
        wait_states: columns.wait_states,
        standings: columns.standings,
        statuses: columns.statuses,
        tallies: columns.tallies,
        given: allocations.given,
        holdings: allocations.holdings,
        ready,
    }
}
