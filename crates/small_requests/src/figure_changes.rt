// What a step changes in the figures of a plan.
ghost use Rattle.plan_model.specs.Contents.{Contents};
ghost use Rattle.plan_checks.specs.derived_figures.specs.Figures.{AreFigures};
ghost use Rattle.small_requests.specs.FigureChanges.{IsFigureChange};

use super::columns::{Allocations, figures_with, parts_of};
use super::snapshots::{Snapshot, put_snapshot};
use plan_checks::Figures;
use ready_list::ReadyEntry;

/// What a step changes in the figures of a plan.
#[derive(Drop)]
pub struct FigureChange {
    /// What they have then at the places that it touches.
    pub columns: Snapshot,
    /// The entries of the operations at these places, in their order.
    pub entries: Vec<ReadyEntry>,
    /// What is given out and held then.
    pub allocations: Allocations,
}

/// The figures of a plan, moved on by a step to those of the plan that the step leads to. Nothing of either is looked at, and it takes
/// no memory.
pub fn changed_figures(figures: Figures, figure_change: FigureChange) -> Figures
    requires { (P : Contents) × (R : Contents) × AreFigures P figures × IsFigureChange P R figure_change }
    ensures { (P : Contents) (R : Contents) → AreFigures P figures → IsFigureChange P R figure_change → AreFigures R result }
{
    let (mut columns, mut ready, _) = parts_of(figures);
    put_snapshot(
        &mut columns,
        &mut ready,
        &figure_change.columns,
        &figure_change.entries,
    );
    figures_with(columns, ready, figure_change.allocations)
}
