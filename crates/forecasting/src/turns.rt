// The moments at which there may be work that there wasn't before, whatever has been done.
ghost use Rattle.std.specs.Prelude.{◌≡◌, OnOk, IfOk, Some};
ghost use Rattle.std.specs.FinMap.{get};
ghost use Rattle.std.specs.List.Sorted.{IsNonDecreasingBy};
ghost use Rattle.plan_basics.specs.Intervals.{OpenInterval};
ghost use Rattle.plan_forecast.specs.Laws.{IsNotBefore, IsOpening};
ghost use Rattle.forecasting.specs.Adds.{Adds, AreLasting};

use derived_figures::LoadedPlan;
use plan_basics::Moment;
use std::alloc::{AllocError, Global};
use workstations::Workstation;

/// The moment up to which a forecast goes; and the beginnings of intervals and the not-befores up to it, in order.
#[derive(Drop)]
pub struct Horizon {
    pub until: Moment,
    pub lasting: Vec<Moment>,
}

// Adds a moment if it is within the span.
fn add(turns: &mut Vec<Moment>, turn: Moment, from: Moment, until: Moment) -> Result<(), AllocError>
    ensures { OnOk result (Adds from until (λ c. c ≡ turn) turns.old.items turns.new.items) }
{
    if from <= turn && turn <= until {
        turns.push(turn)?;
    }
    Ok(())
}

// Adds the first minutes of a workstation's intervals that are within the span.
fn add_openings_of(
    turns: &mut Vec<Moment>,
    workstation: &Workstation,
    from: Moment,
    until: Moment,
) -> Result<(), AllocError>
    ensures { OnOk result (Adds from until (λ c. (x : OpenInterval) × (get workstation.now.1.intervals c ≡ Some x)) turns.old.items turns.new.items) }
{
    let intervals = workstation.intervals();
    for interval in intervals {
        add(turns, interval.from(), from, until)?;
    }
    Ok(())
}

// Adds the first minutes of all intervals that are within the span.
fn add_openings(
    turns: &mut Vec<Moment>,
    loaded: &LoadedPlan,
    from: Moment,
    until: Moment,
) -> Result<(), AllocError>
    ensures { OnOk result (Adds from until (IsOpening loaded.now) turns.old.items turns.new.items) }
{
    let workstations = loaded.contents().workstations();
    for workstation in workstations {
        add_openings_of(turns, workstation, from, until)?;
    }
    Ok(())
}

// Adds the not-befores that are within the span.
fn add_not_befores(
    turns: &mut Vec<Moment>,
    loaded: &LoadedPlan,
    from: Moment,
    until: Moment,
) -> Result<(), AllocError>
    ensures { OnOk result (Adds from until (IsNotBefore loaded.now) turns.old.items turns.new.items) }
{
    let rows = loaded.contents().operations();
    for place in 0..rows.len() {
        let operation = &rows[place].1;
        add(turns, operation.not_before, from, until)?;
    }
    Ok(())
}

/// The beginnings of intervals and the not-befores from a moment up to another, in order, and perhaps again.
// They are found once, since no request of a forecast changes them.
pub(crate) fn lasting_turns(
    alloc: Global,
    loaded: &LoadedPlan,
    from: Moment,
    until: Moment,
) -> Result<Vec<Moment>, AllocError>
    ensures ascending { IfOk result (λ turns. IsNonDecreasingBy (λ turn. turn) turns.items) }
    ensures lasting { IfOk result (λ turns. AreLasting loaded.now from until turns.items) }
{
    let mut turns = Vec::new(alloc);
    add_openings(&mut turns, loaded, from, until)?;
    add_not_befores(&mut turns, loaded, from, until)?;
    turns.sort_unstable();
    Ok(turns)
}
