// A request of the forecast, carried out.
ghost use Rattle.std.specs.Prelude.{◌≡◌, ◌<◌, ℕ, List, IfOk, IfSome, OnOk, IfErr, Some, length, pos, slice_get, true};
ghost use Rattle.std.specs.FinMap.{entries};
ghost use Rattle.plan_basics.specs.Minutes.{IsMoment};
ghost use Rattle.plan_basics.specs.declared.Refusal.{Refusal};
ghost use Rattle.plan_basics.specs.declared.keys.OpKey.{OpKey};
ghost use Rattle.plan_forecast.specs.Ahead.{Ahead};
ghost use Rattle.plan_model.specs.Contents.{Operation};
ghost use Rattle.plan_records.specs.Answer.{accepted};
ghost use Rattle.plan_records.specs.Step.{Step};
ghost use Rattle.plan_records.specs.declared.OperationRow.{OperationRow};
ghost use Rattle.plan_records.specs.declared.PlanRow.TheVariants as kind;
ghost use Rattle.forecasting.specs.Following.{AreChangedPlaces, AreTouched};
ghost use Rattle.forecasting.specs.Turns.{IsFirstWork};

use derived_figures::LoadedPlan;
use plan_basics::Refusal;
use plan_core::Plan;
use plan_records::{Changes, PlanRow, Request};
use std::alloc::{AllocError, Global};

// The index of the operation whose row this is, if it is an operation's.
fn place_of_row(loaded: &LoadedPlan, row: &PlanRow) -> Option<usize>
    ensures within { IfSome result (λ i. i < length (entries loaded.now.operations)) }
    ensures found { (i : ℕ) (r : OperationRow) (op : Operation) → row.now ≡ kind.Operation r → slice_get (entries loaded.now.operations) i ≡ Some (r.op, op) → result ≡ Some i }
{
    match row {
        PlanRow::Operation(row) => loaded.place_of(&row.op),
        _ => None,
    }
}

// The indices of the operations of a loaded plan whose rows these are.
fn changed_in(
    alloc: Global,
    loaded: &LoadedPlan,
    rows: &[PlanRow],
) -> Result<Vec<usize>, AllocError>
    ensures { IfOk result (λ places. AreTouched loaded.now rows.now places.items) }
{
    let mut places = Vec::new(alloc);
    for row in rows {
        match place_of_row(loaded, row) {
            Some(place) => places.push(place)?,
            None => {}
        }
    }
    Ok(places)
}

// The indices of the operations of a plan of which a row changes.
fn changed_places(plan: &Plan, changes: &Changes) -> Result<Vec<usize>, AllocError>
    ensures { IfOk result (λ places. AreTouched plan.now.plan.contents changes.now.rows.items places.items) }
{
    match plan.loaded() {
        Some(loaded) => changed_in(plan.alloc(), loaded, &changes.rows),
        None => Ok(Vec::new(plan.alloc())),
    }
}

/// Carries out what is done at the first moment with work, and gives the indices of the operations of which a row changes. The error
/// is always `Memory`: nothing of a forecast is refused.
pub fn carry_out(plan: &mut Plan, request: &Request) -> Result<Vec<usize>, Refusal>
    requires { (s : Ahead) × (until : ℕ) × (x : ℕ) × (s.plan ≡ plan.old.plan) × (s.plan.loaded ≡ true) × IsMoment until × (request.now.at ≡ pos x) × IsFirstWork s until x request.now.what }
    ensures step { OnOk result ((chosen : List OpKey) × Step plan.old.plan request.now (accepted chosen) plan.new.plan) }
    ensures changed { IfOk result (λ places. AreChangedPlaces plan.old.plan.contents plan.new.plan.contents places.items) }
    ensures memory { IfErr result (λ r. r ≡ Refusal.Memory) }
{
    let _ = plan.clock();
    match plan.prepare(request) {
        Ok(prepared) => {
            let places = changed_places(plan, prepared.changes())?;
            plan.apply(prepared);
            Ok(places)
        }
        Err(refusal) => Err(refusal),
    }
}
