// What is wrong with what one record says.
ghost use Rattle.std.specs.Prelude.{◌≡◌, ◌↔◌, ◌⊎◌, ◌+◌, ◌*◌, Contains, IsTrue, OnOk};
ghost use Rattle.record_faults.specs.Sayings.{Sayings, given, IsIndex};
ghost use Rattle.extension_faults.specs.Beside.{AreBefore, IsWrong, IsWrongDependency, IsWrongNeed, turn_of};
ghost use Rattle.extension_faults.specs.declared.kinds.FaultBeside.{FaultBeside};

use super::ends::{is_deleted_other, is_found, is_other_under_way};
use super::kinds::{FaultBeside, Wrong};
use super::looks::{has_resource, has_workstation, is_beyond_quantity, stays};
use plan_basics::OpKey;
use plan_items::{Item, Need};
use plan_reasons::Plan;
use record_faults::Index;
use std::alloc::AllocError;

// A fault goes to the end, where it is one.
fn tell(
    faults: &mut Vec<FaultBeside>,
    place: usize,
    wrong: Wrong,
    is: bool,
) -> Result<(), AllocError>
    ensures told { OnOk result ((f : FaultBeside) → Contains faults.new.items f ↔ (Contains faults.old.items f ⊎ ((f.place ≡ place) × ((f.wrong ≡ wrong) × IsTrue is)))) }
    ensures in_order { OnOk result (AreBefore (turn_of place wrong) faults.old.items → AreBefore (turn_of place wrong + 1) faults.new.items) }
{
    if !is {
        return Ok(());
    }
    faults.extend_from_slice(&[FaultBeside { place, wrong }])?;
    Ok(())
}

// What is wrong with a need goes to the end.
fn tell_need(
    faults: &mut Vec<FaultBeside>,
    plan: &Plan,
    place: usize,
    need: &Need,
) -> Result<(), AllocError>
    ensures told { OnOk result ((f : FaultBeside) → Contains faults.new.items f ↔ (Contains faults.old.items f ⊎ ((f.place ≡ place) × IsWrongNeed plan.now.plan.contents need.now f.wrong))) }
    ensures in_order { OnOk result (AreBefore (8 * place) faults.old.items → AreBefore (8 * place + 8) faults.new.items) }
{
    let known = has_resource(plan, &need.name);
    tell(faults, place, Wrong::NoResource, !known)?;
    let beyond = is_beyond_quantity(plan, need);
    tell(faults, place, Wrong::BeyondQuantity, beyond)?;
    Ok(())
}

// What is wrong with a dependency goes to the end.
fn tell_dependency(
    faults: &mut Vec<FaultBeside>,
    plan: &Plan,
    index: &Index,
    place: usize,
    predecessor: &OpKey,
    successor: &OpKey,
) -> Result<(), AllocError>
    ensures told { OnOk result ((said : Sayings) → IsIndex (given said) index.now → (f : FaultBeside) → Contains faults.new.items f ↔ (Contains faults.old.items f ⊎ ((f.place ≡ place) × IsWrongDependency plan.now.plan.contents said predecessor.now successor.now f.wrong))) }
    ensures in_order { OnOk result (AreBefore (8 * place) faults.old.items → AreBefore (8 * place + 8) faults.new.items) }
{
    let first = is_found(plan, index, predecessor);
    tell(faults, place, Wrong::NoPredecessor, !first)?;
    let second = is_found(plan, index, successor);
    tell(faults, place, Wrong::NoSuccessor, !second)?;
    let deleted = is_deleted_other(plan, index, predecessor);
    tell(faults, place, Wrong::Deleted, deleted)?;
    let under_way = is_other_under_way(plan, index, successor);
    tell(faults, place, Wrong::UnderWay, under_way)?;
    Ok(())
}

/// What is wrong with what the record at a place says goes to the end.
pub fn tell_item(
    faults: &mut Vec<FaultBeside>,
    plan: &Plan,
    index: &Index,
    place: usize,
    item: &Item,
) -> Result<(), AllocError>
    ensures told { OnOk result ((said : Sayings) → IsIndex (given said) index.now → (f : FaultBeside) → Contains faults.new.items f ↔ (Contains faults.old.items f ⊎ ((f.place ≡ place) × IsWrong plan.now.plan.contents said item.now f.wrong))) }
    ensures in_order { OnOk result (AreBefore (8 * place) faults.old.items → AreBefore (8 * place + 8) faults.new.items) }
{
    match *item {
        Item::Occurrence { key, .. } => {
            tell(faults, place, Wrong::There, stays(plan, &key))?;
            Ok(())
        }
        Item::Operation(operation) => {
            let known = has_workstation(plan, &operation.workstation);
            tell(faults, place, Wrong::NoWorkstation, !known)?;
            Ok(())
        }
        Item::Need { need, .. } => {
            tell_need(faults, plan, place, &need)?;
            Ok(())
        }
        Item::Dependency {
            predecessor,
            successor,
        } => {
            tell_dependency(faults, plan, index, place, &predecessor, &successor)?;
            Ok(())
        }
        _ => Ok(()),
    }
}
