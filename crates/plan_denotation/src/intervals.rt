// Workstations of a plan, put in order of their names, each open in its intervals.
ghost use Rattle.std.specs.Prelude.{◌≡◌, ◌↔◌, map, All, Contains, IsTrue, IfOk, MatchOption};
ghost use Rattle.std.specs.List.Sorted.{IsStrictlySortedBy};
ghost use Rattle.std.specs.Map.{keys_of};
ghost use Rattle.plan_basics.specs.Keys.{name_cmp};
ghost use Rattle.plan_drafts.specs.PlanItems.{intervals_of, CanOpen, opened_in, AreOfThese, AreWorkstations, AreWorkstationsInOrder};

use super::key_order::in_key_order;
use plan_basics::limits::MOST_WORKSTATIONS;
use plan_basics::{Attr, Interval, WsName};
use plan_drafts::workstation_place;
use plan_model::Workstation;
use std::alloc::{AllocError, Global};

// Whether a name is that of one of these.
pub fn is_named(workstations: &[Workstation], name: &WsName) -> bool
    requires { IsStrictlySortedBy name_cmp (keys_of workstations.now) }
    ensures { IsTrue result ↔ Contains (keys_of workstations.now) name.now }
{
    workstation_place(workstations, name).is_some()
}

// The intervals of the workstation of a name.
fn own_intervals(
    alloc: Global,
    name: &WsName,
    intervals: &[(WsName, Interval)],
) -> Result<Vec<Interval>, AllocError>
    ensures { IfOk result (λ v. v.items ≡ intervals_of name.now intervals.now) }
{
    let mut own = Vec::new(alloc);
    for said in intervals {
        if said.0 == *name {
            own.push(said.1)?;
        }
    }
    Ok(own)
}

// A workstation, open in those of these intervals that are its own, where it can be.
fn opened(
    alloc: Global,
    said: &(WsName, Attr),
    intervals: &[(WsName, Interval)],
) -> Result<Option<Workstation>, AllocError>
    ensures { IfOk result (λ found. MatchOption found (¬ CanOpen intervals.now said.now) (λ ws. CanOpen intervals.now said.now × (ws ≡ opened_in intervals.now said.now))) }
{
    let mut workstation = Workstation::new(alloc, said.0, said.1);
    let own = own_intervals(alloc, &said.0, intervals)?;
    match workstation.replace_intervals(own) {
        Ok(()) => Ok(Some(workstation)),
        Err(_) => Ok(None),
    }
}

// The workstations, each open in its intervals, where each can be.
fn all_opened(
    alloc: Global,
    said: &[(WsName, Attr)],
    intervals: &[(WsName, Interval)],
) -> Result<Option<Vec<Workstation>>, AllocError>
    ensures { IfOk result (λ found. MatchOption found (¬ All (CanOpen intervals.now) said.now) (λ v. All (CanOpen intervals.now) said.now × (v.items ≡ map (opened_in intervals.now) said.now))) }
{
    let mut workstations = Vec::new(alloc);
    for said in said {
        let Some(workstation) = opened(alloc, said, intervals)? else {
            return Ok(None);
        };
        workstations.push(workstation)?;
    }
    Ok(Some(workstations))
}

// Whether each interval is of one of these.
fn are_of_these(workstations: &[Workstation], intervals: &[(WsName, Interval)]) -> bool
    requires { IsStrictlySortedBy name_cmp (keys_of workstations.now) }
    ensures { IsTrue result ↔ AreOfThese (keys_of workstations.now) intervals.now }
{
    intervals.iter().all(|said| is_named(workstations, &said.0))
}

// The workstations by name, each open in its intervals, where none is repeated, each can be open, no interval is of
// another, and a plan may hold as many.
pub fn workstations_in_order(
    alloc: Global,
    said: Vec<(WsName, Attr)>,
    intervals: &[(WsName, Interval)],
) -> Result<Option<Vec<Workstation>>, AllocError>
    ensures { IfOk result (λ found. MatchOption found (¬ AreWorkstations said.items intervals.now) (λ v. AreWorkstationsInOrder said.items intervals.now v.items)) }
{
    if said.len() > MOST_WORKSTATIONS {
        return Ok(None);
    }
    let Some(said) = in_key_order(said, |row| row.0)? else {
        return Ok(None);
    };
    let Some(workstations) = all_opened(alloc, &said, intervals)? else {
        return Ok(None);
    };
    if !are_of_these(&workstations, intervals) {
        return Ok(None);
    }
    Ok(Some(workstations))
}
