// The pairs of a plan that stay, and those that an extension's records say.
ghost use Rattle.std.specs.Prelude.{◌≡◌, ◌↔◌, ◌++◌, [], ◌∷◌, if◌then◌else◌, IfOk, IsTrue, OnOk};
ghost use Rattle.std.specs.Option.{option_to_list};
ghost use Rattle.extension_faults.specs.Whole.{pair_said, pairs_said, AreAll, ArePairsBeside, IsPairThere, StaysThere};

use super::looks::stays;
use plan_basics::OpKey;
use plan_items::Item;
use plan_reasons::Plan;
use std::alloc::{AllocError, Global};

// The pairs of the plan; none where no plan is loaded.
fn pairs_of(plan: &Plan) -> &[(OpKey, OpKey)]
    ensures { AreAll (IsPairThere plan.now.plan.contents) result.now }
{
    match plan.loaded() {
        Some(loaded) => loaded.contents().pairs(),
        None => &[],
    }
}

// Whether both operations of a pair of the plan stay.
fn pair_stays(plan: &Plan, pair: &(OpKey, OpKey)) -> bool
    requires { IsPairThere plan.now.plan.contents pair.now }
    ensures { IsTrue result ↔ StaysThere plan.now.plan.contents pair.now }
{
    stays(plan, &pair.0.occurrence) && stays(plan, &pair.1.occurrence)
}

/// A member more, where it is to be kept.
pub fn keep<K: Copy>(kept: &mut Vec<K>, member: K, is: bool) -> Result<(), AllocError>
    ensures { OnOk result (kept.new.items ≡ kept.old.items ++ (if is then member ∷ [] else [])) }
{
    if !is {
        return Ok(());
    }
    kept.push(member)?;
    Ok(())
}

/// The pairs of the plan of which both operations stay.
pub fn pairs_staying(alloc: Global, plan: &Plan) -> Result<Vec<(OpKey, OpKey)>, AllocError>
    ensures { IfOk result (λ staying. AreAll (StaysThere plan.now.plan.contents) staying.items) }
{
    let pairs = pairs_of(plan);
    let mut staying = Vec::new(alloc);
    for place in 0..pairs.len() {
        let pair = pairs[place];
        keep(&mut staying, pair, pair_stays(plan, &pair))?;
    }
    Ok(staying)
}

// The pair that is said, if one is.
fn pair_said(said: &Option<Item>) -> Option<(OpKey, OpKey)>
    ensures { result ≡ pair_said said.now }
{
    match said {
        Some(
            Item::Dependency {
                predecessor,
                successor,
            },
        ) => Some((*predecessor, *successor)),
        _ => None,
    }
}

// A pair more, if one is said.
fn push_said(pairs: &mut Vec<(OpKey, OpKey)>, said: &Option<Item>) -> Result<(), AllocError>
    ensures { OnOk result (pairs.new.items ≡ pairs.old.items ++ option_to_list (pair_said said.now)) }
{
    let Some(pair) = pair_said(said) else {
        return Ok(());
    };
    pairs.push(pair)?;
    Ok(())
}

// The pairs that are said.
fn pairs_said(alloc: Global, said: &[Option<Item>]) -> Result<Vec<(OpKey, OpKey)>, AllocError>
    ensures { IfOk result (λ pairs. pairs.items ≡ pairs_said said.now) }
{
    let mut pairs = Vec::new(alloc);
    for place in 0..said.len() {
        push_said(&mut pairs, &said[place])?;
    }
    Ok(pairs)
}

/// The pairs of the plan that stay, and then those that are said.
pub fn pairs_beside(
    alloc: Global,
    plan: &Plan,
    said: &[Option<Item>],
) -> Result<Vec<(OpKey, OpKey)>, AllocError>
    ensures { IfOk result (λ pairs. ArePairsBeside plan.now.plan.contents said.now pairs.items) }
{
    let mut pairs = pairs_staying(alloc, plan)?;
    let told = pairs_said(alloc, said)?;
    pairs.extend_from_slice(&told)?;
    Ok(pairs)
}
