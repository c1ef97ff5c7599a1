// Whether records denote a plan.
ghost use Rattle.std.specs.Prelude.{◌≡◌, ◌↔◌, ℕ, Some, None, List, map, All, IsTrue, IfOk, MatchOption, slice_get};
ghost use Rattle.plan_items.specs.Items.{Fields, IsItem};
ghost use Rattle.record_faults.specs.Sayings.{AreSayings};
ghost use Rattle.record_faults.specs.Plans.{MakeSome, SaySome};

use plan_denotation::contents_of_items;
use plan_items::Item;
use std::alloc::{AllocError, Global};

// The items, where each record says one.
fn all_items(alloc: Global, said: &[Option<Item>]) -> Result<Option<Vec<Item>>, AllocError>
    ensures { IfOk result (λ found. MatchOption found ((place : ℕ) × (slice_get said.now place ≡ Some None)) (λ v. said.now ≡ map Some v.items)) }
{
    let mut items = Vec::new(alloc);
    for said in said {
        let Some(item) = *said else {
            return Ok(None);
        };
        items.extend_from_slice(&[item])?;
    }
    Ok(Some(items))
}

// Whether items are those of a plan with a workstation and an occurrence.
fn items_make_some(alloc: Global, items: &[Item]) -> Result<bool, AllocError>
    requires { All IsItem items.now }
    ensures { IfOk result (λ told. IsTrue told ↔ MakeSome items.now) }
{
    let Some(contents) = contents_of_items(alloc, items)? else {
        return Ok(false);
    };
    if contents.workstations().is_empty() {
        return Ok(false);
    }
    if contents.occurrences().is_empty() {
        return Ok(false);
    }
    Ok(true)
}

// Whether what records say is a plan with a workstation and an occurrence.
pub fn say_some(alloc: Global, said: &[Option<Item>]) -> Result<bool, AllocError>
    requires { (records : List Fields) × AreSayings records said.now }
    ensures { IfOk result (λ told. IsTrue told ↔ SaySome said.now) }
{
    let Some(items) = all_items(alloc, said)? else {
        return Ok(false);
    };
    items_make_some(alloc, &items)
}
