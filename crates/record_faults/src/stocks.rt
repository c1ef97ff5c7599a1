// Needs of more than there is of a special resource.
ghost use Rattle.std.specs.Prelude.{◌≡◌, ◌<◌, length};
ghost use Rattle.record_faults.specs.Faults.{need_said, resource_said, IsBeyondStock, IsAnswer};
ghost use Rattle.record_faults.specs.Sayings.{given, IsIndex};

use super::faults::Fault;
use super::index::{Index, first_place};
use plan_basics::{OpKey, ResName};
use plan_drafts::RowKey;
use plan_items::Item;
use plan_model::Stock;
use special_resources::Need;

// The need that is said, if one is, with its operation.
fn need_of(said: &Option<Item>) -> Option<(OpKey, Need)>
    ensures { result ≡ need_said said.now }
{
    match *said {
        Some(Item::Need { operation, need }) => Some((operation, need)),
        _ => None,
    }
}

// The special resource that is said, if one is, and what there is of it.
fn resource_of(said: &Option<Item>) -> Option<(ResName, Stock)>
    ensures { result ≡ resource_said said.now }
{
    match *said {
        Some(
            Item::Resource {
                name,
                available,
                quantity,
            },
        ) => Some((
            name,
            Stock {
                available,
                quantity,
            },
        )),
        _ => None,
    }
}

// That the need of a place is of more than there is of its resource.
pub fn beyond_stock(index: &Index, said: &[Option<Item>], place: usize) -> Option<Fault>
    requires index { IsIndex (given said.now) index.now }
    requires place { place < length said.now }
    ensures { IsAnswer (IsBeyondStock said.now place) result }
{
    let wanted = need_of(&said[place])?;
    let need = wanted.1;
    let first = first_place(index, &RowKey::Resource(need.name))?;
    let resource = resource_of(&said[first])?;
    if need.amount <= resource.1.quantity {
        return None;
    }
    Some(Fault::BeyondStock(first))
}
