// What is named at a moment.
ghost use Rattle.std.specs.Prelude.{◌≡◌, ◌+◌, ◌≤◌, ℕ, IfErr, IfOk, length};
ghost use Rattle.plan_basics.specs.declared.Refusal.{Refusal};
ghost use Rattle.small_requests.specs.Columns.{AreAllocationsOf, IsReadyListOf};
ghost use Rattle.small_requests.specs.Effects.{IsChoiceOf};
ghost use Rattle.small_requests.specs.Naming.{IsNaming};

use super::columns::Allocations;
use super::operation_places::places_of;
use plan_basics::{Moment, OpKey, Refusal};
use plan_checks::{Choice, CountedRecords, UncountedContents, chosen_with};
use ready_list::ReadyList;
use std::alloc::Global;

/// What is named, and where.
#[derive(Drop)]
pub struct Naming {
    /// The operations, in order.
    pub named: Vec<OpKey>,
    /// Their indices in key order, ascending.
    pub places: Vec<usize>,
    /// What is given out and held once they are named.
    pub allocations: Allocations,
}

// What is named by a choice. The error is always `Memory`.
fn naming_of(
    alloc: Global,
    uncounted: &UncountedContents<'_>,
    choice: Choice,
) -> Result<Naming, Refusal>
    requires { (at : ℕ) × IsChoiceOf uncounted.now.contents.now at choice }
    ensures naming { (at : ℕ) → IsChoiceOf uncounted.now.contents.now at choice → IfOk result (IsNaming uncounted.now.contents.now at) }
    ensures refused { IfErr result (λ r. r ≡ Refusal.Memory) }
{
    uncounted.are_sound();
    let Choice {
        named,
        given,
        holdings,
    } = choice;
    let places = places_of(alloc, uncounted, &named)?;
    let allocations = Allocations { given, holdings };
    Ok(Naming {
        named,
        places,
        allocations,
    })
}

/// What is named at a moment, by a look at each entry of the ready list at most. It gives back the records. The error is always
/// `Memory`.
pub fn choose_named(
    alloc: Global,
    records: CountedRecords,
    ready: &ReadyList,
    allocations: Allocations,
    at: Moment,
) -> (CountedRecords, Result<Naming, Refusal>)
    requires ready { IsReadyListOf records.contents ready.now }
    requires allocations { AreAllocationsOf records.contents allocations }
    ensures contents { result.0.contents ≡ records.contents }
    ensures naming { IfOk result.1 (IsNaming records.contents at) }
    ensures fewest { IfOk result.1 (λ n. records.looks ≤ result.0.looks) }
    ensures most { IfOk result.1 (λ n. result.0.looks ≤ records.looks + length ready.now.entries) }
    ensures refused { IfErr result.1 (λ r. r ≡ Refusal.Memory) }
{
    let Allocations { given, holdings } = allocations;
    let (records, choice) = chosen_with(alloc, records, ready, at, given, holdings);
    match choice {
        Ok(choice) => {
            let naming = naming_of(alloc, &records.uncounted(), choice);
            (records, naming)
        }
        Err(refusal) => (records, Err(refusal)),
    }
}
