// What is named to start.
ghost use Rattle.std.specs.Prelude.{◌≡◌, ◌↔◌, ◌+◌, ◌<◌, ◌≤◌, IfOk, IfErr, IsTrue, Some, length, slice_get, true};
ghost use Rattle.std.specs.FinMap.{entries};
ghost use Rattle.plan_model.specs.Contents.{Operation};
ghost use Rattle.plan_basics.specs.declared.Refusal.{Refusal};
ghost use Rattle.plan_model.specs.Ready.{IsChosen, named};
ghost use Rattle.start_choice.specs.Choices.{AreGivenOut, AreHeldIn, AreReadyEntries};
ghost use Rattle.start_choice.specs.Shut.{AreShut};
ghost use Rattle.start_choice.specs.StartGates.{Answers, counted};
ghost use Rattle.ready_list.specs.declared.entry.ReadyEntry.{ReadyEntry as ReadyEntryValue};

use super::holders::take_needs;
use super::shut::{is_shut, shut_at};
use super::taken::{check_start, with_operation};
use counted_records::{CountedRecords, PlanContents, SeenOperation};
use plan_basics::{Moment, OpKey, Refusal};
use ready_list::{Gate, ReadyEntry, ReadyList};
use special_resources::Holdings;
use std::alloc::Global;
use std::marker::Model;
use workstations::Capacity;

// Whether the operation at a place is allowed to start at a moment, where this is given out and held; where it is, it counts as
// started from now on. The error is always `Memory`.
fn name_at(
    records: &mut CountedRecords,
    given: &mut [Capacity],
    holdings: &mut Holdings,
    shut: &mut [bool],
    place: usize,
    at: Moment,
) -> Result<bool, Refusal>
    requires within { place < length (entries records.old.contents.operations) }
    requires shut { AreShut (entries records.old.contents.workstations) at given.old shut.old }
    ensures answered { IfOk result (λ yes. (e : ReadyEntryValue) (op : Operation) → slice_get (entries records.old.contents.operations) place ≡ Some (e.key.op, op) → Answers (counted records.old at given.old holdings.old.held) e yes (counted records.new at given.new holdings.new.held)) }
    ensures shut { AreShut (entries records.new.contents.workstations) at given.new shut.new }
    ensures refused { IfErr result (λ r. r ≡ Refusal.Memory) }
    ensures contents { records.new.contents ≡ records.old.contents }
{
    let seen = records.see(place);
    let station = seen.uncounted.workstation_place_near(seen.operation, place);
    let taken = given[station];
    if check_start(&seen, place, &taken, holdings, at).is_err() {
        return Ok(false);
    }
    take_needs(holdings, seen.key, seen.operation)?;
    let taken = with_operation(&taken, seen.operation);
    given[station] = taken;
    shut[station] = is_shut(&seen.uncounted.workstations()[station], at, &taken);
    Ok(true)
}

/// Allows operations of a plan to start at a moment, one after the other, and counts those as started that it allowed.
struct StartGate {
    records: CountedRecords,
    at: Moment,
    /// What each workstation has given out, at its row's index.
    given: Vec<Capacity>,
    holdings: Holdings,
    /// Which workstations are closed or have no server left, at its row's index.
    shut: Vec<bool>,
}

impl Model for StartGate {
    ghost use Rattle.std.specs.FinMap.{entries};
    ghost use Rattle.start_choice.specs.Shut.{AreShut};
    ghost use Rattle.start_choice.specs.StartGates.{Counted, counted_code};

    ghost Value = { Counted };

    ghost coded = { counted_code };

    ghost view = { λ a. record { contents = a.records.contents; looks = a.records.looks; at = a.at; given = a.given.items; held = a.holdings.held } };

    ghost invariant = { λ a. AreShut (entries a.records.contents.workstations) a.at a.given.items a.shut.items };
}

// Whether this is told of an index.
fn is_told_shut(shut: &[bool], place: usize) -> bool
    ensures { IsTrue result ↔ (slice_get shut.now place ≡ Some true) }
{
    match shut.get(place) {
        Some(is_shut) => *is_shut,
        None => false,
    }
}

impl Gate for StartGate {
    ghost use Rattle.std.specs.Prelude.{◌≡◌};
    ghost use Rattle.plan_basics.specs.declared.Refusal.{Refusal};
    ghost use Rattle.start_choice.specs.StartGates.{Answers};

    type Source = PlanContents;

    ghost source = { λ g. g.contents };

    ghost answers = { Answers };

    ghost refuses = { λ _ _ r. r ≡ Refusal.Memory };

    fn name(&mut self, entry: &ReadyEntry) -> Result<bool, Refusal> {
        if is_told_shut(&self.shut, entry.site) {
            return Ok(false);
        }
        let uncounted = self.records.uncounted();
        let Some(place) = uncounted.operation_place_near(&entry.key.op, entry.place) else {
            return Ok(false);
        };
        let given = self.given.as_mut_slice();
        let shut = self.shut.as_mut_slice();
        name_at(
            &mut self.records,
            given,
            &mut self.holdings,
            shut,
            place,
            self.at,
        )
    }
}

/// What is named, and what workstations have given out and who holds special resources once it is named.
#[derive(Drop)]
pub struct Choice {
    pub named: Vec<OpKey>,
    /// What each workstation has given out, at its row's index.
    pub given: Vec<Capacity>,
    pub holdings: Holdings,
}

// What is named to start at a moment, in order, where this is given out and held, and these workstations are told to be shut. The
// error is always `Memory`.
fn named_with(
    records: CountedRecords,
    ready: &ReadyList,
    at: Moment,
    given: Vec<Capacity>,
    holdings: Holdings,
    shut: Vec<bool>,
) -> (CountedRecords, Result<Choice, Refusal>)
    requires ready { AreReadyEntries records.contents ready.now.entries }
    requires given { AreGivenOut records.contents (entries records.contents.workstations) given.items }
    requires held { AreHeldIn records.contents holdings.held }
    requires shut { AreShut (entries records.contents.workstations) at given.items shut.items }
    ensures contents { result.0.contents ≡ records.contents }
    ensures fewest { IfOk result.1 (λ c. records.looks ≤ result.0.looks) }
    ensures most { IfOk result.1 (λ c. result.0.looks ≤ records.looks + length ready.now.entries) }
    ensures chosen { IfOk result.1 (λ c. IsChosen records.contents at c.named.items) }
    ensures given { IfOk result.1 (λ c. let after = named c.named.items records.contents in AreGivenOut after (entries after.workstations) c.given.items) }
    ensures held { IfOk result.1 (λ c. AreHeldIn (named c.named.items records.contents) c.holdings.held) }
    ensures refused { IfErr result.1 (λ r. r ≡ Refusal.Memory) }
{
    let mut gate = StartGate {
        records,
        at,
        given,
        holdings,
        shut,
    };
    let named = ready.choose(&mut gate);
    let StartGate {
        records,
        at: _,
        given,
        holdings,
        shut: _,
    } = gate;
    match named {
        Ok(named) => {
            let choice = Choice {
                named,
                given,
                holdings,
            };
            (records, Ok(choice))
        }
        Err(refusal) => (records, Err(refusal)),
    }
}

// Which workstations are closed at a moment or have given out all of their servers, each at its index. The error is always
// `Memory`.
fn shut_in(
    alloc: Global,
    records: &CountedRecords,
    at: Moment,
    given: &[Capacity],
) -> Result<Vec<bool>, Refusal>
    requires { length given.now ≡ length (entries records.now.contents.workstations) }
    ensures shut { IfOk result (λ shut. AreShut (entries records.now.contents.workstations) at given.now shut.items) }
    ensures refused { IfErr result (λ r. r ≡ Refusal.Memory) }
{
    Ok(shut_at(alloc, records.uncounted().workstations(), at, given)?)
}

/// What is named to start at a moment, in order, where this is given out and held: from the front of the ready list, each
/// operation on an automatic workstation that is allowed to start once those before it are named; the others are passed over
/// (IBM OPC/ESA, Planning and Scheduling the Workload). It takes a look at each entry of the list at most, and none where the
/// workstation is closed or has no server left, and gives back the records. The error is always `Memory`.
pub fn chosen_with(
    alloc: Global,
    records: CountedRecords,
    ready: &ReadyList,
    at: Moment,
    given: Vec<Capacity>,
    holdings: Holdings,
) -> (CountedRecords, Result<Choice, Refusal>)
    requires ready { AreReadyEntries records.contents ready.now.entries }
    requires given { AreGivenOut records.contents (entries records.contents.workstations) given.items }
    requires held { AreHeldIn records.contents holdings.held }
    ensures contents { result.0.contents ≡ records.contents }
    ensures fewest { IfOk result.1 (λ c. records.looks ≤ result.0.looks) }
    ensures most { IfOk result.1 (λ c. result.0.looks ≤ records.looks + length ready.now.entries) }
    ensures chosen { IfOk result.1 (λ c. IsChosen records.contents at c.named.items) }
    ensures given { IfOk result.1 (λ c. let after = named c.named.items records.contents in AreGivenOut after (entries after.workstations) c.given.items) }
    ensures held { IfOk result.1 (λ c. AreHeldIn (named c.named.items records.contents) c.holdings.held) }
    ensures refused { IfErr result.1 (λ r. r ≡ Refusal.Memory) }
{
    match shut_in(alloc, &records, at, &given) {
        Ok(shut) => named_with(records, ready, at, given, holdings, shut),
        Err(refusal) => (records, Err(refusal)),
    }
}
