// What is named at a moment, and all that is needed to note it.
ghost use Rattle.std.specs.Prelude.{◌≡◌, ◌+◌, ◌≤◌, ℕ, IfErr, IfOk, length};
ghost use Rattle.plan_basics.specs.declared.Refusal.{Refusal};
ghost use Rattle.plan_checks.specs.start_choice.specs.Choices.{AreLatestStarts};
ghost use Rattle.plan_checks.specs.derived_figures.specs.UnknownPlaces.{unknown_places};
ghost use Rattle.plan_checks.specs.derived_figures.specs.Entries.{AreEntriesAt};
ghost use Rattle.small_requests.specs.Columns.{AreColumnsOf, AreAllocationsOf, IsReadyListOf};
ghost use Rattle.small_requests.specs.Edits.{ArePlacesIn};
ghost use Rattle.small_requests.specs.Effects.{AreNamingEffects};
ghost use Rattle.small_requests.specs.Naming.{IsNaming};

use super::columns::{Allocations, FigureColumns};
use super::namings::{Naming, choose_named};
use super::places::joined;
use super::snapshots::{Snapshot, snapshot_of};
use super::statuses::statuses_once_named;
use super::step_context::{StepContext, TouchedByEdit};
use plan_basics::Refusal;
use plan_checks::{CountedRecords, entries_at};
use plan_model::Latest;
use ready_list::{ReadyEntry, ReadyList};
use status_rules::Status;
use std::alloc::Global;

/// What is named, and all that is touched by then.
#[derive(Drop)]
pub struct NamingEffects {
    pub naming: Naming,
    /// The indices, ascending, of all operations of which something may differ from before.
    pub touched: Vec<usize>,
    /// What the columns have there before it is named.
    pub old: Snapshot,
    /// The statuses there once it is.
    pub statuses: Vec<(usize, Status)>,
    /// The entries of the operations there.
    pub entries: Vec<ReadyEntry>,
}

/// What follows from a naming, and from an edit. It takes a look at each place that the edit didn't touch. The error is always `Memory`.
pub fn effects_of(
    alloc: Global,
    records: &mut CountedRecords,
    latest: &Latest,
    columns: &FigureColumns,
    naming: Naming,
    edited: TouchedByEdit<'_>,
) -> Result<NamingEffects, Refusal>
    requires latest { AreLatestStarts records.old.contents latest.now.starts }
    requires columns { AreColumnsOf records.old.contents columns.now }
    requires naming { (at : ℕ) × IsNaming records.old.contents at naming }
    requires edited { ArePlacesIn records.old.contents edited.places.now }
    requires known { AreEntriesAt records.old.contents edited.places.now edited.entries.now }
    ensures naming { IfOk result (λ f. f.naming ≡ naming) }
    ensures effects { IfOk result (λ f. (at : ℕ) → IsNaming records.old.contents at naming → AreNamingEffects records.old.contents at edited.entry.places.now columns.now f) }
    ensures contents { records.new.contents ≡ records.old.contents }
    ensures fewest { records.old.looks ≤ records.new.looks }
    ensures most { IfOk result (λ f. records.new.looks ≤ records.old.looks + length (unknown_places edited.entry.places.now f.touched.items)) }
    ensures refused { IfErr result (λ r. r ≡ Refusal.Memory) }
{
    let TouchedByEdit {
        places,
        entries: known,
        ..
    } = edited;
    let touched = joined(alloc, places, &naming.places)?;
    let old = snapshot_of(alloc, &records.uncounted(), columns, &touched)?;
    let statuses = statuses_once_named(alloc, &columns.statuses, &touched, &naming.places)?;
    let mut entries = Vec::with_capacity(alloc, touched.len())?;
    entries_at(records, latest, &touched, places, known, &mut entries);
    Ok(NamingEffects {
        naming,
        touched,
        old,
        statuses,
        entries,
    })
}

/// What is named at the moment, and what is touched by that and by an edit. It takes a look at each entry of the ready list, and at each
/// place that is named and wasn't touched by the edit. It gives back the records. The error is always `Memory`.
pub fn naming_effects(
    context: &StepContext<'_>,
    records: CountedRecords,
    columns: &FigureColumns,
    ready: &ReadyList,
    allocations: Allocations,
    edited: TouchedByEdit<'_>,
) -> (CountedRecords, Result<NamingEffects, Refusal>)
    requires latest { AreLatestStarts records.contents context.now.latest.now.starts }
    requires columns { AreColumnsOf records.contents columns.now }
    requires ready { IsReadyListOf records.contents ready.now }
    requires allocations { AreAllocationsOf records.contents allocations }
    requires edited { ArePlacesIn records.contents edited.places.now }
    requires known { AreEntriesAt records.contents edited.places.now edited.entries.now }
    ensures contents { result.0.contents ≡ records.contents }
    ensures effects { IfOk result.1 (AreNamingEffects records.contents context.now.at edited.entry.places.now columns.now) }
    ensures fewest { IfOk result.1 (λ f. records.looks ≤ result.0.looks) }
    ensures most { IfOk result.1 (λ f. result.0.looks ≤ records.looks + length ready.now.entries + length (unknown_places edited.entry.places.now f.touched.items)) }
    ensures refused { IfErr result.1 (λ r. r ≡ Refusal.Memory) }
{
    let StepContext {
        alloc,
        latest,
        at,
        ..
    } = *context;
    let (same, naming) = choose_named(alloc, records, ready, allocations, at);
    match naming {
        Ok(naming) => {
            let mut same = same;
            let effects = effects_of(alloc, &mut same, latest, columns, naming, edited);
            (same, effects)
        }
        Err(refusal) => (same, Err(refusal)),
    }
}
