// What a plan in which what is chosen is named has at the places that were touched.
ghost use Rattle.std.specs.Prelude.{◌≡◌, ◌+◌, ◌≤◌, ◌⊎◌, ℕ, ℤ, List, IfErr, IfOk, OnOk, length};
ghost use Rattle.plan_basics.specs.declared.Refusal.{Refusal};
ghost use Rattle.plan_checks.specs.start_choice.specs.Choices.{AreLatestStarts};
ghost use Rattle.plan_model.specs.Contents.{Contents};
ghost use Rattle.small_requests.specs.Columns.{AreAlike, AreColumnsOf, IsReadyListOf};
ghost use Rattle.small_requests.specs.Edits.{ArePlacesIn};
ghost use Rattle.small_requests.specs.Effects.{WereEffectsNamed};
ghost use Rattle.small_requests.specs.Naming.{IsNotedOf};

use super::columns::FigureColumns;
use super::naming_effects::NamingEffects;
use super::snapshots::{Snapshot, put_snapshot, snapshot_of};
use super::step_context::StepContext;
use plan_basics::Refusal;
use plan_checks::{CountedRecords, UncountedContents, set_statuses};
use plan_model::Latest;
use plan_rows::{FacilityChange, Notes, SourceColumns, notes_of};
use ready_list::ReadyList;
use std::alloc::Global;

/// What is noted of a plan at the places that were touched.
#[derive(Drop)]
pub struct StepNotes {
    /// The rows.
    pub notes: Notes,
    /// What the columns have there.
    pub columns: Snapshot,
}

/// Moves columns and the ready list on to those of the plan in which what follows is named. It takes no memory, and looks at nothing.
pub fn move_on(
    rest: &UncountedContents<'_>,
    columns: &mut FigureColumns,
    ready: &mut ReadyList,
    effects: &NamingEffects,
)
    requires { (P : Contents) × (at : ℕ) × (edited : List ℕ) × (starts : List ℤ) × WereEffectsNamed P rest.now.contents.now at edited starts columns.old ready.old effects.now }
    ensures columns { AreColumnsOf rest.now.contents.now columns.new }
    ensures ready { IsReadyListOf rest.now.contents.now ready.new }
{
    set_statuses(
        rest,
        &mut columns.statuses,
        &mut columns.tallies,
        ready,
        &effects.statuses,
        &effects.entries,
    );
}

// What is noted of a plan that has these columns, by a look at each place. The error is always `Memory`.
fn noted_of(
    alloc: Global,
    records: &mut CountedRecords,
    latest: &Latest,
    columns: &FigureColumns,
    facilities: FacilityChange,
    touched: &[usize],
) -> Result<StepNotes, Refusal>
    requires columns { AreColumnsOf records.old.contents columns.now }
    requires latest { AreLatestStarts records.old.contents latest.now.starts }
    requires touched { ArePlacesIn records.old.contents touched.now }
    ensures noted { IfOk result (IsNotedOf records.old.contents facilities touched.now) }
    ensures contents { records.new.contents ≡ records.old.contents }
    ensures fewest { records.old.looks ≤ records.new.looks }
    ensures most { records.new.looks ≤ records.old.looks + length touched.now }
    ensures least { OnOk result ((18446744073709551615 ≤ records.new.looks) ⊎ (records.old.looks + length touched.now ≤ records.new.looks)) }
    ensures refused { IfErr result (λ r. r ≡ Refusal.Memory) }
{
    records.uncounted().are_sound();
    let lent = SourceColumns {
        standings: &columns.standings,
        statuses: &columns.statuses,
        tallies: &columns.tallies,
        latest,
    };
    let notes = notes_of(alloc, records, lent, facilities, touched)?;
    let columns = snapshot_of(alloc, &records.uncounted(), columns, touched)?;
    Ok(StepNotes { notes, columns })
}

/// What is noted at the places that were touched, once columns and the ready list are moved on to those of the plan in which what
/// follows is named. The columns are then as they were, and the ready list is that of the plan before. The error is always `Memory`.
pub fn note(
    context: &StepContext<'_>,
    records: &mut CountedRecords,
    columns: &mut FigureColumns,
    ready: &mut ReadyList,
    effects: &NamingEffects,
    facilities: FacilityChange,
) -> Result<StepNotes, Refusal>
    requires { (P : Contents) × (at : ℕ) × (edited : List ℕ) × WereEffectsNamed P records.old.contents at edited context.now.latest.now.starts columns.old ready.old effects.now }
    ensures unchanged { AreAlike columns.new columns.old }
    ensures ready { (P : Contents) (at : ℕ) (edited : List ℕ) → WereEffectsNamed P records.old.contents at edited context.now.latest.now.starts columns.old ready.old effects.now → IsReadyListOf P ready.new }
    ensures noted { IfOk result (IsNotedOf records.old.contents facilities effects.now.touched.items) }
    ensures contents { records.new.contents ≡ records.old.contents }
    ensures fewest { records.old.looks ≤ records.new.looks }
    ensures most { records.new.looks ≤ records.old.looks + length effects.now.touched.items }
    ensures least { OnOk result ((18446744073709551615 ≤ records.new.looks) ⊎ (records.old.looks + length effects.now.touched.items ≤ records.new.looks)) }
    ensures refused { IfErr result (λ r. r ≡ Refusal.Memory) }
{
    move_on(&records.uncounted(), columns, ready, effects);
    let StepContext { alloc, latest, .. } = *context;
    let noted = noted_of(
        alloc,
        records,
        latest,
        columns,
        facilities,
        &effects.touched,
    );
    put_snapshot(columns, ready, &effects.old, &effects.entries);
    noted
}
