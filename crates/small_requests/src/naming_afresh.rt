// What is named in a plan of which all is worked out, and what is kept of it then.
ghost use Rattle.std.specs.Prelude.{◌≡◌, ◌+◌, ◌≤◌, ℕ, ℤ, List, IfErr, IfOk, length};
ghost use Rattle.plan_basics.specs.declared.Refusal.{Refusal};
ghost use Rattle.plan_checks.specs.derived_figures.specs.Figures.{AreFigures, KeepsFrame};
ghost use Rattle.plan_checks.specs.start_choice.specs.Choices.{AreLatestStarts};
ghost use Rattle.plan_checks.specs.plan_status.specs.Summaries.{AreSummaries};
ghost use Rattle.plan_model.specs.Ready.{IsChosen, named as named_in};
ghost use Rattle.small_requests.specs.Columns.{AreColumnsOf};
ghost use Rattle.small_requests.specs.Effects.{AreNamingEffects, WereEffectsNamed};
ghost use Rattle.small_requests.specs.Naming.{IsNaming};

use super::columns::{FigureColumns, figures_with, parts_of};
use super::naming_effects::{NamingEffects, effects_of};
use super::namings::{Naming, choose_named};
use super::step_context::{StepContext, TouchedByEdit};
use super::step_notes::move_on;
use super::writing::with_named;
use plan_basics::{OpKey, Refusal};
use plan_checks::{CountedRecords, Figures, OperationSummary, entries_by_summaries};
use plan_rows::FacilityChange;
use ready_list::ReadyList;

/// What is named, and the figures of the plan in which it is marked so.
#[derive(Drop)]
pub struct NamedAfresh {
    /// The operations, in order.
    pub named: Vec<OpKey>,
    pub figures: Figures,
}

// What follows from a naming alone, by the summaries of all operations: nothing is looked at. The error is always `Memory`.
fn effects_by_summaries(
    context: &StepContext<'_>,
    records: &mut CountedRecords,
    columns: &FigureColumns,
    naming: Result<Naming, Refusal>,
    summaries: &[OperationSummary],
) -> Result<NamingEffects, Refusal>
    requires latest { AreLatestStarts records.old.contents context.now.latest.now.starts }
    requires columns { AreColumnsOf records.old.contents columns.now }
    requires naming { IfOk naming (IsNaming records.old.contents context.now.at) }
    requires memory { IfErr naming (λ r. r ≡ Refusal.Memory) }
    requires summaries { AreSummaries records.old.contents summaries.now }
    ensures effects { IfOk result (λ f. AreNamingEffects records.old.contents context.now.at f.naming.places.items columns.now f) }
    ensures contents { records.new.contents ≡ records.old.contents }
    ensures most { (n : ℕ) → IfOk naming (λ named. records.old.looks ≤ n) → IfOk result (λ f. records.new.looks ≤ n) }
    ensures refused { IfErr result (λ r. r ≡ Refusal.Memory) }
{
    let StepContext { alloc, latest, .. } = *context;
    let naming = naming?;
    let places = Vec::from_slice(alloc, &naming.places)?;
    let entries = entries_by_summaries(alloc, &records.uncounted(), summaries, latest, &places)?;
    let edited = TouchedByEdit {
        places: &places,
        entries: &entries,
        facilities: FacilityChange::Nothing,
    };
    effects_of(alloc, records, latest, columns, naming, edited)
}

// The records once what follows is marked named, and the figures then: nothing is looked at.
fn marked_named(
    records: CountedRecords,
    columns: FigureColumns,
    ready: ReadyList,
    effects: NamingEffects,
) -> (CountedRecords, NamedAfresh)
    requires { (at : ℕ) × (edited : List ℕ) × (starts : List ℤ) × WereEffectsNamed records.contents (named_in effects.naming.named.items records.contents) at edited starts columns ready effects }
    ensures named { result.1.named ≡ effects.naming.named }
    ensures contents { result.0.contents ≡ named_in effects.naming.named.items records.contents }
    ensures figures { AreFigures result.0.contents result.1.figures }
    ensures looks { result.0.looks ≡ records.looks }
{
    let mut columns = columns;
    let mut ready = ready;
    let records = with_named(records, &effects.naming.named);
    move_on(&records.uncounted(), &mut columns, &mut ready, &effects);
    let Naming {
        named,
        allocations,
        ..
    } = effects.naming;
    let figures = figures_with(columns, ready, allocations);
    (records, NamedAfresh { named, figures })
}

/// What is named at the moment in the plan of these records, of whose operations these are the summaries, and its figures once that is
/// marked so: by a look at each entry of the ready list at most. All that is kept is worked out once: of what is named its status is known
/// then. The error is always `Memory`.
pub fn name_afresh(
    context: &StepContext<'_>,
    records: CountedRecords,
    figures: Figures,
    summaries: &[OperationSummary],
) -> (CountedRecords, Result<NamedAfresh, Refusal>)
    requires latest { AreLatestStarts records.contents context.now.latest.now.starts }
    requires figures { AreFigures records.contents figures }
    requires summaries { AreSummaries records.contents summaries.now }
    ensures chosen { IfOk result.1 (λ s. IsChosen records.contents context.now.at s.named.items) }
    ensures contents { IfOk result.1 (λ s. result.0.contents ≡ named_in s.named.items records.contents) }
    ensures frame { IfOk result.1 (λ s. KeepsFrame records.contents result.0.contents) }
    ensures figures { IfOk result.1 (λ s. AreFigures result.0.contents s.figures) }
    ensures most { IfOk result.1 (λ s. result.0.looks ≤ records.looks + length figures.ready.entries) }
    ensures refused { IfErr result.1 (λ r. r ≡ Refusal.Memory) }
{
    let (columns, ready, allocations) = parts_of(figures);
    let (mut records, naming) = choose_named(
        context.alloc,
        records,
        &ready,
        allocations,
        context.at,
    );
    match effects_by_summaries(context, &mut records, &columns, naming, summaries) {
        Ok(effects) => {
            let (records, settled) = marked_named(records, columns, ready, effects);
            (records, Ok(settled))
        }
        Err(refusal) => (records, Err(refusal)),
    }
}
