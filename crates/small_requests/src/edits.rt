// What a small request edits.
ghost use Rattle.std.specs.Prelude.{◌≡◌, ◌≤◌, ◌+◌, ℕ, true, false, Contains, Decides, IfErr, IfOk, length};
ghost use Rattle.plan_basics.specs.Minutes.{IsMoment};
ghost use Rattle.plan_basics.specs.Refusals.{NoneRefuses};
ghost use Rattle.plan_basics.specs.declared.Refusal.{Refusal};
ghost use Rattle.small_requests.specs.RequestEdits.{IsRerun, IsSmall};
ghost use Rattle.plan_checks.specs.derived_figures.specs.DerivedRefs.{AreDerivedOf};
ghost use Rattle.small_requests.specs.StepLooks.{AreWorkedAt, one_at_least};
ghost use Rattle.plan_model.specs.declared.moves.Marking.{Marking as MarkingValue};
ghost use Rattle.plan_records.specs.Acceptance.{MayBeDone};
ghost use Rattle.plan_records.specs.Changes.{Changes, IsRequest};
ghost use Rattle.small_requests.specs.Edits.{IsEditFor, IsNotedEdit, edited};
ghost use Rattle.small_requests.specs.Idle.{IsIdle, IsOfNothing};

use super::edited_places::edited_places;
use super::request_revisions::revision_of;
use super::revisions::Revision;
use plan_basics::{OpKey, Refusal};
use plan_checks::{CountedRecords, Outline, keys_at};
use plan_model::Marking;
use plan_records::What;
use plan_rows::DerivedRefs;
use std::alloc::Global;

/// What a request edits.
#[derive(Drop)]
pub struct Edit {
    /// The operations whose marks or flags it changes, by their indices in key order, ascending.
    pub places: Vec<usize>,
    /// Their keys.
    pub keys: Vec<OpKey>,
    /// The markings that they have before.
    pub marks: Vec<Marking>,
    /// What it writes.
    pub revision: Revision,
    /// Whether it takes back what was reported of them.
    pub is_rerun: bool,
}

// Whether a request takes back what was reported.
fn is_rerun(what: &What) -> bool
    ensures { Decides result (IsRerun what.now) }
{
    matches!(what, What::Rerun(_))
}

// Whether a flag of an operation with this marking stands already as a request would write it.
fn is_idle(what: &What, marking: &Marking) -> bool
    ensures { Decides result (IsIdle what.now marking.now) }
{
    match what {
        What::Hold(_) => marking.held,
        What::Release(_) => !marking.held,
        What::Nop(_) => marking.nop,
        What::Unnop(_) => !marking.nop,
        _ => false,
    }
}

// Whether a flag of one of the operations with these markings stands already as a request would write it.
fn is_idle_at_one(what: &What, marks: &[Marking]) -> bool
    ensures idle { result ≡ true → (m : MarkingValue) × Contains marks.now m × IsIdle what.now m }
    ensures others { result ≡ false → (m : MarkingValue) → Contains marks.now m → ¬ IsIdle what.now m }
{
    for marking in marks {
        if is_idle(what, marking) {
            return true;
        }
    }
    false
}

// The edit of nothing.
fn nothing_edited(alloc: Global) -> Edit
    ensures { IsOfNothing result }
{
    Edit {
        places: Vec::new(alloc),
        keys: Vec::new(alloc),
        marks: Vec::new(alloc),
        revision: Revision::Nothing,
        is_rerun: false,
    }
}

// What is noted of what a small request edits in whose way nothing stands: a look at each operation.
fn noted_edit(
    alloc: Global,
    records: &mut CountedRecords,
    derived: DerivedRefs<'_>,
    what: &What,
) -> Result<Edit, Refusal>
    requires derived { AreDerivedOf records.old.contents derived }
    requires small { IsSmall what.now }
    requires clear { (at : ℕ) × NoneRefuses (MayBeDone records.old.contents at what.now) }
    ensures noted { IfOk result (IsNotedEdit records.old.contents what.now) }
    ensures refused { IfErr result (λ r. r ≡ Refusal.Memory) }
    ensures contents { records.new.contents ≡ records.old.contents }
    ensures fewest { records.old.looks ≤ records.new.looks }
    ensures most { IfOk result (λ edit. records.new.looks ≤ records.old.looks + length edit.places.items) }
{
    let outline = Outline::of(records.uncounted(), derived);
    let places = edited_places(alloc, &outline, what)?;
    let revision = revision_of(alloc, &outline.uncounted(), what)?;
    let keys = keys_at(alloc, &outline.uncounted(), &places)?;
    let marks = records.markings_of(alloc, &keys)?;
    Ok(Edit {
        places,
        keys,
        marks,
        revision,
        is_rerun: is_rerun(what),
    })
}

/// What a small request edits in whose way nothing stands at its moment: nothing where the flag that it writes stands so already. It
/// takes a look at each operation that it edits, and one where it edits nothing. The error is always `Memory`.
// Where the flag stands so, no row changes and few looks are allowed: so nothing is edited.
pub fn edit_of(
    alloc: Global,
    records: &mut CountedRecords,
    derived: DerivedRefs<'_>,
    what: &What,
) -> Result<Edit, Refusal>
    requires derived { AreDerivedOf records.old.contents derived }
    requires small { IsSmall what.now }
    requires clear { (at : ℕ) × IsMoment at × NoneRefuses (MayBeDone records.old.contents at what.now) }
    ensures edit { IfOk result (IsEditFor records.old.contents) }
    ensures changes { IfOk result (λ edit. Changes records.old.contents what.now (edited edit records.old.contents)) }
    ensures legal { IfOk result (λ edit. IsRequest what.now) }
    ensures worked { IfOk result (λ edit. AreWorkedAt records.old.contents (edited edit records.old.contents) what.now edit.places.items) }
    ensures rerun { IfOk result (λ edit. edit.is_rerun ≡ true → IsRerun what.now) }
    ensures refused { IfErr result (λ r. r ≡ Refusal.Memory) }
    ensures contents { records.new.contents ≡ records.old.contents }
    ensures fewest { records.old.looks ≤ records.new.looks }
    ensures most { IfOk result (λ edit. records.new.looks ≤ records.old.looks + one_at_least (length edit.places.items)) }
{
    records.uncounted().are_sound();
    let edit = noted_edit(alloc, records, derived, what)?;
    if is_idle_at_one(what, &edit.marks) {
        Ok(nothing_edited(alloc))
    } else {
        Ok(edit)
    }
}
