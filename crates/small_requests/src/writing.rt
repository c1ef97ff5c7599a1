// Edits written into what a plan holds, and taken back.
ghost use Rattle.std.specs.Prelude.{◌≡◌, ℕ};
ghost use Rattle.plan_model.specs.Contents.{Contents};
ghost use Rattle.plan_model.specs.Ready.{IsChosen, named as named_in};
ghost use Rattle.plan_model.specs.Valid.{IsSound};
ghost use Rattle.small_requests.specs.Edits.{WasWritten};
ghost use Rattle.small_requests.specs.Revisions.{HasPlaceFor, written};

use super::edits::Edit;
use super::revisions::Revision;
use plan_basics::OpKey;
use plan_checks::{CountedRecords, SoundContents, mark_all, set_held, set_nop};
use plan_drafts::PlanContents;
use status_rules::Mark;

/// The records, with this written into them, by which they stay sound. It takes no memory and no look.
pub fn with_revision(records: CountedRecords, keys: &[OpKey], revision: Revision) -> CountedRecords
    requires has_place { HasPlaceFor records.contents revision }
    requires sound { IsSound (written keys.now revision records.contents) }
    ensures contents { result.contents ≡ written keys.now revision records.contents }
    ensures looks { result.looks ≡ records.looks }
{
    match revision {
        Revision::Nothing => records,
        Revision::Mark(mark) => records.mark_all(keys, &mark),
        Revision::Held(key, held) => records.set_held(&key, held),
        Revision::Nop(key, nop) => records.set_nop(&key, nop),
        Revision::Available(name, available) => records.set_available(&name, available),
        Revision::Opened(workstation) => records.set_workstation(workstation),
    }
}

/// The records, with these operations, which were chosen, marked named. It takes no memory and no look.
// A rerun of an operation without neighbours that is named at once takes all looks that are allowed; one for its mark would be
// too many, and so would one on the way back.
pub fn with_named(records: CountedRecords, named: &[OpKey]) -> CountedRecords
    requires { (m : ℕ) × IsChosen records.contents m named.now }
    ensures contents { result.contents ≡ named_in named.now records.contents }
    ensures looks { result.looks ≡ records.looks }
{
    records.uncounted().are_sound();
    records.mark_all(named, &Mark::Named)
}

/// The sound plan in which these operations were chosen, which were marked named then: before that they were unmarked. It takes no
/// memory and no look.
pub fn without_named(records: CountedRecords, named: &[OpKey]) -> CountedRecords
    requires { (P : Contents) × IsSound P × ((m : ℕ) × IsChosen P m named.now) × (records.contents ≡ named_in named.now P) }
    ensures contents { (P : Contents) → ((m : ℕ) × IsChosen P m named.now) → records.contents ≡ named_in named.now P → result.contents ≡ P }
    ensures looks { result.looks ≡ records.looks }
{
    records.mark_all(named, &Mark::Unmarked)
}

/// The plan into which an edit was written, where this is what stood beside operations. It takes no memory and no look.
pub fn without_edit(records: CountedRecords, edit: &Edit, old: Revision) -> CountedRecords
    requires { (P : Contents) × WasWritten P records.contents edit.now old }
    ensures contents { (P : Contents) → WasWritten P records.contents edit.now old → result.contents ≡ P }
    ensures looks { result.looks ≡ records.looks }
{
    with_revision(records.put_markings(&edit.keys, &edit.marks), &[], old)
}

// Writes a revision, a mark on the operations of these keys. It takes no memory.
fn write(contents: &mut PlanContents, keys: &[OpKey], revision: Revision)
    requires { HasPlaceFor contents.old revision }
    ensures { contents.new ≡ written keys.now revision contents.old }
{
    match revision {
        Revision::Nothing => {}
        Revision::Mark(mark) => mark_all(contents, keys, &mark),
        Revision::Held(key, held) => set_held(contents, &key, held),
        Revision::Nop(key, nop) => set_nop(contents, &key, nop),
        Revision::Available(name, available) => contents.set_available(&name, available),
        Revision::Opened(workstation) => contents.set_workstation(workstation),
    }
}

/// What a small step makes of the contents of a plan: this is written into them, by which they stay sound, and the operations
/// that are chosen then are marked named. It takes no memory.
pub fn stepped(
    contents: SoundContents,
    keys: &[OpKey],
    revision: Revision,
    named: &[OpKey],
) -> SoundContents
    requires has_place { HasPlaceFor contents revision }
    requires sound { IsSound (written keys.now revision contents) }
    requires chosen { (m : ℕ) × IsChosen (written keys.now revision contents) m named.now }
    ensures { result ≡ named_in named.now (written keys.now revision contents) }
{
    let mut rows = contents.into_rows();
    write(&mut rows, keys, revision);
    mark_all(&mut rows, named, &Mark::Named);
    SoundContents::of(rows)
}
