// What is wrong with the records of an extension's text, place by place.
ghost use Rattle.std.specs.Prelude.{◌≡◌, ◌≢◌, ◌↔◌, ◌⊎◌, ◌+◌, ◌*◌, ◌≤◌, None, Contains, IfOk, OnOk, length, slice_get, unwrap_or};
ghost use Rattle.std.specs.List.{AllPairs};
ghost use Rattle.plan_import.specs.Lines.{BeginOn};
ghost use Rattle.record_faults.specs.Sayings.{given, texts_of, IsIndex};
ghost use Rattle.extension_faults.specs.Beside.{AreBefore, AreFaultsBelow, AreFaultsBesideText, IsFaultBeside, IsFaultOfRecords};
ghost use Rattle.extension_faults.specs.declared.kinds.FaultBeside.{FaultBeside};

use super::kinds::FaultBeside;
use super::telling::tell_item;
use plan_import::{TextRecords, records_of_text};
use plan_items::Item;
use plan_reasons::Plan;
use record_faults::{Fields, Index, index_of, keys_given, sayings_of};
use std::alloc::{AllocError, Global};

/// The faults of an extension's text beside a plan.
#[derive(Drop)]
pub struct BesideFaults {
    /// Those of its records, in the order of their places, each once.
    pub faults: Vec<FaultBeside>,
    /// The line in which each record begins. The first line is 1.
    pub lines: Vec<u64>,
}

/// What the record at a place says.
pub fn item_at(said: &[Option<Item>], place: usize) -> Option<Item>
    ensures { result ≡ unwrap_or (slice_get said.now place) None }
{
    match said.get(place) {
        Some(item) => *item,
        None => None,
    }
}

// What is wrong with the record at a place goes to the end.
fn tell_place(
    faults: &mut Vec<FaultBeside>,
    plan: &Plan,
    said: &[Option<Item>],
    index: &Index,
    place: usize,
) -> Result<(), AllocError>
    requires { IsIndex (given said.now) index.now }
    ensures told { OnOk result ((f : FaultBeside) → Contains faults.new.items f ↔ (Contains faults.old.items f ⊎ ((f.place ≡ place) × IsFaultBeside plan.now.plan.contents said.now place f.wrong))) }
    ensures in_order { OnOk result (AreBefore (8 * place) faults.old.items → AreBefore (8 * place + 8) faults.new.items) }
{
    let Some(item) = item_at(said, place) else {
        return Ok(());
    };
    tell_item(faults, plan, index, place, &item)?;
    Ok(())
}

/// For each key the first place that gives it.
pub fn index_said(alloc: Global, said: &[Option<Item>]) -> Result<Index, AllocError>
    ensures { IfOk result (IsIndex (given said.now)) }
{
    let keys = keys_given(alloc, said)?;
    index_of(alloc, &keys)
}

// The faults of records that say this.
fn faults_said(
    alloc: Global,
    plan: &Plan,
    said: &[Option<Item>],
) -> Result<Vec<FaultBeside>, AllocError>
    ensures told { IfOk result (λ v. AreFaultsBelow plan.now.plan.contents said.now (length said.now) v.items) }
    ensures in_order { IfOk result (λ v. AreBefore (8 * length said.now) v.items) }
{
    let index = index_said(alloc, said)?;
    let mut faults = Vec::new(alloc);
    for place in 0..said.len() {
        tell_place(&mut faults, plan, said, &index, place)?;
    }
    Ok(faults)
}

// The faults of records.
fn faults_of_records(
    alloc: Global,
    plan: &Plan,
    records: &[Fields],
) -> Result<Vec<FaultBeside>, AllocError>
    ensures exactly { IfOk result (λ v. (f : FaultBeside) → Contains v.items f ↔ IsFaultOfRecords plan.now.plan.contents (texts_of records.now) f.place f.wrong) }
    ensures in_order { IfOk result (λ v. AllPairs (λ a b. a.place ≤ b.place) v.items) }
    ensures once { IfOk result (λ v. AllPairs (λ a b. a ≢ b) v.items) }
{
    let said = sayings_of(alloc, records)?;
    let faults = faults_said(alloc, plan, &said)?;
    Ok(faults)
}

/// The faults of an extension's text beside the plan that it is to extend, in the order of its records, each once. Of the
/// plan what is over counts no more, since an extension drops it: only workstations, special resources, and occurrences that
/// are neither complete nor deleted, with their operations. A path that returns is none of them, nor is a limit of the plan,
/// nor what is wrong with the text by itself. It fails for want of memory only.
pub fn faults_beside(alloc: Global, plan: &Plan, text: &[u8]) -> Result<BesideFaults, AllocError>
    ensures exactly { IfOk result (λ t. AreFaultsBesideText plan.now.plan.contents text.now t.faults.items) }
    ensures in_order { IfOk result (λ t. AllPairs (λ a b. a.place ≤ b.place) t.faults.items) }
    ensures once { IfOk result (λ t. AllPairs (λ a b. a ≢ b) t.faults.items) }
    ensures lines { IfOk result (λ t. BeginOn text.now t.lines.items) }
{
    let TextRecords { records, lines } = records_of_text(alloc, text)?;
    let faults = faults_of_records(alloc, plan, &records)?;
    Ok(BesideFaults { faults, lines })
}
