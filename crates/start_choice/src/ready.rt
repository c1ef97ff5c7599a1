// The ready list.
ghost use Rattle.std.specs.Prelude.{◌≡◌, ◌+◌, ◌<◌, ◌≤◌, Some, length, slice_get, IfOk, IfErr};
ghost use Rattle.std.specs.FinMap.{entries, get};
ghost use Rattle.plan_model.specs.declared.Occurrence.{Occurrence};
ghost use Rattle.plan_basics.specs.declared.Refusal.{Refusal};
ghost use Rattle.plan_basics.specs.declared.keys.OpKey.{OpKey as OpKeyValue};
ghost use Rattle.counted_records.specs.plan_drafts.specs.Places.{AreStatuses};
ghost use Rattle.plan_model.specs.Starts.{IsLatestStart};
ghost use Rattle.plan_model.specs.Contents.{Operation};
ghost use Rattle.counted_records.specs.plan_status.specs.Summaries.{AreSummaries};
ghost use Rattle.start_choice.specs.SummarizedTakings.{holder_count};
ghost use Rattle.start_choice.specs.Choices.{AreLatestStarts, AreReadyEntries};
ghost use Rattle.start_choice.specs.ReadyItems.{AreAllReady, IsEntryIn};

use counted_records::{OperationSummary, UncountedContents};
use plan_basics::{OpKey, Refusal};
use plan_model::{Latest, OperationRecord};
use ready_list::{ReadyEntry, ReadyKey, ReadyList};
use status_rules::Status;
use std::alloc::{AllocError, Global};

// The priority of the occurrence of an operation of the plan. Where that stands at this place, no search is made.
fn priority_of(uncounted: &UncountedContents<'_>, key: &OpKey, place: usize) -> u8
    requires { (op : Operation) × (get uncounted.now.contents.now.operations key.now ≡ Some op) }
    ensures { (c : Occurrence) × (get uncounted.now.contents.now.occurrences key.now.occurrence ≡ Some c) × (result ≡ c.priority) }
{
    uncounted
        .occurrence_near(&key.occurrence, place)
        .unwrap()
        .priority
}

/// The entry of an operation of the plan with its latest start, whether or not it is ready. Where the operation stands at this
/// place, no search is made.
pub fn entry_with(
    uncounted: &UncountedContents<'_>,
    key: &OpKey,
    operation: &OperationRecord,
    latest: i64,
    place: usize,
) -> ReadyEntry
    requires { get uncounted.now.contents.now.operations key.now ≡ Some operation.now }
    ensures op { result.key.op ≡ key.now }
    ensures entry { IsLatestStart uncounted.now.contents.now key.now latest → IsEntryIn uncounted.now.contents.now result }
{
    ReadyEntry {
        key: ReadyKey {
            latest,
            priority: priority_of(uncounted, key, place),
            duration: operation.duration,
            op: *key,
        },
        ws: operation.workstation,
        attr: uncounted.attribute_of(operation, place),
        site: uncounted.workstation_place_near(operation, place),
        place,
    }
}

/// The entry of the operation at a place, by its summary, whether or not it is ready.
pub fn entry_at(
    uncounted: &UncountedContents<'_>,
    summaries: &[OperationSummary],
    latest: &Latest,
    place: usize,
) -> ReadyEntry
    requires within { place < length summaries.now }
    requires summaries { AreSummaries uncounted.now.contents.now summaries.now }
    requires latest { AreLatestStarts uncounted.now.contents.now latest.now.starts }
    ensures op { (o : OpKeyValue) (op : Operation) → slice_get (entries uncounted.now.contents.now.operations) place ≡ Some (o, op) → result.key.op ≡ o }
    ensures entry { IsEntryIn uncounted.now.contents.now result }
{
    let key = uncounted.operation_key(place);
    let summary = &summaries[place];
    ReadyEntry {
        key: ReadyKey {
            latest: latest.of(place),
            priority: priority_of(uncounted, key, place),
            duration: summary.duration,
            op: *key,
        },
        ws: uncounted.workstations()[summary.station].name(),
        attr: summary.attribute,
        site: summary.station,
        place,
    }
}

// The entries of what is ready, in key order. There are no more than operations that can't hold special resources.
fn ready_entries(
    alloc: Global,
    uncounted: &UncountedContents<'_>,
    summaries: &[OperationSummary],
    statuses: &[Status],
    latest: &Latest,
) -> Result<Vec<ReadyEntry>, AllocError>
    requires summaries { AreSummaries uncounted.now.contents.now summaries.now }
    requires statuses { AreStatuses uncounted.now.contents.now statuses.now }
    requires latest { AreLatestStarts uncounted.now.contents.now latest.now.starts }
    ensures ready { IfOk result (λ entries. AreAllReady uncounted.now.contents.now entries.items) }
    ensures few { IfOk result (λ entries. length entries.items + holder_count summaries.now ≤ length summaries.now) }
{
    uncounted.are_sound();
    let mut entries = Vec::new(alloc);
    for place in 0..summaries.len() {
        if statuses[place].is_ready() {
            entries.push(entry_at(uncounted, summaries, latest, place))?;
        }
    }
    Ok(entries)
}

/// The ready list: what is arriving or ready, held or not, in the order in which it is to start (IBM OPC/ESA, Planning and
/// Scheduling the Workload; the order is this project's own). Nothing that is ready holds special resources. The error is always
/// `Memory`.
pub fn ready_of(
    alloc: Global,
    uncounted: &UncountedContents<'_>,
    summaries: &[OperationSummary],
    statuses: &[Status],
    latest: &Latest,
) -> Result<ReadyList, Refusal>
    requires summaries { AreSummaries uncounted.now.contents.now summaries.now }
    requires statuses { AreStatuses uncounted.now.contents.now statuses.now }
    requires latest { AreLatestStarts uncounted.now.contents.now latest.now.starts }
    ensures list { IfOk result (λ list. AreReadyEntries uncounted.now.contents.now list.entries) }
    ensures few { IfOk result (λ list. length list.entries + holder_count summaries.now ≤ length summaries.now) }
    ensures refused { IfErr result (λ r. r ≡ Refusal.Memory) }
{
    let entries = ready_entries(alloc, uncounted, summaries, statuses, latest)?;
    ReadyList::build(entries)
}
