// Latest starts of a plan's operations.
ghost use Rattle.std.specs.Prelude.{◌≡◌, IfOk, IfErr, map};
ghost use Rattle.plan_basics.specs.declared.Refusal.{Refusal};
ghost use Rattle.counted_records.specs.plan_status.specs.Summaries.{IsSummarizedBy};
ghost use Rattle.plan_model.specs.Contents.{Contents};
ghost use Rattle.start_choice.specs.StartItems.{start_item};
ghost use Rattle.start_choice.specs.Choices.{AreLatestStarts};

use counted_records::OperationSummary;
use plan_basics::Refusal;
use plan_model::{Graph, Item, Latest};
use std::alloc::{AllocError, Global};

// What the latest start of an operation goes by.
fn item_of(summary: &OperationSummary) -> Item
    ensures { result ≡ start_item summary.now }
{
    Item {
        duration: summary.duration,
        deadline: summary.deadline,
        live: summary.mark.is_live(),
    }
}

// What the latest starts of operations go by, one by one.
fn items_of(alloc: Global, summaries: &[OperationSummary]) -> Result<Vec<Item>, AllocError>
    ensures { IfOk result (λ items. items.items ≡ map start_item summaries.now) }
{
    let mut items = Vec::with_capacity(alloc, summaries.len())?;
    for summary in summaries {
        items.push(item_of(summary))?;
    }
    Ok(items)
}

/// The latest start of each operation, in key order, by their summaries and the graph of their plan: the least, over all paths from it
/// that enter no deleted operation, of the deadline of the last operation less the durations of all. The error is always `Memory`.
pub fn latest_of(
    alloc: Global,
    summaries: &[OperationSummary],
    graph: &Graph,
) -> Result<Latest, Refusal>
    requires { (P : Contents) × IsSummarizedBy P graph.now summaries.now }
    ensures starts { IfOk result (λ latest. (P : Contents) → IsSummarizedBy P graph.now summaries.now → AreLatestStarts P latest.starts) }
    ensures refused { IfErr result (λ r. r ≡ Refusal.Memory) }
{
    let items = items_of(alloc, summaries)?;
    Latest::build(alloc, graph, &items)
}
