// What is kept of a loaded plan, worked out afresh from what it holds.
ghost use Rattle.std.specs.Prelude.{◌≡◌, ◌+◌, ◌*◌, ◌≤◌, IfOk, IfErr, length};
ghost use Rattle.std.specs.FinMap.{entries};
ghost use Rattle.plan_basics.specs.declared.Refusal.{Refusal};
ghost use Rattle.derived_figures.specs.Afresh.{IsDerivedAfresh};
ghost use Rattle.start_choice.specs.Choices.{AreLatestStarts};
ghost use Rattle.start_choice.specs.plan_drafts.specs.PlanGraphs.{IsGraphFor};
ghost use Rattle.derived_figures.specs.Figures.{AreFigures};
ghost use Rattle.start_choice.specs.plan_status.specs.Summaries.{AreSummaries};

use super::figures::Figures;
use super::wait_states::wait_states_of;
use plan_basics::Refusal;
use plan_model::{Graph, Latest};
use start_choice::{
    CountedRecords, OperationSummary, given_out_of, holdings_of, latest_of, ready_of, standings_of,
    statuses_of, tallies_of,
};
use std::alloc::Global;

/// What is kept of a plan beside what it holds and the graph of that, and the summaries that it was worked out from.
#[derive(Drop)]
pub struct DerivedAfresh {
    pub summaries: Vec<OperationSummary>,
    pub latest: Latest,
    pub figures: Figures,
}

// The figures of these records, by the summaries of their operations: a look at each that may hold special resources, and so at none that
// is ready. The error is always `Memory`.
// A desk is opened by it too: so it stays beside what moves with requests, as the plain program next to the definition.
fn figures_of(
    alloc: Global,
    records: &mut CountedRecords,
    graph: &Graph,
    latest: &Latest,
    summaries: &[OperationSummary],
) -> Result<Figures, Refusal>
    requires graph { IsGraphFor records.old.contents graph.now }
    requires latest { AreLatestStarts records.old.contents latest.now.starts }
    requires summaries { AreSummaries records.old.contents summaries.now }
    ensures figures { IfOk result (AreFigures records.old.contents) }
    ensures contents { records.new.contents ≡ records.old.contents }
    ensures fewest { records.old.looks ≤ records.new.looks }
    ensures most { IfOk result (λ f. records.new.looks + length f.ready.entries ≤ records.old.looks + length summaries.now) }
    ensures refused { IfErr result (λ r. r ≡ Refusal.Memory) }
{
    let uncounted = records.uncounted();
    let standings = standings_of(alloc, summaries, graph)?;
    let statuses = statuses_of(alloc, summaries, &standings)?;
    let wait_states = wait_states_of(alloc, &standings, &statuses)?;
    let tallies = tallies_of(alloc, &uncounted, &statuses)?;
    let mut ready = ready_of(alloc, &uncounted, summaries, &statuses, latest)?;
    ready.reserve(summaries.len())?;
    let given = given_out_of(alloc, &uncounted, summaries)?;
    let holdings = holdings_of(alloc, records, summaries)?;
    Ok(Figures {
        wait_states,
        standings,
        statuses,
        tallies,
        given,
        holdings,
        ready,
    })
}

/// What is kept of the plan of these records, which has this graph, all worked out afresh. It takes a look at each operation for its
/// summary, and so many more that with a look at each entry of the ready list there would be two at each operation at most. The error is
/// always `Memory`.
pub fn derived_afresh(
    alloc: Global,
    records: &mut CountedRecords,
    graph: &Graph,
) -> Result<DerivedAfresh, Refusal>
    requires graph { IsGraphFor records.old.contents graph.now }
    ensures derived_afresh { IfOk result (IsDerivedAfresh records.old.contents) }
    ensures contents { records.new.contents ≡ records.old.contents }
    ensures fewest { records.old.looks ≤ records.new.looks }
    ensures most { IfOk result (λ w. records.new.looks + length w.figures.ready.entries ≤ records.old.looks + 2 * length (entries records.old.contents.operations)) }
    ensures refused { IfErr result (λ r. r ≡ Refusal.Memory) }
{
    records.uncounted().are_sound();
    let summaries = records.summaries_of(alloc)?;
    let latest = latest_of(alloc, &summaries, graph)?;
    let figures = figures_of(alloc, records, graph, &latest, &summaries)?;
    Ok(DerivedAfresh {
        summaries,
        latest,
        figures,
    })
}
