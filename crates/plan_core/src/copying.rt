// A plan again, in memory of its own.
ghost use Rattle.std.specs.Prelude.{◌≡◌, IfErr, IfOk};
ghost use Rattle.plan_basics.specs.declared.Refusal.{Refusal};

use super::plan::Plan;
use plan_basics::Refusal;
use plan_opening::{CountedRecords, LoadedPlan, SoundContents, derived_afresh};
use record_permits::granted;
use std::alloc::Global;

// What a plan holds, again.
fn contents_again(alloc: Global, contents: &SoundContents) -> Result<SoundContents, Refusal>
    ensures same { IfOk result (λ new. new ≡ contents.now) }
    ensures memory { IfErr result (λ r. r ≡ Refusal.Memory) }
{
    let rows = contents.rows().try_clone(alloc)?;
    Ok(SoundContents::of(rows))
}

// A loaded plan again: its records and its graph are copied, and what is kept beside them is worked out afresh.
fn loaded_again(alloc: Global, loaded: &LoadedPlan) -> Result<LoadedPlan, Refusal>
    ensures same { IfOk result (λ new. new ≡ loaded.now) }
    ensures memory { IfErr result (λ r. r ≡ Refusal.Memory) }
{
    let graph = loaded.graph().try_clone()?;
    let contents = contents_again(alloc, loaded.contents())?;
    let permit = granted();
    let mut records = CountedRecords::of(contents, &permit);
    let kept = derived_afresh(alloc, &mut records, &graph);
    let (contents, _looks) = records.into_contents(&permit);
    let kept = kept?;
    Ok(LoadedPlan::of(contents, graph, kept.latest, kept.figures))
}

impl Plan {
    /// An equal one. The error is always `Memory`.
    pub fn try_clone(&self) -> Result<Plan, Refusal>
        ensures same { IfOk result (λ new. new ≡ self.now) }
        ensures memory { IfErr result (λ r. r ≡ Refusal.Memory) }
    {
        let _ = self.clock();
        let (alloc, clock) = (self.alloc, self.clock);
        let loaded = match &self.loaded {
            Some(loaded) => Some(loaded_again(alloc, loaded)?),
            None => None,
        };
        Ok(Plan {
            alloc,
            clock,
            loaded,
        })
    }
}
