// What a loaded plan holds, and what is read off it.
ghost use Rattle.std.specs.Prelude.{◌≡◌, ◌<◌, None, Some, IfSome, IsNone, length, slice_get};
ghost use Rattle.std.specs.FinMap.{entries, get};
ghost use Rattle.plan_basics.specs.declared.keys.OpKey.{OpKey as OpKeyValue};
ghost use Rattle.start_choice.specs.Choices.{AreLatestStarts, AreReadyEntries};
ghost use Rattle.start_choice.specs.plan_drafts.specs.Places.{AreStatuses};
ghost use Rattle.start_choice.specs.plan_drafts.specs.PlanGraphs.{IsGraphFor};
ghost use Rattle.plan_model.specs.Contents.{Operation};
ghost use Rattle.plan_model.specs.Status.{HasStatus};
ghost use Rattle.derived_figures.specs.Figures.{AreFigures};
ghost use Rattle.derived_figures.specs.DerivedRefs.{AreDerivedOf};
ghost use Rattle.derived_figures.specs.Reports.{IsReported};
ghost use Rattle.start_choice.specs.plan_status.specs.Standings.{AreStandings, AreTallies};

use super::figures::Figures;
use super::outlines::{DerivedRefs, Outline, ReportedOperation};
use plan_basics::OpKey;
use plan_model::{Graph, Latest};
use ready_list::ReadyList;
use start_choice::{SoundContents, Standing, UncountedContents};
use status_rules::{Counts, Status};
use std::marker::Model;

/// A loaded plan, taken apart: what it holds, the graph of its pairs, the latest start of each operation, and the figures.
#[derive(Drop)]
pub struct LoadedParts {
    pub contents: SoundContents,
    pub graph: Graph,
    pub latest: Latest,
    pub figures: Figures,
}

/// What a loaded plan holds, with what is kept of it: the graph of its pairs and the latest start of each operation, and the
/// figures, which move with its marks and flags. Contracts see it as its contents.
#[derive(Drop)]
pub struct LoadedPlan {
    contents: SoundContents,
    graph: Graph,
    latest: Latest,
    figures: Figures,
}

impl Model for LoadedPlan {
    ghost use Rattle.plan_model.specs.Contents.{Contents};
    ghost use Rattle.plan_model.specs.Code.{contents_code};

    ghost Value = { Contents };

    ghost coded = { contents_code };

    ghost use Rattle.derived_figures.specs.Held.{IsHeld};

    ghost view = { λ p. p.contents };

    ghost invariant = { IsHeld };
}

impl LoadedPlan {
    /// The plan of these contents, with what is kept of them.
    pub fn of(contents: SoundContents, graph: Graph, latest: Latest, figures: Figures) -> LoadedPlan
        requires graph { IsGraphFor contents graph }
        requires latest { AreLatestStarts contents latest.starts }
        requires figures { AreFigures contents figures }
        ensures { result ≡ contents }
    {
        LoadedPlan {
            contents,
            graph,
            latest,
            figures,
        }
    }

    /// What it is made of, so that it can be written to.
    pub fn into_parts(self) -> LoadedParts
        ensures contents { result.contents ≡ self }
        ensures graph { IsGraphFor self result.graph }
        ensures latest { AreLatestStarts self result.latest.starts }
        ensures figures { AreFigures self result.figures }
    {
        LoadedParts {
            contents: self.contents,
            graph: self.graph,
            latest: self.latest,
            figures: self.figures,
        }
    }

    /// What it holds.
    pub fn contents(&self) -> &SoundContents
        ensures contents { result.now ≡ self.now }
    {
        &self.contents
    }

    /// What is kept of it beside what it holds.
    pub fn derived(&self) -> DerivedRefs<'_>
        ensures { AreDerivedOf self.now result }
    {
        DerivedRefs {
            graph: &self.graph,
            latest: &self.latest,
            figures: &self.figures,
        }
    }

    /// All that is known of it without a look at an operation's record.
    pub fn outline(&self) -> Outline<'_>
        ensures { result ≡ self.now }
    {
        Outline::of(UncountedContents::of(self.contents()), self.derived())
    }

    /// The graph of its operations and pairs: a node is the index of an operation.
    pub fn graph(&self) -> &Graph
        ensures { IsGraphFor self.now result.now }
    {
        &self.graph
    }

    /// What is known of each operation's predecessors, in key order.
    pub fn standings(&self) -> &[Standing]
        ensures { AreStandings self.now result.now }
    {
        &self.figures.standings
    }

    /// The status of each operation, in key order.
    pub fn statuses(&self) -> &[Status]
        ensures { AreStatuses self.now result.now }
    {
        &self.figures.statuses
    }

    /// The numbers of each occurrence's operations, in key order.
    pub fn tallies(&self) -> &[Counts]
        ensures { AreTallies self.now result.now }
    {
        &self.figures.tallies
    }

    /// The latest start of each operation, in key order.
    pub fn latest(&self) -> &Latest
        ensures { AreLatestStarts self.now result.now.starts }
    {
        &self.latest
    }

    /// What is ready, in the order in which it is to start.
    pub fn ready(&self) -> &ReadyList
        ensures { AreReadyEntries self.now result.now.entries }
    {
        &self.figures.ready
    }

    /// The index of the operation of a key, if there is one.
    pub fn place_of(&self, key: &OpKey) -> Option<usize>
        ensures found { IfSome result (λ i. (op : Operation) × (slice_get (entries self.now.operations) i ≡ Some (key.now, op))) }
        ensures absent { IsNone result → get self.now.operations key.now ≡ None }
    {
        self.contents.operation_place(key)
    }

    /// The operation at an index, with what is read off the plan for it.
    pub fn reported_at(&self, place: usize) -> ReportedOperation<'_>
        requires { place < length (entries self.now.operations) }
        ensures { (o : OpKeyValue) → (op : Operation) → slice_get (entries self.now.operations) place ≡ Some (o, op) → IsReported self.now o result }
    {
        let row = &self.contents().operations()[place];
        self.outline().reported(&row.0, &row.1, place)
    }

    /// The status of the operation at an index.
    pub fn status_at(&self, place: usize) -> Status
        requires { place < length (entries self.now.operations) }
        ensures { (o : OpKeyValue) → (op : Operation) → slice_get (entries self.now.operations) place ≡ Some (o, op) → HasStatus self.now o result }
    {
        self.outline().status_at(place)
    }
}
