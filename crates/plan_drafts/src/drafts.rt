// A plan to be loaded, or an addition to one or an extension of it: what texts denote.
ghost use Rattle.std.specs.Prelude.{◌≡◌};
ghost use Rattle.std.specs.FinMap.{len};
ghost use Rattle.plan_drafts.specs.Drafts.{IsDraft};
ghost use Rattle.plan_drafts.specs.Contents.{added_of, AreExtensionParts};
ghost use Rattle.plan_drafts.specs.PlanGraphs.{IsGraphFor};

use super::contents::{ExtensionParts, PlanContents};
use plan_model::Graph;
use std::marker::Model;

/// What a plan holds, and the graph of its operations and pairs.
#[derive(Drop)]
pub struct DraftParts {
    pub contents: PlanContents,
    pub graph: Graph,
}

/// What the plan holds that a text denotes, with the graph of its operations and pairs. Contracts see it as those contents.
#[derive(Drop)]
pub struct PlanDraft {
    parts: DraftParts,
}

impl Model for PlanDraft {
    ghost use Rattle.plan_model.specs.Contents.{Contents};
    ghost use Rattle.plan_model.specs.Code.{contents_code};
    ghost use Rattle.plan_drafts.specs.Drafts.{IsDraft};
    ghost use Rattle.plan_drafts.specs.PlanGraphs.{IsGraphFor};

    ghost Value = { Contents };

    ghost coded = { contents_code };

    ghost view = { λ d. d.parts.contents };

    ghost invariant = { λ d. IsDraft d.parts.contents × IsGraphFor d.parts.contents d.parts.graph };
}

impl PlanDraft {
    /// The draft that has these contents and this graph, which are those of a draft.
    pub fn of_parts(parts: DraftParts) -> PlanDraft
        requires draft { IsDraft parts.contents }
        requires graph { IsGraphFor parts.contents parts.graph }
        ensures { result ≡ parts.contents }
    {
        PlanDraft { parts }
    }

    /// What it holds and its graph, so that neither need be made again.
    pub fn into_parts(self) -> DraftParts
        ensures contents { result.contents ≡ self }
        ensures graph { IsGraphFor self result.graph }
        ensures draft { IsDraft self }
    {
        self.parts
    }

    /// What it holds.
    pub fn contents(&self) -> &PlanContents
        ensures view { result.now ≡ self.now }
        ensures draft { IsDraft self.now }
    {
        &self.parts.contents
    }

    /// Its graph, of the operations and pairs that it holds.
    pub fn graph(&self) -> &Graph
        ensures graph { IsGraphFor self.now result.now }
        ensures draft { IsDraft self.now }
    {
        &self.parts.graph
    }
}

/// The occurrence that a text denotes, with its operations and pairs. Contracts see it as what is added.
#[derive(Drop)]
pub struct Addition {
    parts: ExtensionParts,
}

impl Model for Addition {
    ghost use Rattle.std.specs.Prelude.{◌≡◌};
    ghost use Rattle.std.specs.FinMap.{len};
    ghost use Rattle.plan_model.specs.Contents.{AddedParts};
    ghost use Rattle.plan_model.specs.Code.{added_code};
    ghost use Rattle.plan_drafts.specs.Contents.{added_of, AreExtensionParts};

    ghost Value = { AddedParts };

    ghost coded = { added_code };

    ghost view = { λ a. added_of a.parts };

    ghost invariant = { λ a. (len (added_of a.parts).occurrences ≡ 1) × AreExtensionParts a.parts };
}

impl Addition {
    /// The addition of these parts, which are in order and of one occurrence.
    pub fn of_parts(parts: ExtensionParts) -> Addition
        requires one { len (added_of parts).occurrences ≡ 1 }
        requires in_order { AreExtensionParts parts }
        ensures { result ≡ added_of parts }
    {
        Addition { parts }
    }

    /// What is added.
    pub fn parts(&self) -> &ExtensionParts
        ensures view { self.now ≡ added_of result.now }
        ensures one { len self.now.occurrences ≡ 1 }
        ensures in_order { AreExtensionParts result.now }
    {
        &self.parts
    }
}

/// The occurrences that a text denotes by which a plan is extended, with their operations and pairs. Contracts see it as what
/// is added.
#[derive(Drop)]
pub struct Extension {
    parts: ExtensionParts,
}

impl Model for Extension {
    ghost use Rattle.plan_model.specs.Contents.{AddedParts};
    ghost use Rattle.plan_model.specs.Code.{added_code};
    ghost use Rattle.plan_drafts.specs.Contents.{added_of, AreExtensionParts};

    ghost Value = { AddedParts };

    ghost coded = { added_code };

    ghost view = { λ a. added_of a.parts };

    ghost invariant = { λ a. AreExtensionParts a.parts };
}

impl Extension {
    /// The extension of these parts, which are in order.
    pub fn of_parts(parts: ExtensionParts) -> Extension
        requires in_order { AreExtensionParts parts }
        ensures { result ≡ added_of parts }
    {
        Extension { parts }
    }

    /// What is added.
    pub fn parts(&self) -> &ExtensionParts
        ensures view { self.now ≡ added_of result.now }
        ensures in_order { AreExtensionParts result.now }
    {
        &self.parts
    }
}
