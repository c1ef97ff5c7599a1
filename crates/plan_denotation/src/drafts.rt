// What records and items denote: a plan to be loaded, or an addition to one or an extension of it.
ghost use Rattle.std.specs.Prelude.{◌≡◌, List, All, IfOk, IfErr, MatchOption};
ghost use Rattle.std.specs.List.{AllZip};
ghost use Rattle.plan_items.specs.Items.{Fields, IsItem, Says};
ghost use Rattle.plan_drafts.specs.PlanGraphs.{IsGraphFor};
ghost use Rattle.plan_drafts.specs.Records.{records_of, AreItemsOf, Denotes, DenotesAddition, DenotesExtension};
ghost use Rattle.plan_model.specs.Contents.{Contents, AddedParts};

use super::builder::{Record, parts_of_plan, read_items};
use super::extensions::extension_of;
use plan_basics::Refusal;
use plan_drafts::{Addition, DraftParts, Extension, PlanContents, PlanDraft};
use plan_items::Item;
use std::alloc::{AllocError, Global};

/// What records may denote: a plan to be loaded, an addition to one, an extension of it.
// A method of the types themselves would stand in plan_drafts, and all that needs these types alone would wait for its proofs.
pub trait Build: Sized {
    /// What the records of a text denote; `None` where they denote nothing of this kind. They may come in any order. The error is
    /// always `Memory`.
    fn build(records: Vec<Record>) -> Result<Option<Self>, Refusal>;
}

// The contents of the plan whose items these are, with their graph.
fn parts_of_items(alloc: Global, items: &[Item]) -> Result<Option<DraftParts>, AllocError>
    requires { All IsItem items.now }
    ensures { IfOk result (λ found. MatchOption found ((P : Contents) → ¬ AreItemsOf items.now P) (λ p. AreItemsOf items.now p.contents × IsGraphFor p.contents p.graph)) }
{
    parts_of_plan(alloc, items)
}

/// The contents of the plan whose items these are, in any order; `None` where they are those of no plan. It is valid,
/// it may be without workstation or occurrence, and nothing is reported of its operations.
pub fn contents_of_items(alloc: Global, items: &[Item]) -> Result<Option<PlanContents>, AllocError>
    requires { All IsItem items.now }
    ensures { IfOk result (λ found. MatchOption found ((P : Contents) → ¬ AreItemsOf items.now P) (λ c. AreItemsOf items.now c)) }
{
    match parts_of_items(alloc, items)? {
        Some(parts) => Ok(Some(parts.contents)),
        None => Ok(None),
    }
}

impl Build for PlanDraft {
    /// The draft that the records of a text denote; `None` where they denote none. There is at least one workstation, of
    /// any attribute, each with intervals or without; intervals of one workstation may touch, but not overlap. There may be
    /// special resources. There is at least one occurrence, each with its operations, and an operation may need R1, R2 and
    /// special resources, of each no more than there is; pairs may lead from one occurrence to another, but no path of
    /// pairs returns to its start. How many there may be of each is in `plan_basics::limits`. The records may come in any
    /// order. The error is always `Memory`.
    fn build(records: Vec<Record>) -> Result<Option<PlanDraft>, Refusal>
        ensures denoted { IfOk result (λ found. MatchOption found ((P : Contents) → ¬ Denotes (records_of records.items) P) (λ draft. Denotes (records_of records.items) draft)) }
        ensures memory { IfErr result (λ r. r ≡ Refusal.Memory) }
    {
        let alloc = *records.allocator();
        let Some(items) = read_items(alloc, &records)? else {
            return Ok(None);
        };
        draft_of_items(alloc, &items)
    }
}

/// The draft that records denote which say these items, one item each, as `PlanDraft::build` makes it of the records; `None` where they
/// denote none. The error is always `Memory`.
pub fn draft_of_items(alloc: Global, items: &[Item]) -> Result<Option<PlanDraft>, Refusal>
    requires { All IsItem items.now }
    ensures denoted { IfOk result (λ found. (records : List Fields) → AllZip Says records items.now → MatchOption found ((P : Contents) → ¬ Denotes records P) (λ draft. Denotes records draft)) }
    ensures memory { IfErr result (λ r. r ≡ Refusal.Memory) }
{
    let Some(parts) = parts_of_items(alloc, items)? else {
        return Ok(None);
    };
    if parts.contents.workstations().is_empty() || parts.contents.occurrences().is_empty() {
        return Ok(None);
    }
    Ok(Some(PlanDraft::of_parts(parts)))
}

impl Build for Addition {
    /// The addition that the records of a text denote; `None` where they denote none. There is one occurrence with at least
    /// one operation, each of which may need R1, R2 and up to `MOST_NEEDS` special resources. Each pair has an end in the
    /// occurrence, and its ends there are operations of the text; whatever else is named is looked up in the plan when the
    /// occurrence is added. The records may come in any order. The error is always `Memory`.
    fn build(records: Vec<Record>) -> Result<Option<Addition>, Refusal>
        ensures denoted { IfOk result (λ found. MatchOption found ((s : AddedParts) → ¬ DenotesAddition (records_of records.items) s) (λ a. DenotesAddition (records_of records.items) a)) }
        ensures memory { IfErr result (λ r. r ≡ Refusal.Memory) }
    {
        let alloc = *records.allocator();
        let Some(items) = read_items(alloc, &records)? else {
            return Ok(None);
        };
        addition_of_items(alloc, &items)
    }
}

/// The addition that records denote which say these items, one item each, as `Addition::build` makes it of the records; `None` where they
/// denote none. The error is always `Memory`.
pub fn addition_of_items(alloc: Global, items: &[Item]) -> Result<Option<Addition>, Refusal>
    requires { All IsItem items.now }
    ensures denoted { IfOk result (λ found. (records : List Fields) → AllZip Says records items.now → MatchOption found ((s : AddedParts) → ¬ DenotesAddition records s) (λ a. DenotesAddition records a)) }
    ensures memory { IfErr result (λ r. r ≡ Refusal.Memory) }
{
    let Some(parts) = extension_of(alloc, items)? else {
        return Ok(None);
    };
    if parts.occurrences.len() != 1 {
        return Ok(None);
    }
    Ok(Some(Addition::of_parts(parts)))
}

impl Build for Extension {
    /// The extension that the records of a text denote; `None` where they denote none. There may be any number of occurrences,
    /// each with at least one operation; each pair has an end in one of them, and its ends there are operations of the text. The
    /// records may come in any order. The error is always `Memory`.
    fn build(records: Vec<Record>) -> Result<Option<Extension>, Refusal>
        ensures denoted { IfOk result (λ found. MatchOption found ((s : AddedParts) → ¬ DenotesExtension (records_of records.items) s) (λ a. DenotesExtension (records_of records.items) a)) }
        ensures memory { IfErr result (λ r. r ≡ Refusal.Memory) }
    {
        let alloc = *records.allocator();
        let Some(items) = read_items(alloc, &records)? else {
            return Ok(None);
        };
        extension_of_items(alloc, &items)
    }
}

/// The extension that records denote which say these items, one item each, as `Extension::build` makes it of the records; `None` where
/// they denote none. The error is always `Memory`.
pub fn extension_of_items(alloc: Global, items: &[Item]) -> Result<Option<Extension>, Refusal>
    requires { All IsItem items.now }
    ensures denoted { IfOk result (λ found. (records : List Fields) → AllZip Says records items.now → MatchOption found ((s : AddedParts) → ¬ DenotesExtension records s) (λ a. DenotesExtension records a)) }
    ensures memory { IfErr result (λ r. r ≡ Refusal.Memory) }
{
    let Some(parts) = extension_of(alloc, items)? else {
        return Ok(None);
    };
    Ok(Some(Extension::of_parts(parts)))
}
