// What is read off a plan's contents.
ghost use Rattle.plan_model.specs.Contents.{Contents};
ghost use Rattle.plan_model.specs.Valid.{IsSound};
ghost use Rattle.derived_figures.specs.DerivedRefs.{AreDerivedOf};
ghost use Rattle.plan_rows.specs.Sources.{IsSource, source_with};

use derived_figures::{DerivedRefs, Standing};
use plan_model::Latest;
use status_rules::{Counts, Status};

/// What is known of each operation and of each occurrence of a plan, in key order, lent beside what the plan holds.
#[derive(Clone, Copy)]
pub struct SourceColumns<'a> {
    pub standings: &'a [Standing],
    pub statuses: &'a [Status],
    pub tallies: &'a [Counts],
    pub latest: &'a Latest,
}

/// What is known of each operation and of each occurrence, of what is kept of a plan.
pub fn columns_of<'a>(derived: DerivedRefs<'a>) -> SourceColumns<'a>
    ensures { (P : Contents) → IsSound P → AreDerivedOf P derived.entry → IsSource (source_with P result) }
{
    let figures = derived.figures;
    SourceColumns {
        standings: &figures.standings,
        statuses: &figures.statuses,
        tallies: &figures.tallies,
        latest: derived.latest,
    }
}
