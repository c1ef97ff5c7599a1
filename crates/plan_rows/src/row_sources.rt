// What is kept of a loaded plan, for its views.
ghost use Rattle.std.specs.Prelude.{◌≡◌};
ghost use Rattle.plan_rows.specs.Sources.{IsSource};

use super::columns::SourceColumns;
use derived_figures::{LoadedPlan, Standing, UncountedContents};
use plan_basics::Moment;
use plan_model::Latest;
use plan_records::PlanContents;
use status_rules::{Counts, Status};

/// The rows of a loaded plan, with what is known of each of them.
#[derive(Clone, Copy)]
pub struct RowSource<'a> {
    pub contents: &'a PlanContents,
    pub standings: &'a [Standing],
    pub statuses: &'a [Status],
    pub tallies: &'a [Counts],
    pub latest: &'a Latest,
}

impl<'a> RowSource<'a> {
    /// What is kept of this plan.
    pub fn of(loaded: &'a LoadedPlan) -> RowSource<'a>
        ensures contents { result.contents.now ≡ loaded.now }
        ensures source { IsSource result }
    {
        RowSource {
            contents: loaded.contents().rows(),
            standings: loaded.standings(),
            statuses: loaded.statuses(),
            tallies: loaded.tallies(),
            latest: loaded.latest(),
        }
    }
}

/// What the tables of a loaded plan are told by without a look at a record: what stands beside the records, and what is known of each
/// operation and of each occurrence.
#[derive(Clone, Copy)]
pub struct TableSource<'a> {
    pub uncounted: UncountedContents<'a>,
    pub columns: SourceColumns<'a>,
}

/// The plan before, at its clock, and what its tables are told by if one was loaded.
#[derive(Clone, Copy)]
pub struct PlanBefore<'a> {
    pub clock: Moment,
    pub loaded: Option<TableSource<'a>>,
}
