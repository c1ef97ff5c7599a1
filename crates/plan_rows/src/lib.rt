//! The rows of the tables for a loaded plan, and which of them change from one plan to the next.
#![tactic(auto)]

mod all_rows;
mod changing;
mod columns;
mod dependencies;
mod intervals;
mod kept_tables;
mod keyed;
mod meta;
mod needs;
mod new_places;
mod noted_rows;
mod notes;
mod occurrence_places;
mod occurrences;
mod operations;
mod quantities;
mod row_sources;
mod tables;
mod uncounted_rows;
mod workplaces;
mod written;

pub use all_rows::changed_rows;
pub use changing::{changes_between, rows_of};
pub use columns::{SourceColumns, columns_of};
pub use dependencies::push_dependencies;
pub use derived_figures::{
    CountedRecords, DerivedAfresh, DerivedRefs, LoadedParts, LoadedPlan, ReportedOperation,
    SoundContents, Standing, UncountedContents, ValidContents, attribute_of, chosen_with,
    derived_afresh, given_out_of, graph_for, holdings_in, occurrence_status_with, standings_of,
    summaries_of,
};
pub use intervals::push_intervals;
pub use keyed::push_resources;
pub use needs::{new_needs, push_amounts, push_needs};
pub use notes::{FacilityChange, Notes, noted_changes, notes_of};
pub use occurrences::push_occurrences;
pub use operations::push_operations;
pub use quantities::push_quantities;
pub use row_sources::{PlanBefore, RowSource, TableSource};
pub use workplaces::push_workstations;
