// What the rows of the tables hold of a plan: the way back from rows, in any order, to the plan whose rows they are.
// The columns that follow from the others aren't looked at.

mod contents;
mod items;
mod meta;
mod reports;
mod said;

pub use contents::contents_of_rows;
pub use meta::meta_of_rows;
