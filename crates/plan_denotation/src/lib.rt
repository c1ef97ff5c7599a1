//! What records and items denote: a plan to be loaded, or an addition to one or an extension of it.
#![tactic(auto)]

ghost use Rattle.plan_drafts.specs.Records.{OnePlan, OnePlanOfItems, OneExtension, OneAddition};

mod builder;
mod drafts;
mod extensions;
mod in_order;
mod intervals;
mod key_order;
mod needs;

pub use builder::Record;
pub use drafts::{Build, addition_of_items, contents_of_items, draft_of_items, extension_of_items};
pub use in_order::is_acyclic;
pub use key_order::in_key_order;

/// The law that records denote one plan at most, and so do items; and one extension and one addition at most. It does nothing.
pub fn one_denotation()
    ensures plan { OnePlan }
    ensures items { OnePlanOfItems }
    ensures extension { OneExtension }
    ensures addition { OneAddition }
{}
