//! What is wrong with the records of a plan's text, and where.
#![tactic(auto)]

mod circles;
mod counts;
mod denoting;
mod faults;
mod fields;
mod finders;
mod findings;
mod gather;
mod groups;
mod index;
mod kinds;
mod names;
mod overlaps;
mod readings;
mod sayings;
mod shapes;
mod stocks;
mod warnings;

pub use circles::Circle;
pub use faults::{Fault, RecordFault};
pub use findings::{circle_of_records, faults_of};
pub use groups::{Group, most};
pub use index::{Index, first_place, index_of};
pub use kinds::{Form, Kind, Shape};
pub use names::Naming;
pub use sayings::{Fields, keys_given, sayings_of};
pub use warnings::{RecordWarning, Warning, warnings_of};
