// What is wrong with a request's text, or a report's, member by member.

mod finding;
mod kinds;
mod reports;
mod telling;

pub use finding::{RequestFault, faults_of_request};
pub use kinds::{MemberName, RequestKind};
pub use reports::faults_of_report;
pub use telling::request_fault_text;
