// What is kept of a plan, and moves as marks and flags change.
use ready_list::ReadyList;
use special_resources::Holdings;
use start_choice::{Standing, WaitState};
use status_rules::{Counts, Status};
use workstations::Capacity;

/// What is kept of a plan, and moves as marks and flags change. Lists of operations, occurrences and workstations are in the
/// order of their keys.
#[derive(Drop)]
pub struct Figures {
    /// Of each operation, whether it is satisfied, and how many predecessors it waits for.
    pub wait_states: Vec<WaitState>,
    /// Of each operation, what is known of its predecessors.
    pub standings: Vec<Standing>,
    /// The status of each operation.
    pub statuses: Vec<Status>,
    /// The numbers of each occurrence's operations, by status.
    pub tallies: Vec<Counts>,
    /// What each workstation has given out.
    pub given: Vec<Capacity>,
    /// Who holds what of special resources.
    pub holdings: Holdings,
    /// What is ready, in the order in which it is to start, with room for all operations.
    pub ready: ReadyList,
}
