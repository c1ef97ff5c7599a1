// What a workstation has given out, as one of its operations gets another mark.
ghost use Rattle.std.specs.Prelude.{◌≡◌, ◌+◌, ℕ};
ghost use Rattle.start_choice.specs.Takings.{IsAtMost, most_given_out, with_one_more};
ghost use Rattle.derived_figures.specs.Marked.{with_taking};
ghost use Rattle.workstations.specs.declared.Capacity.{Capacity as CapacityValue};

use plan_model::OperationRecord;
use start_choice::with_operation;
use workstations::Capacity;

// What is given out, with this much less.
fn with_less(taken: u32, less: u8) -> u32
    ensures { (rest : ℕ) → taken ≡ rest + less → result ≡ rest }
{
    taken.saturating_sub(u32::from(less))
}

// What is given out, without a server, and without the operation's R1 and R2.
fn without_operation(taken: &Capacity, operation: &OperationRecord) -> Capacity
    ensures { (rest : CapacityValue) → taken.now ≡ with_one_more rest operation.now → result ≡ rest }
{
    Capacity {
        servers: with_less(taken.servers, 1),
        r1: with_less(taken.r1, operation.r1),
        r2: with_less(taken.r2, operation.r2),
    }
}

// What is given out, without what an operation takes by its mark.
fn given_back(taken: &Capacity, operation: &OperationRecord) -> Capacity
    ensures { (rest : CapacityValue) → taken.now ≡ with_taking rest operation.now → result ≡ rest }
{
    if operation.mark.holds_server() {
        without_operation(taken, operation)
    } else {
        *taken
    }
}

// What is given out, with what an operation takes by its mark.
fn given_to(rest: &Capacity, operation: &OperationRecord) -> Capacity
    ensures { IsAtMost most_given_out rest.now → result ≡ with_taking rest.now operation.now }
{
    if operation.mark.holds_server() {
        with_operation(rest, operation)
    } else {
        *rest
    }
}

/// What is given out, where an operation that took by its old mark takes by its new one. All operations of a plan take at most
/// `MOST_OPERATIONS` times `MOST_FIXED`.
pub fn given_anew(taken: &Capacity, old: &OperationRecord, new: &OperationRecord) -> Capacity
    ensures { (rest : CapacityValue) → IsAtMost most_given_out rest → taken.now ≡ with_taking rest old.now → result ≡ with_taking rest new.now }
{
    given_to(&given_back(taken, old), new)
}
