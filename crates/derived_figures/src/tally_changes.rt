// The numbers of an occurrence's operations, once one of them has another status.
ghost use Rattle.std.specs.Prelude.{◌≡◌, ℕ, List, Some, slice_get, slice_set};
ghost use Rattle.std.specs.FinMap.{keys};
ghost use Rattle.status_rules.specs.declared.Status.{Status as StatusValue};
ghost use Rattle.start_choice.specs.plan_status.specs.OneMore.{CountsOneMore};
ghost use Rattle.derived_figures.specs.ByStatuses.{AreTalliesBy, CountsOne};

use plan_basics::OpKey;
use start_choice::{UncountedContents, count_one};
use status_rules::{Counts, Status};

// One operation of this status is no longer counted.
fn count_out(counts: &mut Counts, status: Status)
    requires { CountsOne status counts.old }
    ensures { CountsOneMore status counts.new counts.old }
{
    counts.all -= 1;
    match status {
        Status::Deleted => counts.deleted -= 1,
        Status::Error => counts.error -= 1,
        Status::Undecided => counts.undecided -= 1,
        Status::Complete => counts.complete -= 1,
        Status::Started | Status::Interrupted => counts.started -= 1,
        Status::Arriving | Status::ReadyAfterNonreporting | Status::Ready | Status::Waiting => {}
    }
}

/// The operation of this key has another status: in its occurrence's numbers that of the old one falls, and that of the new one
/// rises. Where the operation stands at this index, no search is made.
pub fn retally(
    uncounted: &UncountedContents<'_>,
    key: &OpKey,
    near: usize,
    tallies: &mut [Counts],
    old: Status,
    new: Status,
)
    requires { (place : ℕ) × (statuses : List StatusValue) × (slice_get (keys uncounted.now.contents.now.operations) place ≡ Some key.now) × (slice_get statuses place ≡ Some old) × AreTalliesBy uncounted.now.contents.now statuses tallies.old }
    ensures { (place : ℕ) (statuses : List StatusValue) → slice_get (keys uncounted.now.contents.now.operations) place ≡ Some key.now → slice_get statuses place ≡ Some old → AreTalliesBy uncounted.now.contents.now statuses tallies.old → AreTalliesBy uncounted.now.contents.now (slice_set statuses place new) tallies.new }
{
    uncounted.are_sound();
    let counts = &mut tallies[uncounted.occurrence_place_of(key, near)];
    count_out(counts, old);
    count_one(counts, new);
}
