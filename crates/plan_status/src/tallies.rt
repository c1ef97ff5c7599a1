// Numbers of an occurrence's operations by status.
ghost use Rattle.plan_basics.specs.declared.keys.OccKey.{OccKey};
ghost use Rattle.plan_basics.specs.declared.limits.TheConstants.{MOST_OPERATIONS};
ghost use Rattle.plan_model.specs.Contents.{Contents};
ghost use Rattle.plan_model.specs.Status.{HasOccurrenceStatus};
ghost use Rattle.plan_status.specs.OneMore.{AreAtMost, CountsOneMore};
ghost use Rattle.plan_status.specs.Standings.{IsTally};

use status_rules::{Counts, OccStatus, Status, occurrence_status};

/// The status of an occurrence, by the numbers of its operations.
pub fn occurrence_status_with(counts: Counts) -> OccStatus
    ensures { (P : Contents) → (c : OccKey) → IsTally P c counts → HasOccurrenceStatus P c result }
{
    occurrence_status(counts)
}

/// One more operation of this status is counted.
pub fn count_one(counts: &mut Counts, status: Status)
    requires { AreAtMost MOST_OPERATIONS counts.old }
    ensures { CountsOneMore status counts.old counts.new }
{
    counts.all += 1;
    match status {
        Status::Deleted => counts.deleted += 1,
        Status::Error => counts.error += 1,
        Status::Undecided => counts.undecided += 1,
        Status::Complete => counts.complete += 1,
        Status::Started | Status::Interrupted => counts.started += 1,
        Status::Arriving | Status::ReadyAfterNonreporting | Status::Ready | Status::Waiting => {}
    }
}
