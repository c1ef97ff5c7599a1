// Classes of statuses and of marks.
ghost use Rattle.std.specs.Prelude.{◌≡◌, Some};
ghost use Rattle.status_rules.specs.Classes.{is_ready, is_waiting_or_ready, is_under_way, is_satisfied, is_startable, is_completable, is_rerunnable, is_live, is_over, holds_server, holds_resource};
ghost use Rattle.status_rules.specs.Table.{marked_status};

use super::{Mark, OccStatus, Status};

impl Status {
    /// Arriving or ready: such operations are in the ready list.
    pub fn is_ready(self) -> bool
        ensures { result ≡ is_ready self }
    {
        matches!(
            self,
            Status::Arriving | Status::ReadyAfterNonreporting | Status::Ready
        )
    }

    /// Waiting, arriving or ready: their flags may be set, and a predecessor may be added.
    pub fn is_waiting_or_ready(self) -> bool
        ensures { result ≡ is_waiting_or_ready self }
    {
        matches!(
            self,
            Status::Waiting | Status::Arriving | Status::ReadyAfterNonreporting | Status::Ready
        )
    }

    /// Started, interrupted or undecided: their occurrence isn't deleted, and no rerun reaches them.
    pub fn is_under_way(self) -> bool
        ensures { result ≡ is_under_way self }
    {
        matches!(
            self,
            Status::Started | Status::Interrupted | Status::Undecided
        )
    }

    /// Complete or deleted: their successors don't wait for them.
    pub fn is_satisfied(self) -> bool
        ensures { result ≡ is_satisfied self }
    {
        matches!(self, Status::Complete | Status::Deleted)
    }

    /// Ready or interrupted: they may be started where starts are reported.
    pub fn is_startable(self) -> bool
        ensures { result ≡ is_startable self }
    {
        matches!(
            self,
            Status::Interrupted | Status::Arriving | Status::ReadyAfterNonreporting | Status::Ready
        )
    }

    /// Ready, under way or in error: they may be completed by hand.
    pub fn is_completable(self) -> bool
        ensures { result ≡ is_completable self }
    {
        matches!(
            self,
            Status::Arriving
                | Status::ReadyAfterNonreporting
                | Status::Ready
                | Status::Started
                | Status::Interrupted
                | Status::Undecided
                | Status::Error
        )
    }

    /// Interrupted, complete, in error or undecided: they may be run again.
    pub fn is_rerunnable(self) -> bool
        ensures { result ≡ is_rerunnable self }
    {
        matches!(
            self,
            Status::Interrupted | Status::Complete | Status::Error | Status::Undecided
        )
    }

    /// Started or undecided: where starts are known, they hold a server, R1 and R2.
    pub fn holds_server(self) -> bool
        ensures { result ≡ holds_server (Some self) }
    {
        matches!(self, Status::Started | Status::Undecided)
    }
}

impl OccStatus {
    /// Complete or deleted: such occurrences leave a plan that is extended.
    pub fn is_over(self) -> bool
        ensures { result ≡ is_over self }
    {
        matches!(self, OccStatus::Complete | OccStatus::Deleted)
    }
}

impl Mark {
    /// Whether an operation of this mark isn't deleted.
    pub fn is_live(self) -> bool
        ensures { result ≡ is_live self }
    {
        !matches!(self, Mark::Deleted)
    }

    /// Whether an operation of this mark holds a server, R1 and R2, where starts are known.
    pub fn holds_server(self) -> bool
        ensures { result ≡ holds_server (marked_status self) }
    {
        matches!(self, Mark::Named | Mark::Running | Mark::Undecided)
    }

    /// Whether an operation of this mark holds a special resource that an error keeps, or frees, where starts are known.
    pub fn holds_resource(self, keep: bool) -> bool
        ensures { result ≡ holds_resource keep (marked_status self) }
    {
        match self {
            Mark::Named | Mark::Running | Mark::Undecided | Mark::Interrupted => true,
            Mark::Error(_) => keep,
            _ => false,
        }
    }
}
