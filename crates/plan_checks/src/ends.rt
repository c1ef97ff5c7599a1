// What the ends of pairs that are added are to them.
ghost use Rattle.std.specs.Prelude.{Decides, MatchOption};
ghost use Rattle.plan_basics.specs.declared.Refusal.{Refusal};
ghost use Rattle.plan_basics.specs.declared.keys.OpKey.{OpKey as OpKeyValue};
ghost use Rattle.plan_model.specs.Contents.{AddedParts, Contents};
ghost use Rattle.plan_records.specs.Acceptance.{IsOld, MayBeAdded};
ghost use Rattle.plan_drafts.specs.Contents.{added_of, AreExtensionParts};
ghost use Rattle.plan_drafts.specs.Drafts.{IsOwn};
ghost use Rattle.plan_checks.specs.Additions.{IsFoundPair, IsOldWith, IsOpenPair, MayPrecede, MaySucceed};

use super::known::is_own;
use derived_figures::Statuses;
use plan_basics::OpKey;
use plan_drafts::ExtensionParts;
use status_rules::Status;

/// What an operation is that a pair names.
#[derive(Drop)]
struct End {
    /// Whether it is of an occurrence that is added.
    own: bool,
    /// Its status, if it is an operation of the plan's other occurrences.
    status: Option<Status>,
}

/// Whether the ends of pairs are known, and whether they are open to them.
#[derive(Clone, Copy)]
pub struct Ends {
    pub are_known: bool,
    pub are_open: bool,
}

// What an operation is that a pair names which is added.
fn end_of(plan: &Statuses<'_>, parts: &ExtensionParts, key: &OpKey) -> End
    requires { AreExtensionParts parts.now }
    ensures own { Decides result.own (IsOwn (added_of parts.now) key.now) }
    ensures status { MatchOption result.status (¬ IsOld plan.now (added_of parts.now) key.now) (IsOldWith plan.now (added_of parts.now) key.now) }
{
    if is_own(parts, key) {
        return End {
            own: true,
            status: None,
        };
    }
    End {
        own: false,
        status: plan.status_of(key),
    }
}

// Whether a pair that is added may lead to an operation that has this status, if it is there: it waits or is ready.
fn may_succeed(status: Option<Status>) -> bool
    ensures { (P : Contents) (s : AddedParts) (o : OpKeyValue) → MatchOption status (¬ IsOld P s o) (IsOldWith P s o) → Decides result (MaySucceed P s o) }
{
    match status {
        Some(status) => status.is_waiting_or_ready(),
        None => true,
    }
}

// Whether a pair that is added may lead from an operation that has this status, if it is there: it isn't deleted.
fn may_precede(status: Option<Status>) -> bool
    ensures { (P : Contents) (s : AddedParts) (o : OpKeyValue) → MatchOption status (¬ IsOld P s o) (IsOldWith P s o) → Decides result (MayPrecede P s o) }
{
    match status {
        Some(status) => status != Status::Deleted,
        None => true,
    }
}

// What the ends of a pair that is added are to it.
fn ends_of(plan: &Statuses<'_>, parts: &ExtensionParts, pair: &(OpKey, OpKey)) -> Ends
    requires { AreExtensionParts parts.now }
    ensures known { Decides result.are_known (IsFoundPair plan.now (added_of parts.now) pair.now) }
    ensures may { Decides result.are_open (IsOpenPair plan.now (added_of parts.now) pair.now) }
{
    let predecessor = end_of(plan, parts, &pair.0);
    let successor = end_of(plan, parts, &pair.1);
    Ends {
        are_known: (predecessor.own || predecessor.status.is_some())
            && (successor.own || successor.status.is_some()),
        are_open: may_succeed(successor.status) && may_precede(predecessor.status),
    }
}

/// What the ends of all pairs that are added are to them: whether each is added or is there, and whether those that are there
/// are open.
pub fn ends_of_pairs(plan: &Statuses<'_>, parts: &ExtensionParts) -> Ends
    requires { AreExtensionParts parts.now }
    ensures known { Decides result.are_known (MayBeAdded plan.now (added_of parts.now) Refusal.UnknownOperation) }
    ensures may { Decides result.are_open (MayBeAdded plan.now (added_of parts.now) Refusal.WrongStatus) }
{
    let mut are_known = true;
    let mut are_open = true;
    for pair in &parts.pairs {
        let ends = ends_of(plan, parts, pair);
        are_known = are_known && ends.are_known;
        are_open = are_open && ends.are_open;
    }
    Ends {
        are_known,
        are_open,
    }
}
