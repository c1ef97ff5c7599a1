// Laws of small requests: what stays where only marks and flags change, and that what is looked at is within what is allowed.
ghost use Rattle.small_requests.specs.KeptLaws.{ChosenAreReady, EditedAreUnsatisfied, FrameStays, LivesFollow, MovesFollow, NamingMoves, OperationsStay, ReadyAreUnsatisfied, RerunsGoOn, SmallRequestsKeepOthers, SmallRequestsMove};
ghost use Rattle.small_requests.specs.LooksLaws.{SmallStepsLookFew, WholePlansLookFew};

/// The law that keys, the graph and latest starts stay where only marks and flags change and the same operations are deleted; that
/// one such change after another is one; and that where they change nowhere all operations stay. It does nothing.
pub fn frame_stays()
    ensures frame { FrameStays }
    ensures follow { MovesFollow }
    ensures lives { LivesFollow }
    ensures nowhere { OperationsStay }
{}

/// The law that a small request that isn't refused changes marks and flags where it edits them and nowhere else, deletes no
/// operation and brings none back, and changes special resources and workstations only by the request that says so. It does
/// nothing.
pub fn small_requests_move()
    ensures moves { SmallRequestsMove }
    ensures others { SmallRequestsKeepOthers }
{}

/// The law that no request but a rerun edits an operation that is satisfied, and that a rerun edits whatever comes after
/// something that it edits, unless that is deleted. It does nothing.
pub fn edits_lead_on()
    ensures unsatisfied { EditedAreUnsatisfied }
    ensures reruns { RerunsGoOn }
{}

/// The law that to name operations that are ready changes their marks alone and deletes none, and that these weren't satisfied;
/// and what is chosen is ready. It does nothing.
pub fn naming_moves()
    ensures moves { NamingMoves }
    ensures unsatisfied { ReadyAreUnsatisfied }
    ensures chosen { ChosenAreReady }
{}

/// The law that a small request, which looks at what it edits and touches, at what comes to wait for nothing and at what is ready,
/// looks at no more than it is allowed. It does nothing.
pub fn small_steps_look_few()
    ensures { SmallStepsLookFew }
{}

/// The law that a look, and four at each record of the plan that a request leads to, are within what is allowed by that whole plan. It does
/// nothing.
pub fn whole_plans_look_few()
    ensures { WholePlansLookFew }
{}
