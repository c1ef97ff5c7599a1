//! Laws of the definitions, as contracts of functions with empty bodies; and that of schedules: what calls, stops and
//! openings of a desk leave, one after another.
#![tactic(auto)]

mod scheduling;

ghost use Rattle.plan_records.specs.plan_model.specs.Ready.{OneChoice};
ghost use Rattle.plan_records.specs.Run.{AcceptedAlone};
ghost use Rattle.plan_records.specs.Run.{State, Usable, Call, Answers};
ghost use Rattle.plan_records.specs.Laws.{StartsAreProvidedFor, ReachedStartsAreProvidedFor, ChoiceKeepsSound, ChangeKeepsSound, StepKeepsSound, RunKeepsSound};
ghost use Rattle.plan_records.specs.plan_model.specs.Valid.{IsAcyclic};
ghost use Rattle.plan_records.specs.declared.What.{What};
ghost use Rattle.plan_records.specs.Answer.{refused};
ghost use Rattle.plan_basics.specs.declared.Refusal.{Refusal};
ghost use Rattle.plan_basics.specs.declared.keys.OpKey.{OpKey};
ghost use Rattle.plan_records.specs.plan_model.specs.Plan.{no_plan, IsSoundPlan};
ghost use Rattle.plan_records.specs.plan_model.specs.Contents.{Contents, Operation, Pairs, IsPairOf, Precedes};
ghost use Rattle.std.specs.FinSet as set;
ghost use Rattle.plan_records.specs.plan_model.specs.workstations.specs.Workstations.{Workstation};
ghost use Rattle.status_rules.specs.declared.Preds.{Preds};
ghost use Rattle.status_rules.specs.Table.{status_by};
ghost use Rattle.operation_graph.specs.Paths.{IsRankBy, LeadsBy};
ghost use Rattle.plan_records.specs.Rows.{IsWaitingFor};
ghost use Rattle.std.specs.FinMap.{get};
ghost use Rattle.plan_records.specs.plan_model.specs.Status.{IsSatisfied, HasStatus, AllPredecessorsSatisfied, ArePreds, IsInEachClosedSet};
ghost use Rattle.plan_laws.specs.Steps.{OneStep, OneNumberedStep, OneRun, SomeStep, SomeNumberedStep, SomeRun, PlanAnswers};
ghost use Rattle.plan_laws.specs.Derived.{SatisfiedIsTold, SatisfiedByStatus, ClassesOfStatus, EachHasOneStatus, EachHasOneLatestStart, SomeReadyList, OneReadyList, SomeChoice, EachHasOneOccurrenceStatus, EachLeavesOneSoundPlan};
ghost use Rattle.plan_laws.specs.Denoting.{OrderDoesNotMatter, OrderDoesNotMatterToAdditions, OrderDoesNotMatterToExtensions};
ghost use Rattle.plan_laws.specs.Tables.{EachHasOneRow, OneListOfChanges, OnlyIntervalsGo, OnlyTheseGo, RowsTellPlan, RowsTellReceipts, SomeChanges, SomeRows};
ghost use Rattle.plan_laws.specs.Work.{OneAllowance, SomeAllowance};
ghost use Rattle.plan_laws.specs.Ranks.{ValidHasRank, PathsAreTold, CyclesAreTold};
ghost use Rattle.std.specs.Prelude.{◌≡◌, ◌≢◌, ◌⊎◌, ◌↔◌, ℕ};

pub use operation_graph::Graph;
pub use plan_records::{OperationRow, PlanContents, PlanRow, RowKey, graph_of, keys};
pub use scheduling::{every_schedule, faults_leave_as_stops};

/// The accepted requests of a run, taken alone in their order, are a run with the same accepted replies,
/// last plan and last receipts.
pub fn accepted_requests_alone()
    ensures { AcceptedAlone }
{}

/// There is one choice at most.
pub fn one_choice()
    ensures { OneChoice }
{}

/// No operation becomes started unless its predecessors are satisfied, its workstation is open, and servers,
/// fixed and special resources suffice at that moment.
pub fn starts_are_provided_for()
    ensures { StartsAreProvidedFor }
{}

/// A refused request changes nothing: neither the plan nor the receipts, whatever the refusal.
pub fn refused_changes_nothing()
    ensures { (s t : State) → (u v : Usable) → (c : Call) → (r : Refusal) → Answers s u c (refused r) t v → t ≡ s }
{}

/// What the desk names keeps the plan sound.
pub fn choice_keeps_sound()
    ensures { ChoiceKeepsSound }
{}

/// Whether an operation is satisfied can be decided, where there is a rank, as in each valid plan; and it is so where
/// each closed set has it.
pub fn satisfied_is_told()
    ensures told { (P : Contents) → (rank : OpKey → ℕ) → IsRankBy (Precedes P) rank → (o : OpKey) → IsSatisfied P o ⊎ ¬ IsSatisfied P o }
    ensures each { (P : Contents) → (rank : OpKey → ℕ) → IsRankBy (Precedes P) rank → (o : OpKey) → IsSatisfied P o ↔ IsInEachClosedSet P o }
    ensures valid { SatisfiedIsTold }
{}

/// The table over truth values gives the status.
pub fn status_is_by_table()
    ensures { (P : Contents) → (o : OpKey) → (op : Operation) → (ws : Workstation) → (p : Preds) → get P.operations o ≡ Some op → get P.workstations op.workstation ≡ Some ws → ArePreds P o p → HasStatus P o (status_by op.mark op.held op.nop ws.attribute p) }
{}

/// The number of live predecessors that aren't satisfied is zero exactly where all of them are.
pub fn counter_at_zero()
    ensures { (P : Contents) → (rank : OpKey → ℕ) → IsRankBy (Precedes P) rank → (o : OpKey) → IsWaitingFor P o 0 ↔ AllPredecessorsSatisfied P o }
{}

/// What an accepted request changes keeps the plan sound, whichever of the requests it is.
pub fn changes_keep_sound()
    ensures { (w : What) → ChangeKeepsSound w }
{}

/// Every step keeps the plan sound.
pub fn steps_keep_sound()
    ensures { StepKeepsSound }
{}

/// A run that begins with a sound plan ends with one; and the plan before anything is loaded is sound.
pub fn runs_keep_sound()
    ensures kept { RunKeepsSound }
    ensures empty { IsSoundPlan no_plan }
{}

/// After any run from a sound plan, no operation becomes started by the next call, numbered or not, unless its
/// predecessors are satisfied, its workstation is open, and servers, fixed and special resources suffice at that moment.
pub fn reached_starts_are_provided_for()
    ensures { ReachedStartsAreProvidedFor }
{}

/// A pair that is added closes a path exactly where its ends are one, or a path leads back from second to first.
pub fn pair_closes_a_path()
    ensures { (pairs : Pairs) → (p : OpKey) → (s : OpKey) → IsAcyclic pairs → IsAcyclic (set.insert pairs (p, s)) ↔ ((p ≢ s) × ¬ LeadsBy (IsPairOf pairs) s p) }
{}

/// A request has one answer at most, and this leaves one plan: a plan and a request determine both. So it is with a
/// tracker's numbered request and the receipts, and with the calls of a run that neither memory nor the store disturbs.
pub fn one_step()
    ensures plain { OneStep }
    ensures numbered { OneNumberedStep }
    ensures run { OneRun }
{}

/// The operations of a valid plan can be numbered so that each predecessor has the smaller number.
pub fn valid_has_rank()
    ensures { ValidHasRank }
{}

/// Whether a path leads from one operation to another can be decided, and whether one returns to its start.
pub fn paths_are_told()
    ensures paths { PathsAreTold }
    ensures cycles { CyclesAreTold }
{}

/// An operation is satisfied exactly where its status is complete or deleted.
pub fn satisfied_by_status()
    ensures { SatisfiedByStatus }
{}

/// Of each operation of a valid plan the classes of its status show if it is ready, waiting or ready, under way, and
/// satisfied.
pub fn classes_of_status()
    ensures { ClassesOfStatus }
{}

/// Each operation of a valid plan has exactly one status.
pub fn each_has_one_status()
    ensures { EachHasOneStatus }
{}

/// Each operation of a valid plan has exactly one latest start.
pub fn each_has_one_latest_start()
    ensures { EachHasOneLatestStart }
{}

/// Each occurrence of a valid plan has exactly one status.
pub fn each_has_one_occurrence_status()
    ensures { EachHasOneOccurrenceStatus }
{}

/// Of each sound plan exactly one is left once the occurrences that are complete or deleted have left it, all together, and it is sound.
pub fn each_leaves_one_sound_plan()
    ensures { EachLeavesOneSoundPlan }
{}

/// Each operation of a valid plan has exactly one row in the tables.
pub fn each_has_one_row()
    ensures { EachHasOneRow }
{}

/// The rows of the tables determine a valid plan.
pub fn rows_tell_plan()
    ensures { RowsTellPlan }
{}

/// And those of the receipts determine the receipts.
pub fn rows_tell_receipts()
    ensures { RowsTellReceipts }
{}

/// A valid plan has a list of all its rows, each once.
pub fn some_rows()
    ensures { SomeRows }
{}

/// From a valid plan to another there is exactly one list of rows that change, and one of keys that go.
pub fn one_list_of_changes()
    ensures some { SomeChanges }
    ensures one { OneListOfChanges }
{}

/// No request takes out of the tables of a sound plan anything but intervals, and what goes with an occurrence that leaves:
/// workstations and special resources stay.
pub fn only_these_go()
    ensures { OnlyTheseGo }
{}

/// And no request but an extension takes out anything but intervals: what else a plan has stays under its key.
pub fn only_intervals_go()
    ensures { OnlyIntervalsGo }
{}

/// A valid plan has a ready list.
pub fn some_ready_list()
    ensures { SomeReadyList }
{}

/// There is one ready list at most.
pub fn one_ready_list()
    ensures { OneReadyList }
{}

/// From the ready list of a valid plan there is a choice at each minute.
pub fn some_choice()
    ensures { SomeChoice }
{}

/// To a sound plan each request, of legal parts, has an answer, which leaves some plan. So has a tracker's numbered
/// request, and all calls have a run in which each answer is the plan's own.
pub fn some_step()
    ensures plain { SomeStep }
    ensures numbered { SomeNumberedStep }
    ensures run { SomeRun }
{}

/// No step is answered for want of memory, or for a fault of the store.
pub fn plan_answers()
    ensures { PlanAnswers }
{}

/// How many operation records a request may look at is one number, which the plans before and after decide.
pub fn one_allowance()
    ensures some { SomeAllowance }
    ensures one { OneAllowance }
{}

/// The order of records doesn't matter to the plan that they denote, nor to the addition or the extension.
pub fn order_of_records_does_not_matter()
    ensures plan { OrderDoesNotMatter }
    ensures addition { OrderDoesNotMatterToAdditions }
    ensures extension { OrderDoesNotMatterToExtensions }
{}
