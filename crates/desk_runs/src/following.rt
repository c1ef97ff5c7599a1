// The terms of a desk that is served: its guards, and the starts that are known, which follow the desk's plan from one
// exchange to the next.
ghost use Rattle.std.specs.Prelude.{◌≡◌, IfErr, IfOk, OnErr, OnOk};
ghost use Rattle.command_answers.specs.declared.endings.Fault.{Fault};
ghost use Rattle.command_desks.specs.desk_tables.specs.plan_model.specs.Plan.{Plan as PlanValue};
ghost use Rattle.desk_runs.specs.Following.{AreFirstKnownOf, AreFirstTermsOf, AreFollowed, AreTermsOf};

use command_answers::Fault;
use desk_serving::{KnownStarts, Plan, Terms};
use journal_starts::mentions_in;
use std::alloc::AllocError;

// What is known of starts where a desk is opened with this plan, by the end of a journal.
fn known_by(plan: &Plan, journal: &[u8]) -> Result<KnownStarts, AllocError>
    ensures { IfOk result (AreFirstKnownOf plan.now.plan journal.now) }
{
    let mentions = mentions_in(plan.alloc(), journal, plan.clock())?;
    KnownStarts::told(plan, &mentions)
}

/// The terms of a desk that is opened with this plan and this end of a journal, where a request's moment may be so many minutes
/// after its clock, and trackers are bound to their names or not: of what runs it is known since when, where the journal tells
/// that, and of nothing else. The fault is that of memory.
pub fn first_terms(plan: &Plan, journal: &[u8], minutes: u32, bound: bool) -> Result<Terms, Fault>
    ensures first { IfOk result (AreFirstTermsOf plan.now.plan journal.now minutes bound) }
    ensures fault { IfErr result (λ fault. fault ≡ Fault.Memory) }
{
    let known = known_by(plan, journal)?;
    Ok(Terms {
        ahead: Some(minutes),
        bound,
        known,
        watch: None,
    })
}

/// Follows a desk's plan through an exchange, after which it is this: what became going by it did so at its clock. It looks at
/// each operation once. The fault is that of memory; then all stays as it was, and is to be let go.
pub fn follow(terms: &mut Terms, plan: &Plan) -> Result<(), Fault>
    ensures followed { OnOk result ((P : PlanValue) → AreTermsOf P terms.old → AreFollowed P plan.now.plan terms.old terms.new) }
    ensures unchanged { OnErr result (terms.new ≡ terms.old) }
    ensures fault { IfErr result (λ fault. fault ≡ Fault.Memory) }
{
    terms.known.follow(plan)?;
    Ok(())
}
