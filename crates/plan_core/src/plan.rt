// The plan in memory, and the steps that requests take in it.
ghost use Rattle.std.specs.Prelude.{◌≡◌, ◌⊎◌, ◌≤ℤ◌, pos, map, IfOk, IfErr, OnOk};
ghost use Rattle.plan_basics.specs.declared.Refusal.{Refusal};
ghost use Rattle.plan_model.specs.Plan.{no_plan, IsSoundPlan};
ghost use Rattle.plan_records.specs.declared.Request.{Request};
ghost use Rattle.plan_records.specs.Answer.{accepted, refused, answer_of};
ghost use Rattle.plan_records.specs.Rows.{AreChanges};
ghost use Rattle.plan_records.specs.Step.{Step};
ghost use Rattle.request_outcomes.specs.Looked.{AreAllowed, CoverRows};
ghost use Rattle.plan_core.specs.Provided.{RunStartsAreProvided, StartsAreProvided};
ghost use Rattle.plan_core.specs.Requested.{IsAnswered};
ghost use Rattle.plan_core.specs.State.{IsPreparedFor, plan_after, AcceptedAnswerAll, AnswersAll};

use super::counted::prepare_in;
use super::prepared::Prepared;
use super::taking::put;
use plan_basics::{Moment, OpKey, Refusal};
use plan_opening::LoadedPlan;
use plan_records::{Reply, Request};
use std::alloc::Global;
use std::marker::Model;

/// The plan in memory, with its clock. Contracts see it as that plan.
#[derive(Drop)]
pub struct Plan {
    pub(crate) alloc: Global,
    pub(crate) clock: Moment,
    pub(crate) loaded: Option<LoadedPlan>,
}

impl Model for Plan {
    ghost use Rattle.plan_core.specs.State.{PlanState, state_code};
    ghost use Rattle.plan_model.specs.Plan.{IsSoundPlan};
    ghost use Rattle.plan_model.specs.Plan.{plan_held};

    ghost Value = { PlanState };

    ghost coded = { state_code };

    ghost view = { λ p. record { plan = plan_held p.clock p.loaded } };

    ghost invariant = { λ p. IsSoundPlan (plan_held p.clock p.loaded) };
}

impl Plan {
    /// No plan: nothing is loaded, and the clock is at the first minute that a plan can name. It takes no memory.
    pub fn empty(alloc: Global) -> Plan
        ensures { result.plan ≡ no_plan }
    {
        Plan {
            alloc,
            clock: Moment::new(0).unwrap(),
            loaded: None,
        }
    }

    /// The moment of the last accepted request. Its second clause says that whatever plan a caller holds is sound.
    pub fn clock(&self) -> Moment
        ensures value { result ≡ self.now.plan.clock }
        ensures sound { IsSoundPlan self.now.plan }
    {
        self.clock
    }

    /// What memory is taken from.
    pub fn alloc(&self) -> Global
        ensures sound { IsSoundPlan self.now.plan }
    {
        self.alloc
    }

    // The moment of a request, which lies in range and not before the plan's clock; else the refusal that applies.
    fn moment_of(&self, request: &Request) -> Result<Moment, Refusal>
        ensures at { IfOk result (λ m. request.now.at ≡ pos m) }
        ensures onward { OnOk result (pos self.now.plan.clock ≤ℤ request.now.at) }
        ensures refused { IfErr result (λ r. Step self.now.plan request.now (refused r) self.now.plan) }
    {
        if request.at < self.clock.minute() {
            return Err(Refusal::Past);
        }
        Moment::new(request.at).ok_or(Refusal::MomentRange)
    }

    // The plan is looked at for the proof alone, which learns that it is sound.
    fn read_for_proof(&self)
        ensures { IsSoundPlan self.now.plan }
    {
        let _ = self.clock();
    }

    /// What a request leads to, if it is accepted: it makes all checks and takes all memory, and the plan comes back as it
    /// was. A request by which only marks and flags change, which special resources are available, or when workstations are
    /// open, is tried in the plan itself, and what is kept of it moves from what that touches; any other works all out afresh.
    /// It is refused for the least number that applies (this project's own), or for want of memory. What it leads to is
    /// sound, for whatever becomes started there was all that it needs, and the rows that change are told exactly. It looks at
    /// no more operation records of the plan than what changes allows, and at no fewer than are told of anew.
    pub fn prepare(&mut self, request: &Request) -> Result<Prepared, Refusal>
        ensures unchanged { self.new ≡ self.old }
        ensures prepared { IfOk result (IsPreparedFor self.new) }
        ensures step { IfOk result (λ p. Step self.old.plan request.now (accepted p.named) (plan_after self.old p)) }
        ensures sound { IfOk result (λ p. IsSoundPlan (plan_after self.old p)) }
        ensures starts { IfOk result (λ p. StartsAreProvided self.old.plan request.now (accepted p.named) (plan_after self.old p)) }
        ensures changes { IfOk result (λ p. AreChanges self.old.plan (plan_after self.old p) p.rows p.gone) }
        ensures most { IfOk result (λ p. AreAllowed self.old.plan.contents request.now.what (plan_after self.old p).contents p.work) }
        ensures fewest { IfOk result (λ p. CoverRows self.old.plan.contents p.rows p.work) }
        ensures refused { IfErr result (λ r. (r ≡ Refusal.Memory) ⊎ Step self.old.plan request.now (refused r) self.old.plan) }
    {
        self.read_for_proof();
        let at = self.moment_of(request)?;
        let (alloc, clock) = (self.alloc, self.clock);
        let (loaded, prepared) = prepare_in(alloc, self.loaded.take(), clock, request, at);
        self.loaded = loaded;
        prepared
    }

    /// Takes the step that was prepared for this plan, and gives the operations that are named to start, in order. It takes
    /// no memory. The plan is sound after it, and for whatever becomes started there was all that it needs, at the moment of
    /// the request.
    pub fn apply(&mut self, prepared: Prepared) -> Vec<OpKey>
        requires { IsPreparedFor self.old prepared }
        ensures plan { self.new.plan ≡ plan_after self.old prepared }
        ensures named { result.items ≡ prepared.named }
        ensures sound { IsSoundPlan self.new.plan }
        ensures starts { (q : Request) × Step self.old.plan q (accepted result.items) self.new.plan × StartsAreProvided self.old.plan q (accepted result.items) self.new.plan }
    {
        self.clock = prepared.clock;
        put(&mut self.loaded, prepared.next, &prepared.named);
        prepared.named
    }

    // Makes a request: a step, or for want of memory nothing.
    fn answer(&mut self, request: &Request) -> Reply
        ensures { IsAnswered self.old.plan request.now (answer_of result) self.new.plan }
    {
        match self.prepare(request) {
            Ok(prepared) => Reply::Accepted {
                named: self.apply(prepared),
            },
            Err(refusal) => Reply::Refused(refusal),
        }
    }

    /// Makes these requests, one after the other, each answered by a step of the plan that the one before left, or by want
    /// of memory, nothing changed. The error is always `Memory`: the list of replies found no memory, and nothing changed.
    /// The accepted requests alone would have been answered the same, and led to the same plan. The plan is sound after them,
    /// and for whatever becomes started by one of them there was all that it needs then.
    pub fn run(&mut self, requests: &[Request]) -> Result<Vec<Reply>, Refusal>
        ensures answers { IfOk result (λ replies. AnswersAll self.old.plan requests.now (map answer_of replies.items) self.new.plan) }
        ensures alone { IfOk result (λ replies. AcceptedAnswerAll self.old.plan requests.now (map answer_of replies.items) self.new.plan) }
        ensures memory { IfErr result (λ r. (r ≡ Refusal.Memory) × (self.new ≡ self.old)) }
        ensures sound { IsSoundPlan self.new.plan }
        ensures starts { IfOk result (λ replies. RunStartsAreProvided self.old.plan requests.now (map answer_of replies.items) self.new.plan) }
    {
        let mut replies = Vec::with_capacity(self.alloc, requests.len())?;
        for request in requests {
            let reply = self.answer(request);
            replies.push(reply).unwrap();
        }
        Ok(replies)
    }
}
