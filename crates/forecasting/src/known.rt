// Since when operations are going as they do, as far as it is known.
ghost use Rattle.std.specs.Prelude.{◌≡◌, ◌<◌, [], false, true, length, None, Some, IfOk, OnErr, OnOk, slice_get};
ghost use Rattle.std.specs.FinMap.{entries};
ghost use Rattle.plan_basics.specs.declared.keys.OpKey.{OpKey as OpKeyValue};
ghost use Rattle.plan_model.specs.Contents.{Operation};
ghost use Rattle.plan_model.specs.Plan.{Plan as PlanValue};
ghost use Rattle.plan_forecast.specs.Ahead.{IsGoing};
ghost use Rattle.plan_forecast.specs.Starts.{AreStartsAfter};
ghost use Rattle.forecasting.specs.Known.{AreKeptOf, AreOfGoing, HaveHeard, IsKept, IsKeptIf, IsStartTold, entry_of, fresh_at, is_alike, is_running, kept_by, newer, noted_by, runs_in, runs_noted, since_in, since_noted};

use super::going::is_going_at;
use derived_figures::LoadedPlan;
use plan_basics::{Moment, OpKey};
use plan_core::Plan;
use status_rules::Mark;
use std::alloc::{AllocError, Global};
use std::collections::BTreeMap;

/// What is noted of an operation that is going.
#[derive(Clone, Copy)]
struct Noted {
    /// Whether its start is reported.
    is_running: bool,
    /// Since when it runs, or else is named or ready, if that is known.
    since: Option<Moment>,
}

/// Since when operations are going as they do, of those of which it is known: named, running, or ready where their completion
/// alone is reported. A table of what is going, which follows a plan from one accepted request to the next.
#[derive(Drop)]
pub struct KnownStarts {
    // Whether it follows a plan: what is going already where that begins is so since nobody knows when.
    follows: bool,
    going: BTreeMap<OpKey, Noted>,
}

// Whether a start is reported by a mark.
fn is_running(mark: Mark) -> bool
    ensures { result ≡ is_running mark }
{
    match mark {
        Mark::Running => true,
        _ => false,
    }
}

// Whether two are alike.
fn is_alike(a: bool, b: bool) -> bool
    ensures { result ≡ is_alike a b }
{
    if a { b } else { !b }
}

// What a request gives as the start of what goes on in another way by it: its moment, where a plan has been followed up to it.
fn fresh_at(follows: bool, clock: Moment) -> Option<Moment>
    ensures { result ≡ fresh_at follows clock }
{
    if follows { Some(clock) } else { None }
}

// The minute that is noted, if anything is.
fn since_of(noted: Option<Noted>) -> Option<Moment>
    ensures { result ≡ since_noted noted }
{
    match noted {
        Some(noted) => noted.since,
        None => None,
    }
}

// Whether it is noted that it runs.
fn runs_noted(noted: Option<Noted>) -> bool
    ensures { result ≡ runs_noted noted }
{
    match noted {
        Some(noted) => noted.is_running,
        None => false,
    }
}

// The start of what runs, by what was told before and what is told now: that, unless it is a start before the other one.
fn newer(before: Option<Moment>, told: Option<Moment>) -> Option<Moment>
    ensures { result ≡ newer before told }
{
    let (Some(last), Some(now)) = (before, told) else {
        return told;
    };
    if now < last { None } else { told }
}

// What is kept of what runs, or doesn't, by what was noted before: its minute where that is alike, else this.
fn kept_by(old: Option<Noted>, runs: bool, fresh: Option<Moment>) -> Option<Moment>
    ensures { result ≡ kept_by old runs fresh }
{
    match old {
        Some(noted) if is_alike(noted.is_running, runs) => noted.since,
        _ => fresh,
    }
}

// What is noted of an operation of this mark, by what was noted before, or this where nothing was.
fn noted_by(old: Option<Noted>, mark: Mark, fresh: Option<Moment>) -> Noted
    ensures { result ≡ noted_by old mark fresh }
{
    let runs = is_running(mark);
    Noted {
        is_running: runs,
        since: kept_by(old, runs, fresh),
    }
}

impl KnownStarts {
    /// A table that follows no plan yet, and in which no start is known. It takes no memory.
    pub fn none(alloc: Global) -> KnownStarts
        ensures entries { (o : OpKeyValue) → entry_of result o ≡ None }
        ensures follows { result.follows ≡ false }
    {
        KnownStarts::empty(alloc, false)
    }

    // Nothing is noted in a table that follows a plan, or doesn't.
    fn empty(alloc: Global, follows: bool) -> KnownStarts
        ensures entries { (o : OpKeyValue) → entry_of result o ≡ None }
        ensures follows { result.follows ≡ follows }
    {
        KnownStarts {
            follows,
            going: BTreeMap::new(alloc),
        }
    }

    /// What is going in a plan; since when isn't known of any of it.
    pub fn of(plan: &Plan) -> Result<KnownStarts, AllocError>
        ensures going { IfOk result (AreOfGoing plan.now.plan.contents) }
        ensures unknown { IfOk result (λ known. (o : OpKeyValue) → since_in known o ≡ None) }
    {
        let nothing = KnownStarts::none(plan.alloc());
        nothing.followed(plan, &None)
    }

    /// Since when an operation is named, runs, or is ready where its completion alone is reported, if it is known.
    pub fn start_of(&self, key: &OpKey) -> Option<Moment>
        ensures { result ≡ since_in self.now key.now }
    {
        since_of(self.entry(key))
    }

    /// Follows a plan through an accepted request, after which it is this: what is going since, or runs since, does so since
    /// its clock. A table that followed none begins with this plan, and knows nothing of what is going in it. Where memory is
    /// wanting all stays as it was.
    pub fn follow(&mut self, plan: &Plan) -> Result<(), AllocError>
        ensures going { OnOk result (AreOfGoing plan.now.plan.contents self.new) }
        ensures starts { OnOk result ((P : PlanValue) → AreOfGoing P.contents self.old → AreStartsAfter P plan.now.plan (since_in self.old) (since_in self.new)) }
        ensures unknown { OnOk result (self.old.follows ≡ false → ((o : OpKeyValue) → entry_of self.old o ≡ None) → (o : OpKeyValue) → since_in self.new o ≡ None) }
        ensures memory { OnErr result (self.new ≡ self.old) }
    {
        let next = self.followed(plan, &fresh_at(self.follows, plan.clock()))?;
        *self = next;
        Ok(())
    }

    /// What is going in a plan; what runs does so since the minute that these tell of it last, if they do. Since when else isn't
    /// known.
    pub fn told(
        plan: &Plan,
        mentions: &[(OpKey, Option<Moment>)],
    ) -> Result<KnownStarts, AllocError>
        ensures going { IfOk result (AreOfGoing plan.now.plan.contents) }
        ensures told { IfOk result (λ known. (o : OpKeyValue) → IsStartTold plan.now.plan.contents mentions.now o (since_in known o)) }
    {
        let mut known = KnownStarts::of(plan)?;
        known.hear_all(mentions)?;
        Ok(known)
    }

    // Hears what is told of operations, one after another.
    fn hear_all(&mut self, mentions: &[(OpKey, Option<Moment>)]) -> Result<(), AllocError>
        ensures { OnOk result (HaveHeard self.old mentions.now self.new []) }
    {
        let mut rest = mentions;
        while let Some((mention, others)) = rest.split_first() {
            self.hear(mention)?;
            rest = others;
        }
        Ok(())
    }

    // Hears of the start of an operation, or that nobody knows it: it is noted, if that runs.
    fn hear(&mut self, mention: &(OpKey, Option<Moment>)) -> Result<(), AllocError>
        ensures { OnOk result (IsKeptIf (runs_in self.old mention.now.0 ≡ true) mention.now.0 (record { is_running = true; since = newer (since_in self.old mention.now.0) mention.now.1 }) self.old self.new) }
    {
        if !runs_noted(self.entry(&mention.0)) {
            return Ok(());
        }
        let since = newer(self.start_of(&mention.0), mention.1);
        self.keep(mention.0, true, since)
    }

    // What is going in a plan: of each what is kept here, or this where nothing is.
    fn followed(&self, plan: &Plan, fresh: &Option<Moment>) -> Result<KnownStarts, AllocError>
        ensures going { IfOk result (AreOfGoing plan.now.plan.contents) }
        ensures kept { IfOk result (AreKeptOf self.now fresh.now) }
    {
        match plan.loaded() {
            Some(loaded) => self.followed_in(plan.alloc(), loaded, fresh),
            None => Ok(KnownStarts::empty(plan.alloc(), true)),
        }
    }

    // So it is of what is loaded.
    fn followed_in(
        &self,
        alloc: Global,
        loaded: &LoadedPlan,
        fresh: &Option<Moment>,
    ) -> Result<KnownStarts, AllocError>
        ensures going { IfOk result (AreOfGoing loaded.now) }
        ensures kept { IfOk result (AreKeptOf self.now fresh.now) }
    {
        let rows = loaded.contents().operations();
        let mut next = KnownStarts::empty(alloc, true);
        for place in 0..rows.len() {
            self.keep_at(&mut next, loaded, place, fresh)?;
        }
        Ok(next)
    }

    // Notes of the operation at an index, if it is going, what is kept here, or this where nothing is.
    fn keep_at(
        &self,
        next: &mut KnownStarts,
        loaded: &LoadedPlan,
        place: usize,
        fresh: &Option<Moment>,
    ) -> Result<(), AllocError>
        requires { place < length (entries loaded.now.operations) }
        ensures { OnOk result ((o : OpKeyValue) (op : Operation) → slice_get (entries loaded.now.operations) place ≡ Some (o, op) → IsKeptIf (IsGoing loaded.now o) o (noted_by (entry_of self.now o) op.mark fresh.now) next.old next.new) }
    {
        if !is_going_at(loaded, place) {
            return Ok(());
        }
        let row = &loaded.contents().operations()[place];
        let operation = &row.1;
        let noted = noted_by(self.entry(&row.0), operation.mark, *fresh);
        next.keep(row.0, noted.is_running, noted.since)
    }

    // What is noted of an operation, if anything is.
    fn entry(&self, key: &OpKey) -> Option<Noted>
        ensures { result ≡ entry_of self.now key.now }
    {
        self.going.get(key).copied()
    }

    // Notes this of an operation.
    fn keep(
        &mut self,
        key: OpKey,
        is_running: bool,
        since: Option<Moment>,
    ) -> Result<(), AllocError>
        ensures { OnOk result (IsKept key (record { is_running = is_running; since = since }) self.old self.new) }
    {
        self.going.insert(key, Noted { is_running, since })?;
        Ok(())
    }
}
