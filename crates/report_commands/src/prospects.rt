// `forecast` and `board`: the night ahead of the desk of a database's file, or of a plan at one in memory.
ghost use Rattle.std.specs.Prelude.{◌≡◌, ◌⊎◌, ℕ, pos, Option, IfOk, IfErr, OnOk, codes, option_map};
ghost use Rattle.clap.specs.Matches.{first_value, found_of};
ghost use Rattle.plan_basics.specs.Refusals.{IsLeastRefusal, NoneRefuses};
ghost use Rattle.plan_basics.specs.Watched.{inner_of};
ghost use Rattle.plan_basics.specs.declared.Refusal.{Refusal};
ghost use Rattle.plan_records.specs.Answer.{refused};
ghost use Rattle.plan_records.specs.Step.{Step};
ghost use Rattle.command_answers.specs.Given.{IsNoMinuteGiven};
ghost use Rattle.command_answers.specs.Statuses.{IsOfSurroundings};
ghost use Rattle.command_answers.specs.declared.endings.Fault.{Fault};
ghost use Rattle.report_commands.specs.Prospects.{IsProspect, IsProspectAsked, IsProspectOfDesk, IsProspectOfText, IsProspectPlanned, IsProspectShown, MayBeForetold, MayBeLast, tick_at};
ghost use Rattle.command_desks.specs.Given.{IsNoDeskGiven, minute_asked};

use board_pages::{KnownStarts, View, board_made, forecast_made};
use clap::ArgMatches;
use command_answers::{Ending, Fault, moment_if_given, plan_of_file, tell_no_desk, tell_refusal};
use command_desks::{Database, Desk, Plan, close_desk, loaded_desk, minute_of, stored_desk};
use plan_basics::{Moment, Refusal, Watched};
use plan_records::PlanDraft;
use sqlite::{Alter, Connection};
use std::alloc::Global;
use std::io::Write;
use std::rt::HostRuntime;

/// As what the night ahead is shown.
#[derive(Clone, Copy)]
pub enum Prospect {
    /// As the text of a forecast.
    Forecast,
    /// As the board's page.
    Board,
}

// The first and the last moment of a forecast of a plan, as they are asked for; else the refusal that applies.
// A last moment before the first is refused too: such a forecast has its first tick alone, and would tell nothing.
fn span_of(plan: &Plan, from: i64, until: Option<i64>) -> Result<(Moment, Option<Moment>), Refusal>
    ensures first { IfOk result (λ span. from ≡ pos span.0) }
    ensures last { IfOk result (λ span. until ≡ option_map pos span.1) }
    ensures may { OnOk result (NoneRefuses (MayBeLast from until)) }
    ensures refused { IfErr result (IsLeastRefusal (MayBeForetold plan.now.plan from until)) }
{
    if from < plan.clock().minute() || until.is_some_and(|last| last < from) {
        return Err(Refusal::Past);
    }
    let first = Moment::new(from).ok_or(Refusal::MomentRange)?;
    match until {
        Some(last) => Ok((first, Some(Moment::new(last).ok_or(Refusal::MomentRange)?))),
        None => Ok((first, None)),
    }
}

// What tells of the night ahead in a plan between these moments, where it isn't known since when anything is going.
fn text_between(
    plan: &Plan,
    prospect: Prospect,
    from: Moment,
    until: Option<Moment>,
) -> Result<Vec<u8>, Refusal>
    ensures text { IfOk result (λ text. IsProspect prospect plan.now.plan from until text.items) }
    ensures refused { IfErr result (λ r. (r ≡ Refusal.Memory) ⊎ Step plan.now.plan (tick_at (pos from)) (refused r) plan.now.plan) }
{
    let known = KnownStarts::none(plan.alloc());
    match prospect {
        Prospect::Forecast => forecast_made(plan, &known, from, until),
        Prospect::Board => {
            let view = View {
                is_still: false,
                until,
            };
            board_made(plan, &known, from, view, &None)
        }
    }
}

// The same between these minutes, or the refusal that applies.
fn text_made(
    plan: &Plan,
    prospect: Prospect,
    from: i64,
    until: Option<i64>,
) -> Result<Vec<u8>, Refusal>
    ensures text { IfOk result (λ text. (m : ℕ) × (from ≡ pos m) × (to : Option ℕ) × (until ≡ option_map pos to) × NoneRefuses (MayBeLast from until) × IsProspect prospect plan.now.plan m to text.items) }
    ensures refused { IfErr result (λ r. (r ≡ Refusal.Memory) ⊎ IsLeastRefusal (MayBeForetold plan.now.plan from until) r) }
{
    let (first, last) = span_of(plan, from, until)?;
    text_between(plan, prospect, first, last)
}

// Shows what tells of the night ahead in a plan, or why it is refused.
#[tactic(auto, using(command_answers::proofs::Statuses::of_the_surroundings))]
fn tell_prospect<W: Write>(
    plan: &Plan,
    prospect: Prospect,
    from: i64,
    until: Option<i64>,
    out: &mut Watched<W>,
) -> Result<Ending, Fault>
    ensures shown { IfOk result (IsProspectShown prospect plan.now.plan from until (W.contents (inner_of out.old)) (W.contents (inner_of out.new))) }
    ensures fault { IfErr result IsOfSurroundings }
{
    match text_made(plan, prospect, from, until) {
        Ok(text) => {
            out.write_all(&text)?;
            Ok(Ending::Done)
        }
        Err(refusal) => {
            tell_refusal(out, refusal)?;
            Ok(Ending::Refused)
        }
    }
}

// The same at a desk in memory at which a plan is loaded at the first minute; or the refusal of the load is shown.
fn prospect_planned<W: Write>(
    alloc: Global,
    prospect: Prospect,
    from: i64,
    until: Option<i64>,
    draft: Option<PlanDraft>,
    out: &mut Watched<W>,
) -> Result<Ending, Fault>
    ensures shown { IfOk result (IsProspectPlanned prospect from until draft (W.contents (inner_of out.old)) (W.contents (inner_of out.new))) }
    ensures fault { IfErr result IsOfSurroundings }
{
    match loaded_desk(alloc, from, draft) {
        Ok(desk) => {
            let shown = tell_prospect(desk.plan(), prospect, from, until, out);
            desk.close();
            shown
        }
        Err(none) => tell_no_desk(out, none),
    }
}

// The same at a desk in memory at which the plan of a file is loaded then.
fn prospect_of_file<W: Write>(
    rt: &HostRuntime,
    path: &str,
    prospect: Prospect,
    from: i64,
    until: Option<i64>,
    out: &mut Watched<W>,
) -> Result<Ending, Fault>
    ensures shown { IfOk result (IsProspectOfText prospect from until (W.contents (inner_of out.old)) (W.contents (inner_of out.new))) }
    ensures fault { IfErr result IsOfSurroundings }
{
    match plan_of_file(rt, path) {
        Ok(draft) => prospect_planned(rt.alloc(), prospect, from, until, draft, out),
        Err(fault) => Err(fault),
    }
}

// Shows the same at the desk of a database, from its clock on where no minute is given, and closes the database.
fn prospect_and_close<S: Alter + Drop, W: Write>(
    desk: Desk<S>,
    prospect: Prospect,
    minute: Option<i64>,
    until: Option<i64>,
    out: &mut Watched<W>,
) -> Result<Ending, Fault>
where
    Connection<S>: Database<S>,
    ensures shown { IfOk result (IsProspectShown prospect desk.plan (minute_asked minute desk.plan) until (W.contents (inner_of out.old)) (W.contents (inner_of out.new))) }
    ensures fault { IfErr result IsOfSurroundings }
{
    let from = minute_of(&desk, minute);
    let shown = tell_prospect(desk.plan(), prospect, from, until, out);
    close_desk(desk)?;
    shown
}

// The same at the desk of a database's file; or why it can't be opened.
fn prospect_stored<S: Alter + Drop, W: Write>(
    rt: &HostRuntime,
    path: &str,
    prospect: Prospect,
    minute: Option<i64>,
    until: Option<i64>,
    out: &mut Watched<W>,
) -> Result<Ending, Fault>
where
    Connection<S>: Database<S>,
    ensures shown { IfOk result (IsProspectOfDesk prospect minute until (W.contents (inner_of out.old)) (W.contents (inner_of out.new))) }
    ensures fault { IfErr result IsOfSurroundings }
{
    match stored_desk::<S>(rt, path) {
        Ok(desk) => prospect_and_close(desk, prospect, minute, until, out),
        Err(none) => tell_no_desk(out, none),
    }
}

/// `forecast` and `board`: the moments are judged before the files. A plan's text is loaded at the first one; the database
/// of a desk is closed at the end, and nothing is stored there. `Words` where the words don't say at which desk.
pub fn look_ahead<S: Alter + Drop, W: Write>(
    rt: &HostRuntime,
    prospect: Prospect,
    given: &ArgMatches,
    out: &mut Watched<W>,
) -> Result<Ending, Fault>
where
    Connection<S>: Database<S>,
    ensures shown { IfOk result (IsProspectAsked prospect (first_value (found_of given.now) (codes "at")) (first_value (found_of given.now) (codes "until")) (W.contents (inner_of out.old)) (W.contents (inner_of out.new))) }
    ensures fault { IfErr result (λ fault. ((fault ≡ Fault.Words) × IsNoDeskGiven (first_value (found_of given.now) (codes "db")) (first_value (found_of given.now) (codes "plan")) (first_value (found_of given.now) (codes "at"))) ⊎ (((fault ≡ Fault.Moment) × (IsNoMinuteGiven (first_value (found_of given.now) (codes "at")) ⊎ IsNoMinuteGiven (first_value (found_of given.now) (codes "until")))) ⊎ IsOfSurroundings fault)) }
{
    let at = moment_if_given(given, "at")?;
    let until = moment_if_given(given, "until")?;
    match (given.get_str("db"), given.get_str("plan"), at) {
        (Some(path), _, at) => prospect_stored::<S, W>(rt, path, prospect, at, until, out),
        (None, Some(path), Some(at)) => prospect_of_file(rt, path, prospect, at, until, out),
        _ => Err(Fault::Words),
    }
}
