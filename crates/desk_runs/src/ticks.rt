// The tick by which a plan is brought to a moment, asked between two lines of a journal.
ghost use Rattle.std.specs.Prelude.{◌≡◌, ◌↔◌, true, IfOk, IfErr};
ghost use Rattle.std.specs.Io.KnownBytes.{Appends};
ghost use Rattle.plan_basics.specs.MomentTexts.{moment_text};
ghost use Rattle.plan_basics.specs.Watched.{inner_of};
ghost use Rattle.command_answers.specs.declared.endings.Ending.{Ending};
ghost use Rattle.desk_serving.specs.tracker_http.specs.Continuing.{Continues};
ghost use Rattle.desk_journal.specs.Lines.{entries_of};
ghost use Rattle.command_answers.specs.declared.endings.Fault.{Fault};
ghost use Rattle.desk_runs.specs.Ticks.{IsBehind, IsBeyond, IsTicked, gap_text, tick_body};

use command_answers::{Ending, Fault};
use command_desks::{Desk, Plan};
use desk_journal::JournalFault;
use desk_serving::{Asking, Journal, Told, journalled, read_asked};
use http_messages::Asked;
use plan_basics::{Moment, Watched};
use plan_records::Reply;
use sqlite::Alter;
use std::alloc::Global;
use std::io::Write;

/// Whether a plan is loaded whose clock is earlier than a moment.
pub fn is_behind(plan: &Plan, at: i64) -> bool
    ensures { (result ≡ true) ↔ IsBehind plan.now.plan at }
{
    plan.is_loaded() && plan.clock().minute() < at
}

/// Whether a plan is loaded, and there is a moment that is more than so many minutes after its clock.
pub fn is_beyond(plan: &Plan, at: Option<i64>, minutes: u32) -> bool
    ensures { (result ≡ true) ↔ IsBeyond minutes plan.now.plan at }
{
    match at {
        Some(at) => plan.is_loaded() && at > plan.clock().minute() + i64::from(minutes),
        None => false,
    }
}

/// Shows that the moment of a text is more than so many minutes after the plan's clock, and what to do.
#[tactic(auto, using(command_answers::proofs::Statuses::of_the_surroundings))]
pub fn tell_gap<W: Write>(
    out: &mut Watched<W>,
    clock: Moment,
    at: &str,
    minutes: u32,
) -> Result<Ending, Fault>
    ensures shown { IfOk result (λ ending. Appends (W.contents (inner_of out.old)) (W.contents (inner_of out.new)) (gap_text (moment_text clock) at.now minutes) × (ending ≡ Ending.Refused)) }
{
    writeln!(
        out,
        "clock {clock}, --at {at}: more than --gap {minutes} minutes\nstart the desk with a true --at, or with a larger --gap"
    )?;
    Ok(Ending::Refused)
}

// The body of an operator's request for a tick at the moment of a text.
fn tick_body(alloc: Global, moment: &str) -> Result<Vec<u8>, Fault>
    ensures body { IfOk result (λ body. body.items ≡ tick_body moment.now) }
    ensures fault { IfErr result (λ fault. fault ≡ Fault.Memory) }
{
    let body = format!(in alloc; "{{\"at\":\"{moment}\",\"do\":\"tick\"}}")?;
    Ok(body.into_bytes())
}

/// The desk's answer to a tick at the moment of a text, which is asked as an operator asks it, between two lines of the
/// journal.
// So a night that is played from its journal has it too.
pub fn tick<J: Write, S: Alter + Drop>(
    alloc: Global,
    journal: &mut Journal<J>,
    desk: &mut Desk<S>,
    moment: &str,
) -> Result<Reply, Fault>
    ensures ticked { IfOk result (λ reply. IsTicked S.Store moment.now desk.old reply desk.new (entries_of J.contents journal.old) (entries_of J.contents journal.new)) }
    ensures continues { Continues S.Store desk.old desk.new }
{
    let body = tick_body(alloc, moment)?;
    let asking = Asking {
        asked: Asked::Operator(body),
        by: None,
    };
    let Ok(reading) = read_asked(alloc, &asking.asked) else {
        return Err(Fault::Memory);
    };
    match journalled(alloc, journal, desk, &asking, &reading, None) {
        Ok(Told::Answer(reply)) => Ok(reply),
        Ok(_) => Err(Fault::Moment),
        Err(JournalFault::Memory) => Err(Fault::Memory),
        Err(JournalFault::Request | JournalFault::Answer) => Err(Fault::File),
    }
}
