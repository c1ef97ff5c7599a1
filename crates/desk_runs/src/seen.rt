// What a desk that is served has seen, by its own clock, which nobody sets: since when its plan's clock stands, and when each
// workstation was asked for last.
ghost use Rattle.std.specs.Prelude.{◌≡◌, IfErr, IfOk, map};
ghost use Rattle.command_answers.specs.declared.endings.Fault.{Fault};
ghost use Rattle.desk_runs.specs.Seen.{IsWatchOf, asked_by, minutes_between, moved_by};

use command_answers::Fault;
use command_desks::Plan;
use desk_serving::{Asked, Watch};
use http_messages::{Detail, Look, Wanted, read_wanted};
use plan_basics::{Moment, Watched, WsName};
use std::alloc::{AllocError, Global};
use std::io;
use std::rt::HostRuntime;
use std::time::Instant;

/// What a desk has seen so far; times are seconds since it was opened.
#[derive(Drop)]
pub struct Seen {
    pub opened: Instant,
    /// The plan's clock, when it was looked at last.
    pub clock: Moment,
    /// When that moved.
    pub moved: u64,
    /// From how many minutes on it is an alarm that it stands.
    pub stale: u64,
    /// When workstations were asked for.
    pub asked: Vec<(WsName, u64)>,
}

// The whole minutes between two times.
fn minutes_between(then: u64, now: u64) -> u64
    ensures { result ≡ minutes_between then now }
{
    now.saturating_sub(then) / 60
}

// When the plan's clock moved last: now, where it is another than before.
fn moved_by(before: Moment, clock: Moment, moved: u64, now: u64) -> u64
    ensures { result ≡ moved_by before clock moved now }
{
    if before == clock { moved } else { now }
}

// For how many minutes nobody has asked for a workstation.
fn asked_by(entry: &(WsName, u64), now: u64) -> Asked
    ensures { result ≡ asked_by now entry.now }
{
    Asked {
        workstation: entry.0,
        minutes: minutes_between(entry.1, now),
    }
}

// So it is of each.
fn ages(alloc: Global, asked: &[(WsName, u64)], now: u64) -> Result<Vec<Asked>, AllocError>
    ensures { IfOk result (λ ages. ages.items ≡ map (asked_by now) asked.now) }
{
    asked
        .iter()
        .map(|entry| asked_by(entry, now))
        .collect(alloc)
}

impl Seen {
    /// Nothing is seen where a desk is opened with a plan of this clock.
    pub fn first(rt: &HostRuntime, clock: Moment, stale: u64) -> io::Result<Seen>
        ensures stale { IfOk result (λ seen. seen.stale ≡ stale) }
    {
        Ok(Seen {
            opened: Instant::now(rt)?,
            clock,
            moved: 0,
            stale,
            asked: Vec::new(rt.alloc()),
        })
    }

    // The seconds since it was opened.
    fn seconds(&self, rt: &HostRuntime) -> io::Result<u64> {
        Ok(self.opened.elapsed(rt)?.as_secs())
    }

    // Looks at the plan's clock at this time.
    fn look(&mut self, clock: Moment, now: u64)
        ensures clock { self.new.clock ≡ clock }
        ensures moved { self.new.moved ≡ moved_by self.old.clock clock self.old.moved now }
        ensures stale { self.new.stale ≡ self.old.stale }
        ensures asked { self.new.asked ≡ self.old.asked }
    {
        self.moved = moved_by(self.clock, clock, self.moved, now);
        self.clock = clock;
    }

    // A workstation is asked for at this time.
    fn note(&mut self, workstation: WsName, now: u64) -> Result<(), AllocError> {
        for entry in self.asked.iter_mut() {
            if entry.0 == workstation {
                entry.1 = now;
                return Ok(());
            }
        }
        self.asked.push((workstation, now))?;
        Ok(())
    }

    // What the board tells of it at this time.
    fn watch(&self, alloc: Global, now: u64) -> Result<Watch, AllocError>
        ensures { IfOk result (IsWatchOf self.now now) }
    {
        Ok(Watch {
            stood: minutes_between(self.moved, now),
            stale: self.stale,
            served: minutes_between(0, now),
            asked: ages(alloc, &self.asked, now)?,
        })
    }
}

// The workstation that a request asks for, by its bytes: what is started there.
fn workstation_in(alloc: Global, heard: &[u8]) -> Option<WsName> {
    match read_wanted(alloc, &mut Watched::new(heard), 0) {
        Ok(Ok(Wanted::Look(Look::Detail(Detail::Started, name)))) => WsName::from_text(&name),
        _ => None,
    }
}

// Whether a plan has a workstation.
fn has_workstation(plan: &Plan, workstation: &WsName) -> bool {
    match plan.loaded() {
        Some(loaded) => loaded.contents().workstation(workstation).is_some(),
        None => false,
    }
}

/// Looks at the plan's clock, and tells what was seen up to now.
pub fn looked(rt: &HostRuntime, seen: &mut Seen, plan: &Plan) -> io::Result<Watch> {
    let now = seen.seconds(rt)?;
    seen.look(plan.clock(), now);
    Ok(seen.watch(rt.alloc(), now)?)
}

/// Notes the workstation of the plan that a request has asked for, if it did, by its bytes. The fault is that of memory.
pub fn note_asked(rt: &HostRuntime, seen: &mut Seen, plan: &Plan, heard: &[u8]) -> Result<(), Fault>
    ensures fault { IfErr result (λ fault. fault ≡ Fault.Memory) }
{
    let Some(workstation) = workstation_in(rt.alloc(), heard) else {
        return Ok(());
    };
    if !has_workstation(plan, &workstation) {
        return Ok(());
    }
    let Ok(now) = seen.seconds(rt) else {
        return Ok(());
    };
    seen.note(workstation, now)?;
    Ok(())
}
