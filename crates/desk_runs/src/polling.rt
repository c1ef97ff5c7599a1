// Connections served as they have something to read, one after another, until a fault ends it: one that sends nothing holds
// nobody.
ghost use Rattle.std.specs.Prelude.{◌≡◌, ◌⊎◌, true, Err, None, OnOk, IfErr};
ghost use Rattle.desk_serving.specs.tracker_http.specs.desk_journal.specs.Lines.{entries_of};
ghost use Rattle.desk_serving.specs.Served.{Ends, Stands};
ghost use Rattle.command_answers.specs.declared.endings.Fault.{Fault};
ghost use Rattle.desk_serving.specs.tracker_http.specs.Continuing.{Continues};
ghost use Rattle.desk_runs.specs.Connections.{GoesOn};
ghost use Rattle.desk_runs.specs.Following.{AreFollowed, AreStillTermsOf, AreTermsOf};

use super::following::follow;
use super::journals::end_exchange;
use super::seen::{Seen, looked, note_asked};
use super::timed::{HeardStream, ReplyStream, TimedStream};
use super::waiting::{LISTENER, MOST_WAITING, Waiting};
use command_answers::Fault;
use command_desks::Desk;
use desk_serving::{Journal, ServeFault, Terms, serve_wanted};
use mio::event::Event;
use mio::unix::SourceFd;
use mio::{Events, Interest, Poll, Token};
use plan_basics::Watched;
use sqlite::Alter;
use std::io;
use std::io::Write;
use std::net::{TcpListener, TcpStream};
use std::os::fd::AsRawFd;
use std::rt::HostRuntime;
use std::time::{Duration, Instant};

/// Serves the one exchange of a connection, whose bytes no clause knows: a reply is written, the desk and the journal are as
/// it says (`ends`), and whatever acted stands in the journal (`stands`). A client that keeps it longer than its time is a
/// fault of the reader or the writer. The first bytes of the request are put behind what was heard.
fn serve_stream<J: Write, S: Alter + Drop>(
    rt: &HostRuntime,
    stream: &TcpStream,
    journal: &mut Journal<J>,
    desk: &mut Desk<S>,
    terms: &Terms,
    heard: &mut Vec<u8>,
) -> Result<(), ServeFault>
    ensures ends { Ends S.Store terms.now result None desk.old desk.new (None, None) (entries_of J.contents journal.old, entries_of J.contents journal.new) }
    ensures stands { Stands None desk.old desk.new (entries_of J.contents journal.old) (entries_of J.contents journal.new) }
    ensures continues { Continues S.Store desk.old desk.new }
{
    let Ok(begun) = Instant::now(rt) else {
        return Err(ServeFault::Reader);
    };
    serve_wanted(
        rt.alloc(),
        &mut Watched::new(HeardStream::new(TimedStream::new(rt, stream, begun), heard)),
        &mut Watched::new(ReplyStream::new(rt, stream)),
        journal,
        desk,
        terms,
    )
}

/// Serves a connection, and follows the plan through its exchange. One that faults concerns its client alone, who learns of it
/// by the reply that doesn't come. `File` where the journal took no line, or the desk has to be opened again, `Memory` where
/// the starts, or for what somebody asked, couldn't be noted: then no other is served (`goes_on`).
fn serve_readable<J: Write, S: Alter + Drop>(
    rt: &HostRuntime,
    stream: &TcpStream,
    journal: &mut Journal<J>,
    desk: &mut Desk<S>,
    terms: &mut Terms,
    seen: &mut Seen,
) -> Result<(), Fault>
    requires known { AreTermsOf desk.old.plan terms.old }
    ensures followed { OnOk result (AreFollowed desk.old.plan desk.new.plan terms.old terms.new) }
    ensures goes_on { OnOk result (GoesOn S.Store terms.old desk.old desk.new (entries_of J.contents journal.old) (entries_of J.contents journal.new)) }
    ensures fault { IfErr result (λ fault. (fault ≡ Fault.File) ⊎ ((fault ≡ Fault.Memory) × (desk.old.is_usable ≡ true → desk.new.is_usable ≡ true))) }
    ensures stands { Stands None desk.old desk.new (entries_of J.contents journal.old) (entries_of J.contents journal.new) }
    ensures continues { Continues S.Store desk.old desk.new }
{
    let mut heard = Vec::new(rt.alloc());
    let served = serve_stream(rt, stream, journal, desk, terms, &mut heard);
    if matches!(served, Err(ServeFault::Journal)) || !desk.is_usable() {
        return Err(Fault::File);
    }
    follow(terms, desk.plan())?;
    note_asked(rt, seen, desk.plan(), &heard)?;
    Ok(())
}

/// Who waits, and what the desk has seen of those who were served.
#[derive(Drop)]
struct Callers {
    waiting: Waiting,
    seen: Seen,
}

/// Serves the connection of an event, if it waits; and tells whether the event is the listener's.
#[tactic(auto, using(crate::proofs::Followed::follows_itself))]
fn serve_event<J: Write, S: Alter + Drop>(
    rt: &HostRuntime,
    event: &Event,
    callers: &mut Callers,
    journal: &mut Journal<J>,
    desk: &mut Desk<S>,
    terms: &mut Terms,
) -> Result<bool, Fault>
    requires known { AreTermsOf desk.old.plan terms.old }
    ensures usable { OnOk result (desk.old.is_usable ≡ true → desk.new.is_usable ≡ true) }
    ensures fault { IfErr result (λ fault. (fault ≡ Fault.File) ⊎ ((fault ≡ Fault.Memory) × (desk.old.is_usable ≡ true → desk.new.is_usable ≡ true))) }
    ensures followed { OnOk result (AreFollowed desk.old.plan desk.new.plan terms.old terms.new) }
    ensures continues { Continues S.Store desk.old desk.new }
{
    let Token(token) = event.token();
    if token == LISTENER {
        return Ok(true);
    }
    let Some(stream) = callers.waiting.take(token) else {
        return Ok(false);
    };
    serve_readable(rt, &stream, journal, desk, terms, &mut callers.seen)?;
    end_exchange(journal)?;
    Ok(false)
}

/// Serves the waiting connections that have something, by what the system told; and tells whether it told of the listener.
fn serve_events<J: Write, S: Alter + Drop>(
    rt: &HostRuntime,
    events: &Events,
    callers: &mut Callers,
    journal: &mut Journal<J>,
    desk: &mut Desk<S>,
    terms: &mut Terms,
) -> Result<bool, Fault>
    requires known { AreTermsOf desk.old.plan terms.old }
    ensures usable { OnOk result (desk.old.is_usable ≡ true → desk.new.is_usable ≡ true) }
    ensures fault { IfErr result (λ fault. (fault ≡ Fault.File) ⊎ ((fault ≡ Fault.Memory) × (desk.old.is_usable ≡ true → desk.new.is_usable ≡ true))) }
    ensures known { OnOk result (AreStillTermsOf desk.old.plan desk.new.plan terms.old terms.new) }
    ensures continues { Continues S.Store desk.old desk.new }
{
    let mut knocking = false;
    for event in events.iter() {
        let told = serve_event(rt, event, callers, journal, desk, terms)?;
        knocking |= told;
    }
    Ok(knocking)
}

/// A listener's door: what the system tells of, who waits, and whether more may be knocking.
#[derive(Drop)]
struct Door {
    poll: Poll,
    events: Events,
    callers: Callers,
    knocking: bool,
}

/// The door of a listener, which doesn't block from here on, to a desk that has seen this.
fn door_of(rt: &HostRuntime, listener: &TcpListener, seen: Seen) -> io::Result<Door> {
    listener.set_nonblocking(true)?;
    let poll = Poll::new(rt)?;
    let descriptor = listener.as_raw_fd();
    poll.registry().register(
        &mut SourceFd(&descriptor),
        Token(LISTENER),
        Interest::READABLE,
    )?;
    Ok(Door {
        poll,
        events: Events::with_capacity(rt.alloc(), MOST_WAITING + 1)?,
        callers: Callers {
            waiting: Waiting::new(rt.alloc())?,
            seen,
        },
        knocking: false,
    })
}

/// Waits until somebody has something, or looks who has, where more may be knocking; serves those who have; and takes in
/// those who knock.
// Nobody's first byte is waited for, not even for a while: each silent client would hold the others so long.
fn serve_turn<J: Write, S: Alter + Drop>(
    rt: &HostRuntime,
    listener: &TcpListener,
    door: &mut Door,
    journal: &mut Journal<J>,
    desk: &mut Desk<S>,
    terms: &mut Terms,
) -> Result<(), Fault>
    requires known { AreTermsOf desk.old.plan terms.old }
    ensures usable { desk.old.is_usable ≡ true → (desk.new.is_usable ≡ true) ⊎ (result ≡ Err Fault.File) }
    ensures fault { IfErr result (λ fault. (fault ≡ Fault.File) ⊎ (fault ≡ Fault.Memory) ⊎ (fault ≡ Fault.Network)) }
    ensures known { OnOk result (AreStillTermsOf desk.old.plan desk.new.plan terms.old terms.new) }
    ensures continues { Continues S.Store desk.old desk.new }
{
    let limit = door.knocking.then_some(Duration::ZERO);
    if door.poll.poll(&mut door.events, limit).is_err() {
        return Err(Fault::Network);
    }
    let Ok(watch) = looked(rt, &mut door.callers.seen, desk.plan()) else {
        return Err(Fault::Network);
    };
    terms.watch = Some(watch);
    let told = serve_events(rt, &door.events, &mut door.callers, journal, desk, terms)?;
    if door.knocking || told {
        let Ok(more) = door
            .callers
            .waiting
            .take_knocking(door.poll.registry(), listener)
        else {
            return Err(Fault::Network);
        };
        door.knocking = more;
    }
    Ok(())
}

/// Serves a listener's connections, each with one exchange, until a fault ends it: `File` where the journal took no line or
/// the desk has to be opened again, `Memory` where starts couldn't be noted, `Network` where no connection can be had.
#[tactic(auto, using(crate::proofs::Continuing::continues_on, crate::proofs::Followed::still))]
pub fn serve_polled<J: Write, S: Alter + Drop>(
    rt: &HostRuntime,
    listener: &TcpListener,
    journal: &mut Journal<J>,
    desk: &mut Desk<S>,
    terms: &mut Terms,
    seen: Seen,
) -> Fault
    requires known { AreTermsOf desk.old.plan terms.old }
    ensures usable { desk.old.is_usable ≡ true → (desk.new.is_usable ≡ true) ⊎ (result ≡ Fault.File) }
    ensures fault { (result ≡ Fault.File) ⊎ (result ≡ Fault.Memory) ⊎ (result ≡ Fault.Network) }
    ensures continues { Continues S.Store desk.old desk.new }
{
    let Ok(mut door) = door_of(rt, listener, seen) else {
        return Fault::Network;
    };
    for _ in 0..u64::MAX {
        if let Err(fault) = serve_turn(rt, listener, &mut door, journal, desk, terms) {
            return fault;
        }
    }
    Fault::Network
}
