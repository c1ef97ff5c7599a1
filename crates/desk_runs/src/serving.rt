// `serve`: the desk of a database's file over HTTP, so many connections, one after another.
ghost use Rattle.std.specs.Prelude.{None};
ghost use Rattle.desk_serving.specs.tracker_http.specs.Exchange.{Ends};
ghost use Rattle.desk_serving.specs.tracker_http.specs.Continuing.{Continues};

use super::timed::TimedStream;
use clap::ArgMatches;
use command_answers::{Ending, Fault, WireFault, tell_no_desk};
use command_desks::{Database, Desk, close_desk, stored_desk};
use command_words::value_of;
use desk_serving::serve_one;
use plan_basics::Watched;
use sqlite::{Alter, Connection};
use std::io;
use std::io::Write;
use std::net::{Ipv4Addr, TcpListener, TcpStream};
use std::rt::HostRuntime;
use std::time::Instant;

/// Serves the one exchange of a connection, whose bytes no clause knows. A client that keeps it longer than its time is a
/// fault of the reader or the writer.
fn serve_connection<S: Alter + Drop>(
    rt: &HostRuntime,
    stream: &TcpStream,
    desk: &mut Desk<S>,
) -> Result<(), WireFault>
    ensures ends { Ends S.Store result None desk.old desk.new None None }
    ensures continues { Continues S.Store desk.old desk.new }
{
    let Ok(begun) = Instant::now(rt) else {
        return Err(WireFault::Reader);
    };
    serve_one(
        rt.alloc(),
        &mut Watched::new(TimedStream::new(rt, stream, begun)),
        &mut Watched::new(TimedStream::new(rt, stream, begun)),
        desk,
    )
}

/// Serves exactly `connections` connections of a listener, one after another, each with one exchange, which has ten seconds
/// in all. One that faults counts. The error is that of a connection that couldn't be had; what was served before stands.
#[tactic(auto, using(crate::proofs::Continuing::continues_on))]
pub fn serve_listener<S: Alter + Drop>(
    rt: &HostRuntime,
    listener: &TcpListener,
    desk: &mut Desk<S>,
    connections: u64,
) -> io::Result<()>
    ensures continues { Continues S.Store desk.old desk.new }
{
    for _ in 0..connections {
        let (stream, _) = listener.accept()?;
        // A connection that faults concerns its client alone, who learns of it by the reply that doesn't come.
        let _ = serve_connection(rt, &stream, desk);
    }
    Ok(())
}

/// The port of this machine itself that the words give, taken.
pub fn taken_port(rt: &HostRuntime, given: &ArgMatches) -> Result<TcpListener, Fault> {
    let port = given.get_one::<u16>("port").ok_or(Fault::Words)?;
    TcpListener::bind(rt, (Ipv4Addr::LOCALHOST, port)).map_err(|_| Fault::Network)
}

/// Tells that the port is taken, and serves so many connections.
fn serve_port<S: Alter + Drop, W: Write>(
    rt: &HostRuntime,
    listener: &TcpListener,
    connections: u64,
    desk: &mut Desk<S>,
    out: &mut Watched<W>,
) -> Result<(), Fault> {
    writeln!(out, "listening")?;
    out.flush()?;
    serve_listener(rt, listener, desk, connections).map_err(|_| Fault::Network)
}

/// Takes the port that the words give, tells so before the first connection, and serves so many connections.
fn listen<S: Alter + Drop, W: Write>(
    rt: &HostRuntime,
    given: &ArgMatches,
    desk: &mut Desk<S>,
    out: &mut Watched<W>,
) -> Result<(), Fault> {
    let connections = given.get_one::<u32>("requests").ok_or(Fault::Words)?;
    match taken_port(rt, given) {
        Ok(listener) => serve_port(rt, &listener, u64::from(connections), desk, out),
        Err(fault) => Err(fault),
    }
}

/// Serves the connections that the words give at a desk, and closes its database.
fn serve_and_close<S: Alter + Drop, W: Write>(
    rt: &HostRuntime,
    given: &ArgMatches,
    desk: Desk<S>,
    out: &mut Watched<W>,
) -> Result<Ending, Fault>
where
    Connection<S>: Database<S>,
{
    let mut desk = desk;
    let served = listen(rt, given, &mut desk, out);
    close_desk(desk)?;
    served?;
    Ok(Ending::Done)
}

/// `serve`: the database is opened before the port is taken. At its end it is closed, but where its store has failed:
/// then the files are let go as they are.
pub fn serve<S: Alter + Drop, W: Write>(
    rt: &HostRuntime,
    given: &ArgMatches,
    out: &mut Watched<W>,
) -> Result<Ending, Fault>
where
    Connection<S>: Database<S>,
{
    match stored_desk::<S>(rt, value_of(given, "db")) {
        Ok(desk) => serve_and_close(rt, given, desk, out),
        Err(none) => tell_no_desk(out, none),
    }
}
