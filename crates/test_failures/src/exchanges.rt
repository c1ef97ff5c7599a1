// What is sent to a desk over HTTP, and what it replies.
use super::benches::{Bench, Journal, ServeFault, WireFault, served, served_for_good};
use super::replies::Came;
use plan_basics::Watched;
use sqlite::Alter;
use std::alloc::Global;
use std::io::Write;
use test_wires::{Pieces, get, is_written, post, reply};

// The reply that tells that memory lacks.
const WITHOUT_MEMORY: &str =
    "HTTP/1.1 503 Service Unavailable\r\nContent-Type: application/json\r\nContent-Length: 30\r\nConnection: close\r\n\r\n{\"name\":\"Memory\",\"refusal\":25}";

// The one that tells that the store failed.
const STORE: &str =
    "HTTP/1.1 503 Service Unavailable\r\nContent-Type: application/json\r\nContent-Length: 29\r\nConnection: close\r\n\r\n{\"name\":\"Store\",\"refusal\":26}";

// The one that tells that the desk is to be opened again.
const REOPEN: &str =
    "HTTP/1.1 503 Service Unavailable\r\nContent-Type: application/json\r\nContent-Length: 30\r\nConnection: close\r\n\r\n{\"name\":\"Reopen\",\"refusal\":27}";

// What is asked, as far as it changes what may come of it.
#[derive(Clone, Copy, PartialEq)]
enum Kind {
    Look,
    Report,
    Other,
}

// The kind of what is sent there.
fn kind_of(path: &str) -> Kind {
    match path {
        "LOOK" => Kind::Look,
        "/report" => Kind::Report,
        _ => Kind::Other,
    }
}

/// A request and its reply.
#[derive(Drop)]
pub struct Exchange {
    input: String,
    reply: String,
    kind: Kind,
}

// A whole reply that shows a text, of which `~` stands between lines.
fn shown(alloc: Global, lines: &str) -> Option<String> {
    let text = lines.replace(alloc, "~", "\n").ok()?;
    let length = text.len().saturating_add(1);
    format!(in alloc;
        "HTTP/1.1 200 OK\r\nContent-Type: text/plain; charset=utf-8\r\nContent-Length: {length}\r\nConnection: close\r\n\r\n{text}\n"
    ).ok()
}

impl Exchange {
    /// What is sent there, whose reply has this status and this body: GET asks for a list, and LOOK looks at a text.
    pub fn new(
        alloc: Global,
        path: &str,
        body: &str,
        status: &str,
        told: &str,
    ) -> Option<Exchange> {
        let input = match path {
            "GET" | "LOOK" => get(alloc, body)?,
            _ => post(alloc, path, body)?,
        };
        let kind = kind_of(path);
        let reply = match kind {
            Kind::Look => shown(alloc, told)?,
            _ => reply(alloc, status, "", told.len(), told)?,
        };
        Some(Exchange { input, reply, kind })
    }

    // Which answer is written. A look is shown its text, or none.
    fn told(&self, room: &[u8]) -> Came {
        if is_written(room, &self.reply) {
            Came::Done
        } else if self.kind == Kind::Look {
            Came::Otherwise
        } else if is_written(room, WITHOUT_MEMORY) {
            Came::WithoutMemory
        } else if is_written(room, STORE) {
            Came::Store
        } else if is_written(room, REOPEN) {
            Came::Reopen
        } else if self.kind == Kind::Other && room.starts_with(b"HTTP/1.1 409 Conflict\r\n") {
            Came::Refused
        } else {
            Came::Otherwise
        }
    }

    // What comes of it where it ends so, and this is written.
    fn outcome(&self, ended: Result<(), WireFault>, room: &[u8]) -> Came {
        match ended {
            Ok(()) => self.told(room),
            Err(WireFault::Memory) if is_written(room, "") => Came::WithoutMemory,
            Err(_) => Came::Otherwise,
        }
    }

    // Sends it to a desk, which is served for good where it is looked at; or why it is broken off.
    fn send<S: Alter + Drop, W: Write>(
        &self,
        alloc: Global,
        bench: &mut Bench<S>,
        writer: &mut Watched<W>,
    ) -> Result<(), WireFault> {
        let mut reader = Watched::new(Pieces::new(&self.input));
        match self.kind {
            Kind::Look => looked(alloc, bench, &mut reader, writer),
            _ => served(alloc, bench, &mut reader, writer),
        }
    }

    /// What comes of it at a desk. The writer takes no memory.
    pub fn make<S: Alter + Drop>(&self, alloc: Global, bench: &mut Bench<S>) -> Came {
        let mut room = [0; 512];
        let mut writer = Watched::new(&mut room[..]);
        let ended = self.send(alloc, bench, &mut writer);
        self.outcome(ended, &room)
    }
}

// Serves a look; or why it is broken off.
fn looked<S: Alter + Drop, W: Write>(
    alloc: Global,
    bench: &mut Bench<S>,
    reader: &mut Watched<Pieces<'_>>,
    writer: &mut Watched<W>,
) -> Result<(), WireFault> {
    match served_for_good(alloc, bench, reader, writer, &mut Journal::Absent) {
        Ok(()) => Ok(()),
        Err(ServeFault::Memory) => Err(WireFault::Memory),
        Err(ServeFault::Writer) => Err(WireFault::Writer),
        Err(_) => Err(WireFault::Reader),
    }
}

// Adds the reply to a request without a body.
fn add_list<S: Alter + Drop>(
    alloc: Global,
    bench: &mut Bench<S>,
    path: &str,
    writer: &mut Watched<Vec<u8>>,
) -> Option<()> {
    let input = get(alloc, path)?;
    served(alloc, bench, &mut Watched::new(Pieces::new(&input)), writer).ok()
}

/// What a desk lists: its occurrences, and what is ready at each workstation.
pub fn lists<S: Alter + Drop>(alloc: Global, bench: &mut Bench<S>) -> Option<Vec<u8>> {
    let mut writer = Watched::new(Vec::new(alloc));
    for path in [
        "/occurrences",
        "/ready/CPU1",
        "/ready/SETP",
        "/ready/PRT1",
        "/ready/DUMM",
    ] {
        add_list(alloc, bench, path, &mut writer)?;
    }
    Some(writer.into_inner())
}
