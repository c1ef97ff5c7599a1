// Where turns are made: a connection, and the desk over it.
use super::benches::{Bench, Had, Opening, called, closed, desk_over, stands};
use super::connections::{Failing, is_told};
use super::exchanges::{Exchange, lists};
use super::journals::started;
use super::replies::{Came, came_of, outcome};
use super::turns::{Turn, turn_of};
use plan_basics::OpKey;
use plan_records::Request;
use sqlite::{Alter, Connection};
use sqlite_trees::store::Reopen;
use std::alloc::Global;
use test_wires::{makes_first_night, tables_text};

/// The connection to a database where no desk is open over it, or else the desk.
#[derive(Drop)]
pub struct Place<S: Alter + Reopen + Drop> {
    conn: Option<Connection<S>>,
    desk: Option<Bench<S>>,
}

// What a desk makes of an operator's request.
fn asked<S: Alter + Drop>(bench: &mut Bench<S>, request: &Request, told: &str) -> Came {
    let reply = called(bench, request);
    outcome(&reply, told)
}

// Changes the tables by a text, or makes those of the first version, with a night.
fn changed<S: Alter>(conn: &mut Connection<S>, sql: Option<&str>) -> Came {
    let is_changed = match sql {
        Some(sql) => conn.execute_batch(sql).is_ok(),
        None => makes_first_night(conn),
    };
    came_if(is_changed)
}

// What comes of a turn that is made or isn't.
fn came_if(is_made: bool) -> Came {
    if is_made { Came::Done } else { Came::Otherwise }
}

// Whether an operation stands at a desk as a line says: its key, its mark and its status.
fn is_so<S: Alter + Drop>(bench: &Bench<S>, line: &str) -> bool {
    let Some((key, wanted)) = line.split_once(' ') else {
        return false;
    };
    let (mark, status) = wanted.split_once(' ').unwrap_or((wanted, ""));
    match OpKey::from_text(key.as_bytes()) {
        Some(key) => stands(bench, &key, mark, status),
        None => false,
    }
}

impl<S: Alter + Reopen + Drop> Place<S> {
    /// A connection without a desk.
    pub fn over(conn: Connection<S>) -> Place<S> {
        Place {
            conn: Some(conn),
            desk: None,
        }
    }

    /// The store below it, unless that is lost.
    pub fn into_store(self) -> Option<S> {
        let Place { conn, desk } = self;
        let left = match desk {
            Some(desk) => Some(closed(desk)),
            None => conn,
        };
        match left {
            Some(conn) => Some(conn.into_store()),
            None => None,
        }
    }

    // Keeps what a desk's making or opening gives.
    fn keep(&mut self, opening: Opening<S>) -> Came {
        match opening {
            Ok(desk) => {
                self.desk = Some(desk);
                Came::Done
            }
            Err((refusal, conn)) => {
                self.conn = conn;
                came_of(refusal)
            }
        }
    }

    // Makes or opens a desk over the connection.
    fn have(&mut self, alloc: Global, had: Had) -> Came {
        match self.conn.take() {
            Some(conn) => self.keep(desk_over(alloc, conn, had)),
            None => Came::Otherwise,
        }
    }

    // Changes the tables below no desk.
    fn change(&mut self, sql: Option<&str>) -> Came {
        match &mut self.conn {
            Some(conn) => changed(conn, sql),
            None => Came::Otherwise,
        }
    }

    // Closes the desk.
    fn close(&mut self) -> Came {
        match self.desk.take() {
            Some(desk) => {
                self.conn = Some(closed(desk));
                Came::Done
            }
            None => Came::Otherwise,
        }
    }

    // Asks the desk.
    fn ask(&mut self, request: &Request, told: &str) -> Came {
        match &mut self.desk {
            Some(desk) => asked(desk, request, told),
            None => Came::Otherwise,
        }
    }

    // Makes an exchange with the desk.
    fn send(&mut self, alloc: Global, exchange: &Exchange) -> Came {
        match &mut self.desk {
            Some(desk) => exchange.make(alloc, desk),
            None => Came::Otherwise,
        }
    }

    // Has a connection to the desk fail.
    fn fail(&mut self, alloc: Global, failing: Failing) -> Came {
        match &mut self.desk {
            Some(desk) => came_if(is_told(alloc, desk, failing)),
            None => Came::Otherwise,
        }
    }

    // Looks how an operation stands.
    fn check(&self, line: &str) -> Came {
        match &self.desk {
            Some(desk) => came_if(is_so(desk, line)),
            None => Came::Otherwise,
        }
    }

    /// Sends the start to the desk, whose journal's writer takes so many calls: whether it is started, and whether that is told.
    pub fn start(&mut self, alloc: Global, calls: u32) -> Option<(bool, bool)> {
        match &mut self.desk {
            Some(desk) => started(alloc, desk, calls),
            None => None,
        }
    }

    /// What comes of a turn.
    pub fn make(&mut self, alloc: Global, turn: &Turn<'_>) -> Came {
        match turn {
            Turn::Had(had) => self.have(alloc, *had),
            Turn::First => self.change(None),
            Turn::Sql(sql) => self.change(Some(sql)),
            Turn::Close => self.close(),
            Turn::Asked(request, told) => self.ask(request, told),
            Turn::Sent(exchange) => self.send(alloc, exchange),
            Turn::Failing(failing) => self.fail(alloc, *failing),
            Turn::Stands(line) => self.check(line),
        }
    }

    /// What comes of the turn of a line.
    pub fn make_line(&mut self, alloc: Global, line: &str) -> Came {
        match turn_of(alloc, line) {
            Some(turn) => self.make(alloc, &turn),
            None => Came::Otherwise,
        }
    }

    // What the tables below no desk hold.
    fn text(&mut self, alloc: Global) -> Option<Vec<u8>> {
        match &mut self.conn {
            Some(conn) => tables_text(alloc, conn).ok(),
            None => None,
        }
    }

    /// Closes the desk where one is open. Returns what the tables hold.
    pub fn tables(&mut self, alloc: Global) -> Option<Vec<u8>> {
        let _ = self.close();
        self.text(alloc)
    }

    /// What the tables hold: where a desk is open, it is closed meanwhile, and had so again.
    pub fn look(&mut self, alloc: Global, had: Had) -> Option<Vec<u8>> {
        if self.desk.is_none() {
            return self.text(alloc);
        }
        let text = self.tables(alloc);
        match self.have(alloc, had) {
            Came::Done => text,
            _ => None,
        }
    }

    // What the desk lists; nothing where none is open.
    fn lists(&mut self, alloc: Global) -> Option<Vec<u8>> {
        match &mut self.desk {
            Some(desk) => lists(alloc, desk),
            None => Some(Vec::new(alloc)),
        }
    }

    /// What a desk lists, and then, whether one is open or not, what the tables hold.
    pub fn shown(&mut self, alloc: Global) -> Option<Vec<u8>> {
        let mut text = self.lists(alloc)?;
        let tables = self.look(alloc, Had::Opened)?;
        match text.extend_from_slice(&tables) {
            Ok(()) => Some(text),
            Err(_) => None,
        }
    }

    /// Whether this is shown.
    pub fn shows(&mut self, alloc: Global, text: &[u8]) -> bool {
        match self.shown(alloc) {
            Some(shown) => shown.as_slice() == text,
            None => false,
        }
    }
}
