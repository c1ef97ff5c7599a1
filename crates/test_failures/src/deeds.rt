// What is done over a connection: lines of a script, at a desk that may fail in them.
use super::benches::Had;
use super::places::Place;
use super::replies::Came;
use sqlite::{Alter, Connection};
use sqlite_trees::store::Reopen;
use std::alloc::Global;
use test_wires::lacks_all;

/// What is done.
#[derive(Clone, Copy)]
pub enum Deed<'a> {
    /// The lines are made, up to one of which something else comes than it says. If the store of a desk fails in it, all that
    /// is asked then is to be answered that the desk is to be opened again: the line once more, those after it, and both
    /// lists.
    Made(&'a str),
    /// A desk is made where there is no table, else opened; the lines are made from this one on, of which the first one has or
    /// opens a desk in any case. What the tables hold is told before and after that.
    GoneOn(&'a str, usize),
    /// The lines are made. What the tables hold is told before them and after each; the desk is had so again then.
    Shown(&'a str, Had),
}

/// How many lines were made, of which the last came to this, and what was told of the tables.
#[derive(Drop)]
pub struct Played {
    pub at: usize,
    pub came: Came,
    pub texts: Vec<Vec<u8>>,
}

// Both lists; what is told here isn't what is replied.
const LISTS: &str = "GET /ready/SETP | 200 OK | []
GET /occurrences | 200 OK | []";

// Makes the lines from this one on while it comes to what they say: which one is next, and what came of it.
fn made<S: Alter + Reopen + Drop>(
    alloc: Global,
    place: &mut Place<S>,
    lines: &str,
    from: usize,
) -> (usize, Came) {
    let mut at = from;
    for line in lines.lines().skip(from) {
        match place.make_line(alloc, line) {
            Came::Done => at = at.saturating_add(1),
            came => return (at, came),
        }
    }
    (at, Came::Done)
}

// Whether each line from this one on is answered that the desk is to be opened again.
fn refuses<S: Alter + Reopen + Drop>(
    alloc: Global,
    place: &mut Place<S>,
    lines: &str,
    from: usize,
) -> bool {
    for line in lines.lines().skip(from) {
        if place.make_line(alloc, line) != Came::Reopen {
            return false;
        }
    }
    true
}

// Makes the lines. Where the store fails in the first one, there is no desk.
fn played_to_stop<S: Alter + Reopen + Drop>(
    alloc: Global,
    place: &mut Place<S>,
    lines: &str,
) -> (usize, Came) {
    let (at, came) = made(alloc, place, lines, 0);
    let is_failed = came == Came::Store && at > 0;
    if is_failed && !(refuses(alloc, place, lines, at) && refuses(alloc, place, LISTS, 0)) {
        return (at, Came::Otherwise);
    }
    (at, came)
}

// Makes the lines from this one on, of which the first was stopped: made again, what an operator asks may be refused.
fn made_again<S: Alter + Reopen + Drop>(
    alloc: Global,
    place: &mut Place<S>,
    lines: &str,
    from: usize,
) -> (usize, Came) {
    let (at, came) = made(alloc, place, lines, from);
    if came == Came::Refused && at == from {
        made(alloc, place, lines, from.saturating_add(1))
    } else {
        (at, came)
    }
}

// Goes on where the tables hold this.
fn gone_on<S: Alter + Reopen + Drop>(
    alloc: Global,
    place: &mut Place<S>,
    text: &[u8],
    lines: &str,
    from: usize,
) -> (usize, Came) {
    let first = if lacks_all(text) { "create" } else { "open" };
    match place.make_line(alloc, first) {
        Came::Done => made_again(alloc, place, lines, from.max(1)),
        came => (0, came),
    }
}

/// Adds what the tables hold; whether that is told.
pub fn add(texts: &mut Vec<Vec<u8>>, text: Option<Vec<u8>>) -> bool {
    match text {
        Some(text) => texts.push(text).is_ok(),
        None => false,
    }
}

// Goes on, and adds what the tables hold before and after that.
fn gone_on_between<S: Alter + Reopen + Drop>(
    alloc: Global,
    place: &mut Place<S>,
    texts: &mut Vec<Vec<u8>>,
    lines: &str,
    from: usize,
) -> (usize, Came) {
    let Some(text) = place.tables(alloc) else {
        return (0, Came::Otherwise);
    };
    let ended = gone_on(alloc, place, &text, lines, from);
    if add(texts, Some(text)) && add(texts, place.tables(alloc)) {
        ended
    } else {
        (0, Came::Otherwise)
    }
}

// Makes the lines, and adds what the tables hold before them and after each.
fn shown_each<S: Alter + Reopen + Drop>(
    alloc: Global,
    place: &mut Place<S>,
    texts: &mut Vec<Vec<u8>>,
    lines: &str,
    had: Had,
) -> (usize, Came) {
    if !add(texts, place.tables(alloc)) {
        return (0, Came::Otherwise);
    }
    let mut at = 0usize;
    for line in lines.lines() {
        match place.make_line(alloc, line) {
            Came::Done if add(texts, place.look(alloc, had)) => at = at.saturating_add(1),
            Came::Done => return (at, Came::Otherwise),
            came => return (at, came),
        }
    }
    (at, Came::Done)
}

// Does this at a place.
fn done_at<S: Alter + Reopen + Drop>(
    alloc: Global,
    place: &mut Place<S>,
    deed: &Deed<'_>,
) -> Played {
    let mut texts = Vec::new(alloc);
    let (at, came) = match *deed {
        Deed::Made(lines) => played_to_stop(alloc, place, lines),
        Deed::GoneOn(lines, from) => gone_on_between(alloc, place, &mut texts, lines, from),
        Deed::Shown(lines, had) => shown_each(alloc, place, &mut texts, lines, had),
    };
    Played { at, came, texts }
}

/// Does this over a connection. Its store comes back unless it is lost.
pub fn done<S: Alter + Reopen + Drop>(
    alloc: Global,
    conn: Connection<S>,
    deed: &Deed<'_>,
) -> (Option<S>, Played) {
    let mut place = Place::over(conn);
    let played = done_at(alloc, &mut place, deed);
    (place.into_store(), played)
}
