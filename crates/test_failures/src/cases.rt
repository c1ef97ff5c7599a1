// What comes of one stop: what is found when a desk is opened again, and how the lines end that go on then.
use super::FAILED;
use super::benches::Had;
use super::deeds::{Deed, Played};
use super::disks::{Bytes, Left, Stop, done_on};
use super::replies::Came;
use std::alloc::Global;

/// Lines that are made over files, and what the tables hold before them, and after each, where nothing stops.
#[derive(Drop)]
pub struct Case<'a> {
    /// What stands in the files before.
    pub files: &'a Bytes,
    /// All lines.
    pub lines: &'a str,
    /// Those of them, from the beginning on, in which stops are looked for.
    pub stopped: &'a str,
    /// The first line in which stops count.
    pub first: usize,
    /// Whether each transaction first copies what the log holds into the database's file.
    pub copies: bool,
    pub texts: Vec<Vec<u8>>,
}

/// What comes of a stop.
#[derive(Clone, Copy)]
pub enum StopOutcome {
    /// What is stopped ended before it.
    NoStop,
    /// What is stopped hadn't begun.
    Earlier,
    /// The tables were as before the line that was stopped, or after it, and the lines went on to their end.
    Recovered,
    /// What goes otherwise.
    Otherwise(&'static str),
}

/// What the tables hold before lines that are made over files, and after each; the desk is had so after each.
pub fn texts_of(alloc: Global, files: &Bytes, lines: &str, had: Had) -> Option<Vec<Vec<u8>>> {
    match done_on(alloc, files, Stop::never(false), &Deed::Shown(lines, had)) {
        Some(left) if left.played.came == Came::Done => Some(left.played.texts),
        _ => None,
    }
}

/// What stands in files once lines are made over them.
pub fn bytes_after(alloc: Global, files: &Bytes, lines: &str, copies: bool) -> Option<Bytes> {
    match done_on(alloc, files, Stop::never(copies), &Deed::Made(lines)) {
        Some(left) if left.played.came == Came::Done => Some(left.bytes),
        _ => None,
    }
}

impl<'a> Case<'a> {
    /// The lines over these files, if they are answered as they say where nothing stops.
    pub fn over(
        alloc: Global,
        files: &'a Bytes,
        lines: &'a str,
        stopped: &'a str,
        first: usize,
        copies: bool,
    ) -> Option<Case<'a>> {
        match texts_of(alloc, files, lines, Had::Opened) {
            Some(texts) => Some(Case {
                files,
                lines,
                stopped,
                first,
                copies,
                texts,
            }),
            None => None,
        }
    }
}

impl Case<'_> {
    // Whether the tables hold this after so many lines.
    fn holds(&self, at: usize, text: &[u8]) -> bool {
        match self.texts.get(at) {
            Some(held) => held.as_slice() == text,
            None => false,
        }
    }

    // Whether this may be found after a stop: what the tables held before the line that was stopped, or hold after it. Where
    // nothing stopped, it is what they hold after the lines.
    fn may_be_found(&self, stopped: &Played, text: &[u8]) -> bool {
        self.holds(stopped.at, text)
            || stopped.came == Came::Store && self.holds(stopped.at.saturating_add(1), text)
    }

    // Whether what was found first after a stop may be found then.
    fn is_found(&self, stopped: &Played, again: &Played) -> bool {
        match again.texts.first() {
            Some(found) => self.may_be_found(stopped, found),
            None => false,
        }
    }

    /// Whether the last of these texts is what the tables hold in the end where nothing stops.
    pub fn ends_so(&self, texts: &[Vec<u8>]) -> bool {
        match (self.texts.last(), texts.last()) {
            (Some(last), Some(text)) => last.as_slice() == text.as_slice(),
            _ => false,
        }
    }

    /// Whether the last line changes the tables.
    pub fn changes(&self) -> bool {
        match self.texts.as_slice() {
            [.., before, after] => before.as_slice() != after.as_slice(),
            _ => false,
        }
    }

    // What comes of a stop, by what was made before it, and then.
    fn judged(&self, stopped: &Played, again: &Played) -> StopOutcome {
        if !self.is_found(stopped, again) {
            StopOutcome::Otherwise("a stop leaves other tables")
        } else if again.came != Came::Done {
            StopOutcome::Otherwise("a line after a stop is answered otherwise")
        } else if !self.ends_so(&again.texts) {
            StopOutcome::Otherwise("lines that go on after a stop end in other tables")
        } else if stopped.came == Came::Done {
            StopOutcome::NoStop
        } else {
            StopOutcome::Recovered
        }
    }

    // What comes of a stop that left this.
    fn recovered(&self, alloc: Global, left: &Left) -> StopOutcome {
        let deed = Deed::GoneOn(self.lines, left.played.at);
        match done_on(alloc, &left.bytes, Stop::never(false), &deed) {
            Some(again) => self.judged(&left.played, &again.played),
            None => StopOutcome::Otherwise("what a stop left can't be opened"),
        }
    }

    // What comes of it, where that isn't known by how far the lines came.
    fn outcome_of(&self, alloc: Global, left: &Left) -> StopOutcome {
        match left.played.came {
            Came::Store if left.played.at < self.first => StopOutcome::Earlier,
            Came::Store | Came::Done => self.recovered(alloc, left),
            _ => StopOutcome::Otherwise(
                "a line before a stop, or the desk after it, answers otherwise",
            ),
        }
    }

    /// How far the lines come where the files stop so.
    pub fn left_by(&self, alloc: Global, stop: Stop) -> Option<Left> {
        done_on(alloc, self.files, stop, &Deed::Made(self.stopped))
    }

    /// What comes of the lines where the files stop so.
    pub fn outcome(&self, alloc: Global, stop: Stop) -> StopOutcome {
        match self.left_by(alloc, stop) {
            Some(left) => self.outcome_of(alloc, &left),
            None => StopOutcome::Otherwise(FAILED),
        }
    }
}
