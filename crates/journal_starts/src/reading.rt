// What the lines of a journal tell of starts.
ghost use Rattle.std.specs.Prelude.{◌≡◌, ◌++◌, IfOk, OnOk};
ghost use Rattle.journal_starts.specs.Lines.{AreMentioned, IsLineRead, IsMentioned, accepts, asked_in as asked_by, listed};

use super::mentions::mention_asked;
use command_answers::first_line;
use plan_basics::{Moment, OpKey};
use std::alloc::{AllocError, Global};
use tracker_http::{Asked, Entry, read_entry};

// Whether a line accepts the request of the line before it.
fn accepts(entry: &Entry) -> bool
    ensures { result ≡ accepts entry.now }
{
    match entry {
        Entry::Answer(status) => *status == 200,
        _ => false,
    }
}

// What a line asks, if it is a request's.
fn asked_in(entry: Entry) -> Option<Asked>
    ensures { result ≡ asked_by entry }
{
    match entry {
        Entry::Report(body) => Some(Asked::Report(body)),
        Entry::Operator(body) => Some(Asked::Operator(body)),
        _ => None,
    }
}

// What a line tells, where the line before it asks this, if anything.
fn mention_at(
    alloc: Global,
    asked: &Option<Asked>,
    entry: &Entry,
    clock: Moment,
) -> Result<Option<(OpKey, Option<Moment>)>, AllocError>
    ensures { IfOk result (IsMentioned clock asked.now entry.now) }
{
    if accepts(entry) {
        mention_asked(alloc, asked, clock)
    } else {
        Ok(None)
    }
}

// Reads a line: what it tells, and what it asks.
fn read_line(
    alloc: Global,
    asked: &mut Option<Asked>,
    line: &[u8],
    clock: Moment,
) -> Result<Option<(OpKey, Option<Moment>)>, AllocError>
    ensures { IfOk result (IsLineRead clock asked.old line.now asked.new) }
{
    let entry = read_entry(alloc, line)?;
    let mention = mention_at(alloc, asked, &entry, clock)?;
    *asked = asked_in(entry);
    Ok(mention)
}

// Puts what a line tells, if anything, behind the others.
fn add(
    mentions: &mut Vec<(OpKey, Option<Moment>)>,
    mention: Option<(OpKey, Option<Moment>)>,
) -> Result<(), AllocError>
    ensures { OnOk result (mentions.new.items ≡ mentions.old.items ++ listed mention) }
{
    if let Some(mention) = mention {
        mentions.push(mention)?;
    }
    Ok(())
}

/// What the lines of a journal tell of starts, in their order, beside a plan of this clock: of each accepted request that is
/// about an operation, that and the minute of its start, where the request reports it. What is no line of a journal, as the
/// rest of one that was cut, is passed over. It fails for want of memory only.
pub fn mentions_in(
    alloc: Global,
    journal: &[u8],
    clock: Moment,
) -> Result<Vec<(OpKey, Option<Moment>)>, AllocError>
    ensures { IfOk result (λ mentions. AreMentioned clock journal.now mentions.items) }
{
    let mut mentions = Vec::new(alloc);
    let mut asked: Option<Asked> = None;
    let mut rest = journal;
    while let Some((line, after)) = first_line(rest) {
        let mention = read_line(alloc, &mut asked, line, clock)?;
        add(&mut mentions, mention)?;
        rest = after;
    }
    Ok(mentions)
}
