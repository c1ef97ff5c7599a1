// What the query of the board's path asks for.
ghost use Rattle.std.specs.Prelude.{◌≡◌, ◌↔◌, IfOk, IsTrue};
ghost use Rattle.http_messages.specs.Queries.{IsBoardQuery, IsUntil, IsUntilIn, IsStillIn, query_of};

use crate::bytes::{after, before, rest_after, unescaped};
use plan_basics::Moment;
use std::alloc::{AllocError, Global};

/// Up to when the board is to tell.
#[derive(Clone, Copy)]
pub enum Until {
    /// As long as anything is due or may begin.
    End,
    /// Up to this moment.
    Moment(Moment),
    /// Up to what is no moment.
    NoMoment,
}

/// What the query of the board's path asks for.
#[derive(Clone, Copy)]
pub struct BoardQuery {
    /// A page that the browser doesn't load again by itself.
    pub is_still: bool,
    pub until: Until,
}

/// What a target has after its first question mark.
pub(crate) fn query_of(target: &[u8]) -> &[u8]
    ensures { result.now ≡ query_of target.now }
{
    after(target, b'?')
}

// Whether a query asks for a page that isn't loaded again.
fn is_still(query: &[u8]) -> bool
    ensures { IsTrue result ↔ IsStillIn query.now }
{
    before(query, b'&') == "still".as_bytes() || after(query, b'&') == "still".as_bytes()
}

// Up to when a part of a query asks to tell.
fn until_of(alloc: Global, part: &[u8]) -> Result<Until, AllocError>
    ensures { IfOk result (IsUntil part.now) }
{
    let Some(rest) = rest_after(part, b"until=") else {
        return Ok(Until::End);
    };
    let text = unescaped(alloc, rest)?;
    match Moment::from_text(&text) {
        Some(moment) => Ok(Until::Moment(moment)),
        None => Ok(Until::NoMoment),
    }
}

// Up to when a query asks to tell.
fn until_in(alloc: Global, query: &[u8]) -> Result<Until, AllocError>
    ensures { IfOk result (IsUntilIn query.now) }
{
    match until_of(alloc, before(query, b'&'))? {
        Until::End => until_of(alloc, after(query, b'&')),
        until => Ok(until),
    }
}

/// What a query asks of the board.
pub(crate) fn board_query(alloc: Global, query: &[u8]) -> Result<BoardQuery, AllocError>
    ensures { IfOk result (IsBoardQuery query.now) }
{
    Ok(BoardQuery {
        is_still: is_still(query),
        until: until_in(alloc, query)?,
    })
}
