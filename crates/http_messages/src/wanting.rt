// What a request wants, where it may look at something beside what it may ask for.
ghost use Rattle.std.specs.Prelude.{◌≡◌, ◌↔◌, Err, true, false, IfOk, IfSome, IsTrue, option_map, string_bytes};
ghost use Rattle.httparse.specs.Spans.{span_bytes};
ghost use Rattle.plan_basics.specs.Watched.{inner_of, failed_of};
ghost use Rattle.http_messages.specs.Heads.{request_at};
ghost use Rattle.http_messages.specs.Looks.{AnswersWanted, ComesToJudged, ComesToOther, ComesToOwn, ComesToWanted, IsJudging};

use crate::asking::{
    Asked, ExchangeFault, MOST_FIELDS, MOST_HEAD_BYTES, Rejection, answer_of, body_of,
};
use crate::fields::Head;
use crate::heads::read_head;
use crate::looks::{Look, look_of_line};
use crate::routes::path_of;
use crate::statuses::Method;
use httparse::spans::EMPTY_HEADER_SPAN;
use plan_basics::Watched;
use std::alloc::Global;
use std::io::Read;

/// What a request asks the desk for, and who makes it.
#[derive(Drop)]
pub struct Asking {
    /// What it asks for.
    pub asked: Asked,
    /// Who makes it: 1 to 64 letters, digits and `.`, `_`, `@`, `-`. None where what is sent doesn't say so; lists, which aren't
    /// sent, are asked by nobody.
    pub by: Option<String>,
}

/// What a request wants, its form being in order.
#[derive(Drop)]
pub enum Wanted {
    /// That the desk be asked.
    Asked(Asking),
    /// That something be shown, by which nothing changes.
    Look(Look),
}

/// Whether a request is to judge a text.
fn is_judging(head: &Head<'_>) -> bool
    ensures { IsTrue result ↔ IsJudging (span_bytes head.now.bytes.now head.now.spans.path) }
{
    path_of(head.target()) == "/validate".as_bytes()
}

/// What the request with this head comes to, which is to judge a text.
fn judged_wanted<R: Read>(
    alloc: Global,
    reader: &mut Watched<R>,
    head: &Head<'_>,
    most: usize,
) -> Result<Result<Wanted, Rejection>, ExchangeFault>
    requires fresh { failed_of reader.old ≡ false }
    ensures answer { IfOk result (λ answer. IfSome (R.remaining (inner_of reader.old)) (λ left.
        ComesToJudged most (request_at head.now.bytes.now head.now.headers.now head.now.spans left) answer)) }
    ensures reader_fault { (result ≡ Err ExchangeFault.Reader) ↔ (failed_of reader.new ≡ true) }
{
    if head.method() != Method::Post.as_str().as_bytes() {
        return Ok(Err(Rejection::OtherMethod(Method::Post)));
    }
    match body_of(alloc, reader, head, most)? {
        Ok(text) => Ok(Ok(Wanted::Look(Look::Judged(text)))),
        Err(test) => Ok(Err(test)),
    }
}

/// What the request with this head comes to, by this requester, which isn't to judge a text.
fn other_wanted<R: Read>(
    alloc: Global,
    reader: &mut Watched<R>,
    head: &Head<'_>,
    by: Option<String>,
    most: usize,
) -> Result<Result<Wanted, Rejection>, ExchangeFault>
    requires fresh { failed_of reader.old ≡ false }
    ensures answer { IfOk result (λ answer. IfSome (R.remaining (inner_of reader.old)) (λ left.
        ComesToOther most (request_at head.now.bytes.now head.now.headers.now head.now.spans left) (option_map string_bytes by) answer)) }
    ensures reader_fault { (result ≡ Err ExchangeFault.Reader) ↔ (failed_of reader.new ≡ true) }
{
    let looked = look_of_line(alloc, head.method(), head.target())?;
    match looked {
        Some(Ok(look)) => return Ok(Ok(Wanted::Look(look))),
        Some(Err(test)) => return Ok(Err(test)),
        None => {}
    }
    match answer_of(alloc, reader, head, most)? {
        Ok(asked) => Ok(Ok(Wanted::Asked(Asking { asked, by }))),
        Err(test) => Ok(Err(test)),
    }
}

/// What the request with this head comes to, by this requester.
fn own_wanted<R: Read>(
    alloc: Global,
    reader: &mut Watched<R>,
    head: &Head<'_>,
    by: Option<String>,
    most: usize,
) -> Result<Result<Wanted, Rejection>, ExchangeFault>
    requires fresh { failed_of reader.old ≡ false }
    ensures answer { IfOk result (λ answer. IfSome (R.remaining (inner_of reader.old)) (λ left.
        ComesToOwn most (request_at head.now.bytes.now head.now.headers.now head.now.spans left) (option_map string_bytes by) answer)) }
    ensures reader_fault { (result ≡ Err ExchangeFault.Reader) ↔ (failed_of reader.new ≡ true) }
{
    if is_judging(head) {
        judged_wanted(alloc, reader, head, most)
    } else {
        other_wanted(alloc, reader, head, by, most)
    }
}

/// What the request with this head comes to. Its fields are judged first: before its method and its path, and before anything
/// more is read.
fn wanted_of<R: Read>(
    alloc: Global,
    reader: &mut Watched<R>,
    head: &Head<'_>,
    most: usize,
) -> Result<Result<Wanted, Rejection>, ExchangeFault>
    requires fresh { failed_of reader.old ≡ false }
    ensures answer { IfOk result (λ answer. IfSome (R.remaining (inner_of reader.old)) (λ left.
        ComesToWanted most (request_at head.now.bytes.now head.now.headers.now head.now.spans left) answer)) }
    ensures reader_fault { (result ≡ Err ExchangeFault.Reader) ↔ (failed_of reader.new ≡ true) }
{
    if head.is_foreign() {
        return Ok(Err(Rejection::Foreign));
    }
    match head.requester(alloc)? {
        Ok(by) => own_wanted(alloc, reader, head, by, most),
        Err(test) => Ok(Err(test)),
    }
}

/// Reads one request: what it wants, or the first test of its form that it fails, in whatever pieces it comes. As
/// `read_exchange`, but that it may look at something too, that it is turned away where it is foreign, and that it may say who
/// makes it.
pub fn read_wanted<R: Read>(
    alloc: Global,
    reader: &mut Watched<R>,
    most: usize,
) -> Result<Result<Wanted, Rejection>, ExchangeFault>
    ensures answer { IfOk result (λ answer. IfSome (R.remaining (inner_of reader.old)) (λ input. AnswersWanted most input answer)) }
    ensures reader_fault { (result ≡ Err ExchangeFault.Reader) ↔ (failed_of reader.new ≡ true) }
{
    reader.clear();
    let mut buffer = [0; MOST_HEAD_BYTES];
    let mut headers = [EMPTY_HEADER_SPAN; MOST_FIELDS];
    let Some((spans, filled)) = read_head(reader, &mut buffer, &mut headers)? else {
        return Ok(Err(Rejection::NoHead));
    };
    let head = Head {
        bytes: &buffer[..filled],
        headers: &headers,
        spans,
    };
    wanted_of(alloc, reader, &head, most)
}
